//! What a Z-set has too, and what it has alone, beside the distinct rows of another: no weight is below 0, and no rows are more than its own.
ghost use Rattle.std.specs.Prelude.{◌≡◌, ℕ, List, length, not, pos, int_lt};
ghost use Rattle.std.specs.List.{All};
ghost use Rattle.sq_algebra.specs.Operators.{IsNonNegative, distinct, keep};
ghost use Rattle.sq_algebra.specs.ZSet.{entries, minus, weight};
ghost use Rattle.sq_ast.specs.declared.query.SetOp.TheVariants.{Except};
ghost use Rattle.sq_expr.specs.Kinds.{AreOfKinds};
ghost use Rattle.sq_expr.specs.declared.expr.Kind.{Kind as ColumnKind};
ghost use Rattle.sq_circuit.specs.Nodes.{paired};
ghost use Rattle.sq_bridge.specs.Joins.{first_columns, same_rows, unpaired};
ghost use Rattle.sq_bridge.specs.Parts.{IsNoMoreThan, IsOfWidth};
ghost use Rattle.sq_bridge.specs.Queries.{both_of, set_result};
ghost use Rattle.sq_bridge.specs.Rows.{Rows, projected};

/// Rows of some kinds have as many columns as there are kinds.
#[tactic(auto, using(crate::proofs::Parts::kinds_are_wide))]
pub fn rows_of_kinds_have_a_width()
    ensures { (kinds : List ColumnKind) (z : Rows) → All (λ e. AreOfKinds e.0 kinds) (entries z) → IsOfWidth (length kinds) z }
{}

/// The pairs by all columns with the distinct rows of another Z-set are the rows that have a weight above 0 there, and a difference leaves
/// the others.
#[tactic(auto, using(crate::proofs::Parts::found_is, crate::proofs::Parts::rest_is))]
pub fn rows_are_found_or_left()
    ensures found { (w : ℕ) (y z : Rows) → IsOfWidth w y → IsOfWidth w z → paired (same_rows w) y (distinct z) ≡ keep (λ row. int_lt (pos 0) (weight row z)) y }
    ensures left { (w : ℕ) (y z : Rows) → IsOfWidth w y → IsOfWidth w z
        → minus y (paired (same_rows w) y (distinct z)) ≡ keep (λ row. not (int_lt (pos 0) (weight row z))) y }
{}

/// If the Z-set has no weight below 0, neither have the rows that are found and those that are left, and they are no more than its own.
pub fn rows_found_or_left_are_a_part()
    ensures found { (w : ℕ) (y z : Rows) → IsOfWidth w y → IsOfWidth w z → IsNonNegative y → IsNoMoreThan (paired (same_rows w) y (distinct z)) y }
    ensures left { (w : ℕ) (y z : Rows) → IsOfWidth w y → IsOfWidth w z → IsNonNegative y → IsNoMoreThan (minus y (paired (same_rows w) y (distinct z))) y }
{}

/// INTERSECT and EXCEPT of any Z-sets are no more than the rows on the left, each once.
pub fn set_operations_give_a_part()
    ensures intersection { (w : ℕ) (y z : Rows) → IsOfWidth w y → IsOfWidth w z → IsNoMoreThan (both_of w y z) (distinct y) }
    ensures difference { (w : ℕ) (y z : Rows) → IsOfWidth w y → IsOfWidth w z → IsNoMoreThan (set_result Except w y z) (distinct y) }
{}

/// What a left join pads are the rows that no pair begins with; and both these and the others are no more than its left side, whatever the
/// pairs are.
pub fn rows_without_a_pair_are_a_part()
    ensures rows { (w : ℕ) (y pairs : Rows) → IsOfWidth w y → unpaired w y pairs ≡ keep (λ row. not (int_lt (pos 0) (weight row (projected (first_columns w) pairs)))) y }
    ensures part { (w : ℕ) (y pairs : Rows) → IsOfWidth w y → IsNonNegative y → IsNoMoreThan (unpaired w y pairs) y }
    ensures front { (w : ℕ) (y pairs : Rows) → IsOfWidth w y → IsNonNegative y
        → IsNoMoreThan (paired (same_rows w) y (distinct (projected (first_columns w) pairs))) y }
{}
