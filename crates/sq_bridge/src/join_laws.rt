//! Joins of lists of rows as operators over Z-sets.
ghost use Rattle.std.specs.Prelude.{◌≡◌, ◌↔◌, ℕ, List, [], ◌∷◌, Some};
ghost use Rattle.std.specs.List.{filter};
ghost use Rattle.sq_algebra.specs.Operators.{meet};
ghost use Rattle.sq_expr.specs.declared.cond.Cond.{Cond as Condition};
ghost use Rattle.sq_typed.specs.From.{Row, inner, outer};
ghost use Rattle.sq_typed.specs.Laws.{AreOfWidth};
ghost use Rattle.sq_circuit.specs.Nodes.{paired};
ghost use Rattle.sq_bridge.specs.Joins.{IsKeyOf, has_no_pair, joined_on, key_of, left_joined, same_rows, unpaired_on};
ghost use Rattle.sq_bridge.specs.Rows.{kept_on_all, listed};

/// The pairs of two lists on which some conditions are True, as a `Pairing` by the keys among the conditions.
#[tactic(auto, using(crate::proofs::Joining::pairs_on))]
pub fn pairs_are_found_by_keys()
    ensures { (w v : ℕ) (conds : List Condition) (rows others : List Row) → AreOfWidth w rows → AreOfWidth v others
        → paired (joined_on w v conds) (listed rows) (listed others) ≡ listed (inner conds others rows) }
{}

/// The keys among conditions are those that are an equality of two plain columns, one of the left row and one of the right, in either order.
pub fn keys_are_equalities()
    ensures { (w : ℕ) (c : Condition) (key : ℕ × ℕ) → (key_of w c ≡ Some key) ↔ IsKeyOf w key c }
{}

/// The first source of a block is kept where its conditions are True, and joined with nothing.
#[tactic(auto, using(crate::proofs::Joining::first_kept))]
pub fn the_first_source_is_kept()
    ensures { (conds : List Condition) (rows : List Row) → kept_on_all conds (listed rows) ≡ listed (inner conds rows ([] ∷ [])) }
{}

/// Pairing by all columns, in which a NULL is the same as a NULL, keeps what another Z-set has too, if all rows have so many columns.
#[tactic(auto, using(crate::proofs::LeftJoining::same_on))]
pub fn same_rows_are_those_of_both()
    ensures { (w : ℕ) (rows others : List Row) → AreOfWidth w rows → AreOfWidth w others → paired (same_rows w) (listed rows) (listed others) ≡ meet (listed rows) (listed others) }
{}

/// A left join is its pairs and the padded rows that have none: all rows without those that stand in front of a pair.
#[tactic(auto, using(crate::proofs::LeftJoining::left_on))]
pub fn left_joins_are_pairs_and_the_rest()
    ensures { (w v : ℕ) (conds : List Condition) (rows others : List Row) → AreOfWidth w rows → AreOfWidth v others
        → left_joined w v conds (listed rows) (listed others) ≡ listed (outer v conds others rows) }
{}

/// What a left join pads are the rows of its left side that have no pair, each as often as it stands there.
#[tactic(auto, using(crate::proofs::LeftJoining::unpaired_on))]
pub fn rows_without_a_pair_are_left()
    ensures { (w v : ℕ) (conds : List Condition) (rows others : List Row) → AreOfWidth w rows → AreOfWidth v others
        → unpaired_on w v conds (listed rows) (listed others) ≡ listed (filter (has_no_pair conds others) rows) }
{}
