//! How MIN and MAX of a group are told from the arguments that are kept of it, as contracts of functions that do nothing.
ghost use Rattle.std.specs.Prelude.{◌≡◌, ℕ, pos};
ghost use Rattle.sq_algebra.specs.Groups.{IsAdditive, z_sets};
ghost use Rattle.sq_algebra.specs.Operators.{IsNonNegative};
ghost use Rattle.sq_algebra.specs.ZSet.{ZSet, zero};
ghost use Rattle.sq_expr.specs.declared.expr.Func.TheVariants.{Max, Min};
ghost use Rattle.sq_ops.specs.Aggregates.{call_value};
ghost use Rattle.sq_ops.specs.Arguments.{IsGreatest, IsKeptNowhere, IsLeast, argument_weight, arguments, arguments_of_group};
ghost use Rattle.sq_ops.specs.Rows.{Row};
ghost use Rattle.sq_ops.specs.declared.aggregate.AggSpec.{AggSpec as Aggregating};
ghost use Rattle.sq_value.specs.declared.value.Value.{Value as Datum};
ghost use Rattle.sq_value.specs.declared.value.Value.TheVariants.{Null};
ghost use Rattle.sq_value.specs.Order.{row_cmp};

/// If no row of a group has a weight below 0, MIN is the least of the arguments that are kept with a weight above 0, MAX
/// the greatest, and both are NULL if none is kept. So a change of the kept weights is all that they need.
pub fn extremes_are_told_by_arguments()
    ensures least { (column : ℕ) (z : ZSet Row row_cmp) (x : Datum) → IsNonNegative z → IsLeast (argument_weight column z) x → call_value Min column z ≡ x }
    ensures greatest { (column : ℕ) (z : ZSet Row row_cmp) (x : Datum) → IsNonNegative z → IsGreatest (argument_weight column z) x → call_value Max column z ≡ x }
    ensures none { (column : ℕ) (z : ZSet Row row_cmp) → IsNonNegative z → IsKeptNowhere (argument_weight column z) → (call_value Min column z ≡ Null) × (call_value Max column z ≡ Null) }
{}

/// The arguments of a sum of Z-sets are the sum of theirs, so also within each group; those of no rows are none; NULL is
/// never kept; and no weight of an argument is below 0 if no weight of a row is.
pub fn arguments_add_up()
    ensures sums { (column : ℕ) → IsAdditive (z_sets row_cmp) (z_sets row_cmp) (arguments column) }
    ensures groups { (spec : Aggregating) (column : ℕ) (c : Row) → IsAdditive (z_sets row_cmp) (z_sets row_cmp) (arguments_of_group spec column c) }
    ensures none { (column : ℕ) → arguments column (zero row_cmp) ≡ zero row_cmp }
    ensures nulls { (column : ℕ) (z : ZSet Row row_cmp) → argument_weight column z Null ≡ pos 0 }
    ensures above { (column : ℕ) (z : ZSet Row row_cmp) → IsNonNegative z → IsNonNegative (arguments column z) }
{}
