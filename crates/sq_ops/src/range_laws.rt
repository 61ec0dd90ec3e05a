//! Numbers outside the range of BIGINT, as contracts of functions that do nothing.
ghost use Rattle.std.specs.Prelude.{◌≡◌, ◌↔◌, ℤ, List, None, is_some};
ghost use Rattle.std.specs.List.{All, flat_map};
ghost use Rattle.sq_algebra.specs.ZSet.{ZSet, of_list};
ghost use Rattle.sq_expr.specs.Bigint.{first_not_bigint};
ghost use Rattle.sq_ops.specs.Aggregates.{first_sum_outside, groups_of, rows_of_group, sums_of};
ghost use Rattle.sq_ops.specs.Extensions.{first_value_outside};
ghost use Rattle.sq_ops.specs.Lists.{sums_of_groups};
ghost use Rattle.sq_ops.specs.Rows.{Row};
ghost use Rattle.sq_ops.specs.declared.aggregate.AggSpec.{AggSpec as Aggregating};
ghost use Rattle.sq_value.specs.Order.{row_cmp};

/// Some number of the rows of a list is outside exactly if one of the rows of its Z-set is; and some SUM of the groups of a
/// list exactly if one of the keys of its Z-set is.
#[tactic(auto, using(crate::proofs::Outside::values_outside, crate::proofs::Outside::sums_outside))]
pub fn lists_tell_what_is_outside()
    ensures values { (tested : Row → List ℤ) (rows : List Row) → is_some (first_value_outside tested (of_list row_cmp rows)) ≡ is_some (first_not_bigint (flat_map tested rows)) }
    ensures sums { (spec : Aggregating) (rows : List Row) → is_some (first_sum_outside spec (of_list row_cmp rows)) ≡ is_some (first_not_bigint (sums_of_groups spec rows)) }
{}

/// No SUM is outside exactly if none is of the rows of any key.
pub fn sums_of_each_key()
    ensures { (spec : Aggregating) (z : ZSet Row row_cmp) → (first_sum_outside spec z ≡ None) ↔ All (λ c. first_not_bigint (sums_of spec.calls (rows_of_group spec z c)) ≡ None) (groups_of spec z) }
{}
