//! What holds of accumulators, each as the contract of a function that does nothing.
ghost use Rattle.std.specs.Prelude.{◌≡◌, ℕ, List, slice_get, Some};
ghost use Rattle.std.specs.Ordering.{nat_cmp};
ghost use Rattle.sq_agg.specs.Accumulators.{accumulated, call_count, call_sum, count_place, sum_place};
ghost use Rattle.sq_algebra.specs.Groups.{IsAdditive, sum_over, z_sets};
ghost use Rattle.sq_algebra.specs.ZSet.{ZSet, entries, total, weight, zero};
ghost use Rattle.sq_algebra.specs.ZSet.{plus};
ghost use Rattle.sq_expr.specs.Meaning.{column_of};
ghost use Rattle.sq_expr.specs.declared.expr.Func.TheVariants.{Max, Min};
ghost use Rattle.sq_ops.specs.declared.aggregate.AggSpec.{AggSpec as Aggregating};
ghost use Rattle.sq_agg.specs.Kept.{CallAfter, HoldsAccumulators, KeptAccumulators, Row, Rows, group_accumulator, kept_accumulator, value_after, weights_after};
ghost use Rattle.sq_trace.specs.Extremes.{IsGreatest, IsKeptNowhere, IsLeast};
ghost use Rattle.sq_ops.specs.Measures.{weighted};
ghost use Rattle.sq_ops.specs.declared.aggregate.Call.{Call as Calling};
ghost use Rattle.sq_value.specs.declared.value.Value.{Value as Datum};
ghost use Rattle.sq_value.specs.declared.value.Value.TheVariants.{Null};
ghost use Rattle.sq_value.specs.Order.{row_cmp};

use crate::Acc;

/// The accumulator of the rows of two Z-sets is the sum of theirs, that of no rows is zero, and that of any is the sum of
/// those of its rows, each with its weight.
pub fn accumulators_add_up()
    ensures sums { (calls : List Calling) → IsAdditive (z_sets row_cmp) (z_sets nat_cmp) (accumulated calls) }
    ensures none { (calls : List Calling) → accumulated calls (zero row_cmp) ≡ zero nat_cmp }
    ensures rows { (calls : List Calling) (z : ZSet (List Datum) row_cmp) → accumulated calls z ≡ sum_over (z_sets nat_cmp) (λ e. accumulated calls (weighted e.0 e.1)) (entries z) }
{}

/// In the accumulator of the rows of a group stand how many there are, and the count and the sum of each call.
pub fn accumulators_hold_their_numbers()
    ensures rows { (calls : List Calling) (z : ZSet (List Datum) row_cmp) → weight 0 (accumulated calls z) ≡ total z }
    ensures counts { (calls : List Calling) (z : ZSet (List Datum) row_cmp) (i : ℕ) (call : Calling) → slice_get calls i ≡ Some call → weight (count_place i) (accumulated calls z) ≡ call_count call.func call.arg z }
    ensures sums { (calls : List Calling) (z : ZSet (List Datum) row_cmp) (i : ℕ) (call : Calling) → slice_get calls i ≡ Some call → weight (sum_place i) (accumulated calls z) ≡ call_sum call.func call.arg z }
{}

/// If a trace holds the arguments of MIN and MAX of the old rows, and a change leaves no weight below 0, then the value of the call
/// over a group after the change is the one value of the first or the last kept row whose weight after the change is above 0, and
/// NULL if there is no such row.
pub fn kept_arguments_tell_extremes()
    ensures least { (a : CallAfter Min) (row : Row) → IsLeast (weights_after a) row → value_after a ≡ column_of row 0 }
    ensures greatest { (a : CallAfter Max) (row : Row) → IsGreatest (weights_after a) row → value_after a ≡ column_of row 0 }
    ensures no_least { (a : CallAfter Min) → IsKeptNowhere (weights_after a) → value_after a ≡ Null }
    ensures no_greatest { (a : CallAfter Max) → IsKeptNowhere (weights_after a) → value_after a ≡ Null }
{}

/// If a trace holds the accumulators of the old rows, then that of a group after a change is what the trace holds under the group,
/// and the accumulator of the changed rows of the group.
pub fn kept_accumulators_follow_changes()
    ensures { (spec : Aggregating) (parts : KeptAccumulators) (z d : Rows) (c : Row) → HoldsAccumulators spec parts z
        → plus (kept_accumulator parts c) (group_accumulator spec d c) ≡ group_accumulator spec (plus z d) c }
{}

fn is_send_and_sync<T: Send + Sync>() {}

// The accumulators may be handed to another thread, and be shared.
fn data_crosses_threads() {
    is_send_and_sync::<Acc>();
}
