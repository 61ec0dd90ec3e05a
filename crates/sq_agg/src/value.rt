//! The values of the calls over a group, after a change of its rows.
ghost use Rattle.std.specs.Prelude.{◌≡◌, ◌∷◌, [], ◌+◌, ◌≤◌, ◌<◌, ◌^◌, ℤ, length, map, None, Some, IfErr, IfOk, OnOk};
ghost use Rattle.sq_agg.specs.Accumulators.{count_place, sum_place};
ghost use Rattle.sq_agg.specs.Stepping.{IsCallValue, OnGroup, call_cost, calls_cost, kept_sum, sum_value};
ghost use Rattle.sq_algebra.specs.ZSet.{entries, weight};
ghost use Rattle.sq_expr.specs.Bigint.{first_not_bigint};
ghost use Rattle.sq_ops.specs.Aggregates.{call_value, sums_of};
ghost use Rattle.sq_zset.specs.Collecting.{mass_of};

use crate::Acc;
use crate::argument::{greatest_after, least_after};
use sq_base::Steps;
use sq_expr::{Func, OutOfRange, to_i64};
use sq_ops::{AggSpec, Call, OpFault};
use sq_trace::Trace;
use sq_value::{Row, Value};
use sq_zset::ZSet;
use std::alloc::Global;

/// The values of the calls over the rows of the group after a change, in their order; or the first SUM outside the range of
/// BIGINT. `acc` is the accumulator of these rows, and `changed` is the changed rows of the group.
pub fn values_after<L>(
    alloc: Global,
    spec: &AggSpec,
    key: &Row,
    acc: &Acc,
    ordered: &Trace<i64>,
    changed: &ZSet,
    steps: &mut Steps<L>,
) -> Result<Vec<Value>, OpFault>
    requires few { mass_of (entries changed.now) ≤ 2 ^ 62 }
    ensures ok { IfOk result (λ values. OnGroup spec.now ordered.now key.now changed.now acc.now (λ z. values.items ≡ map (λ call. call_value call.func call.arg z) spec.now.calls)) }
    ensures in_range { OnOk result (OnGroup spec.now ordered.now key.now changed.now acc.now (λ z. first_not_bigint (sums_of spec.now.calls z) ≡ None)) }
    ensures outside { (sum : ℤ) → result ≡ Err (OpFault.Value sum) → OnGroup spec.now ordered.now key.now changed.now acc.now (λ z. first_not_bigint (sums_of spec.now.calls z) ≡ Some sum) }
    ensures count { steps.new.count ≤ steps.old.count + calls_cost (length spec.now.calls) (length (entries changed.now)) }
    ensures ledger { steps.new.ledger ≡ steps.old.ledger }
{
    let mut values = Vec::new(alloc);
    for i in 0..spec.calls.as_slice().len() {
        let call = spec.calls.as_slice()[i];
        let value = value_of_call(alloc, call, i, key, acc, ordered, changed, steps)?;
        values.push(value)?;
    }
    Ok(values)
}

// The value of the call with this number, or its SUM if that is outside the range of BIGINT.
fn value_of_call<L>(
    alloc: Global,
    call: Call,
    number: usize,
    key: &Row,
    acc: &Acc,
    ordered: &Trace<i64>,
    changed: &ZSet,
    steps: &mut Steps<L>,
) -> Result<Value, OpFault>
    requires few { mass_of (entries changed.now) ≤ 2 ^ 62 }
    requires numbered { number < 2 ^ 63 }
    ensures ok { IfOk result (IsCallValue call.func number call.arg key.now acc.now ordered.now changed.now) }
    ensures in_range { OnOk result (first_not_bigint (kept_sum call.func number acc.now) ≡ None) }
    ensures outside { (sum : ℤ) → result ≡ Err (OpFault.Value sum) → first_not_bigint (kept_sum call.func number acc.now) ≡ Some sum }
    ensures count { steps.new.count ≤ steps.old.count + call_cost (length (entries changed.now)) }
    ensures ledger { steps.new.ledger ≡ steps.old.ledger }
{
    match call.func {
        Func::CountAll => Ok(Value::Int(acc.rows())),
        Func::Count => Ok(Value::Int(acc.count(number))),
        Func::Sum => Ok(sum_after(acc, number)?),
        Func::Min => Ok(least_after(alloc, key, number, call.arg, ordered, changed, steps)?),
        Func::Max => Ok(greatest_after(alloc, key, number, call.arg, ordered, changed, steps)?),
    }
}

// The SUM of a call, NULL if it took no value; or the sum, if it lies outside the range of BIGINT.
fn sum_after(acc: &Acc, call: usize) -> Result<Value, OutOfRange>
    ensures ok { IfOk result (λ value. value ≡ sum_value (weight (count_place call) acc.now) (weight (sum_place call) acc.now)) }
    ensures in_range { OnOk result (first_not_bigint (weight (sum_place call) acc.now ∷ []) ≡ None) }
    ensures outside { IfErr result (λ outside. first_not_bigint (weight (sum_place call) acc.now ∷ []) ≡ Some outside.value) }
{
    let sum = acc.sum(call);
    match to_i64(sum) {
        Err(outside) => Err(outside),
        Ok(number) => if acc.count(call) == 0 {
            Ok(Value::Null)
        } else {
            Ok(Value::Int(number))
        },
    }
}
