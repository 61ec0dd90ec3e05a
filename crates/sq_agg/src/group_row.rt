//! The row that is shown of a group, before and after a change of its rows.
ghost use Rattle.std.specs.Prelude.{◌≡◌, ◌++◌, ◌+◌, ◌≤◌, ◌^◌, ℤ, List, Option, length, None, Some, IfOk, OnOk};
ghost use Rattle.sq_agg.specs.Shifts.{FirstSum, ShowsRow, is_hidden, shown_row};
ghost use Rattle.sq_agg.specs.Stepping.{OnGroup, calls_cost};
ghost use Rattle.sq_algebra.specs.ZSet.{entries, weight};
ghost use Rattle.sq_expr.specs.Bigint.{first_not_bigint};
ghost use Rattle.sq_ops.specs.Aggregates.{sums_of};
ghost use Rattle.sq_ops.specs.Wholes.{has_no_values};
ghost use Rattle.sq_value.specs.declared.value.Value.{Value as Datum};
ghost use Rattle.sq_zset.specs.Collecting.{mass_of};

use crate::Acc;
use crate::argument::copy_values;
use crate::value::values_after;
use sq_base::Steps;
use sq_ops::{AggSpec, OpFault, WholeFault};
use sq_trace::Trace;
use sq_value::{NoMemory, Row, Value};
use sq_zset::ZSet;
use std::alloc::Global;

/// The row that the trace shows of the group, if there is one.
pub fn row_before<L>(
    alloc: Global,
    key: &Row,
    shown: &Trace<i64>,
    steps: &mut Steps<L>,
) -> Result<Option<Row>, NoMemory>
    ensures ok { IfOk result (λ row. (r : Option (List Datum)) → ShowsRow shown.now key.now r → row ≡ r) }
    ensures count { steps.new.count ≤ steps.old.count + 1 }
    ensures ledger { steps.new.ledger ≡ steps.old.ledger }
{
    let unchanged = ZSet::empty(alloc);
    let row = shown.least_of(alloc, key, &unchanged, steps)?;
    Ok(row)
}

/// The row that is shown of the group after a change; or `Sum` if a SUM of the group lies outside the range of BIGINT, with
/// the first such sum. `acc` is the accumulator of its rows, and `changed` is the changed rows of the group.
pub fn row_after<L>(
    alloc: Global,
    spec: &AggSpec,
    key: &Row,
    acc: &Acc,
    ordered: &Trace<i64>,
    changed: &ZSet,
    steps: &mut Steps<L>,
) -> Result<Option<Row>, WholeFault>
    requires few { mass_of (entries changed.now) ≤ 2 ^ 62 }
    ensures ok { IfOk result (λ row. OnGroup spec.now ordered.now key.now changed.now acc.now (λ z. row ≡ shown_row spec.now.global spec.now.calls key.now z)) }
    ensures all_sums { OnOk result (OnGroup spec.now ordered.now key.now changed.now acc.now (λ z. first_not_bigint (sums_of spec.now.calls z) ≡ None)) }
    ensures outside { (group : List Datum) (sum : ℤ) → result ≡ Err (WholeFault.Sum group sum) → (group ≡ key.now) × OnGroup spec.now ordered.now key.now changed.now acc.now (λ z. FirstSum spec.now.calls z sum) }
    ensures count { steps.new.count ≤ steps.old.count + calls_cost (length spec.now.calls) (length (entries changed.now)) }
    ensures ledger { steps.new.ledger ≡ steps.old.ledger }
{
    if is_hidden(spec.global, key, acc) {
        return Ok(None);
    }
    match values_after(alloc, spec, key, acc, ordered, changed, steps) {
        Ok(values) => Ok(Some(keyed_row(alloc, key, values)?)),
        Err(OpFault::Value { value }) => Err(WholeFault::Sum {
            key: key.clone_row(alloc)?,
            sum: value,
        }),
        Err(OpFault::Memory) => Err(WholeFault::Memory),
    }
}

// Whether a group with this accumulator shows no row.
fn is_hidden(stands: bool, key: &Row, acc: &Acc) -> bool
    ensures { result ≡ is_hidden stands key.now (weight 0 acc.now) }
{
    acc.rows() == 0 && !(stands && is_without_values(key))
}

fn is_without_values(row: &Row) -> bool
    ensures { result ≡ has_no_values row.now }
{
    row.len() == 0
}

// The key with the values behind it.
fn keyed_row(alloc: Global, key: &Row, mut values: Vec<Value>) -> Result<Row, NoMemory>
    ensures { IfOk result (λ row. row ≡ key.now ++ values.items) }
{
    let mut all = copy_values(alloc, key)?;
    all.append(&mut values)?;
    Ok(Row::of(all))
}
