//! The least and the greatest argument of a call of MIN or MAX over a group, after a change of its rows.
ghost use Rattle.std.specs.Prelude.{◌≡◌, ◌++◌, ◌∷◌, [], ◌+◌, ◌≤◌, ◌<◌, ◌^◌, length, IfOk, OnOk};
ghost use Rattle.sq_agg.specs.Kept.{argument_key};
ghost use Rattle.sq_agg.specs.Stepping.{IsGreatestValue, IsLeastValue, argument_pairs, call_cost, end_value};
ghost use Rattle.sq_algebra.specs.Operators.{weighing};
ghost use Rattle.sq_algebra.specs.ZSet.{entries};
ghost use Rattle.sq_expr.specs.Meaning.{column_of, is_null};
ghost use Rattle.sq_ops.specs.Arguments.{argument_of, arguments};
ghost use Rattle.sq_trace.specs.Extremes.{weight_after};
ghost use Rattle.sq_value.specs.declared.value.Value.TheVariants.{Int};
ghost use Rattle.sq_zset.specs.Collecting.{mass_of};
ghost use Rattle.sq_zset.specs.Pairs.{weighted_rows};

use sq_base::Steps;
use sq_trace::Trace;
use sq_value::{NoMemory, Row, Value};
use sq_zset::{Pair, ZFault, ZSet};
use std::alloc::Global;

/// The values in the column other than NULL, each as a row with its weight.
pub fn arguments_of(alloc: Global, column: u32, z: &ZSet) -> Result<ZSet, NoMemory>
    requires few { mass_of (entries z.now) ≤ 2 ^ 62 }
    ensures ok { IfOk result (λ kept. kept ≡ arguments column z.now) }
    ensures few { IfOk result (λ kept. length (entries kept) ≤ length (entries z.now)) }
{
    let pairs = argument_pairs(alloc, column, z)?;
    match ZSet::consolidate(alloc, pairs) {
        Ok(kept) => Ok(kept),
        Err(ZFault::Memory) => Err(NoMemory),
        // The absolute weights of all rows add up to at most 2^62.
        Err(ZFault::Weight { .. }) => unreachable!(),
    }
}

// The argument of each row, with the weight of the row.
fn argument_pairs(alloc: Global, column: u32, z: &ZSet) -> Result<Vec<Pair>, NoMemory>
    ensures { IfOk result (λ pairs. weighted_rows pairs.items ≡ argument_pairs column (entries z.now)) }
{
    let mut pairs = Vec::new(alloc);
    for i in 0..z.len() {
        let (row, weight) = z.at(i);
        push_argument(alloc, column, row, weight, &mut pairs)?;
    }
    Ok(pairs)
}

// Puts the argument of a row behind the pairs, unless it is NULL.
fn push_argument(
    alloc: Global,
    column: u32,
    row: &Row,
    weight: i64,
    pairs: &mut Vec<Pair>,
) -> Result<(), NoMemory>
    ensures { OnOk result (weighted_rows pairs.new.items ≡ weighted_rows pairs.old.items ++ weighing weight (argument_of column row.now)) }
{
    let value = value_at(alloc, row, column as usize)?;
    if is_null(&value) {
        return Ok(());
    }
    let row = row_of_value(alloc, value)?;
    pairs.push(Pair {
        row,
        weight: i128::from(weight),
    })?;
    Ok(())
}

// The value at the place; NULL behind the end of the row.
fn value_at(alloc: Global, row: &Row, place: usize) -> Result<Value, NoMemory>
    ensures { IfOk result (λ value. value ≡ column_of row.now place) }
{
    if place >= row.len() {
        return Ok(Value::Null);
    }
    row.at(place).clone_value(alloc)
}

fn is_null(value: &Value) -> bool
    ensures { result ≡ is_null value.now }
{
    match value {
        Value::Null => true,
        Value::Int(_) => false,
        Value::Text(_) => false,
    }
}

// The row of the one value.
fn row_of_value(alloc: Global, value: Value) -> Result<Row, NoMemory>
    ensures { IfOk result (λ row. row ≡ value ∷ []) }
{
    let mut values = Vec::with_capacity(alloc, 1)?;
    values.push(value)?;
    Ok(Row::of(values))
}

/// The values of the row, in their order.
pub fn copy_values(alloc: Global, row: &Row) -> Result<Vec<Value>, NoMemory>
    ensures { IfOk result (λ values. values.items ≡ row.now) }
{
    let mut values = Vec::with_capacity(alloc, row.len())?;
    for i in 0..row.len() {
        values.push(row.at(i).clone_value(alloc)?)?;
    }
    Ok(values)
}

/// The key under which the arguments of a call are kept: that of the group, and the number of the call behind it.
pub fn key_of_arguments(alloc: Global, key: &Row, call: usize) -> Result<Row, NoMemory>
    requires { call < 2 ^ 63 }
    ensures { IfOk result (λ row. row ≡ argument_key key.now call) }
{
    let mut values = copy_values(alloc, key)?;
    values.push(Value::Int(call as i64))?;
    Ok(Row::of(values))
}

/// The value of a call of MIN over the group after a change, if `changed` is the changed rows of the group.
pub fn least_after<L>(
    alloc: Global,
    key: &Row,
    call: usize,
    column: u32,
    ordered: &Trace<i64>,
    changed: &ZSet,
    steps: &mut Steps<L>,
) -> Result<Value, NoMemory>
    requires few { mass_of (entries changed.now) ≤ 2 ^ 62 }
    requires numbered { call < 2 ^ 63 }
    ensures ok { IfOk result (IsLeastValue (weight_after (argument_key key.now call) ordered.now (arguments column changed.now))) }
    ensures count { steps.new.count ≤ steps.old.count + call_cost (length (entries changed.now)) }
    ensures ledger { steps.new.ledger ≡ steps.old.ledger }
{
    let kept = key_of_arguments(alloc, key, call)?;
    let change = arguments_of(alloc, column, changed)?;
    let end = ordered.least_of(alloc, &kept, &change, steps)?;
    let value = value_of_end(alloc, &end)?;
    Ok(value)
}

/// The value of a call of MAX over the group after a change, if `changed` is the changed rows of the group.
pub fn greatest_after<L>(
    alloc: Global,
    key: &Row,
    call: usize,
    column: u32,
    ordered: &Trace<i64>,
    changed: &ZSet,
    steps: &mut Steps<L>,
) -> Result<Value, NoMemory>
    requires few { mass_of (entries changed.now) ≤ 2 ^ 62 }
    requires numbered { call < 2 ^ 63 }
    ensures ok { IfOk result (IsGreatestValue (weight_after (argument_key key.now call) ordered.now (arguments column changed.now))) }
    ensures count { steps.new.count ≤ steps.old.count + call_cost (length (entries changed.now)) }
    ensures ledger { steps.new.ledger ≡ steps.old.ledger }
{
    let kept = key_of_arguments(alloc, key, call)?;
    let change = arguments_of(alloc, column, changed)?;
    let end = ordered.greatest_of(alloc, &kept, &change, steps)?;
    let value = value_of_end(alloc, &end)?;
    Ok(value)
}

// The one value of the row that a look-up answered, and NULL if there is none.
fn value_of_end(alloc: Global, end: &Option<Row>) -> Result<Value, NoMemory>
    ensures { IfOk result (λ value. value ≡ end_value end.now) }
{
    match end {
        None => Ok(Value::Null),
        Some(row) => value_at(alloc, row, 0),
    }
}
