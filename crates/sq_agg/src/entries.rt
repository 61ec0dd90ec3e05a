//! The entries by which the traces of an aggregate change.
ghost use Rattle.std.specs.Prelude.{◌≡◌, ◌++◌, ◌∷◌, [], ◌<◌, ◌≤◌, ◌^◌, OnOk};
ghost use Rattle.sq_agg.specs.Entering.{argument_entries, call_entries, entry, is_same_row, kept_entries, one_shown, shown_entries};
ghost use Rattle.sq_agg.specs.Kept.{has_ends};
ghost use Rattle.sq_algebra.specs.ZSet.{entries};
ghost use Rattle.sq_zset.specs.Collecting.{mass_of};

use crate::Acc;
use crate::argument::{arguments_of, key_of_arguments};
use sq_expr::Func;
use sq_ops::{AggSpec, Call};
use sq_trace::Entry;
use sq_value::{NoMemory, Row};
use sq_zset::ZSet;
use std::alloc::Global;

/// Puts the accumulator of the changed rows of a group behind the entries.
pub fn push_accumulator(
    alloc: Global,
    key: &Row,
    acc: Acc,
    accs: &mut Vec<Entry<Acc>>,
) -> Result<(), NoMemory>
    ensures { OnOk result (accs.new.items ≡ accs.old.items ++ entry key.now [] acc ∷ []) }
{
    let key = key.clone_row(alloc)?;
    let row = Row::of(Vec::new(alloc));
    accs.push(Entry {
        key,
        row,
        payload: acc,
    })?;
    Ok(())
}

/// Puts the arguments of the calls of MIN and MAX over the changed rows of a group behind the entries.
pub fn push_arguments(
    alloc: Global,
    spec: &AggSpec,
    key: &Row,
    changed: &ZSet,
    ordered: &mut Vec<Entry<i64>>,
) -> Result<(), NoMemory>
    requires { mass_of (entries changed.now) ≤ 2 ^ 62 }
    ensures { OnOk result (ordered.new.items ≡ ordered.old.items ++ argument_entries key.now 0 spec.now.calls changed.now) }
{
    for i in 0..spec.calls.as_slice().len() {
        let call = spec.calls.as_slice()[i];
        push_call(alloc, call, i, key, changed, ordered)?;
    }
    Ok(())
}

// The same of the call with this number.
fn push_call(
    alloc: Global,
    call: Call,
    number: usize,
    key: &Row,
    changed: &ZSet,
    ordered: &mut Vec<Entry<i64>>,
) -> Result<(), NoMemory>
    requires few { mass_of (entries changed.now) ≤ 2 ^ 62 }
    requires numbered { number < 2 ^ 63 }
    ensures { OnOk result (ordered.new.items ≡ ordered.old.items ++ call_entries key.now number call changed.now) }
{
    if !has_ends(call.func) {
        return Ok(());
    }
    let kept = arguments_of(alloc, call.arg, changed)?;
    push_kept(alloc, number, key, &kept, ordered)
}

// Whether the arguments of a call are kept.
fn has_ends(func: Func) -> bool
    ensures { result ≡ has_ends func }
{
    match func {
        Func::CountAll => false,
        Func::Count => false,
        Func::Sum => false,
        Func::Min => true,
        Func::Max => true,
    }
}

// Puts these arguments of the call with the number behind the entries.
fn push_kept(
    alloc: Global,
    number: usize,
    key: &Row,
    kept: &ZSet,
    ordered: &mut Vec<Entry<i64>>,
) -> Result<(), NoMemory>
    requires { number < 2 ^ 63 }
    ensures { OnOk result (ordered.new.items ≡ ordered.old.items ++ kept_entries key.now number (entries kept.now)) }
{
    for i in 0..kept.len() {
        let (row, weight) = kept.at(i);
        let group = key_of_arguments(alloc, key, number)?;
        push_copy(alloc, group, row, weight, ordered)?;
    }
    Ok(())
}

// Puts a copy of the row under the key behind the entries.
fn push_copy(
    alloc: Global,
    key: Row,
    row: &Row,
    weight: i64,
    entries: &mut Vec<Entry<i64>>,
) -> Result<(), NoMemory>
    ensures { OnOk result (entries.new.items ≡ entries.old.items ++ entry key row.now weight ∷ []) }
{
    let row = row.clone_row(alloc)?;
    entries.push(Entry {
        key,
        row,
        payload: weight,
    })?;
    Ok(())
}

/// Puts the row that is no longer shown of a group, and the one that is shown now, behind the entries; nothing if they are the
/// same.
pub fn push_shown(
    alloc: Global,
    key: &Row,
    before: &Option<Row>,
    after: &Option<Row>,
    shown: &mut Vec<Entry<i64>>,
) -> Result<(), NoMemory>
    ensures { OnOk result (shown.new.items ≡ shown.old.items ++ shown_entries key.now before.now after.now) }
{
    if is_same_row(before, after) {
        return Ok(());
    }
    push_one(alloc, key, before, -1, shown)?;
    push_one(alloc, key, after, 1, shown)
}

fn is_same_row(before: &Option<Row>, after: &Option<Row>) -> bool
    ensures { result ≡ is_same_row before.now after.now }
{
    match before {
        None => match after {
            None => true,
            Some(_) => false,
        },
        Some(row) => match after {
            None => false,
            Some(other) => row == other,
        },
    }
}

// Puts the row, if there is one, with the weight behind the entries.
fn push_one(
    alloc: Global,
    key: &Row,
    row: &Option<Row>,
    weight: i64,
    shown: &mut Vec<Entry<i64>>,
) -> Result<(), NoMemory>
    ensures { OnOk result (shown.new.items ≡ shown.old.items ++ one_shown key.now row.now weight) }
{
    match row {
        None => Ok(()),
        Some(row) => push_copy(alloc, key.clone_row(alloc)?, row, weight, shown),
    }
}
