//! Traces that hold the rows of a Z-set under the keys of a join.
ghost use Rattle.std.specs.Prelude.{◌≡◌, ◌++◌, IfOk, OnOk};
ghost use Rattle.std.specs.List.{All};
ghost use Rattle.sq_algebra.specs.Groups.{integers};
ghost use Rattle.sq_algebra.specs.ZSet.{entries};
ghost use Rattle.sq_join.specs.Stepping.{HoldsByKey};
ghost use Rattle.sq_ops.specs.Joins.{FitsLeft, FitsRight};
ghost use Rattle.sq_tests_steps.specs.Kept.{entry_under};
ghost use Rattle.sq_trace.specs.Keys.{AllInRange, AreDistinct};
ghost use Rattle.sq_trace.specs.Runs.{Place, at, content};
ghost use Rattle.sq_zset.specs.Range.{number_outside};

use sq_ops::Bilinear;
use sq_trace::{Entry, Keyed, Trace};
use sq_value::{NoMemory, Row};
use sq_zset::{ZFault, ZSet, weight_from};
use std::alloc::Global;

/// A trace that holds the rows under the keys that they have on the left.
pub fn left_trace<B: Bilinear>(alloc: Global, op: &B, z: &ZSet) -> Result<Trace<i64>, ZFault>
    requires { All (λ e. FitsLeft (B.suits op.now) e.0) (entries z.now) }
    ensures { IfOk result (λ trace. HoldsByKey (B.left_keys op.now) trace z.now) }
{
    let mut kept = Vec::new(alloc);
    for i in 0..z.len() {
        let (row, weight) = z.at(i);
        let key = op.left_key(alloc, row)?;
        push_entry(alloc, key, row, weight, &mut kept)?;
    }
    trace_of(alloc, kept)
}

/// A trace that holds the rows under the keys that they have on the right.
pub fn right_trace<B: Bilinear>(alloc: Global, op: &B, z: &ZSet) -> Result<Trace<i64>, ZFault>
    requires { All (λ e. FitsRight (B.suits op.now) e.0) (entries z.now) }
    ensures { IfOk result (λ trace. HoldsByKey (B.right_keys op.now) trace z.now) }
{
    let mut kept = Vec::new(alloc);
    for i in 0..z.len() {
        let (row, weight) = z.at(i);
        let key = op.right_key(alloc, row)?;
        push_entry(alloc, key, row, weight, &mut kept)?;
    }
    trace_of(alloc, kept)
}

/// A trace that holds each row under itself.
pub fn row_trace(alloc: Global, z: &ZSet) -> Result<Trace<i64>, ZFault> {
    let mut trace = Trace::new(alloc);
    for i in 0..z.len() {
        let (row, weight) = z.at(i);
        add_row(alloc, row, weight, &mut trace)?;
    }
    Ok(trace)
}

// Adds the row to a trace under itself.
fn add_row(alloc: Global, row: &Row, weight: i64, trace: &mut Trace<i64>) -> Result<(), ZFault> {
    let key = row.clone_row(alloc)?;
    let row = row.clone_row(alloc)?;
    let payload = weight_from(i128::from(weight))?;
    let mut kept = Vec::new(alloc);
    kept.push(Entry { key, row, payload })?;
    let change = Keyed::of(alloc, kept)?;
    let prepared = trace.prepare(alloc, &change)?;
    trace.commit(prepared);
    Ok(())
}

// Puts the entry of the row behind the entries, if the row has a key.
fn push_entry(
    alloc: Global,
    key: Option<Row>,
    row: &Row,
    weight: i64,
    kept: &mut Vec<Entry<i64>>,
) -> Result<(), NoMemory>
    ensures { OnOk result (kept.new.items ≡ kept.old.items ++ entry_under key row.now weight) }
{
    if let Some(key) = key {
        let row = row.clone_row(alloc)?;
        kept.push(Entry {
            key,
            row,
            payload: weight,
        })?;
    }
    Ok(())
}

// A trace that holds these entries.
fn trace_of(alloc: Global, kept: Vec<Entry<i64>>) -> Result<Trace<i64>, ZFault>
    requires distinct { AreDistinct kept.items }
    requires in_range { AllInRange number_outside kept.items }
    ensures { IfOk result (λ trace. (p : Place) → content integers p trace ≡ at integers p kept.items) }
{
    let change = Keyed::of(alloc, kept)?;
    let mut trace = Trace::new(alloc);
    let prepared = trace.prepare(alloc, &change)?;
    trace.commit(prepared);
    Ok(trace)
}
