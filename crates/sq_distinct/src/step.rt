//! DISTINCT step by step: what a change of the rows changes.
ghost use Rattle.std.specs.Prelude.{◌≡◌, ◌≤◌, ◌+◌, ◌^◌, ◌++◌, ◌∷◌, [], List, length, IfOk, OnOk};
ghost use Rattle.sq_algebra.specs.Operators.{distinct};
ghost use Rattle.sq_algebra.specs.ZSet.{ZSet as Weighted, entries, in_front, minus, plus};
ghost use Rattle.sq_base.specs.Causes.{raised};
ghost use Rattle.sq_distinct.specs.Stepping.{HoldsRows, held_weight, rise_of, rises_of, unless_zero};
ghost use Rattle.sq_value.specs.declared.value.Value.{Value as Datum};
ghost use Rattle.sq_value.specs.Order.{row_cmp};
ghost use Rattle.sq_zset.specs.Pairs.{mass, weighted_rows};
ghost use Rattle.sq_zset.specs.Range.{IsInRange};

use sq_base::Steps;
use sq_trace::Trace;
use sq_value::{NoMemory, Row};
use sq_zset::{Pair, ZFault, ZSet};
use std::alloc::Global;

/// What DISTINCT over the old rows and the change `d` has more than DISTINCT over the old rows; or `NoMemory` when memory
/// runs out.
///
/// The trace holds the old rows, each under itself as its key. Only the rows of the change are looked up, with one step for
/// each at most.
pub fn distinct_step<L>(
    alloc: Global,
    old: &Trace<i64>,
    d: &ZSet,
    steps: &mut Steps<L>,
) -> Result<ZSet, NoMemory>
    ensures ok { IfOk result (λ answer. (z : Weighted (List Datum) row_cmp) → HoldsRows old.now z → answer ≡ minus (distinct (plus z d.now)) (distinct z)) }
    ensures in_range { IfOk result IsInRange }
    ensures count { steps.new.count ≤ steps.old.count + length (entries d.now) }
    ensures ledger { steps.new.ledger ≡ steps.old.ledger }
{
    let pairs = rises(alloc, old, d, steps)?;
    match ZSet::consolidate(alloc, pairs) {
        Ok(answer) => Ok(answer),
        Err(ZFault::Memory) => Err(NoMemory),
        // Each weight is 1 or -1.
        Err(ZFault::Weight { .. }) => unreachable!(),
    }
}

// The rows of the change that come or go, with 1 or -1.
fn rises<L>(
    alloc: Global,
    old: &Trace<i64>,
    d: &ZSet,
    steps: &mut Steps<L>,
) -> Result<Vec<Pair>, NoMemory>
    ensures ok { IfOk result (λ pairs. weighted_rows pairs.items ≡ rises_of (held_weight old.now) (entries d.now)) }
    ensures bounded { IfOk result (λ pairs. mass pairs.items ≤ 2 ^ 126) }
    ensures count { steps.new.count ≤ steps.old.count + length (entries d.now) }
    ensures ledger { steps.new.ledger ≡ steps.old.ledger }
{
    let mut pairs = Vec::new(alloc);
    for i in 0..d.len() {
        let (row, weight) = d.at(i);
        push_rise(alloc, old, row, weight, steps, &mut pairs)?;
    }
    Ok(pairs)
}

// Puts a copy of the row behind the pairs, if it comes or goes when its weight rises by `weight`.
fn push_rise<L>(
    alloc: Global,
    old: &Trace<i64>,
    row: &Row,
    weight: i64,
    steps: &mut Steps<L>,
    pairs: &mut Vec<Pair>,
) -> Result<(), NoMemory>
    ensures ok { OnOk result (weighted_rows pairs.new.items ≡ weighted_rows pairs.old.items ++ in_front row.now (rise_of (held_weight old.now row.now) weight) []) }
    ensures count { steps.new.count ≡ raised steps.old.count }
    ensures ledger { steps.new.ledger ≡ steps.old.ledger }
{
    let before = weight_held(alloc, old, row, steps)?;
    if let Some(weight) = rise(before, weight) {
        push_copy(alloc, row, weight, pairs)?;
    }
    Ok(())
}

// Puts a copy of the row with the weight behind the pairs.
fn push_copy(alloc: Global, row: &Row, weight: i128, pairs: &mut Vec<Pair>) -> Result<(), NoMemory>
    ensures { OnOk result (weighted_rows pairs.new.items ≡ weighted_rows pairs.old.items ++ (row.now, weight) ∷ []) }
{
    let row = row.clone_row(alloc)?;
    pairs.push(Pair { row, weight })?;
    Ok(())
}

// The weight of the row in the trace.
fn weight_held<L>(
    alloc: Global,
    old: &Trace<i64>,
    row: &Row,
    steps: &mut Steps<L>,
) -> Result<i64, NoMemory>
    ensures ok { IfOk result (λ weight. weight ≡ held_weight old.now row.now) }
    ensures count { steps.new.count ≡ raised steps.old.count }
    ensures ledger { steps.new.ledger ≡ steps.old.ledger }
{
    match old.payload_of(alloc, row, row, steps)? {
        Some(weight) => Ok(weight),
        None => Ok(0),
    }
}

// 1 if a row comes when its weight rises, -1 if it goes, and else none.
fn rise(before: i64, by: i64) -> Option<i128>
    ensures { result ≡ unless_zero (rise_of before by) }
{
    let was = before > 0;
    let is = i128::from(before) + i128::from(by) > 0;
    if is {
        if was { None } else { Some(1) }
    } else {
        if was { Some(-1) } else { None }
    }
}
