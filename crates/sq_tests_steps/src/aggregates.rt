//! Aggregates step by step, over traces that follow several changes, beside the aggregate of all rows.
ghost use Rattle.std.specs.Prelude.{◌≡◌, IfOk, IsTrue, MatchOption, false, true, ⊤};
ghost use Rattle.sq_agg.specs.Aggregating.{IsAfter};
ghost use Rattle.sq_algebra.specs.ZSet.{plus};
ghost use Rattle.sq_ops.specs.Aggregates.{SuitsSpec};
ghost use Rattle.sq_ops.specs.Fits.{FitsRows};
ghost use Rattle.sq_tests_steps.specs.Followed.{Follows, IsCommitted, Stepped};

use crate::drawn::{Item, drawn_changes};
use crate::followed::{Followed, Kept};
use crate::rows::{are_of_kinds, is_small, zset_of_two};
use sq_agg::{Acc, AggChange, agg_step, agg_whole};
use sq_base::Steps;
use sq_expr::{Func, Kind};
use sq_ops::{AggSpec, Call, WholeFault};
use sq_trace::{Keyed, Trace};
use sq_value::NoMemory;
use sq_zset::{Group, ZFault, ZSet};
use sqlite_items::Items;
use std::alloc::Global;
use std::process::Abort;
use std::test::Fail;

// How the steps of an aggregate went.
#[derive(Clone, Copy, Debug, Drop, PartialEq)]
struct Outcome {
    // in how many rows the changes so far differed from the aggregate of all rows
    differences: usize,
    // the steps beyond the most that a change may take
    beyond: u64,
    // the steps of the last change
    last: u64,
}

// No rows, of which nothing is kept.
fn nothing(alloc: Global, spec: &AggSpec) -> Kept
    ensures { Follows true spec.now result.acc result.ordered result.shown result.rows }
{
    Kept {
        rows: ZSet::empty(alloc),
        acc: Trace::new(alloc),
        ordered: Trace::new(alloc),
        shown: Trace::new(alloc),
    }
}

// The trace with a change in place.
fn after<P: Group>(
    alloc: Global,
    mut trace: Trace<P>,
    change: &Keyed<P>,
) -> Result<Trace<P>, ZFault>
    ensures { IfOk result (λ now. IsAfter P.addition trace change.now now) }
{
    let prepared = trace.prepare(alloc, change)?;
    trace.commit(prepared);
    Ok(trace)
}

fn suits(spec: &AggSpec, z: &ZSet) -> bool
    ensures { IsTrue result → FitsRows (SuitsSpec spec.now) z.now }
{
    let kinds = [Kind::Bigint, Kind::Bigint];
    spec.suits(&kinds) && are_of_kinds(z, &kinds)
}

// What changes of the answer and of the traces. None if the rows do not suit.
fn step(
    alloc: Global,
    spec: &AggSpec,
    kept: &Kept,
    d: &ZSet,
    first: bool,
    new: &ZSet,
    steps: &mut Steps<()>,
) -> Result<Option<AggChange>, WholeFault>
    requires follows { Follows first spec.now kept.now.acc kept.now.ordered kept.now.shown kept.now.rows }
    requires new { new.now ≡ plus kept.now.rows d.now }
    ensures stepped { IfOk result (λ answer. MatchOption answer ⊤ (λ change. Stepped first spec.now kept.now.acc kept.now.ordered kept.now.shown kept.now.rows d.now change)) }
    ensures ledger { steps.new.ledger ≡ steps.old.ledger }
{
    if !(suits(spec, d) && suits(spec, new) && is_small(new)) {
        return Ok(None);
    }
    let change = agg_step(
        alloc,
        spec,
        &kept.acc,
        &kept.ordered,
        &kept.shown,
        d,
        first,
        steps,
    )?;
    Ok(Some(change))
}

// What is kept after a change. None if the rows do not suit.
fn follow(
    alloc: Global,
    spec: &AggSpec,
    kept: Kept,
    d: &ZSet,
    first: bool,
) -> Result<Option<Followed>, Fail>
    requires { Follows first spec.now kept.acc kept.ordered kept.shown kept.rows }
    ensures { IfOk result (λ answer. MatchOption answer ⊤ (λ now. Follows false spec.now now.kept.acc now.kept.ordered now.kept.shown now.kept.rows)) }
{
    let rows = kept.rows.plus(alloc, d)?;
    let mut steps = Steps::begin(());
    let changed = step(alloc, spec, &kept, d, first, &rows, &mut steps);
    let count = steps.count();
    steps.end();
    match changed? {
        None => Ok(None),
        Some(changed) => Ok(Some(committed(alloc, kept, rows, changed, count)?)),
    }
}

// The traces with their changes in place.
fn committed(
    alloc: Global,
    kept: Kept,
    rows: ZSet,
    changed: AggChange,
    count: u64,
) -> Result<Followed, ZFault>
    ensures { IfOk result (λ now. IsCommitted kept rows changed now) }
{
    let acc = after(alloc, kept.acc, &changed.acc)?;
    let ordered = after(alloc, kept.ordered, &changed.ordered)?;
    let shown = after(alloc, kept.shown, &changed.shown)?;
    let kept = Kept {
        rows,
        acc,
        ordered,
        shown,
    };
    Ok(Followed {
        kept,
        change: changed.change,
        count,
    })
}

// The aggregate of all rows. None if they do not suit.
fn whole(alloc: Global, spec: &AggSpec, z: &ZSet) -> Result<Option<ZSet>, WholeFault> {
    if suits(spec, z) && is_small(z) {
        return Ok(Some(agg_whole(alloc, spec, z)?));
    }
    Ok(None)
}

// In how many rows the changes so far differ from the aggregate of all rows.
fn differences(alloc: Global, spec: &AggSpec, shown: &ZSet, rows: &ZSet) -> Result<usize, Fail> {
    match whole(alloc, spec, rows)? {
        None => Ok(1000),
        Some(z) => Ok(z.minus(alloc, shown)?.len()),
    }
}

// The steps at most for a group in which so many rows change: three, and for each of five calls one and one a row.
fn cost_of_group(rows: usize) -> u64 {
    (rows as u64).saturating_mul(5).saturating_add(8)
}

// How many rows of the change begin with the number.
fn rows_of_group(alloc: Global, change: &[Item], group: i64) -> Result<usize, ZFault> {
    let mut part = Vec::new(alloc);
    for item in change {
        if item.0 == group {
            part.push(*item)?;
        }
    }
    Ok(zset_of_two(alloc, &part)?.len())
}

// The steps at most for a change of groups below 4.
fn cost_of_groups(alloc: Global, change: &[Item]) -> Result<u64, ZFault> {
    let mut cost = 0u64;
    for group in 0..4 {
        let rows = rows_of_group(alloc, change, group)?;
        if rows > 0 {
            cost = cost.saturating_add(cost_of_group(rows));
        }
    }
    Ok(cost)
}

// The steps at most for a change of the one group of all rows. The first one looks at it without changed rows too.
fn cost_of_one(alloc: Global, change: &[Item], first: bool) -> Result<u64, ZFault> {
    let rows = zset_of_two(alloc, change)?.len();
    Ok(if first || rows > 0 {
        cost_of_group(rows)
    } else {
        0
    })
}

fn cost(alloc: Global, global: bool, change: &[Item], first: bool) -> Result<u64, ZFault> {
    if global {
        cost_of_one(alloc, change, first)
    } else {
        cost_of_groups(alloc, change)
    }
}

// Follows the changes from nothing on. None if the rows do not suit.
fn follow_all(alloc: Global, spec: &AggSpec, changes: &[&[Item]]) -> Result<Option<Outcome>, Fail> {
    let mut kept = nothing(alloc, spec);
    let mut shown = ZSet::empty(alloc);
    let mut first = true;
    let mut outcome = Outcome {
        differences: 0,
        beyond: 0,
        last: 0,
    };
    for change in changes {
        let d = zset_of_two(alloc, change)?;
        match follow(alloc, spec, kept, &d, first)? {
            None => return Ok(None),
            Some(now) => {
                shown = shown.plus(alloc, &now.change)?;
                let cost = cost(alloc, spec.global, change, first)?;
                outcome = Outcome {
                    differences: outcome.differences
                        | differences(alloc, spec, &shown, &now.kept.rows)?,
                    beyond: outcome.beyond | now.count.saturating_sub(cost),
                    last: now.count,
                };
                kept = now.kept;
            }
        }
        first = false;
    }
    Ok(Some(outcome))
}

// Each function of the second column; by the first column, unless all rows are one group.
fn all_calls(alloc: Global, global: bool) -> Result<AggSpec, NoMemory> {
    let columns: &[u32] = if global { &[] } else { &[0] };
    let functions = [Func::CountAll, Func::Count, Func::Sum, Func::Min, Func::Max];
    let calls = functions.map(|func| Call { func, arg: 1 });
    Ok(AggSpec {
        group: Items::from_slice(alloc, columns)?,
        calls: Items::from_slice(alloc, &calls)?,
        global,
    })
}

// The changes are followed, and the last one takes so many steps.
fn check(
    rt: &impl Abort,
    alloc: Global,
    global: bool,
    changes: &[&[Item]],
    last: u64,
) -> Result<(), Fail> {
    let spec = all_calls(alloc, global)?;
    let outcome = Outcome {
        differences: 0,
        beyond: 0,
        last,
    };
    assert_eq!(rt; follow_all(alloc, &spec, changes)?, Some(outcome));
    Ok(())
}

// A group takes one step for its accumulator, one for the shown row, and one for each of MIN and MAX with one for each changed
// argument before the end that is found or kept.
#[test]
fn ends_follow_deletions(rt: HostRuntime) -> Result<(), Fail> {
    let alloc = rt.alloc();
    let begin = [(1, Some(4), 2), (1, Some(7), 1), (2, None, 1)];
    let greatest = [(1, Some(7), -1), (2, None, 1), (2, None, 0)];
    let least = [(1, Some(4), -2), (1, Some(5), 1), (1, None, 1)];
    let rest = [(1, Some(5), -1), (1, None, -1), (2, None, -2)];
    check(&rt, alloc, false, &[&begin], 10)?;
    check(&rt, alloc, false, &[&begin, &greatest], 9)?;
    check(&rt, alloc, false, &[&begin, &greatest, &least], 7)?;
    check(&rt, alloc, false, &[&begin, &greatest, &least, &rest], 4)?;
    check(
        &rt,
        alloc,
        false,
        &[&begin, &greatest, &least, &rest, &begin],
        10,
    )
}

#[test]
fn a_group_of_all_rows_stands(rt: HostRuntime) -> Result<(), Fail> {
    let alloc = rt.alloc();
    let none = [(0, None, 0); 3];
    let come = [(1, Some(4), 1), (1, Some(7), 1), (2, None, 1)];
    let go = [(1, Some(4), -1), (1, Some(7), -1), (2, None, -1)];
    check(&rt, alloc, true, &[&none], 4)?;
    check(&rt, alloc, true, &[&none, &come], 6)?;
    check(&rt, alloc, true, &[&none, &come, &go], 8)?;
    check(&rt, alloc, true, &[&come, &none], 0)
}

// In how many rows the drawn changes differ, and the steps beyond the most.
fn drawn(alloc: Global, global: bool) -> Result<Option<(usize, u64)>, Fail> {
    let drawn = drawn_changes();
    let mut changes: Vec<&[Item]> = Vec::new(alloc);
    for change in &drawn {
        changes.push(change)?;
    }
    let spec = all_calls(alloc, global)?;
    let outcome = follow_all(alloc, &spec, &changes)?;
    Ok(outcome.map(|outcome| (outcome.differences, outcome.beyond)))
}

#[test]
fn drawn_changes_are_followed(rt: HostRuntime) -> Result<(), Fail> {
    for global in [false, true] {
        assert_eq!(rt; drawn(rt.alloc(), global)?, Some((0, 0)));
    }
    Ok(())
}

// A thousand rows of the group 1, with the numbers from 0 on.
fn thousand(alloc: Global) -> Result<Vec<Item>, NoMemory> {
    let mut items = Vec::new(alloc);
    for number in 0..1000 {
        items.push((1, Some(number), 1))?;
    }
    Ok(items)
}

#[test]
fn a_step_does_not_look_at_all_rows_of_a_group(rt: HostRuntime) -> Result<(), Fail> {
    let alloc = rt.alloc();
    let many = thousand(alloc)?;
    check(&rt, alloc, false, &[&many, &[(1, Some(0), -1)]], 5)?;
    check(&rt, alloc, false, &[&many, &[(1, Some(500), -1)]], 4)?;
    check(&rt, alloc, false, &[&many, &[(1, Some(1000), 1)]], 5)
}
