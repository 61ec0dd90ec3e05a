//! Drawn circuits over 1, 2, 3, 7 and 64 shards: the start, and ticks after it, each in a drawn order.
ghost use Rattle.std.specs.Prelude.{◌≤◌, false, IfOk, IfSome};
ghost use Rattle.sq_tests_ticks.specs.Ticks.{IsLive};

use crate::changes::{first_step, later_step};
use crate::drawn::{next, tables_of};
use crate::generated::generated;
use crate::held::run_tick;
use crate::orders::{by_node, drawn_order};
use crate::ticks::{Live, begun, copies};
use sq_circuit::Circuit;
use sq_good::are_good;
use sq_incr::Task;
use sq_value::NoMemory;
use std::alloc::Global;
use std::process::Abort;
use std::test::Fail;

// An order of all tasks: one time in four by node, and else drawn.
fn order_of(
    alloc: Global,
    circuit: &Circuit,
    shards: u32,
    number: u64,
) -> Result<Vec<Task>, NoMemory> {
    if number % 4 == 0 {
        return by_node(alloc, circuit.len(), shards);
    }
    drawn_order(alloc, circuit, shards, next(number))
}

// The start, in an order that is drawn.
fn started(
    rt: &impl Abort,
    alloc: Global,
    circuit: &Circuit,
    shards: u32,
    number: u64,
) -> Result<Option<Live>, Fail>
    requires shards { (1 ≤ shards) × (shards ≤ 64) }
    ensures { IfOk result (λ o. IfSome o (λ live. IsLive false circuit.now live.tables.items live.states.items live.totals.items)) }
{
    let changes = tables_of(alloc, circuit, number)?;
    let tables = copies(alloc, &changes)?;
    if !are_good(circuit, &tables) {
        return Err(Fail::from("no tables of the circuit"));
    }
    let live = begun(alloc, circuit, tables, shards)?;
    let step = first_step(alloc, circuit, changes)?;
    let order = order_of(alloc, circuit, shards, number)?;
    run_tick(rt, alloc, circuit, live, step, true, &order)
}

// A tick after the start.
fn ticked(
    rt: &impl Abort,
    alloc: Global,
    circuit: &Circuit,
    live: Live,
    number: u64,
) -> Result<Option<Live>, Fail>
    requires { IsLive false circuit.now live.tables.items live.states.items live.totals.items }
    ensures { IfOk result (λ o. IfSome o (λ live. IsLive false circuit.now live.tables.items live.states.items live.totals.items)) }
{
    let shards = live.states.len() as u32;
    let step = later_step(alloc, circuit, &live.tables, number)?;
    let order = order_of(alloc, circuit, shards, next(number))?;
    run_tick(rt, alloc, circuit, live, step, false, &order)
}

// The same, if no view was out of range before.
fn ticked_on(
    rt: &impl Abort,
    alloc: Global,
    circuit: &Circuit,
    live: Option<Live>,
    number: u64,
) -> Result<Option<Live>, Fail>
    requires { IfSome live (λ live. IsLive false circuit.now live.tables.items live.states.items live.totals.items) }
    ensures { IfOk result (λ o. IfSome o (λ live. IsLive false circuit.now live.tables.items live.states.items live.totals.items)) }
{
    match live {
        None => Ok(None),
        Some(live) => ticked(rt, alloc, circuit, live, number),
    }
}

// The start and four ticks; whether no view was out of range.
fn check_ticks(
    rt: &impl Abort,
    alloc: Global,
    circuit: &Circuit,
    shards: u32,
    number: u64,
) -> Result<bool, Fail>
    requires shards { (1 ≤ shards) × (shards ≤ 64) }
{
    let live = started(rt, alloc, circuit, shards, number)?;
    let live = ticked_on(rt, alloc, circuit, live, next(number))?;
    let live = ticked_on(rt, alloc, circuit, live, next(next(number)))?;
    let live = ticked_on(rt, alloc, circuit, live, next(next(next(number))))?;
    let live = ticked_on(rt, alloc, circuit, live, next(next(next(next(number)))))?;
    Ok(live.is_some())
}

// Drawn circuits over so many shards, each with two sequences of ticks; how many went through to the end. In the others a view is out of
// range.
fn check_shards(rt: &impl Abort, alloc: Global, shards: u32, circuits: u64) -> Result<u64, Fail>
    requires shards { (1 ≤ shards) × (shards ≤ 64) }
{
    let mut through: u64 = 0;
    for seed in 0..circuits {
        let circuit = generated(alloc, next(next(seed)))?;
        if check_ticks(rt, alloc, &circuit, shards, next(seed))? {
            through = through.saturating_add(1);
        }
        if check_ticks(rt, alloc, &circuit, shards, next(next(next(seed))))? {
            through = through.saturating_add(1);
        }
    }
    Ok(through)
}

#[test]
fn one_shard_is_held(rt: HostRuntime) -> Result<(), Fail> {
    let through = check_shards(&rt, rt.alloc(), 1, 8)?;
    assert_eq!(&rt; through, 14);
    Ok(())
}

#[test]
fn two_shards_are_held(rt: HostRuntime) -> Result<(), Fail> {
    let through = check_shards(&rt, rt.alloc(), 2, 8)?;
    assert_eq!(&rt; through, 14);
    Ok(())
}

#[test]
fn three_shards_are_held(rt: HostRuntime) -> Result<(), Fail> {
    let through = check_shards(&rt, rt.alloc(), 3, 8)?;
    assert_eq!(&rt; through, 14);
    Ok(())
}

#[test]
fn seven_shards_are_held(rt: HostRuntime) -> Result<(), Fail> {
    let through = check_shards(&rt, rt.alloc(), 7, 8)?;
    assert_eq!(&rt; through, 14);
    Ok(())
}

#[test]
fn as_many_shards_as_may_be_are_held(rt: HostRuntime) -> Result<(), Fail> {
    let through = check_shards(&rt, rt.alloc(), 64, 1)?;
    assert_eq!(&rt; through, 2);
    Ok(())
}
