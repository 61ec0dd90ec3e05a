//! A tick over shards beside the values over whole tables, before and after it.
ghost use Rattle.std.specs.Prelude.{◌≡◌, ◌<◌, false, length, IfOk, IfSome};
ghost use Rattle.sq_circuit.specs.Along.{each_below};
ghost use Rattle.sq_circuit.specs.Circuits.{whole};
ghost use Rattle.sq_incr.specs.Plays.{HaveShape};
ghost use Rattle.sq_tests_ticks.specs.Ticks.{IsDone, IsLive, IsStep};

use crate::pieces::{are_same, change_of, pieces_of, raised};
use crate::ticks::{Live, Step, settled};
use sq_circuit::Circuit;
use sq_incr::{Pieces, PlayRefusal, Task};
use sq_whole::{EvalFault, whole_eval};
use sq_zset::ZSet;
use std::alloc::Global;
use std::process::Abort;
use std::test::Fail;

// What the pieces of a node add up to is what it is worth now, less what it was worth; so does its total.
fn check_node(
    rt: &impl Abort,
    alloc: Global,
    live: &Live,
    pieces: &Pieces,
    nodes: u32,
    shards: u32,
    node: u32,
    value: &ZSet,
) -> Result<(), Fail>
    requires shape { HaveShape nodes shards pieces.now }
    requires node { node < nodes }
{
    let change = change_of(alloc, pieces, nodes, shards, node)?;
    let at = node as usize;
    if at < live.values.len() {
        let wanted = value.minus(alloc, &live.values[at])?;
        assert!(rt;
            are_same(&change, &wanted),
            "node {node} over {shards} shards"
        );
    } else {
        assert!(rt;
            are_same(&change, value),
            "node {node} over {shards} shards"
        );
    }
    if at >= live.totals.len() {
        return Err(Fail::from("no total"));
    }
    let total = raised(pieces, nodes, shards, node, live.totals[at]);
    assert!(rt;
        total == value.total(),
        "the total of node {node} over {shards} shards"
    );
    Ok(())
}

// So it is for all nodes.
fn check_nodes(
    rt: &impl Abort,
    alloc: Global,
    live: &Live,
    pieces: &Pieces,
    nodes: u32,
    shards: u32,
    values: &[ZSet],
) -> Result<(), Fail>
    requires shape { HaveShape nodes shards pieces.now }
{
    assert!(rt; values.len() == nodes as usize, "other nodes");
    for node in 0..nodes {
        if (node as usize) < values.len() {
            check_node(
                rt,
                alloc,
                live,
                pieces,
                nodes,
                shards,
                node,
                &values[node as usize],
            )?;
        }
    }
    Ok(())
}

// What is kept after a tick that left these pieces, which are what they have to be.
fn taken(
    rt: &impl Abort,
    alloc: Global,
    circuit: &Circuit,
    live: Live,
    step: Step,
    first: bool,
    order: &[Task],
    pieces: &Pieces,
    values: Vec<ZSet>,
) -> Result<Option<Live>, Fail>
    requires done { IsDone first circuit.now live.tables.items step.changes.items step.tables.items live.states.items live.totals.items order.now pieces.now }
    requires shape { HaveShape (length circuit.now) (length live.states.items) pieces.now }
    requires values { values.items ≡ each_below (whole circuit.now step.tables.items) (length circuit.now) }
    ensures { IfOk result (λ o. IfSome o (λ live. IsLive false circuit.now live.tables.items live.states.items live.totals.items)) }
{
    let shards = live.states.len() as u32;
    check_nodes(rt, alloc, &live, pieces, circuit.len(), shards, &values)?;
    let live = settled(alloc, circuit, live, step, first, order, pieces, values)?;
    Ok(Some(live))
}

// Whether the view is to blame over the whole tables.
fn values_blame(values: &Result<Vec<ZSet>, EvalFault>, view: u32) -> bool {
    match values {
        Err(EvalFault::Range { view: blamed }) => *blamed == view,
        Err(EvalFault::Memory) => false,
        Ok(_) => false,
    }
}

/// Plays a tick in an order, and holds its pieces and its verdict against the whole tables. What is kept afterwards is nothing if a view is
/// out of range.
pub fn run_tick(
    rt: &impl Abort,
    alloc: Global,
    circuit: &Circuit,
    live: Live,
    step: Step,
    first: bool,
    order: &[Task],
) -> Result<Option<Live>, Fail>
    requires live { IsLive first circuit.now live.tables.items live.states.items live.totals.items }
    requires step { IsStep first circuit.now live.tables.items step.changes.items step.tables.items }
    ensures { IfOk result (λ o. IfSome o (λ live. IsLive false circuit.now live.tables.items live.states.items live.totals.items)) }
{
    if order.len() > 1_000_000 {
        return Err(Fail::from("too many tasks"));
    }
    let values = whole_eval(alloc, circuit, &step.tables);
    match pieces_of(alloc, circuit, &live, &step, first, order) {
        Ok(pieces) => match values {
            Ok(values) => taken(
                rt, alloc, circuit, live, step, first, order, &pieces, values,
            ),
            Err(_) => Err(Fail::from("no values")),
        },
        Err(PlayRefusal::Range { view }) => {
            assert!(rt; values_blame(&values, view), "another view");
            Ok(None)
        }
        Err(_) => Err(Fail::from("no pieces")),
    }
}
