//! Pieces of a tick in an order, and what those of a node add up to.
ghost use Rattle.std.specs.Prelude.{◌<◌, ◌^◌, length, IfOk};
ghost use Rattle.sq_incr.specs.Plays.{HaveShape};
ghost use Rattle.sq_tests_ticks.specs.Ticks.{IsDone, IsLive, IsStep};

use crate::ticks::{Live, Step};
use sq_base::Steps;
use sq_circuit::Circuit;
use sq_incr::{Pieces, PlayRefusal, Task, play};
use sq_shard::gather;
use sq_value::NoMemory;
use sq_zset::{Group, ZFault, ZSet};
use std::alloc::Global;

/// What `play` answers to the order.
pub fn pieces_of(
    alloc: Global,
    circuit: &Circuit,
    live: &Live,
    step: &Step,
    first: bool,
    order: &[Task],
) -> Result<Pieces, PlayRefusal>
    requires live { IsLive first circuit.now live.now.tables.items live.now.states.items live.now.totals.items }
    requires step { IsStep first circuit.now live.now.tables.items step.now.changes.items step.now.tables.items }
    requires few { length order.now < 2 ^ 32 }
    ensures done { IfOk result (λ pieces. IsDone first circuit.now live.now.tables.items step.now.changes.items step.now.tables.items live.now.states.items live.now.totals.items order.now pieces) }
    ensures shape { IfOk result (λ pieces. HaveShape (length circuit.now) (length live.now.states.items) pieces) }
{
    let mut steps = Steps::begin(());
    let pieces = play(
        alloc,
        circuit,
        &live.states,
        &live.totals,
        &step.changes,
        first,
        order,
        &mut steps,
    );
    steps.end();
    pieces
}

// The change that the piece of a task has.
fn change_at(
    alloc: Global,
    pieces: &Pieces,
    nodes: u32,
    shards: u32,
    task: Task,
) -> Result<ZSet, NoMemory>
    requires shape { HaveShape nodes shards pieces.now }
    requires node { task.node < nodes }
    requires shard { task.shard < shards }
{
    pieces.at(task).change().clone_group(alloc)
}

/// The change of a node over all shards.
pub fn change_of(
    alloc: Global,
    pieces: &Pieces,
    nodes: u32,
    shards: u32,
    node: u32,
) -> Result<ZSet, ZFault>
    requires shape { HaveShape nodes shards pieces.now }
    requires node { node < nodes }
{
    let mut parts = Vec::new(alloc);
    for shard in 0..shards {
        parts.push(change_at(alloc, pieces, nodes, shards, Task { node, shard })?)?;
    }
    gather(alloc, parts)
}

// The total of the change that the piece of a task has.
fn total_at(pieces: &Pieces, nodes: u32, shards: u32, task: Task) -> i128
    requires shape { HaveShape nodes shards pieces.now }
    requires node { task.node < nodes }
    requires shard { task.shard < shards }
{
    pieces.at(task).change().total()
}

/// A total, raised by those of the pieces of a node; as 128 bits have it.
pub fn raised(pieces: &Pieces, nodes: u32, shards: u32, node: u32, total: i128) -> i128
    requires shape { HaveShape nodes shards pieces.now }
    requires node { node < nodes }
{
    let mut sum = total;
    for shard in 0..shards {
        sum = sum.wrapping_add(total_at(pieces, nodes, shards, Task { node, shard }));
    }
    sum
}

/// Whether two Z-sets have the same rows with the same weights.
pub fn are_same(y: &ZSet, z: &ZSet) -> bool {
    for i in 0..y.len() {
        let (row, weight) = y.at(i);
        if z.weight_of(row) != weight {
            return false;
        }
    }
    y.len() == z.len()
}
