//! A tick from the start on, played over shards, and what its pieces add up to.
ghost use Rattle.std.specs.Prelude.{◌≡◌, ◌<◌, ◌≤◌, ◌^◌, length, pos, replicate, IfOk};
ghost use Rattle.sq_circuit.specs.Invariant.{IsGood};
ghost use Rattle.sq_incr.specs.Plays.{HaveShape};
ghost use Rattle.sq_states.specs.Empty.{empty_states};

use sq_base::Steps;
use sq_circuit::Circuit;
use sq_incr::{Pieces, PlayRefusal, Task, play};
use sq_shard::gather;
use sq_states::States;
use sq_value::NoMemory;
use sq_zset::{Group, ZFault, ZSet};
use std::alloc::Global;

// Empty states of so many shards.
fn states_of(alloc: Global, circuit: &Circuit, shards: u32) -> Result<Vec<States>, NoMemory>
    ensures { IfOk result (λ states. states.items ≡ replicate shards (empty_states circuit.now)) }
{
    let mut states = Vec::with_capacity(alloc, shards as usize)?;
    for _ in 0..shards {
        states.push(States::new(alloc, circuit)?)?;
    }
    Ok(states)
}

// A total of 0 for each node.
fn totals_of(alloc: Global, nodes: u32) -> Result<Vec<i128>, NoMemory>
    ensures { IfOk result (λ totals. totals.items ≡ replicate nodes (pos 0)) }
{
    let mut totals = Vec::with_capacity(alloc, nodes as usize)?;
    for _ in 0..nodes {
        totals.push(0)?;
    }
    Ok(totals)
}

/// The pieces of a tick from the start to these tables, over so many shards and in this order.
pub fn played(
    alloc: Global,
    circuit: &Circuit,
    tables: &[ZSet],
    shards: u32,
    order: &[Task],
) -> Result<Pieces, PlayRefusal>
    requires good { IsGood circuit.now tables.now }
    requires shards { (1 ≤ shards) × (shards ≤ 64) }
    requires few { length order.now < 2 ^ 32 }
    ensures { IfOk result (HaveShape (length circuit.now) shards) }
{
    let states = states_of(alloc, circuit, shards)?;
    let totals = totals_of(alloc, circuit.len())?;
    let mut steps = Steps::begin(());
    let pieces = play(
        alloc, circuit, &states, &totals, tables, true, order, &mut steps,
    );
    steps.end();
    pieces
}

// The change that the piece of a task has.
fn change_at(
    alloc: Global,
    pieces: &Pieces,
    nodes: u32,
    shards: u32,
    task: Task,
) -> Result<ZSet, NoMemory>
    requires shape { HaveShape nodes shards pieces.now }
    requires node { task.node < nodes }
    requires shard { task.shard < shards }
{
    pieces.at(task).change().clone_group(alloc)
}

/// The change of a node over all shards.
pub fn change_of(
    alloc: Global,
    pieces: &Pieces,
    nodes: u32,
    shards: u32,
    node: u32,
) -> Result<ZSet, ZFault>
    requires shape { HaveShape nodes shards pieces.now }
    requires node { node < nodes }
{
    let mut parts = Vec::new(alloc);
    for shard in 0..shards {
        parts.push(change_at(alloc, pieces, nodes, shards, Task { node, shard })?)?;
    }
    gather(alloc, parts)
}

/// Whether two Z-sets have the same rows with the same weights.
pub fn are_same(y: &ZSet, z: &ZSet) -> bool {
    for i in 0..y.len() {
        let (row, weight) = y.at(i);
        if z.weight_of(row) != weight {
            return false;
        }
    }
    y.len() == z.len()
}
