//! What is prepared of the pieces of a tick, and putting it in place.
ghost use Rattle.std.specs.Prelude.{◌≡◌, ◌<◌, length, Some, IfOk};
ghost use Rattle.sq_engine.specs.Ticking.{AreAllPut, ArePut, CanPrepareAll, CanPutAll, CanPutShard, EachAt, IsReadyShard};

use sq_incr::{Pieces, Task};
use sq_states::{Ready, States};
use sq_value::NoMemory;
use std::alloc::Global;
use std::marker::Model;

/// What is prepared of all nodes in one shard. Contracts see it as the list of it, by the numbers of the nodes.
#[derive(Debug, Drop)]
pub struct ReadyShard {
    nodes: Vec<Ready>,
}

impl Model for ReadyShard {
    ghost use Rattle.std.specs.Prelude.{List};
    ghost use Rattle.std.specs.Coded.{coded_list};
    ghost use Rattle.sq_states.specs.contracts.ready.Ready as ready;
    ghost use Rattle.sq_states.specs.declared.ready.Ready.{Ready as Prepared};

    ghost Value = { List Prepared };

    ghost coded = { coded_list (ready.the_row).coded };

    ghost view = { λ r. r.nodes.items };
}

/// What the pieces make of the traces of all nodes in all shards, which stay as they are.
pub fn prepare_all(
    alloc: Global,
    states: &[States],
    pieces: &Pieces,
    nodes: u32,
    shards: u32,
) -> Result<Vec<ReadyShard>, NoMemory>
    requires all { CanPrepareAll nodes states.now pieces.now }
    requires shards { length states.now ≡ shards }
    ensures { IfOk result (λ ready. EachAt (IsReadyShard pieces.now states.now) ready.items (length states.now)) }
{
    let mut ready = Vec::with_capacity(alloc, shards as usize)?;
    for shard in 0..shards {
        ready.push(prepare_shard(alloc, states, pieces, nodes, shard)?)?;
    }
    Ok(ready)
}

// What they make of those in one shard.
fn prepare_shard(
    alloc: Global,
    states: &[States],
    pieces: &Pieces,
    nodes: u32,
    shard: u32,
) -> Result<ReadyShard, NoMemory>
    requires all { CanPrepareAll nodes states.now pieces.now }
    requires inside { shard < length states.now }
    ensures { IfOk result (IsReadyShard pieces.now states.now shard) }
{
    let state = &states[shard as usize];
    let mut ready = Vec::with_capacity(alloc, nodes as usize)?;
    for node in 0..nodes {
        let one = state.prepare(alloc, node, pieces.at(Task { node, shard }))?;
        ready.push(one)?;
    }
    Ok(ReadyShard { nodes: ready })
}

/// Puts in place what was prepared in all shards. Takes no memory, and can't be refused.
pub fn commit_all(states: &mut Vec<States>, ready: Vec<ReadyShard>)
    requires { CanPutAll states.old.items ready.items }
    ensures { AreAllPut states.old.items ready.items states.new.items }
{
    let mut ready = ready;
    while let Some(shard) = ready.pop() {
        let place = ready.len();
        commit_shard(&mut states[place], shard);
    }
}

// Puts in place what was prepared in one shard.
fn commit_shard(states: &mut States, ready: ReadyShard)
    requires { CanPutShard states.old ready }
    ensures { ArePut states.old ready states.new }
{
    let mut nodes = ready.nodes;
    while let Some(node) = nodes.pop() {
        states.commit(node);
    }
}
