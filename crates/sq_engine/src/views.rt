//! What each view has more or less than before, from the pieces of a tick.
ghost use Rattle.std.specs.Prelude.{◌≡◌, ◌<◌, ℕ, List, length, map, slice_get, Some, IfOk};
ghost use Rattle.sq_circuit.specs.Along.{each_below};
ghost use Rattle.sq_circuit.specs.Invariant.{view_count};
ghost use Rattle.sq_engine.specs.Engines.{view_node};
ghost use Rattle.sq_engine.specs.Ticking.{AreWide, line_at};
ghost use Rattle.sq_incr.specs.Inputs.{summed};
ghost use Rattle.sq_incr.specs.Slots.{change_in};
ghost use Rattle.sq_incr.specs.declared.store.Slot.{Slot as Told};
ghost use Rattle.sq_zset.specs.Range.{IsInRange};

use sq_circuit::Circuit;
use sq_incr::{Pieces, Task};
use sq_shard::gather;
use sq_value::NoMemory;
use sq_zset::{Group, ZFault, ZSet};
use std::alloc::Global;

/// What each view has more than before: the sum of the pieces of its node.
pub fn view_changes(
    alloc: Global,
    circuit: &Circuit,
    pieces: &Pieces,
    shards: u32,
) -> Result<Vec<ZSet>, NoMemory>
    requires count { length pieces.now ≡ length circuit.now }
    requires wide { AreWide shards pieces.now }
    requires in_range { (v : ℕ) → v < view_count circuit.now → IsInRange (summed (line_at pieces.now (view_node circuit.now v))) }
    ensures { IfOk result (λ views. views.items ≡ each_below (λ v. summed (line_at pieces.now (view_node circuit.now v))) (view_count circuit.now)) }
{
    let count = circuit.view_count();
    let front = circuit.len() - count;
    let mut views = Vec::with_capacity(alloc, count as usize)?;
    for view in 0..count {
        views.push(node_change(alloc, pieces, front + view, shards)?)?;
    }
    Ok(views)
}

// What a node has more than before, in all shards.
fn node_change(alloc: Global, pieces: &Pieces, node: u32, shards: u32) -> Result<ZSet, NoMemory>
    requires node { node < length pieces.now }
    requires wide { AreWide shards pieces.now }
    requires in_range { IsInRange (summed (line_at pieces.now node)) }
    ensures { IfOk result (λ z. z ≡ summed (line_at pieces.now node)) }
{
    match gather(alloc, copies(alloc, pieces, node, shards)?) {
        Ok(z) => Ok(z),
        Err(ZFault::Memory) => Err(NoMemory),
        Err(ZFault::Weight { .. }) => unreachable!(),
    }
}

// The changes of a node's pieces.
fn copies(alloc: Global, pieces: &Pieces, node: u32, shards: u32) -> Result<Vec<ZSet>, NoMemory>
    requires node { node < length pieces.now }
    requires wide { AreWide shards pieces.now }
    ensures { IfOk result (λ zs. zs.items ≡ map change_in (line_at pieces.now node)) }
{
    let mut zs = Vec::with_capacity(alloc, shards as usize)?;
    for shard in 0..shards {
        zs.push(copy_of(alloc, pieces, Task { node, shard })?)?;
    }
    Ok(zs)
}

// The change of a piece.
fn copy_of(alloc: Global, pieces: &Pieces, task: Task) -> Result<ZSet, NoMemory>
    requires node { task.node < length pieces.now }
    requires shard { (line : List Told) → slice_get pieces.now task.node ≡ Some line → task.shard < length line }
    ensures { IfOk result (λ z. (line : List Told) → slice_get pieces.now task.node ≡ Some line → (slot : Told) → slice_get line task.shard ≡ Some slot → z ≡ change_in slot) }
{
    pieces.at(task).change().clone_group(alloc)
}
