//! The totals of nodes after a tick.
ghost use Rattle.std.specs.Prelude.{◌≡◌, ◌<◌, ◌+ℤ◌, List, length, slice_get, Some, IfOk};
ghost use Rattle.std.specs.Int.{int_wrap, w128};
ghost use Rattle.sq_algebra.specs.ZSet.{total};
ghost use Rattle.sq_engine.specs.Ticking.{AreWide, EachAt, IsRaised};
ghost use Rattle.sq_incr.specs.Slots.{change_in};
ghost use Rattle.sq_incr.specs.declared.store.Slot.{Slot as Told};

use sq_incr::{Pieces, Task};
use sq_value::NoMemory;
use std::alloc::Global;

/// The total of each node with those of its pieces, as 128 bits have it.
pub fn raised(
    alloc: Global,
    totals: &[i128],
    pieces: &Pieces,
    nodes: u32,
    shards: u32,
) -> Result<Vec<i128>, NoMemory>
    requires totals { length totals.now ≡ nodes }
    requires count { length pieces.now ≡ nodes }
    requires wide { AreWide shards pieces.now }
    ensures { IfOk result (λ sums. EachAt (IsRaised totals.now pieces.now) sums.items (length totals.now)) }
{
    let mut sums = Vec::with_capacity(alloc, nodes as usize)?;
    for node in 0..nodes {
        sums.push(total_after(totals, pieces, node, shards))?;
    }
    Ok(sums)
}

// The total of a node with those of its pieces.
fn total_after(totals: &[i128], pieces: &Pieces, node: u32, shards: u32) -> i128
    requires total { node < length totals.now }
    requires node { node < length pieces.now }
    requires wide { AreWide shards pieces.now }
    ensures { IsRaised totals.now pieces.now node result }
{
    let mut sum = total_at(totals, node);
    for shard in 0..shards {
        sum = wrapped_sum(sum, piece_total(pieces, Task { node, shard }));
    }
    sum
}

// The total of a node.
fn total_at(totals: &[i128], node: u32) -> i128
    requires { node < length totals.now }
    ensures { slice_get totals.now node ≡ Some result }
{
    totals[node as usize]
}

// The sum of two numbers, as 128 bits have it.
fn wrapped_sum(a: i128, b: i128) -> i128
    ensures { result ≡ int_wrap w128 (a +ℤ b) }
{
    a.wrapping_add(b)
}

// The total of the change of a task.
fn piece_total(pieces: &Pieces, task: Task) -> i128
    requires node { task.node < length pieces.now }
    requires shard { (line : List Told) → slice_get pieces.now task.node ≡ Some line → task.shard < length line }
    ensures { (line : List Told) → slice_get pieces.now task.node ≡ Some line → (slot : Told) → slice_get line task.shard ≡ Some slot → result ≡ total (change_in slot) }
{
    pieces.at(task).change().total()
}
