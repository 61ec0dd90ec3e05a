//! What all tasks of an order tell together: whether one is missing, and which view is to blame.
ghost use Rattle.std.specs.Prelude.{◌≡◌, ◌<◌, ℕ, cond, true, length, slice_get, List, Some, None};
ghost use Rattle.std.specs.List.{list_all};
ghost use Rattle.sq_circuit.specs.Along.{lesser as lesser_lem};
ghost use Rattle.sq_incr.specs.Ends.{IsFirstOpen, IsOpenAt, TellsBlame, TellsView};
ghost use Rattle.sq_incr.specs.Inputs.{AreSmall};
ghost use Rattle.sq_incr.specs.Plays.{HaveShape};
ghost use Rattle.sq_incr.specs.Slots.{is_done};
ghost use Rattle.sq_incr.specs.declared.store.Slot.{Slot as Told};
ghost use Rattle.sq_incr.specs.declared.task.Task.{Task as Turn};

use crate::Task;
use crate::inputs::change_of;
use crate::store::Line;
use sq_circuit::Circuit;
use sq_value::NoMemory;
use std::alloc::Global;

// The first shard whose task was not played.
fn first_open(line: &Line, shards: u32) -> Option<u32>
    requires { length line.now ≡ shards }
    ensures none { result ≡ None → list_all is_done line.now ≡ true }
    ensures some { (s : ℕ) → result ≡ Some s → IsOpenAt line.now s }
{
    for shard in 0..shards {
        if !line.at(shard).is_done() {
            return Some(shard);
        }
    }
    None
}

/// The first task that was not played, by node and then by shard.
pub fn first_missing(lines: &[Line], nodes: u32, shards: u32) -> Option<Task>
    requires { HaveShape nodes shards lines.now }
    ensures none { result ≡ None → list_all (list_all is_done) lines.now ≡ true }
    ensures some { (t : Turn) → result ≡ Some t → IsFirstOpen lines.now t }
{
    for node in 0..nodes {
        if let Some(shard) = first_open(&lines[node as usize], shards) {
            return Some(Task { node, shard });
        }
    }
    None
}

// The lesser of two numbers that may be missing.
fn lesser(a: Option<u32>, b: Option<u32>) -> Option<u32>
    ensures { result ≡ lesser_lem a b }
{
    match a {
        None => b,
        Some(x) => match b {
            None => Some(x),
            Some(y) => Some(x.min(y)),
        },
    }
}

// The lesser of a view and the owner of a node, if that is to blame.
fn with_owner(least: Option<u32>, bad: bool, owner: Option<u32>) -> Option<u32>
    ensures { result ≡ lesser_lem least (cond bad owner None) }
{
    if bad {
        return lesser(least, owner);
    }
    lesser(least, None)
}

// Whether a node is to blame, all of whose tasks were played.
fn is_to_blame(
    alloc: Global,
    circuit: &Circuit,
    totals: &[i128],
    lines: &[Line],
    shards: u32,
    node: u32,
) -> Result<bool, NoMemory>
    requires inside { node < length circuit.now }
    requires lines { node < length lines.now }
    requires totals { node < length totals.now }
    requires small { AreSmall circuit.now totals.now }
    requires wide { (line : List Told) → slice_get lines.now node ≡ Some line → length line ≡ shards }
    ensures { TellsBlame circuit.now totals.now lines.now node result }
{
    let place = circuit.place(node);
    let line = &lines[node as usize];
    if !line.are_run() {
        return Ok(line.is_broken());
    }
    if !place {
        return Ok(false);
    }
    let change = change_of(alloc, circuit, totals, lines, shards, node)?;
    Ok(change.is_none())
}

/// The least view to blame, if all tasks were played.
pub fn least_faulty(
    alloc: Global,
    circuit: &Circuit,
    totals: &[i128],
    lines: &[Line],
    shards: u32,
) -> Result<Option<u32>, NoMemory>
    requires totals { length totals.now ≡ length circuit.now }
    requires small { AreSmall circuit.now totals.now }
    requires shape { HaveShape (length circuit.now) shards lines.now }
    ensures { TellsView circuit.now totals.now lines.now result }
{
    let mut least = None;
    for node in 0..circuit.len() {
        let bad = is_to_blame(alloc, circuit, totals, lines, shards, node)?;
        least = with_owner(least, bad, circuit.owner(node));
    }
    Ok(least)
}
