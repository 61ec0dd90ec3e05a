//! How what a node reads has changed, from what the tasks of other nodes left.
ghost use Rattle.std.specs.Prelude.{◌≡◌, ◌<◌, length, map, slice_get, true, List, Some, IfOk};
ghost use Rattle.std.specs.List.{list_all};
ghost use Rattle.sq_circuit.specs.Nodes.{Rows, Inner, left_source, right_source};
ghost use Rattle.sq_incr.specs.Inputs.{AreSmall, IsSmall, IsSum, IsThere, TellsChange, fitting, is_full, source_of};
ghost use Rattle.sq_incr.specs.Slots.{change_in, is_run};
ghost use Rattle.sq_incr.specs.declared.store.Slot.{Slot as Told};

use crate::store::{Line, Slot};
use sq_circuit::{Circuit, Node};
use sq_shard::gather;
use sq_value::NoMemory;
use sq_zset::{Group, ZFault, ZSet};
use std::alloc::Global;

/// Where a node reads on one side.
#[derive(Clone, Copy, Debug, PartialEq, Eq)]
pub enum Input {
    Nothing,
    Table { table: u32 },
    Node { node: u32 },
}

/// Where a node reads on its left.
pub fn left_input(node: &Node) -> Input
    ensures { source_of result ≡ left_source node.now }
{
    match node {
        Node::Table { table } => Input::Table { table: *table },
        Node::Linear { input, .. } => Input::Node { node: *input },
        Node::Join { left, .. } => Input::Node { node: *left },
        Node::Distinct { input } => Input::Node { node: *input },
        Node::Aggregate { input, .. } => Input::Node { node: *input },
        Node::Plus { left, .. } => Input::Node { node: *left },
        Node::Minus { left, .. } => Input::Node { node: *left },
        Node::View { input, .. } => Input::Node { node: *input },
    }
}

/// Where it reads on its right.
pub fn right_input(node: &Node) -> Input
    ensures { source_of result ≡ right_source node.now }
{
    match node {
        Node::Table { .. } => Input::Nothing,
        Node::Linear { .. } => Input::Nothing,
        Node::Join { right, .. } => Input::Node { node: *right },
        Node::Distinct { .. } => Input::Nothing,
        Node::Aggregate { .. } => Input::Nothing,
        Node::Plus { right, .. } => Input::Node { node: *right },
        Node::Minus { right, .. } => Input::Node { node: *right },
        Node::View { .. } => Input::Nothing,
    }
}

// A Z-set of its own that is the same.
fn copy_of(alloc: Global, z: &ZSet) -> Result<ZSet, NoMemory>
    ensures ok { IfOk result (λ copy. copy ≡ z.now) }
{
    let _ = z.len();
    z.clone_group(alloc)
}

// The change that a task left, if it ran.
fn copy_left(alloc: Global, slot: &Slot) -> Result<ZSet, NoMemory>
    requires { is_run slot.now ≡ true }
    ensures { IfOk result (λ z. z ≡ change_in slot.now) }
{
    match slot {
        Slot::Ran { piece } => copy_of(alloc, piece.change()),
        Slot::Open => unreachable!(),
        Slot::Skipped => unreachable!(),
        Slot::Broken => unreachable!(),
    }
}

// The changes of a line whose tasks all ran.
fn copies(alloc: Global, line: &Line, shards: u32) -> Result<Vec<ZSet>, NoMemory>
    requires wide { length line.now ≡ shards }
    requires run { list_all is_run line.now ≡ true }
    ensures { IfOk result (λ zs. zs.items ≡ map change_in line.now) }
{
    let mut zs = Vec::with_capacity(alloc, shards as usize)?;
    for shard in 0..shards {
        zs.push(copy_left(alloc, line.at(shard))?)?;
    }
    Ok(zs)
}

// The sum of the changes of a line, if all its tasks ran and it is in range.
fn sum_of(alloc: Global, line: &Line, shards: u32) -> Result<Option<ZSet>, NoMemory>
    requires wide { length line.now ≡ shards }
    ensures { IfOk result (IsSum line.now) }
{
    if !line.are_run() {
        return Ok(None);
    }
    let zs = copies(alloc, line, shards)?;
    match gather(alloc, zs) {
        Ok(z) => Ok(Some(z)),
        Err(ZFault::Weight { sum: _ }) => Ok(None),
        Err(ZFault::Memory) => Err(NoMemory),
    }
}

// Whether a node, if it is a place, holds too many rows after a change.
fn is_too_full(place: bool, total: i128, z: &ZSet) -> bool
    requires { place ≡ true → IsSmall total }
    ensures { result ≡ is_full place total z.now }
{
    if !place {
        return false;
    }
    z.total() > (1 << 61) - total
}

/// How a node has changed over all shards, if it is sound over the new tables; all its tasks were played.
pub fn change_of(
    alloc: Global,
    circuit: &Circuit,
    totals: &[i128],
    lines: &[Line],
    shards: u32,
    node: u32,
) -> Result<Option<ZSet>, NoMemory>
    requires inside { node < length circuit.now }
    requires lines { node < length lines.now }
    requires totals { node < length totals.now }
    requires small { AreSmall circuit.now totals.now }
    requires wide { (line : List Told) → slice_get lines.now node ≡ Some line → length line ≡ shards }
    ensures { (changes : List Rows) → TellsChange circuit.now totals.now changes lines.now (Inner node) result }
{
    let sum = sum_of(alloc, &lines[node as usize], shards)?;
    Ok(unless_full(circuit.place(node), total_at(totals, node), sum))
}

// The total of a node.
pub fn total_at(totals: &[i128], node: u32) -> i128
    requires { node < length totals.now }
    ensures { slice_get totals.now node ≡ Some result }
{
    totals[node as usize]
}

// A change, if the node does not hold too many rows after it.
fn unless_full(place: bool, total: i128, sum: Option<ZSet>) -> Option<ZSet>
    requires { place ≡ true → IsSmall total }
    ensures { result ≡ fitting place total sum }
{
    match sum {
        None => None,
        Some(z) => {
            if is_too_full(place, total, &z) {
                return None;
            }
            Some(z)
        }
    }
}

/// How what a source holds has changed, if it is sound over the new tables; all tasks of a node that is read were played.
pub fn source_change(
    alloc: Global,
    circuit: &Circuit,
    totals: &[i128],
    changes: &[ZSet],
    lines: &[Line],
    shards: u32,
    input: Input,
) -> Result<Option<ZSet>, NoMemory>
    requires input { IsThere circuit.now totals.now changes.now lines.now shards (source_of input) }
    requires small { AreSmall circuit.now totals.now }
    ensures { TellsChange circuit.now totals.now changes.now lines.now (source_of input) result }
{
    match input {
        Input::Nothing => Ok(Some(ZSet::zero(alloc))),
        Input::Table { table } => {
            let z = copy_of(alloc, &changes[table as usize])?;
            Ok(Some(z))
        }
        Input::Node { node } => change_of(alloc, circuit, totals, lines, shards, node),
    }
}
