//! Tasks played one after the other.
ghost use Rattle.std.specs.Prelude.{◌≡◌, ◌<◌, ◌≤◌, ◌^◌, ◌+◌, length, replicate, slice_get, List, Some, None, Ok, IfOk};
ghost use Rattle.std.specs.List.{sum_by};
ghost use Rattle.sq_incr.specs.Inputs.{source_of};
ghost use Rattle.sq_incr.specs.Orders.{may_stand as may_stand_lem};
ghost use Rattle.sq_incr.specs.Plays.{ArePlayed, CanTurn, HaveShape, IsTurn, IsWithin, Stops, source_played, written};
ghost use Rattle.sq_incr.specs.Ready.{IsReady, part_cost};
ghost use Rattle.sq_incr.specs.Slots.{AreNoted, is_done};
ghost use Rattle.sq_incr.specs.declared.store.Slot.{Slot as Told};
ghost use Rattle.sq_incr.specs.declared.store.Slot.TheVariants.{Open};
ghost use Rattle.sq_incr.specs.declared.task.Task.{Task as Turn};

use crate::Task;
use crate::inputs::{Input, left_input, right_input};
use crate::run::run_task;
use crate::store::{Line, Slot};
use sq_base::Steps;
use sq_circuit::Circuit;
use sq_states::States;
use sq_value::NoMemory;
use sq_zset::ZSet;
use std::alloc::Global;

// Whether all tasks of what a node reads on one side were played.
fn is_played(lines: &[Line], input: Input) -> bool
    requires { IsWithin (length lines.now) (source_of input) }
    ensures { result ≡ source_played lines.now (source_of input) }
{
    match input {
        Input::Nothing => true,
        Input::Table { .. } => true,
        Input::Node { node } => lines[node as usize].are_done(),
    }
}

// Whether a task may stand behind those that were played.
fn may_stand(circuit: &Circuit, lines: &[Line], shards: u32, task: Task) -> bool
    requires { HaveShape (length circuit.now) shards lines.now }
    ensures { (front : List Turn) → ArePlayed front lines.now → result ≡ may_stand_lem circuit.now shards front task }
{
    if task.node >= circuit.len() {
        return false;
    }
    if task.shard >= shards {
        return false;
    }
    if lines[task.node as usize].at(task.shard).is_done() {
        return false;
    }
    let node = circuit.node(task.node);
    if !is_played(lines, left_input(node)) {
        return false;
    }
    is_played(lines, right_input(node))
}

// Notes what became of a task.
fn put(lines: &mut Vec<Line>, task: Task, slot: Slot)
    requires node { task.node < length lines.old.items }
    requires shard { (line : List Told) → slice_get lines.old.items task.node ≡ Some line → task.shard < length line }
    ensures { lines.new.items ≡ written lines.old.items task slot }
{
    lines[task.node as usize].put(task.shard, slot);
}

// Plays a task, if it may stand where it does, and answers whether it was played.
fn turn<L>(
    alloc: Global,
    circuit: &Circuit,
    states: &[States],
    totals: &[i128],
    changes: &[ZSet],
    first: bool,
    lines: &mut Vec<Line>,
    task: Task,
    steps: &mut Steps<L>,
) -> Result<bool, NoMemory>
    requires { CanTurn circuit.now states.now totals.now changes.now first lines.old.items }
    ensures told { (b : CanTurn circuit.now states.now totals.now changes.now first lines.old.items) → IfOk result (IsTurn b task lines.new.items) }
    ensures count { (b : CanTurn circuit.now states.now totals.now changes.now first lines.old.items) → steps.new.count ≤ steps.old.count + part_cost b.ready task }
    ensures ledger { steps.new.ledger ≡ steps.old.ledger }
{
    let shards = states.len() as u32;
    if !may_stand(circuit, lines, shards, task) {
        return Ok(false);
    }
    let slot = run_task(
        alloc, circuit, states, totals, changes, first, lines, task, steps,
    )?;
    put(lines, task, slot);
    Ok(true)
}

// The task at a place of an order.
fn task_at(order: &[Task], at: usize) -> Task
    requires { at < length order.now }
    ensures { slice_get order.now at ≡ Some result }
{
    order[at]
}

/// Plays the tasks of an order, up to the first that may not stand where it does, of which it answers the place.
pub fn play_all<L>(
    alloc: Global,
    circuit: &Circuit,
    states: &[States],
    totals: &[i128],
    changes: &[ZSet],
    first: bool,
    order: &[Task],
    lines: &mut Vec<Line>,
    steps: &mut Steps<L>,
) -> Result<Option<u32>, NoMemory>
    requires ready { IsReady circuit.now states.now totals.now changes.now first }
    requires few { length order.now < 2 ^ 32 }
    requires fresh { lines.old.items ≡ replicate (length circuit.now) (replicate (length states.now) Open) }
    ensures stops { IfOk result (Stops circuit.now (length states.now) order.now) }
    ensures noted { (r : IsReady circuit.now states.now totals.now changes.now first) → result ≡ Ok None → AreNoted r order.now lines.new.items }
    ensures count { (r : IsReady circuit.now states.now totals.now changes.now first) → steps.new.count ≤ steps.old.count + sum_by (part_cost r) order.now }
    ensures ledger { steps.new.ledger ≡ steps.old.ledger }
{
    for at in 0..order.len() {
        let task = task_at(order, at);
        if !turn(
            alloc, circuit, states, totals, changes, first, lines, task, steps,
        )? {
            return Ok(Some(at as u32));
        }
    }
    Ok(None)
}
