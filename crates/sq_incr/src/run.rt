//! One task of a tick.
ghost use Rattle.std.specs.Prelude.{◌≡◌, ◌==◌, ◌&&◌, ◌+◌, ◌≤◌, IfOk};
ghost use Rattle.sq_incr.specs.Ready.{part_cost};
ghost use Rattle.sq_incr.specs.Runs.{CanRun, CanStep};
ghost use Rattle.sq_incr.specs.Slots.{IsSlotOf, IsTold};

use crate::Task;
use crate::inputs::{left_input, right_input, source_change};
use crate::keys::{left_part, right_part};
use crate::store::{Line, Slot};
use sq_base::Steps;
use sq_circuit::Circuit;
use sq_states::{Piece, States, StepRefusal, node_step};
use sq_value::NoMemory;
use sq_zset::ZSet;
use std::alloc::Global;

/// What becomes of a task, if those that it needs were played: it is skipped if what its node reads is not sound over the new
/// tables, and else its node takes a step in its shard.
pub fn run_task<L>(
    alloc: Global,
    circuit: &Circuit,
    states: &[States],
    totals: &[i128],
    changes: &[ZSet],
    first: bool,
    lines: &[Line],
    task: Task,
    steps: &mut Steps<L>,
) -> Result<Slot, NoMemory>
    requires { CanRun circuit.now states.now totals.now changes.now first lines.now task }
    ensures told { (b : CanRun circuit.now states.now totals.now changes.now first lines.now task) → IfOk result (IsTold b.ready task.node task.shard) }
    ensures count { (b : CanRun circuit.now states.now totals.now changes.now first lines.now task) → steps.new.count ≤ steps.old.count + part_cost b.ready task }
    ensures ledger { steps.new.ledger ≡ steps.old.ledger }
{
    let node = circuit.node(task.node);
    let shards = states.len() as u32;
    let left = source_change(
        alloc,
        circuit,
        totals,
        changes,
        lines,
        shards,
        left_input(node),
    )?;
    let right = source_change(
        alloc,
        circuit,
        totals,
        changes,
        lines,
        shards,
        right_input(node),
    )?;
    match left {
        None => Ok(Slot::Skipped),
        Some(left) => match right {
            None => Ok(Slot::Skipped),
            Some(right) => run_step(alloc, circuit, states, first, task, left, right, steps),
        },
    }
}

// The step of its node in its shard, with the changes of what the node reads over all shards.
fn run_step<L>(
    alloc: Global,
    circuit: &Circuit,
    states: &[States],
    first: bool,
    task: Task,
    left: ZSet,
    right: ZSet,
    steps: &mut Steps<L>,
) -> Result<Slot, NoMemory>
    requires { CanStep circuit.now states.now first task left right }
    ensures told { (b : CanStep circuit.now states.now first task left right) → IfOk result (IsTold b.ready task.node task.shard) }
    ensures count { (b : CanStep circuit.now states.now first task left right) → steps.new.count ≤ steps.old.count + part_cost b.ready task }
    ensures ledger { steps.new.ledger ≡ steps.old.ledger }
{
    let shards = states.len() as u32;
    let node = circuit.node(task.node);
    let left = left_part(alloc, node, left, shards, task.shard)?;
    let right = right_part(alloc, node, right, shards, task.shard)?;
    let made = node_step(
        alloc,
        circuit,
        task.node,
        &states[task.shard as usize],
        &left,
        &right,
        shows_first(first, task.shard),
        steps,
    );
    noted(made)
}

// Whether rows are shown at the start in this shard.
fn shows_first(first: bool, shard: u32) -> bool
    ensures { result ≡ first && shard == 0 }
{
    if !first {
        return false;
    }
    shard == 0
}

// What is noted of a step.
fn noted(made: Result<Piece, StepRefusal>) -> Result<Slot, NoMemory>
    ensures { IfOk result (IsSlotOf made) }
{
    match made {
        Ok(piece) => Ok(Slot::Ran { piece }),
        Err(StepRefusal::Fault(_)) => Ok(Slot::Broken),
        Err(StepRefusal::Memory) => Err(NoMemory),
    }
}
