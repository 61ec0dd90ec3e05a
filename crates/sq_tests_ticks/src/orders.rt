//! Orders of the tasks of a circuit: by node, and drawn among the tasks that may stand next.
use crate::drawn::next;
use sq_circuit::{Circuit, Node};
use sq_incr::Task;
use sq_value::NoMemory;
use std::alloc::Global;

/// All tasks by node and then by shard.
pub fn by_node(alloc: Global, nodes: u32, shards: u32) -> Result<Vec<Task>, NoMemory> {
    let mut order = Vec::new(alloc);
    for node in 0..nodes {
        for shard in 0..shards {
            order.push(Task { node, shard })?;
        }
    }
    Ok(order)
}

// Whether no task of the node is left.
fn is_done(left: &[u32], node: u32) -> bool {
    if (node as usize) < left.len() {
        return left[node as usize] == 0;
    }
    true
}

// Whether no task of the nodes that this one reads is left.
fn is_free(circuit: &Circuit, left: &[u32], task: Task) -> bool {
    if task.node >= circuit.len() {
        return false;
    }
    match circuit.node(task.node) {
        Node::Table { table: _ } => true,
        Node::Linear { input, op: _ } => is_done(left, *input),
        Node::Join {
            left: a,
            right: b,
            ..
        } => is_done(left, *a) && is_done(left, *b),
        Node::Distinct { input } => is_done(left, *input),
        Node::Aggregate { input, spec: _ } => is_done(left, *input),
        Node::Plus { left: a, right: b } => is_done(left, *a) && is_done(left, *b),
        Node::Minus { left: a, right: b } => is_done(left, *a) && is_done(left, *b),
        Node::View { input, view: _ } => is_done(left, *input),
    }
}

// The place of the first task from a place on that may stand next, or else of the first one before it.
fn free_from(circuit: &Circuit, left: &[u32], rest: &[Task], start: usize) -> usize {
    for at in start..rest.len() {
        if is_free(circuit, left, rest[at]) {
            return at;
        }
    }
    for at in 0..rest.len() {
        if is_free(circuit, left, rest[at]) {
            return at;
        }
    }
    0
}

// A place among so many.
fn remainder(number: u64, count: usize) -> usize {
    if count == 0 {
        return 0;
    }
    (number >> 33) as usize % count
}

// Takes the task at a place out of the rest.
fn take_one(rest: &mut Vec<Task>, left: &mut Vec<u32>, at: usize) -> Option<Task> {
    if at >= rest.len() {
        return None;
    }
    let task = rest.swap_remove(at);
    let node = task.node as usize;
    if node < left.len() {
        left[node] = left[node].saturating_sub(1);
    }
    Some(task)
}

// So many numbers that are all the same.
fn same_numbers(alloc: Global, count: u32, number: u32) -> Result<Vec<u32>, NoMemory> {
    let mut numbers = Vec::new(alloc);
    for _ in 0..count {
        numbers.push(number)?;
    }
    Ok(numbers)
}

/// All tasks in an order that is drawn among those that may stand next.
pub fn drawn_order(
    alloc: Global,
    circuit: &Circuit,
    shards: u32,
    seed: u64,
) -> Result<Vec<Task>, NoMemory> {
    let mut rest = by_node(alloc, circuit.len(), shards)?;
    let mut left = same_numbers(alloc, circuit.len(), shards)?;
    let mut order = Vec::new(alloc);
    let mut number = seed;
    for _ in 0..rest.len() {
        number = next(number);
        let at = free_from(circuit, &left, &rest, remainder(number, rest.len()));
        if let Some(task) = take_one(&mut rest, &mut left, at) {
            order.push(task)?;
        }
    }
    Ok(order)
}
