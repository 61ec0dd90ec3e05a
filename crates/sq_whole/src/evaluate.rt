//! `whole_eval`: the Z-set of each node of a circuit, from the first to the last.
ghost use Rattle.std.specs.Prelude.{◌≡◌, ◌<◌, ℕ, length, Some, None, IfOk, OnOk};
ghost use Rattle.std.specs.List.{flat_map};
ghost use Rattle.sq_circuit.specs.Along.{each_below, least_below, lesser};
ghost use Rattle.sq_circuit.specs.Circuits.{known, verdict, whole};
ghost use Rattle.sq_circuit.specs.Invariant.{IsCircuit, IsGood};
ghost use Rattle.sq_ops.specs.Indexes.{given};
ghost use Rattle.sq_whole.specs.Answers.{IsAnswerAt, missing_owner, rows_within};

use crate::EvalFault;
use crate::node::{aggregate, copied, difference, distinct, join, linear, sum};
use sq_circuit::{Circuit, Node};
use sq_value::NoMemory;
use sq_zset::{Group, ZSet};
use std::alloc::Global;

/// The Z-set of each node of the circuit over these tables, by the numbers of the nodes.
///
/// There is one Z-set for each table of the circuit, with rows of the table's kinds alone, no negative weight and a total
/// of at most 2^61. The answer is `Range` exactly if a node has a fault, a place with more than 2^61 rows or a number
/// outside BIGINT, and names the least view that such a node belongs to; and `Memory` when memory runs out. Each node is
/// evaluated once, from the Z-sets of the nodes that it reads as they stand.
pub fn whole_eval(alloc: Global, circuit: &Circuit, tables: &[ZSet]) -> Result<Vec<ZSet>, EvalFault>
    requires { IsGood circuit.now tables.now }
    ensures ok { IfOk result (λ values. values.items ≡ each_below (whole circuit.now tables.now) (length circuit.now)) }
    ensures in_range { OnOk result (verdict circuit.now tables.now ≡ None) }
    ensures range { (view : ℕ) → result ≡ Err (EvalFault.Range view) → verdict circuit.now tables.now ≡ Some view }
{
    let values = sound_values(alloc, circuit, tables)?;
    match least_owner(circuit, &values) {
        Some(view) => Err(EvalFault::Range { view }),
        None => Ok(all_values(alloc, values)?),
    }
}

// The most rows that a place lists.
const MOST_ROWS: i128 = 1 << 61;

// The Z-set of each node that is sound.
fn sound_values(
    alloc: Global,
    circuit: &Circuit,
    tables: &[ZSet],
) -> Result<Vec<Option<ZSet>>, NoMemory>
    requires { IsGood circuit.now tables.now }
    ensures { IfOk result (λ values. values.items ≡ each_below (known circuit.now tables.now) (length circuit.now)) }
{
    let mut values = Vec::with_capacity(alloc, circuit.len() as usize)?;
    for i in 0..circuit.len() {
        let value = value_of_node(alloc, circuit, tables, &values, i)?;
        values.push(value)?;
    }
    Ok(values)
}

// The Z-set of a node, if it is sound, from those of earlier nodes.
fn value_of_node(
    alloc: Global,
    circuit: &Circuit,
    tables: &[ZSet],
    values: &[Option<ZSet>],
    i: u32,
) -> Result<Option<ZSet>, NoMemory>
    requires good { IsGood circuit.now tables.now }
    requires inside { i < length circuit.now }
    requires earlier { values.now ≡ each_below (known circuit.now tables.now) i }
    ensures { IfOk result (λ value. value ≡ known circuit.now tables.now i) }
{
    let answer = answer_of_node(alloc, circuit, tables, values, i)?;
    Ok(within_place(circuit.place(i), answer))
}

// What the node makes of what it reads; none if that is not sound, or a number is out of range.
fn answer_of_node(
    alloc: Global,
    circuit: &Circuit,
    tables: &[ZSet],
    values: &[Option<ZSet>],
    i: u32,
) -> Result<Option<ZSet>, NoMemory>
    requires good { IsGood circuit.now tables.now }
    requires inside { i < length circuit.now }
    requires earlier { values.now ≡ each_below (known circuit.now tables.now) i }
    ensures { IfOk result (λ answer. IsAnswerAt circuit.now tables.now i answer) }
{
    match circuit.node(i) {
        Node::Table { table } => Ok(Some(tables[*table as usize].clone_group(alloc)?)),
        Node::Linear { input, op } => linear(alloc, op, &values[*input as usize]),
        Node::Join { left, right, op } => {
            join(alloc, op, &values[*left as usize], &values[*right as usize])
        }
        Node::Distinct { input } => distinct(alloc, &values[*input as usize]),
        Node::Aggregate { input, spec } => aggregate(alloc, spec, &values[*input as usize]),
        Node::Plus { left, right } => {
            sum(alloc, &values[*left as usize], &values[*right as usize])
        }
        Node::Minus { left, right } => {
            difference(alloc, &values[*left as usize], &values[*right as usize])
        }
        Node::View { input, view: _ } => copied(alloc, &values[*input as usize]),
    }
}

// The rows, unless the place lists too many.
fn within_place(place: bool, rows: Option<ZSet>) -> Option<ZSet>
    ensures { result ≡ rows_within place rows }
{
    match rows {
        None => None,
        Some(z) => if place && z.total() > MOST_ROWS {
            None
        } else {
            Some(z)
        },
    }
}

// The least owner of a node that has no value.
fn least_owner(circuit: &Circuit, values: &[Option<ZSet>]) -> Option<u32>
    requires { length values.now ≡ length circuit.now }
    ensures least { result ≡ least_below (missing_owner circuit.now values.now) (length circuit.now) }
    ensures sound { IsCircuit circuit.now }
{
    let mut least = None;
    for i in 0..circuit.len() {
        least = lesser(least, owner_of_missing(circuit, values, i));
    }
    least
}

// The owner of the node, if it has no value.
fn owner_of_missing(circuit: &Circuit, values: &[Option<ZSet>], i: u32) -> Option<u32>
    requires inside { i < length circuit.now }
    requires all { length values.now ≡ length circuit.now }
    ensures { result ≡ missing_owner circuit.now values.now i }
{
    if values[i as usize].is_some() {
        return None;
    }
    circuit.owner(i)
}

// The lesser of two numbers that may be missing.
fn lesser(a: Option<u32>, b: Option<u32>) -> Option<u32>
    ensures { result ≡ lesser a b }
{
    match a {
        None => b,
        Some(x) => match b {
            None => a,
            Some(y) => Some(x.min(y)),
        },
    }
}

// The values that are there, in their order.
fn all_values(alloc: Global, values: Vec<Option<ZSet>>) -> Result<Vec<ZSet>, NoMemory>
    ensures { IfOk result (λ all. all.items ≡ flat_map given values.items) }
{
    let mut all = Vec::with_capacity(alloc, values.len())?;
    for value in values {
        if let Some(z) = value {
            all.push(z)?;
        }
    }
    Ok(all)
}
