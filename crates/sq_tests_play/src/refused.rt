//! Orders that are refused: an illegal task, and one that is missing; and the pieces of a table and its view.
ghost use Rattle.std.specs.Prelude.{◌≤◌};
ghost use Rattle.sq_circuit.specs.Invariant.{IsGood};

use crate::circuits::planned;
use crate::orders::by_node;
use crate::played::{are_same, change_of, played};
use sq_circuit::Circuit;
use sq_good::are_good;
use sq_incr::{PlayRefusal, Task};
use sq_value::{NoMemory, Row, Value};
use sq_zset::ZSet;
use std::alloc::Global;
use std::process::Abort;
use std::test::Fail;

const PROGRAM: &str = "CREATE TABLE t (a INTEGER); CREATE VIEW v AS SELECT * FROM t";

// The table of the row 1, once.
fn one_row(alloc: Global) -> Result<ZSet, NoMemory> {
    let mut values = Vec::new(alloc);
    values.push(Value::Int(1))?;
    ZSet::of_row(alloc, Row::of(values))
}

fn task(node: u32, shard: u32) -> Task {
    Task { node, shard }
}

// Why the order gives no pieces, if it gives none.
fn refusal(
    alloc: Global,
    circuit: &Circuit,
    tables: &[ZSet],
    shards: u32,
    order: &[Task],
) -> Result<Option<PlayRefusal>, Fail>
    requires shards { (1 ≤ shards) × (shards ≤ 64) }
{
    if !are_good(circuit, tables) {
        return Err(Fail::from("no tables of the circuit"));
    }
    if order.len() > 1_000_000 {
        return Err(Fail::from("too many tasks"));
    }
    match played(alloc, circuit, tables, shards, order) {
        Ok(_) => Ok(None),
        Err(refusal) => Ok(Some(refusal)),
    }
}

fn check_refusal(
    rt: &impl Abort,
    alloc: Global,
    shards: u32,
    order: &[Task],
    wanted: Option<PlayRefusal>,
) -> Result<(), Fail>
    requires shards { (1 ≤ shards) × (shards ≤ 64) }
{
    let circuit = planned(alloc, PROGRAM)?;
    let tables = [one_row(alloc)?];
    let found = refusal(alloc, &circuit, &tables, shards, order)?;
    assert!(rt; found == wanted, "another refusal");
    Ok(())
}

#[test]
fn a_task_that_is_repeated_is_illegal(rt: HostRuntime) -> Result<(), Fail> {
    check_refusal(
        &rt,
        rt.alloc(),
        1,
        &[task(0, 0), task(0, 0)],
        Some(PlayRefusal::NotLegal { at: 1 }),
    )
}

#[test]
fn a_task_of_a_shard_that_is_not_there_is_illegal(rt: HostRuntime) -> Result<(), Fail> {
    check_refusal(
        &rt,
        rt.alloc(),
        1,
        &[task(0, 1)],
        Some(PlayRefusal::NotLegal { at: 0 }),
    )
}

#[test]
fn the_first_task_that_is_missing_is_named(rt: HostRuntime) -> Result<(), Fail> {
    check_refusal(
        &rt,
        rt.alloc(),
        1,
        &[],
        Some(PlayRefusal::Missing { task: task(0, 0) }),
    )
}

#[test]
fn a_task_before_another_shard_of_its_input_is_illegal(rt: HostRuntime) -> Result<(), Fail> {
    check_refusal(
        &rt,
        rt.alloc(),
        3,
        &[task(0, 2), task(0, 0), task(1, 0), task(0, 1)],
        Some(PlayRefusal::NotLegal { at: 2 }),
    )
}

#[test]
fn a_task_that_is_left_out_is_missing(rt: HostRuntime) -> Result<(), Fail> {
    check_refusal(
        &rt,
        rt.alloc(),
        2,
        &[task(0, 1), task(0, 0), task(1, 1)],
        Some(PlayRefusal::Missing { task: task(1, 0) }),
    )
}

// Whether each node changes by the row 1, if all tasks are played by node.
fn shows_the_row(alloc: Global, circuit: &Circuit, tables: &[ZSet]) -> Result<bool, Fail>
    requires { IsGood circuit.now tables.now }
{
    let order = by_node(alloc, circuit.len(), 1)?;
    if order.len() > 1_000_000 {
        return Ok(false);
    }
    let row = one_row(alloc)?;
    let pieces = match played(alloc, circuit, tables, 1, &order) {
        Ok(pieces) => pieces,
        Err(_) => return Ok(false),
    };
    for node in 0..circuit.len() {
        let change = change_of(alloc, &pieces, circuit.len(), 1, node)?;
        if !are_same(&change, &row) {
            return Ok(false);
        }
    }
    Ok(true)
}

#[test]
fn a_table_and_its_view_change_by_the_row(rt: HostRuntime) -> Result<(), Fail> {
    let alloc = rt.alloc();
    let circuit = planned(alloc, PROGRAM)?;
    let tables = [one_row(alloc)?];
    if !are_good(&circuit, &tables) {
        return Err(Fail::from("no tables of the circuit"));
    }
    let shown = shows_the_row(alloc, &circuit, &tables)?;
    assert!(rt; shown, "another change");
    Ok(())
}
