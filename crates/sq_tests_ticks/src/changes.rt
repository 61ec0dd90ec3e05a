//! Tables that change: deletes of rows that are there, inserts, and changes of nothing, drawn from a number.
ghost use Rattle.std.specs.Prelude.{◌≡◌, true, false, List, length, IfOk};
ghost use Rattle.sq_circuit.specs.Nodes.{Rows};
ghost use Rattle.sq_tests_ticks.specs.Ticks.{EachAt, IsPlusAt, IsStep};

use crate::drawn::{below, next, table_of};
use crate::ticks::{Step, copies};
use sq_circuit::{Circuit, Node};
use sq_expr::Kind;
use sq_good::are_good;
use sq_value::{NoMemory, Row};
use sq_zset::{ZFault, ZSet};
use std::alloc::Global;
use std::test::Fail;

// Rows of the table, about one in three.
fn deleted(alloc: Global, table: &ZSet, number: u64) -> Result<Vec<Row>, NoMemory> {
    let mut rows = Vec::new(alloc);
    let mut number = number;
    for i in 0..table.len() {
        number = next(number);
        if below(number, 3) == 0 {
            let (row, _) = table.at(i);
            rows.push(row.clone_row(alloc)?)?;
        }
    }
    Ok(rows)
}

// How a table changes: rows that are there are deleted once, and others are inserted; one time in four nothing is.
fn change_of(alloc: Global, table: &ZSet, kinds: &[Kind], number: u64) -> Result<ZSet, ZFault> {
    if below(number, 4) == 0 {
        return Ok(ZSet::empty(alloc));
    }
    let less = ZSet::of_rows(alloc, deleted(alloc, table, number)?)?;
    let more = table_of(alloc, kinds, next(number))?;
    more.minus(alloc, &less)
}

// How each table of the circuit changes.
fn changes_of(
    alloc: Global,
    circuit: &Circuit,
    tables: &[ZSet],
    number: u64,
) -> Result<Vec<ZSet>, ZFault> {
    let mut changes = Vec::new(alloc);
    let mut number = number;
    for i in 0..circuit.len() {
        number = next(number);
        if let Node::Table { table } = circuit.node(i) {
            let table = *table as usize;
            if table < tables.len() {
                changes.push(change_of(alloc, &tables[table], circuit.kinds(i), number)?)?;
            }
        }
    }
    Ok(changes)
}

// The tables with their changes.
fn changed_tables(alloc: Global, tables: &[ZSet], changes: &[ZSet]) -> Result<Vec<ZSet>, ZFault>
    requires { length changes.now ≡ length tables.now }
    ensures { IfOk result (λ now. EachAt (IsPlusAt tables.now changes.now) now.items (length tables.now)) }
{
    let mut now = Vec::with_capacity(alloc, tables.len())?;
    for t in 0..tables.len() {
        now.push(tables[t].plus(alloc, &changes[t])?)?;
    }
    Ok(now)
}

/// The first tick, after which the tables are these.
pub fn first_step(alloc: Global, circuit: &Circuit, changes: Vec<ZSet>) -> Result<Step, Fail>
    ensures { IfOk result (λ step. (old : List Rows) → IsStep true circuit.now old step.changes.items step.tables.items) }
{
    let tables = copies(alloc, &changes)?;
    if !are_good(circuit, &tables) {
        return Err(Fail::from("no tables of the circuit"));
    }
    Ok(Step { changes, tables })
}

/// A later tick, with changes that are drawn.
pub fn later_step(alloc: Global, circuit: &Circuit, old: &[ZSet], number: u64) -> Result<Step, Fail>
    ensures { IfOk result (λ step. IsStep false circuit.now old.now step.changes.items step.tables.items) }
{
    let changes = changes_of(alloc, circuit, old, number)?;
    if changes.len() != old.len() {
        return Err(Fail::from("no change of each table"));
    }
    let tables = changed_tables(alloc, old, &changes)?;
    if !are_good(circuit, &tables) {
        return Err(Fail::from("no tables of the circuit"));
    }
    Ok(Step { changes, tables })
}
