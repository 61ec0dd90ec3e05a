//! A fixed sequence of numbers, and tables of rows drawn from it.
ghost use Rattle.std.specs.Prelude.{◌<◌};

use sq_circuit::{Circuit, Node};
use sq_expr::Kind;
use sq_value::{NoMemory, Row, Str, Value};
use sq_zset::ZSet;
use std::alloc::Global;

/// The number behind this one.
pub fn next(number: u64) -> u64 {
    number
        .wrapping_mul(6_364_136_223_846_793_005)
        .wrapping_add(1_442_695_040_888_963_407)
}

/// A number below a bound, which is above 0.
pub fn below(number: u64, bound: u32) -> u32
    requires { 0 < bound }
    ensures { result < bound }
{
    ((number >> 33) % u64::from(bound)) as u32
}

// A value of the kind: NULL, or one of three others.
fn value_of(alloc: Global, kind: Kind, bits: u64) -> Result<Value, NoMemory> {
    let choice = bits % 4;
    if choice == 0 {
        return Ok(Value::Null);
    }
    match kind {
        Kind::Integer => Ok(Value::Int(choice as i64)),
        Kind::Bigint => Ok(Value::Int(choice as i64)),
        Kind::Text => {
            let word = if choice == 1 { "a" } else { "b" };
            Ok(Value::Text(Str::of(alloc, word)?))
        }
    }
}

// A row of these kinds.
fn row_of(alloc: Global, kinds: &[Kind], seed: u64) -> Result<Row, NoMemory> {
    let mut values = Vec::new(alloc);
    let mut number = seed;
    for kind in kinds {
        number = next(number);
        values.push(value_of(alloc, *kind, number >> 33)?)?;
    }
    Ok(Row::of(values))
}

/// Up to nine rows of these kinds, some of them several times.
pub fn table_of(alloc: Global, kinds: &[Kind], seed: u64) -> Result<ZSet, NoMemory> {
    let mut rows = Vec::new(alloc);
    let mut number = seed;
    for _ in 0..(seed >> 40) % 10 {
        number = next(number);
        rows.push(row_of(alloc, kinds, number)?)?;
    }
    ZSet::of_rows(alloc, rows)
}

/// Tables for a circuit.
pub fn tables_of(alloc: Global, circuit: &Circuit, seed: u64) -> Result<Vec<ZSet>, NoMemory> {
    let mut tables = Vec::new(alloc);
    let mut number = seed;
    for i in 0..circuit.len() {
        number = next(number);
        if let Node::Table { table: _ } = circuit.node(i) {
            tables.push(table_of(alloc, circuit.kinds(i), number)?)?;
        }
    }
    Ok(tables)
}
