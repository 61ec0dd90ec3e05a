//! The weight of a row in a table.
ghost use Rattle.std.specs.Prelude.{◌≡◌, ◌<◌, IfOk};
ghost use Rattle.sq_algebra.specs.Groups.{integers};
ghost use Rattle.sq_algebra.specs.ZSet.{weight};
ghost use Rattle.sq_base.specs.Causes.{raised};
ghost use Rattle.sq_circuit.specs.Circuits.{table_at};
ghost use Rattle.sq_circuit.specs.Invariant.{table_count};
ghost use Rattle.sq_tables.specs.Tables.{HoldTables, tables_in};
ghost use Rattle.sq_trace.specs.Runs.{content};

use sq_base::Steps;
use sq_circuit::Circuit;
use sq_shard::shard_of;
use sq_states::States;
use sq_trace::Trace;
use sq_value::{NoMemory, Row};
use std::alloc::Global;

/// The weight of a row in a table of a circuit, 0 if it has none; or `NoMemory` when memory runs out. Takes one step.
///
/// The states are those of 1 to 64 shards, which hold the tables. The row is looked up in the trace of the table in the shard of
/// the row as a whole, and nothing else is read.
pub fn weight_of<L>(
    alloc: Global,
    circuit: &Circuit,
    states: &[States],
    table: u32,
    row: &Row,
    steps: &mut Steps<L>,
) -> Result<i64, NoMemory>
    requires table { table < table_count circuit.now }
    requires holds { HoldTables circuit.now (tables_in circuit.now states.now) states.now }
    ensures ok { IfOk result (λ n. n ≡ weight row.now (table_at (tables_in circuit.now states.now) table)) }
    ensures count { steps.new.count ≡ raised steps.old.count }
    ensures ledger { steps.new.ledger ≡ steps.old.ledger }
{
    let shard = shard_of(row, states.len() as u32);
    let rows = states[shard as usize].table(table);
    weight_held(alloc, rows, row, steps)
}

// The weight of the row in the trace.
fn weight_held<L>(
    alloc: Global,
    rows: &Trace<i64>,
    row: &Row,
    steps: &mut Steps<L>,
) -> Result<i64, NoMemory>
    ensures ok { IfOk result (λ n. n ≡ content integers (row.now, row.now) rows.now) }
    ensures count { steps.new.count ≡ raised steps.old.count }
    ensures ledger { steps.new.ledger ≡ steps.old.ledger }
{
    match rows.payload_of(alloc, row, row, steps)? {
        Some(weight) => Ok(weight),
        None => Ok(0),
    }
}
