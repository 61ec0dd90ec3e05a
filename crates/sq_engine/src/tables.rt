//! Tables without rows, and a change for each table.
ghost use Rattle.std.specs.Prelude.{◌≡◌, IfOk};
ghost use Rattle.sq_circuit.specs.Along.{each_below};
ghost use Rattle.sq_circuit.specs.Circuits.{table_at};
ghost use Rattle.sq_engine.specs.Engines.{no_tables};

use sq_circuit::Circuit;
use sq_value::NoMemory;
use sq_zset::ZSet;
use std::alloc::Global;

/// A Z-set without rows for each table of the circuit.
pub fn no_tables(alloc: Global, circuit: &Circuit) -> Result<Vec<ZSet>, NoMemory>
    ensures { IfOk result (λ tables. tables.items ≡ no_tables circuit.now) }
{
    let mut tables = Vec::new(alloc);
    for _table in 0..circuit.table_count() {
        tables.push(ZSet::empty(alloc))?;
    }
    Ok(tables)
}

/// A change for each of so many tables: the changes in order, and none for tables behind them.
pub fn fitted(alloc: Global, tables: usize, changes: Vec<ZSet>) -> Result<Vec<ZSet>, NoMemory>
    ensures { IfOk result (λ fitted. fitted.items ≡ each_below (λ t. table_at changes.items t) tables) }
{
    let mut fitted = changes;
    fitted.truncate(tables);
    while fitted.len() < tables {
        fitted.push(ZSet::empty(alloc))?;
    }
    Ok(fitted)
}
