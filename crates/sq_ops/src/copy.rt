//! Copies of the values of a row.
ghost use Rattle.std.specs.Prelude.{◌≡◌, IfOk};

use sq_value::{NoMemory, Row, Value};
use std::alloc::Global;

/// The values of the row, in their order, or `NoMemory` when memory runs out.
pub fn copy_values(alloc: Global, row: &Row) -> Result<Vec<Value>, NoMemory>
    ensures equal { IfOk result (λ values. values.items ≡ row.now) }
{
    let mut values = Vec::with_capacity(alloc, row.len())?;
    for i in 0..row.len() {
        values.push(row.at(i).clone_value(alloc)?)?;
    }
    Ok(values)
}
