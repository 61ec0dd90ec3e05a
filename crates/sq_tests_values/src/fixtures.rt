//! Rows and texts that several tests make.
use sq_value::{NoMemory, Row, Str, Value};
use std::alloc::Global;

/// The row of these numbers, and of NULL for each that is not there.
pub(crate) fn row_of(alloc: Global, numbers: &[Option<i64>]) -> Result<Row, NoMemory> {
    let mut values = Vec::new(alloc);
    for number in numbers {
        values.push(number.map_or(Value::Null, Value::Int))?;
    }
    Ok(Row::of(values))
}

/// The text as a value.
pub(crate) fn text_of(alloc: Global, text: &str) -> Result<Value, NoMemory> {
    Ok(Value::Text(Str::of(alloc, text)?))
}
