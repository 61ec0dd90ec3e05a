//! The key bytes of rows.
ghost use Rattle.std.specs.Prelude.{◌≡◌, ◌++◌, IfOk, OnOk};
ghost use Rattle.sq_value.specs.KeyBytes.{row_key, value_key};

use crate::{NoMemory, Row, Value};
use std::alloc::Global;

/// The key bytes of a row: those of its values, one after the other.
///
/// NULL is 00. A number is 01 and its two's complement in 64 bits. A text is 02, its length in bytes as 64
/// bits, and its bytes. Numbers have their highest byte first. Equal key bytes come from equal rows
/// (`laws::key_bytes_tell_rows`). `NoMemory` if memory runs out.
pub fn key_bytes(alloc: Global, row: &Row) -> Result<Vec<u8>, NoMemory>
    ensures bytes { IfOk result (λ bytes. bytes.items ≡ row_key row.now) }
{
    bytes_of(alloc, row.values())
}

fn bytes_of(alloc: Global, values: &[Value]) -> Result<Vec<u8>, NoMemory>
    ensures bytes { IfOk result (λ bytes. bytes.items ≡ row_key values.now) }
{
    let mut bytes = Vec::new(alloc);
    for value in values {
        put_value(&mut bytes, value)?;
    }
    Ok(bytes)
}

fn put_value(bytes: &mut Vec<u8>, value: &Value) -> Result<(), NoMemory>
    ensures { OnOk result (bytes.new.items ≡ bytes.old.items ++ value_key value.now) }
{
    match value {
        Value::Null => bytes.push(0)?,
        Value::Int(number) => {
            bytes.push(1)?;
            bytes.extend_from_slice(&number.to_be_bytes())?;
        }
        Value::Text(text) => {
            let text = text.as_str().as_bytes();
            bytes.push(2)?;
            bytes.extend_from_slice(&(text.len() as u64).to_be_bytes())?;
            bytes.extend_from_slice(text)?;
        }
    }
    Ok(())
}
