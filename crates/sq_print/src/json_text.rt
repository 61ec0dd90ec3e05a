//! Numbers, values and rows as JSON.
ghost use Rattle.std.specs.Prelude.{◌≡◌, ◌++◌, OnOk, decimal, map};
ghost use Rattle.std.specs.Fmt.{signed_decimal};
ghost use Rattle.json.specs.Print.{quoted};
ghost use Rattle.std.specs.List.{zip};
ghost use Rattle.sq_print.specs.Texts.{member_text, row_text, value_text, with_commas};
ghost use Rattle.sq_print.specs.Commas.{comma_before};

use itoa::Buffer;
use serde_json::Value as Json;
use sq_catalog::Column;
use sq_value::{NoMemory, Row, Value};
use std::alloc::Global;

/// Appends a number that is not negative.
pub fn push_number(out: &mut Vec<u8>, number: u64) -> Result<(), NoMemory>
    ensures { OnOk result (out.new.items ≡ out.old.items ++ decimal number) }
{
    let mut buffer = Buffer::new();
    out.extend_from_slice(buffer.format(number).as_bytes())?;
    Ok(())
}

fn push_signed(out: &mut Vec<u8>, number: i64) -> Result<(), NoMemory>
    ensures { OnOk result (out.new.items ≡ out.old.items ++ signed_decimal number) }
{
    let mut buffer = Buffer::new();
    out.extend_from_slice(buffer.format(number).as_bytes())?;
    Ok(())
}

/// Appends a text in quotes, with its escapes, as `serde_json` writes it.
pub fn push_quoted(alloc: Global, out: &mut Vec<u8>, text: &str) -> Result<(), NoMemory>
    ensures { OnOk result (out.new.items ≡ out.old.items ++ quoted text.now) }
{
    let quoted = Json::try_from_str(alloc, text)?.to_string(alloc)?;
    out.extend_from_slice(quoted.as_str().as_bytes())?;
    Ok(())
}

fn push_value(alloc: Global, out: &mut Vec<u8>, value: &Value) -> Result<(), NoMemory>
    ensures { OnOk result (out.new.items ≡ out.old.items ++ value_text value.now) }
{
    match value {
        Value::Null => out.extend_from_slice(b"null")?,
        Value::Int(number) => push_signed(out, *number)?,
        Value::Text(text) => push_quoted(alloc, out, text.as_str())?,
    }
    Ok(())
}

/// Appends a row as an object, with a member for each column.
pub fn push_row(
    alloc: Global,
    out: &mut Vec<u8>,
    columns: &[Column],
    row: &Row,
) -> Result<(), NoMemory>
    ensures { OnOk result (out.new.items ≡ out.old.items ++ row_text columns.now row.now) }
{
    out.extend_from_slice(b"{")?;
    push_members(alloc, out, columns, row)?;
    out.extend_from_slice(b"}")?;
    Ok(())
}

fn push_members(
    alloc: Global,
    out: &mut Vec<u8>,
    columns: &[Column],
    row: &Row,
) -> Result<(), NoMemory>
    ensures { OnOk result (out.new.items ≡ out.old.items
        ++ with_commas (map (λ m. member_text m.0 m.1) (zip columns.now row.now))) }
{
    for i in 0..columns.len().min(row.len()) {
        push_comma(out, i)?;
        push_member(alloc, out, &columns[i], row.at(i))?;
    }
    Ok(())
}

/// Appends the comma in front of the member with this number.
pub fn push_comma(out: &mut Vec<u8>, number: usize) -> Result<(), NoMemory>
    ensures { OnOk result (out.new.items ≡ out.old.items ++ comma_before number) }
{
    if number > 0 {
        out.extend_from_slice(b",")?;
    }
    Ok(())
}

fn push_member(
    alloc: Global,
    out: &mut Vec<u8>,
    column: &Column,
    value: &Value,
) -> Result<(), NoMemory>
    ensures { OnOk result (out.new.items ≡ out.old.items ++ member_text column.now value.now) }
{
    push_quoted(alloc, out, column.name.as_str())?;
    out.extend_from_slice(b":")?;
    push_value(alloc, out, value)
}
