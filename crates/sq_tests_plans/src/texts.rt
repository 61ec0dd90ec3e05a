//! Z-sets as texts: `1 x; 2 null*3` has the row (1, 'x') once and the row (2, NULL) three times, and `-` has no rows.
use sq_value::{NoMemory, Row, Str, Value};
use sq_zset::ZSet;
use std::alloc::Global;
use std::test::Fail;

// `null`, a number, or else a text.
fn value_of(alloc: Global, word: &str) -> Result<Value, NoMemory> {
    if word == "null" {
        return Ok(Value::Null);
    }
    if let Ok(number) = word.parse::<i64>() {
        return Ok(Value::Int(number));
    }
    let text = Str::of(alloc, word)?;
    Ok(Value::Text(text))
}

// The values that stand between blanks.
fn row_of(alloc: Global, words: &str) -> Result<Row, NoMemory> {
    let mut values = Vec::new(alloc);
    for word in words.split_whitespace() {
        values.push(value_of(alloc, word)?)?;
    }
    Ok(Row::of(values))
}

// The rows of a text, each once.
fn rows_of(alloc: Global, text: &str) -> Result<ZSet, NoMemory> {
    if text.trim() == "-" {
        return Ok(ZSet::empty(alloc));
    }
    let mut rows = Vec::new(alloc);
    for words in text.split(';') {
        rows.push(row_of(alloc, words)?)?;
    }
    ZSet::of_rows(alloc, rows)
}

/// The tables of a text, which stand between bars.
pub fn tables_of(alloc: Global, text: &str) -> Result<Vec<ZSet>, NoMemory> {
    let mut tables = Vec::new(alloc);
    for table in text.split('|') {
        tables.push(rows_of(alloc, table)?)?;
    }
    Ok(tables)
}

fn put_number(alloc: Global, number: i64, out: &mut String) -> Result<(), Fail> {
    let text = format!(in alloc; "{number}")?;
    out.push_str(text.as_str())?;
    Ok(())
}

fn put_value(alloc: Global, value: &Value, out: &mut String) -> Result<(), Fail> {
    match value {
        Value::Null => out.push_str("null")?,
        Value::Int(number) => put_number(alloc, *number, out)?,
        Value::Text(text) => out.push_str(text.as_str())?,
    }
    Ok(())
}

fn put_row(alloc: Global, row: &Row, weight: i64, out: &mut String) -> Result<(), Fail> {
    for i in 0..row.len() {
        if i > 0 {
            out.push_str(" ")?;
        }
        put_value(alloc, row.at(i), out)?;
    }
    if weight != 1 {
        out.push_str("*")?;
        put_number(alloc, weight, out)?;
    }
    Ok(())
}

/// Puts the rows behind the text, ascending, each with its weight if that is not 1.
pub fn put_rows(alloc: Global, rows: &ZSet, out: &mut String) -> Result<(), Fail> {
    if rows.len() == 0 {
        out.push_str("-")?;
    }
    for i in 0..rows.len() {
        if i > 0 {
            out.push_str("; ")?;
        }
        let (row, weight) = rows.at(i);
        put_row(alloc, row, weight, out)?;
    }
    Ok(())
}
