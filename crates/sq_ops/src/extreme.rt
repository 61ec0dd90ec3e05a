//! The least and the greatest value in a column.
ghost use Rattle.std.specs.Prelude.{◌≡◌, fold, IfOk};
ghost use Rattle.sq_expr.specs.Meaning.{column_of, is_null};
ghost use Rattle.sq_ops.specs.Aggregates.{greater, lesser, values_in};
ghost use Rattle.sq_value.specs.declared.value.Value.TheVariants.{Null};

use sq_value::{NoMemory, Row, Value};
use sq_zset::ZSet;
use std::alloc::Global;

/// The least value in the column, NULL if there is none.
pub fn least_in(alloc: Global, z: &ZSet, column: u32) -> Result<Value, NoMemory>
    ensures { IfOk result (λ value. value ≡ fold lesser Null (values_in column z.now)) }
{
    let null = Value::Null;
    let mut least = &null;
    for i in 0..z.len() {
        let (row, _) = z.at(i);
        least = the_lesser(least, value_at(row, column, &null));
    }
    let copy = least.clone_value(alloc)?;
    Ok(copy)
}

/// The greatest value in the column, NULL if there is none.
pub fn greatest_in(alloc: Global, z: &ZSet, column: u32) -> Result<Value, NoMemory>
    ensures { IfOk result (λ value. value ≡ fold greater Null (values_in column z.now)) }
{
    let null = Value::Null;
    let mut greatest = &null;
    for i in 0..z.len() {
        let (row, _) = z.at(i);
        greatest = the_greater(greatest, value_at(row, column, &null));
    }
    let copy = greatest.clone_value(alloc)?;
    Ok(copy)
}

// The value in the column; NULL if the row has no such column.
fn value_at<'a>(row: &'a Row, column: u32, null: &'a Value) -> &'a Value
    requires { null.now ≡ Null }
    ensures { result.now ≡ column_of row.now column }
{
    let place = column as usize;
    if place >= row.len() {
        return null;
    }
    row.at(place)
}

fn is_null(value: &Value) -> bool
    ensures { result ≡ is_null value.now }
{
    match value {
        Value::Null => true,
        Value::Int(_) => false,
        Value::Text(_) => false,
    }
}

// The lesser of two values; NULL is none.
fn the_lesser<'a>(a: &'a Value, b: &'a Value) -> &'a Value
    ensures { result.now ≡ lesser a.now b.now }
{
    if is_null(b) {
        return a;
    }
    if is_null(a) || *b < *a { b } else { a }
}

// The greater of two values; NULL is none.
fn the_greater<'a>(a: &'a Value, b: &'a Value) -> &'a Value
    ensures { result.now ≡ greater a.now b.now }
{
    if *a < *b { b } else { a }
}
