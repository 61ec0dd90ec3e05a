//! What the members of a row say for the columns of its table.
ghost use Rattle.std.specs.Prelude.{◌≡◌, IfOk, map, option_map};
ghost use Rattle.std.specs.List.{list_any};
ghost use Rattle.serde_json.specs.View.{view, number_view};
ghost use Rattle.serde_json.specs.Find.{as_i64, as_integer};
ghost use Rattle.sq_lines.specs.Cells.{is_null as is_null_lem, is_missing as is_missing_lem, is_number as is_number_lem, is_unlike as is_unlike_lem, has_wrong_type as has_wrong_type_lem};
ghost use Rattle.sq_lines.specs.Cells.{is_beyond, number_outside as number_outside_lem, is_out_of_range as is_out_of_range_lem, number_cell as number_cell_lem, value_of as value_of_lem, cell as cell_lem};

use serde_json::{Number, Value as Json};
use sq_catalog::Column;
use sq_expr::Kind;
use sq_value::{NoMemory, Str, Value};
use std::alloc::Global;

// Whether some NOT NULL column has no value.
pub(crate) fn any_missing(row: &Json, columns: &[Column]) -> bool
    ensures { result ≡ list_any (is_missing_lem (view row.now)) columns.now }
{
    columns.iter().any(|column| is_missing(row, column))
}

fn is_missing(row: &Json, column: &Column) -> bool
    ensures { result ≡ is_missing_lem (view row.now) column.now }
{
    !column.nullable && is_null(row.get(column.name.as_str()))
}

fn is_null(member: Option<&Json>) -> bool
    ensures { result ≡ is_null_lem (option_map (λ v. view v.now) member.entry) }
{
    match member {
        None | Some(Json::Null) => true,
        Some(_) => false,
    }
}

// Whether some column's value is not of the column's sort.
pub(crate) fn any_wrong_type(row: &Json, columns: &[Column]) -> bool
    ensures { result ≡ list_any (has_wrong_type_lem (view row.now)) columns.now }
{
    columns.iter().any(|column| has_wrong_type(row, column))
}

fn has_wrong_type(row: &Json, column: &Column) -> bool
    ensures { result ≡ has_wrong_type_lem (view row.now) column.now }
{
    is_unlike(column.kind, row.get(column.name.as_str()))
}

fn is_unlike(kind: Kind, member: Option<&Json>) -> bool
    ensures { result ≡ is_unlike_lem kind (option_map (λ v. view v.now) member.entry) }
{
    match member {
        None | Some(Json::Null) => false,
        Some(Json::Number(number)) => !(is_number(kind) && number.as_i128().is_some()),
        Some(Json::String(_)) => is_number(kind),
        Some(_) => true,
    }
}

fn is_number(kind: Kind) -> bool
    ensures { result ≡ is_number_lem kind }
{
    match kind {
        Kind::Integer | Kind::Bigint => true,
        Kind::Text => false,
    }
}

// Whether some number is outside its column's type.
pub(crate) fn any_out_of_range(row: &Json, columns: &[Column]) -> bool
    ensures { result ≡ list_any (is_out_of_range_lem (view row.now)) columns.now }
{
    columns.iter().any(|column| is_out_of_range(row, column))
}

fn is_out_of_range(row: &Json, column: &Column) -> bool
    ensures { result ≡ is_out_of_range_lem (view row.now) column.now }
{
    number_outside(column.kind, row.get(column.name.as_str()))
}

fn number_outside(kind: Kind, member: Option<&Json>) -> bool
    ensures { result ≡ number_outside_lem kind (option_map (λ v. view v.now) member.entry) }
{
    match member {
        Some(Json::Number(number)) => whole_outside(kind, number),
        _ => false,
    }
}

fn whole_outside(kind: Kind, number: &Number) -> bool
    ensures { result ≡ is_beyond kind (as_integer (number_view number.now)) }
{
    match number.as_i128() {
        Some(n) => match kind {
            Kind::Integer => n < -2_147_483_648 || n > 2_147_483_647,
            Kind::Bigint => n < -9_223_372_036_854_775_808 || n > 9_223_372_036_854_775_807,
            Kind::Text => false,
        },
        None => false,
    }
}

// The row of these columns, whose members are of the columns' types.
pub(crate) fn cells(alloc: Global, row: &Json, columns: &[Column]) -> Result<Vec<Value>, NoMemory>
    ensures { IfOk result (λ cells. cells.items ≡ map (cell_lem (view row.now)) columns.now) }
{
    let mut cells = Vec::with_capacity(alloc, columns.len())?;
    for column in columns {
        let value = cell(alloc, row, column)?;
        cells.push(value)?;
    }
    Ok(cells)
}

fn cell(alloc: Global, row: &Json, column: &Column) -> Result<Value, NoMemory>
    ensures { IfOk result (λ value. value ≡ cell_lem (view row.now) column.now) }
{
    value_of(alloc, row.get(column.name.as_str()))
}

fn value_of(alloc: Global, member: Option<&Json>) -> Result<Value, NoMemory>
    ensures { IfOk result (λ value. value ≡ value_of_lem (option_map (λ v. view v.now) member.entry)) }
{
    match member {
        Some(Json::Number(number)) => Ok(number_cell(number)),
        Some(Json::String(text)) => Ok(Value::Text(Str::of(alloc, text.as_str())?)),
        _ => Ok(Value::Null),
    }
}

fn number_cell(number: &Number) -> Value
    ensures { result ≡ number_cell_lem (as_i64 (number_view number.now)) }
{
    match number.as_i64() {
        Some(n) => Value::Int(n),
        None => Value::Null,
    }
}
