//! The rows of a block by groups, and the rows of its items.
ghost use Rattle.std.specs.Prelude.{◌≡◌, ◌++◌, ◌∷◌, [], filter, map, IfOk, OnOk, Err, Some, true, false};
ghost use Rattle.std.specs.List.{AllByRecursion, flat_map, list_any};
ghost use Rattle.std.specs.Ordering.{is_eq};
ghost use Rattle.sq_expr.specs.Fits.{Fits};
ghost use Rattle.sq_expr.specs.Meaning.{column_of, num, columns_of};
ghost use Rattle.sq_lists.specs.Values.{ArgumentFits, groups_at, is_argument_outside, is_call_outside, is_group_outside, rows_at};
ghost use Rattle.sq_typed.specs.Blocks.{call_value, group_row, groups, selected, tested_calls};
ghost use Rattle.sq_typed.specs.Queries.{is_outside};
ghost use Rattle.sq_value.specs.Order.{row_cmp};

use crate::Stop;
use crate::aggregate::{arguments, call_value, value_on};
use crate::join::push_values;
use crate::sets::first_of_each;
use sq_expr::Expr;
use sq_typed::{BlockCall, Grouping};
use sq_value::{NoMemory, Row, Value};
use std::alloc::Global;

// The value in a column; NULL if the row has no such column.
fn column_of(alloc: Global, row: &Row, column: u32) -> Result<Value, NoMemory>
    ensures { IfOk result (λ value. value ≡ column_of row.now column) }
{
    let at = column as usize;
    if at < row.len() {
        row.at(at).clone_value(alloc)
    } else {
        Ok(Value::Null)
    }
}

// The values in these columns.
fn key_of(alloc: Global, columns: &[u32], row: &Row) -> Result<Row, NoMemory>
    ensures { IfOk result (λ key. key ≡ columns_of columns.now row.now) }
{
    let mut values = Vec::with_capacity(alloc, columns.len())?;
    for column in columns {
        let value = column_of(alloc, row, *column)?;
        values.push(value)?;
    }
    Ok(Row::of(values))
}

// The values in these columns of each row.
fn keys_of(alloc: Global, columns: &[u32], rows: &[Row]) -> Result<Vec<Row>, NoMemory>
    ensures { IfOk result (λ keys. keys.items ≡ map (columns_of columns.now) rows.now) }
{
    let mut keys = Vec::with_capacity(alloc, rows.len())?;
    for row in rows {
        let key = key_of(alloc, columns, row)?;
        keys.push(key)?;
    }
    Ok(keys)
}

// Appends a copy of the row, if it has this key.
fn push_member(
    alloc: Global,
    columns: &[u32],
    key: &Row,
    row: &Row,
    to: &mut Vec<Row>,
) -> Result<(), NoMemory>
    ensures { OnOk result (to.new.items ≡ to.old.items ++ filter (λ row. is_eq (row_cmp key.now (columns_of columns.now row))) (row.now ∷ [])) }
{
    let other = key_of(alloc, columns, row)?;
    if *key == other {
        to.push(row.clone_row(alloc)?)?;
    }
    Ok(())
}

// The rows with this key.
fn members(alloc: Global, columns: &[u32], key: &Row, rows: &[Row]) -> Result<Vec<Row>, NoMemory>
    ensures { IfOk result (λ members. members.items ≡ filter (λ row. is_eq (row_cmp key.now (columns_of columns.now row))) rows.now) }
{
    let mut members = Vec::new(alloc);
    for row in rows {
        push_member(alloc, columns, key, row, &mut members)?;
    }
    Ok(members)
}

// The key of a group, and then the values of the calls over its rows.
fn group_row(alloc: Global, calls: &[BlockCall], key: &Row, rows: &[Row]) -> Result<Row, Stop>
    requires { AllByRecursion (λ c. AllByRecursion (ArgumentFits c.arg) rows.now) calls.now }
    ensures ok { IfOk result (λ row. row ≡ group_row calls.now (key.now, rows.now)) }
    ensures inside { OnOk result (list_any (is_call_outside rows.now) calls.now ≡ false) }
    ensures range { result ≡ Err Stop.Range → list_any (is_call_outside rows.now) calls.now ≡ true }
{
    let mut values = Vec::with_capacity(alloc, key.len())?;
    push_values(alloc, key, &mut values)?;
    push_calls(alloc, calls, rows, &mut values)?;
    Ok(Row::of(values))
}

// Appends the values of the calls over the rows of a group.
fn push_calls(
    alloc: Global,
    calls: &[BlockCall],
    rows: &[Row],
    to: &mut Vec<Value>,
) -> Result<(), Stop>
    requires { AllByRecursion (λ c. AllByRecursion (ArgumentFits c.arg) rows.now) calls.now }
    ensures ok { OnOk result (to.new.items ≡ to.old.items ++ map (λ c. call_value c.func c.arg rows.now) calls.now) }
    ensures inside { OnOk result (list_any (is_call_outside rows.now) calls.now ≡ false) }
    ensures range { result ≡ Err Stop.Range → list_any (is_call_outside rows.now) calls.now ≡ true }
{
    for call in calls {
        let value = call_value(alloc, call, rows)?;
        to.push(value)?;
    }
    Ok(())
}

// The row of the group with this key.
fn one_group(
    alloc: Global,
    columns: &[u32],
    calls: &[BlockCall],
    key: &Row,
    rows: &[Row],
) -> Result<Row, Stop>
    requires { AllByRecursion (λ c. AllByRecursion (ArgumentFits c.arg) rows.now) calls.now }
    ensures ok { IfOk result (λ row. row ≡ group_row calls.now (key.now, rows_at columns.now key.now rows.now)) }
    ensures inside { OnOk result (is_group_outside calls.now (key.now, rows_at columns.now key.now rows.now) ≡ false) }
    ensures range { result ≡ Err Stop.Range → is_group_outside calls.now (key.now, rows_at columns.now key.now rows.now) ≡ true }
{
    let members = members(alloc, columns, key, rows)?;
    group_row(alloc, calls, key, &members)
}

// The rows of the groups with these keys.
fn each_group(
    alloc: Global,
    columns: &[u32],
    calls: &[BlockCall],
    keys: &[Row],
    rows: &[Row],
) -> Result<Vec<Row>, Stop>
    requires { AllByRecursion (λ c. AllByRecursion (ArgumentFits c.arg) rows.now) calls.now }
    ensures ok { IfOk result (λ r. r.items ≡ map (group_row calls.now) (groups_at columns.now keys.now rows.now)) }
    ensures inside { OnOk result (list_any (is_group_outside calls.now) (groups_at columns.now keys.now rows.now) ≡ false) }
    ensures range { result ≡ Err Stop.Range → list_any (is_group_outside calls.now) (groups_at columns.now keys.now rows.now) ≡ true }
{
    let mut grouped = Vec::with_capacity(alloc, keys.len())?;
    for key in keys {
        let row = one_group(alloc, columns, calls, key, rows)?;
        grouped.push(row)?;
    }
    Ok(grouped)
}

// The row of the one group that all rows are.
fn all_in_one(alloc: Global, calls: &[BlockCall], rows: &[Row]) -> Result<Vec<Row>, Stop>
    requires { AllByRecursion (λ c. AllByRecursion (ArgumentFits c.arg) rows.now) calls.now }
    ensures ok { IfOk result (λ r. r.items ≡ map (group_row calls.now) (groups [] rows.now)) }
    ensures inside { OnOk result (list_any (is_group_outside calls.now) (groups [] rows.now) ≡ false) }
    ensures range { result ≡ Err Stop.Range → list_any (is_group_outside calls.now) (groups [] rows.now) ≡ true }
{
    let key = Row::of(Vec::new(alloc));
    let row = group_row(alloc, calls, &key, rows)?;
    Ok(vec![in alloc; row]?)
}

// The rows of the groups.
#[tactic(auto, using(crate::proofs::Groups::groups_some))]
fn group_rows(
    alloc: Global,
    columns: &[u32],
    calls: &[BlockCall],
    rows: &[Row],
) -> Result<Vec<Row>, Stop>
    requires { AllByRecursion (λ c. AllByRecursion (ArgumentFits c.arg) rows.now) calls.now }
    ensures ok { IfOk result (λ r. r.items ≡ map (group_row calls.now) (groups columns.now rows.now)) }
    ensures inside { OnOk result (list_any (is_group_outside calls.now) (groups columns.now rows.now) ≡ false) }
    ensures range { result ≡ Err Stop.Range → list_any (is_group_outside calls.now) (groups columns.now rows.now) ≡ true }
{
    if columns.is_empty() {
        return all_in_one(alloc, calls, rows);
    }
    let keys = keys_of(alloc, columns, rows)?;
    let firsts = first_of_each(alloc, &keys)?;
    each_group(alloc, columns, calls, &firsts, rows)
}

// Tests the argument of a call on all rows.
fn test_argument(alloc: Global, call: &BlockCall, rows: &[Row]) -> Result<(), Stop>
    requires { AllByRecursion (ArgumentFits call.now.arg) rows.now }
    ensures inside { OnOk result (is_argument_outside rows.now call.now ≡ false) }
    ensures range { result ≡ Err Stop.Range → is_argument_outside rows.now call.now ≡ true }
{
    arguments(alloc, &call.arg, rows)?;
    Ok(())
}

// Tests the arguments of the calls on all rows.
fn test_arguments(alloc: Global, calls: &[BlockCall], rows: &[Row]) -> Result<(), Stop>
    requires { AllByRecursion (λ c. AllByRecursion (ArgumentFits c.arg) rows.now) calls.now }
    ensures inside { OnOk result (list_any (is_argument_outside rows.now) calls.now ≡ false) }
    ensures range { result ≡ Err Stop.Range → list_any (is_argument_outside rows.now) calls.now ≡ true }
{
    for call in calls {
        test_argument(alloc, call, rows)?;
    }
    Ok(())
}

/// The rows of the groups of the rows: the columns of `GROUP BY`, and then the values of the calls. The rows are of kinds
/// that the arguments of the calls suit.
#[tactic(auto, using(crate::proofs::Groups::nothing_outside, crate::proofs::Groups::arguments_outside, crate::proofs::Groups::groups_outside))]
pub(crate) fn grouped(alloc: Global, grouping: &Grouping, rows: &[Row]) -> Result<Vec<Row>, Stop>
    requires { AllByRecursion (λ c. AllByRecursion (ArgumentFits c.arg) rows.now) grouping.now.calls }
    ensures ok { IfOk result (λ r. r.items ≡ map (group_row grouping.now.calls) (groups grouping.now.columns rows.now)) }
    ensures inside { OnOk result (list_any is_outside (tested_calls (Some grouping.now) rows.now) ≡ false) }
    ensures range { result ≡ Err Stop.Range → list_any is_outside (tested_calls (Some grouping.now) rows.now) ≡ true }
{
    let calls = grouping.calls.as_slice();
    test_arguments(alloc, calls, rows)?;
    group_rows(alloc, grouping.columns.as_slice(), calls, rows)
}

// The items on the row. The row is of kinds that they suit.
fn item_row(alloc: Global, items: &[Expr], row: &Row) -> Result<Row, Stop>
    requires { AllByRecursion (λ e. Fits e row.now) items.now }
    ensures ok { IfOk result (λ r. r ≡ map (λ e. num e row.now) items.now) }
    ensures inside { OnOk result (list_any is_outside (map (λ e. num e row.now) items.now) ≡ false) }
    ensures range { result ≡ Err Stop.Range → list_any is_outside (map (λ e. num e row.now) items.now) ≡ true }
{
    let mut values = Vec::with_capacity(alloc, items.len())?;
    for expr in items {
        let value = value_on(alloc, expr, row)?;
        values.push(value)?;
    }
    Ok(Row::of(values))
}

/// The items on each of the rows, which are of kinds that they suit.
pub(crate) fn selected(alloc: Global, items: &[Expr], rows: &[Row]) -> Result<Vec<Row>, Stop>
    requires { AllByRecursion (λ row. AllByRecursion (λ e. Fits e row) items.now) rows.now }
    ensures ok { IfOk result (λ r. r.items ≡ selected items.now rows.now) }
    ensures inside { OnOk result (list_any is_outside (flat_map (λ row. row) (selected items.now rows.now)) ≡ false) }
    ensures range { result ≡ Err Stop.Range → list_any is_outside (flat_map (λ row. row) (selected items.now rows.now)) ≡ true }
{
    let mut selected = Vec::with_capacity(alloc, rows.len())?;
    for row in rows {
        let row = item_row(alloc, items, row)?;
        selected.push(row)?;
    }
    Ok(selected)
}
