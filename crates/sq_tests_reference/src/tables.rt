//! The tables of the reference, as lists of rows.
ghost use Rattle.std.specs.Prelude.{◌≡◌, IfOk, IsTrue};
ghost use Rattle.sq_typed.specs.Fit.{AreAllOfKinds, TablesAreOfKinds, kinds_of};
ghost use Rattle.sq_typed.specs.Laws.{rows_in as rows_in_lem};

use sq_catalog::{Catalog, Relation};
use sq_expr::{Kind, is_of_kinds};
use sq_typed::Update;
use sq_value::Row;
use sqlite_items::Items;
use std::alloc::Global;
use std::test::Fail;

/// The tables of a program, each without a row.
pub fn empty_tables(alloc: Global, catalog: &Catalog) -> Result<Vec<Items<Row>>, Fail> {
    let mut tables = Vec::new(alloc);
    for i in 0..catalog.len() {
        if catalog.at(i).kind.is_table() {
            tables.push(Items::new(alloc))?;
        }
    }
    Ok(tables)
}

/// The rows of a list by its number, and none if there is no such list.
pub fn rows_in(lists: &[Items<Row>], number: usize) -> &[Row]
    ensures { result.now ≡ rows_in_lem lists.now number }
{
    match lists.get(number) {
        Some(rows) => rows.as_slice(),
        None => &[],
    }
}

/// Tables of one's own with the same rows.
pub fn clone_tables(alloc: Global, tables: &[Items<Row>]) -> Result<Vec<Items<Row>>, Fail> {
    let mut copy = Vec::new(alloc);
    for rows in tables {
        copy.push(Items::from_vec(clone_rows(alloc, rows.as_slice())?))?;
    }
    Ok(copy)
}

/// Copies of the rows.
pub fn clone_rows(alloc: Global, rows: &[Row]) -> Result<Vec<Row>, Fail> {
    let mut copy = Vec::new(alloc);
    for row in rows {
        copy.push(row.clone_row(alloc)?)?;
    }
    Ok(copy)
}

/// Makes an update, if it can be made: an insert appends the row, a delete takes the first same row away.
pub fn apply(alloc: Global, tables: &mut Vec<Items<Row>>, update: &Update) -> Result<bool, Fail> {
    match tables.get_mut(update.table as usize) {
        Some(rows) => change_rows(alloc, rows, update),
        None => Ok(false),
    }
}

fn change_rows(alloc: Global, rows: &mut Items<Row>, update: &Update) -> Result<bool, Fail> {
    if update.insert {
        rows.push(update.row.clone_row(alloc)?)?;
        return Ok(true);
    }
    match rows.as_slice().iter().position(|row| *row == update.row) {
        Some(i) => {
            rows.remove(i);
            Ok(true)
        }
        None => Ok(false),
    }
}

/// Whether each table has rows of the kinds of its columns alone.
pub fn are_of_kinds(alloc: Global, catalog: &Catalog, tables: &[Items<Row>]) -> Result<bool, Fail>
    ensures { IfOk result (λ yes. IsTrue yes → TablesAreOfKinds tables.now catalog.now) }
{
    let mut left = tables.len();
    let count = catalog.len();
    for done in 0..count {
        let relation = catalog.at(count - 1 - done);
        if relation.kind.is_table() {
            if left == 0 {
                return Ok(false);
            }
            left -= 1;
            if !fits(alloc, relation, rows_in(tables, left))? {
                return Ok(false);
            }
        }
    }
    Ok(left == 0)
}

// Whether the rows are of the kinds of the columns.
fn fits(alloc: Global, relation: &Relation, rows: &[Row]) -> Result<bool, Fail>
    ensures { IfOk result (λ yes. IsTrue yes → AreAllOfKinds rows.now (kinds_of relation.now)) }
{
    let kinds = kinds_of(alloc, relation)?;
    Ok(have_kinds(rows, &kinds))
}

fn kinds_of(alloc: Global, relation: &Relation) -> Result<Vec<Kind>, Fail>
    ensures { IfOk result (λ kinds. kinds.items ≡ kinds_of relation.now) }
{
    let mut kinds = Vec::new(alloc);
    for column in relation.columns.as_slice() {
        kinds.push(column.kind)?;
    }
    Ok(kinds)
}

fn have_kinds(rows: &[Row], kinds: &[Kind]) -> bool
    ensures { IsTrue result → AreAllOfKinds rows.now kinds.now }
{
    for row in rows {
        if !is_of_kinds(row, kinds) {
            return false;
        }
    }
    true
}
