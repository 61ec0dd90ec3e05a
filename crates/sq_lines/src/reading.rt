//! The reading of one change line.
ghost use Rattle.std.specs.Prelude.{◌≡◌, IfOk, option_map, codes};
ghost use Rattle.std.specs.List.{list_all};
ghost use Rattle.serde_json.specs.View.{view, members_view};
ghost use Rattle.serde_json.specs.Find.{as_object, get};
ghost use Rattle.sq_lines.specs.Lines.{decoded, is_blank_byte, json_of as json_of_lem, is_true as is_true_lem, asks_commit as asks_commit_lem};
ghost use Rattle.sq_lines.specs.Lines.{cells_line as cells_line_lem, row_line as row_line_lem, operation_line as operation_line_lem, table_line as table_line_lem, object_line as object_line_lem, json_line as json_line_lem};
ghost use Rattle.sq_lines.specs.Tables.{table_meant as table_meant_lem};

use crate::cells::{any_missing, any_out_of_range, any_wrong_type, cells};
use crate::table::table_meant;
use crate::{Line, RawLine, Why};
use serde_json::{Map, Value as Json};
use sq_catalog::{Catalog, Relation};
use sq_typed::Update;
use sq_value::{NoMemory, Row};
use std::alloc::Global;

/// The most bytes that a change line may have.
pub(crate) const LONGEST_LINE: usize = 1_048_576;

/// What a line says over the relations of the catalogue. `NoMemory` comes only from a refused allocation.
///
/// If a line is bad, the first rule that it breaks tells why, in the order of `Why`. Other members of the line and of its
/// row are passed over. If a member stands twice, the later counts. A missing member and `null` are NULL.
pub fn decode(alloc: Global, catalog: &Catalog, line: &RawLine) -> Result<Line, NoMemory>
    ensures { IfOk result (λ l. l ≡ decoded catalog.now line.now.number line.now.bytes) }
{
    let bytes = line.bytes.as_slice();
    if bytes.len() > LONGEST_LINE {
        return Ok(bad(line.number, Why::TooLong));
    }
    if is_blank(bytes) {
        return Ok(Line::Blank);
    }
    json_line(alloc, catalog, line.number, bytes)
}

fn bad(number: u64, why: Why) -> Line
    ensures { result ≡ Line.Bad number why }
{
    Line::Bad { number, why }
}

fn is_blank(bytes: &[u8]) -> bool
    ensures { result ≡ list_all is_blank_byte bytes.now }
{
    bytes.iter().all(|b| matches!(*b, b' ' | b'\t' | b'\r'))
}

fn json_line(alloc: Global, catalog: &Catalog, number: u64, bytes: &[u8]) -> Result<Line, NoMemory>
    ensures { IfOk result (λ l. l ≡ json_line_lem catalog.now number (json_of_lem bytes.now)) }
{
    match json_of(alloc, bytes)? {
        Some(json) => object_line(alloc, catalog, number, &json),
        None => Ok(bad(number, Why::NotJson)),
    }
}

#[tactic(auto, using(crate::proofs::JsonOf::json_found, crate::proofs::JsonOf::json_missing))]
fn json_of(alloc: Global, bytes: &[u8]) -> Result<Option<Json>, NoMemory>
    ensures { IfOk result (λ json. option_map view json ≡ json_of_lem bytes.now) }
{
    match Json::from_slice(alloc, bytes) {
        Ok(json) => Ok(Some(json)),
        Err(error) if error.is_memory() => Err(NoMemory),
        Err(_) => Ok(None),
    }
}

fn object_line(alloc: Global, catalog: &Catalog, number: u64, json: &Json) -> Result<Line, NoMemory>
    ensures { IfOk result (λ l. l ≡ object_line_lem catalog.now number (as_object (view json.now)) (view json.now)) }
{
    match json.as_object() {
        Some(members) if asks_commit(members, json) => Ok(Line::Commit),
        Some(_) => table_line(alloc, catalog, number, json),
        None => Ok(bad(number, Why::NotObject)),
    }
}

// `members` are those of the object `json`.
#[tactic(auto, using(crate::proofs::Members::count_members_of_view))]
fn asks_commit(members: &Map<String, Json>, json: &Json) -> bool
    ensures { result ≡ asks_commit_lem (members_view members.now.entries) (view json.now) }
{
    members.len() == 1 && is_true(json.get("commit"))
}

fn is_true(value: Option<&Json>) -> bool
    ensures { result ≡ is_true_lem (option_map (λ v. view v.now) value.entry) }
{
    value.and_then(Json::as_bool).unwrap_or(false)
}

fn table_line(alloc: Global, catalog: &Catalog, number: u64, json: &Json) -> Result<Line, NoMemory>
    ensures { IfOk result (λ l. l ≡ table_line_lem number (table_meant_lem catalog.now (get (codes "table") (view json.now))) (view json.now)) }
{
    match table_meant(catalog, json.get("table")) {
        Some((table, relation)) => operation_line(
            alloc,
            number,
            table,
            relation,
            json.get("insert"),
            json.get("delete"),
        ),
        None => Ok(bad(number, Why::NoTable)),
    }
}

fn operation_line(
    alloc: Global,
    number: u64,
    table: u32,
    relation: &Relation,
    inserted: Option<&Json>,
    deleted: Option<&Json>,
) -> Result<Line, NoMemory>
    ensures { IfOk result (λ l. l ≡ operation_line_lem number (table, relation.now) (option_map (λ v. view v.now) inserted.entry)
        (option_map (λ v. view v.now) deleted.entry)) }
{
    match (inserted, deleted) {
        (Some(row), None) => row_line(alloc, number, table, relation, true, row),
        (None, Some(row)) => row_line(alloc, number, table, relation, false, row),
        _ => Ok(bad(number, Why::NotOneOp)),
    }
}

fn row_line(
    alloc: Global,
    number: u64,
    table: u32,
    relation: &Relation,
    insert: bool,
    row: &Json,
) -> Result<Line, NoMemory>
    ensures { IfOk result (λ l. l ≡ row_line_lem number (table, relation.now) insert (view row.now)) }
{
    if row.is_object() {
        cells_line(alloc, number, table, relation, insert, row)
    } else {
        Ok(bad(number, Why::NotOneOp))
    }
}

fn cells_line(
    alloc: Global,
    number: u64,
    table: u32,
    relation: &Relation,
    insert: bool,
    row: &Json,
) -> Result<Line, NoMemory>
    ensures { IfOk result (λ l. l ≡ cells_line_lem number (table, relation.now) insert (view row.now)) }
{
    let columns = relation.columns.as_slice();
    if any_missing(row, columns) {
        return Ok(bad(number, Why::MissingColumn));
    }
    if any_wrong_type(row, columns) {
        return Ok(bad(number, Why::WrongType));
    }
    if any_out_of_range(row, columns) {
        return Ok(bad(number, Why::OutOfRange));
    }
    let row = Row::of(cells(alloc, row, columns)?);
    Ok(Line::Update(Update {
        line: number,
        table,
        insert,
        row,
    }))
}
