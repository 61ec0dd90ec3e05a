//! The columns of set operations.
ghost use Rattle.std.specs.Prelude.{◌≡◌, IfOk, Some, slice_get};
ghost use Rattle.sq_expr.specs.Typing.{are_alike, sort_of_kind};
ghost use Rattle.sq_typed.specs.Faults.{differ_in_sort};
ghost use Rattle.sq_check.specs.QueriesFound.{is_unlike, wider_by};
ghost use Rattle.sq_typed.specs.Resolved.{wider as wider_kind, widened as wider_columns};

use sq_catalog::Column;
use sq_expr::Kind;
use sq_value::NoMemory;
use sqlite_items::Items;
use std::alloc::Global;

/// Whether a place has a number in one list of columns and a text in the other.
pub(crate) fn sorts_differ(columns: &[Column], others: &[Column]) -> bool
    ensures { result ≡ differ_in_sort columns.now others.now }
{
    for (i, column) in columns.iter().enumerate() {
        if is_unlike_at(column.kind, others, i) {
            return true;
        }
    }
    false
}

/// Whether there is another kind at a place of the list, and it is of the other sort.
fn is_unlike_at(kind: Kind, others: &[Column], i: usize) -> bool
    ensures { result ≡ is_unlike kind (slice_get others.now i) }
{
    match others.get(i) {
        Some(other) => !are_comparable(kind, other.kind),
        None => false,
    }
}

/// Whether both are numbers or both are texts.
fn are_comparable(a: Kind, b: Kind) -> bool
    ensures { result ≡ are_alike (Some (sort_of_kind a)) (Some (sort_of_kind b)) }
{
    match (a, b) {
        (Kind::Text, Kind::Text) => true,
        (Kind::Text, Kind::Integer | Kind::Bigint) => false,
        (Kind::Integer | Kind::Bigint, Kind::Text) => false,
        (Kind::Integer | Kind::Bigint, Kind::Integer | Kind::Bigint) => true,
    }
}

/// These columns, each of the wider kind if the other list has one at its place.
pub(crate) fn widened(
    alloc: Global,
    columns: &[Column],
    others: &[Column],
) -> Result<Items<Column>, NoMemory>
    ensures { IfOk result (λ wide. wide ≡ wider_columns columns.now others.now) }
{
    let mut wide = Items::new(alloc);
    for (i, column) in columns.iter().enumerate() {
        wide.push(Column {
            name: column.name.clone_str(alloc)?,
            kind: wider_at(column.kind, others, i),
            nullable: column.nullable,
        })?;
    }
    Ok(wide)
}

/// The kind, or the wider one at a place of the list.
fn wider_at(kind: Kind, others: &[Column], i: usize) -> Kind
    ensures { result ≡ wider_by kind (slice_get others.now i) }
{
    match others.get(i) {
        Some(other) => wider(kind, other.kind),
        None => kind,
    }
}

/// The kind, or `BIGINT` for an `INTEGER` beside a `BIGINT`.
fn wider(kind: Kind, other: Kind) -> Kind
    ensures { result ≡ wider_kind kind other }
{
    match (kind, other) {
        (Kind::Integer, Kind::Bigint) => Kind::Bigint,
        (Kind::Integer, Kind::Integer | Kind::Text) => Kind::Integer,
        (Kind::Bigint | Kind::Text, _) => kind,
    }
}
