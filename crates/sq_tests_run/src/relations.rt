//! The relations that the tests speak of, and what lines say over them.
use sq_catalog::{Catalog, Column, Relation, RelationKind};
use sq_expr::Kind;
use sq_lines::{Line, RawLine, decode};
use sq_value::Str;
use sqlite_items::Items;
use std::alloc::Global;
use std::test::Fail;

/// The number of each line.
pub const NUMBER: u64 = 7;

fn column(alloc: Global, name: &str, kind: Kind, nullable: bool) -> Result<Column, Fail> {
    let name = Str::of(alloc, name)?;
    Ok(Column {
        name,
        kind,
        nullable,
    })
}

fn relation(alloc: Global, name: &str, kind: RelationKind) -> Result<Relation, Fail> {
    let mut columns = Items::new(alloc);
    columns.push(column(alloc, "a", Kind::Integer, false)?)?;
    columns.push(column(alloc, "b", Kind::Bigint, true)?)?;
    columns.push(column(alloc, "c", Kind::Text, true)?)?;
    let name = Str::of(alloc, name)?;
    Ok(Relation {
        name,
        kind,
        columns,
    })
}

// The table `s`, the view `v` and the table `t`, each with the columns `a INTEGER NOT NULL, b BIGINT, c VARCHAR`.
fn catalog(alloc: Global) -> Result<Catalog, Fail> {
    let mut catalog = Catalog::new(alloc);
    let view = RelationKind::View { printed: true };
    let relations = [
        ("s", RelationKind::Table),
        ("v", view),
        ("t", RelationKind::Table),
    ];
    for (name, kind) in relations {
        if catalog.len() < 3 {
            catalog.add(alloc, relation(alloc, name, kind)?)?;
        }
    }
    Ok(catalog)
}

/// What a line says over these relations.
pub fn said(alloc: Global, bytes: &[u8]) -> Result<Line, Fail> {
    let catalog = catalog(alloc)?;
    let line = RawLine {
        number: NUMBER,
        bytes: Items::from_slice(alloc, bytes)?,
    };
    Ok(decode(alloc, &catalog, &line)?)
}
