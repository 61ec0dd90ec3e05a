//! Catalogues: that calls succeed with ample memory, and what they answer for a small program.
use sq_catalog::{Catalog, CatalogFault, Column, Relation, RelationKind};
use sq_expr::Kind;
use sq_value::{NoMemory, Str};
use sqlite_items::Items;
use std::alloc::Global;
use std::process::Abort;
use std::test::Fail;

fn relation_of(alloc: Global, name: &str, kind: RelationKind) -> Result<Relation, NoMemory> {
    let column = Column {
        name: Str::of(alloc, "a")?,
        kind: Kind::Integer,
        nullable: true,
    };
    Ok(Relation {
        name: Str::of(alloc, name)?,
        kind,
        columns: Items::from_vec(vec![in alloc; column]?),
    })
}

// Puts in a relation whose name is not there yet.
fn add_new(
    rt: &impl Abort,
    alloc: Global,
    catalog: &mut Catalog,
    name: &str,
    kind: RelationKind,
) -> Result<(), Fail> {
    assert_eq!(rt; catalog.find(name), None);
    assert!(rt; catalog.len() < 3);
    let relation = relation_of(alloc, name, kind)?;
    catalog.add(alloc, relation)?;
    Ok(())
}

// A second relation of the name is refused, and leaves the catalogue as it is.
fn check_refused(
    rt: &impl Abort,
    alloc: Global,
    catalog: &mut Catalog,
    name: &str,
) -> Result<(), Fail> {
    let again = relation_of(alloc, name, RelationKind::Table)?;
    assert!(rt; catalog.len() == 3);
    assert_eq!(rt; catalog.add(alloc, again), Err(CatalogFault::DuplicateName));
    assert_eq!(rt; catalog.len(), 3);
    Ok(())
}

// The relation of the name stands at the place.
fn check_found(rt: &impl Abort, catalog: &Catalog, place: u32, name: &str, kind: RelationKind) {
    assert_eq!(rt; catalog.find(name), Some(place));
    assert!(rt; place < catalog.len());
    let relation = catalog.at(place);
    assert_eq!(rt; relation.name.as_str(), name);
    assert_eq!(rt; relation.kind, kind);
    assert_eq!(rt; relation.columns.as_slice().len(), 1);
}

const RELATIONS: [(&str, RelationKind); 3] = [
    ("t", RelationKind::Table),
    ("v", RelationKind::View { printed: true }),
    ("w", RelationKind::View { printed: false }),
];

fn add_all(rt: &impl Abort, alloc: Global, catalog: &mut Catalog) -> Result<(), Fail> {
    for (name, kind) in RELATIONS {
        add_new(rt, alloc, catalog, name, kind)?;
    }
    Ok(())
}

fn check_all(rt: &impl Abort, catalog: &Catalog) {
    for (i, (name, kind)) in RELATIONS.into_iter().enumerate() {
        check_found(rt, catalog, i as u32, name, kind);
    }
}

#[test]
fn relations_are_found_by_name_and_number(rt: HostRuntime) -> Result<(), Fail> {
    let alloc = rt.alloc();
    let mut catalog = Catalog::new(alloc);
    assert_eq!(rt; catalog.len(), 0);
    add_all(&rt, alloc, &mut catalog)?;
    check_refused(&rt, alloc, &mut catalog, "v")?;
    check_all(&rt, &catalog);
    assert_eq!(rt; catalog.find("V"), None);
    Ok(())
}

#[test]
fn relations_are_tables_or_views(rt: HostRuntime) {
    let rows = [
        (RelationKind::Table, [true, false, false]),
        (RelationKind::View { printed: true }, [false, true, true]),
        (RelationKind::View { printed: false }, [false, true, false]),
    ];
    for (kind, expected) in rows {
        assert_eq!(rt;
            [kind.is_table(), kind.is_view(), kind.is_printed()],
            expected
        );
    }
}
