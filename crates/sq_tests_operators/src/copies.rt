//! Copies of operators, and the entries that a Z-set hands over.

use crate::aggregates::by_first;
use crate::joins::both_columns;
use crate::rows::{row_of, zset_of};
use sq_expr::{Cond, Expr, Func};
use sq_ops::{AggSpec, Distinct, Keep, Pad, Pairing, Project};
use sq_value::Row;
use sq_zset::ZSet;
use sqlite_items::Items;
use std::alloc::Global;
use std::process::Abort;
use std::test::Fail;

// A copy of the aggregate is the same.
fn check_spec(rt: &impl Abort, alloc: Global, spec: &AggSpec) -> Result<(), Fail> {
    let copy = spec.clone_spec(alloc)?;
    assert!(rt; copy.is_same(spec));
    Ok(())
}

#[test]
fn a_copied_aggregate_is_the_same(rt: HostRuntime) -> Result<(), Fail> {
    let alloc = rt.alloc();
    let sum = by_first(alloc, Func::Sum)?;
    check_spec(&rt, alloc, &sum)?;
    let count = by_first(alloc, Func::Count)?;
    assert!(&rt; !count.is_same(&sum));
    Ok(())
}

// A copy of the projection is the same.
fn check_project(rt: &impl Abort, alloc: Global, project: &Project) -> Result<(), Fail> {
    let copy = project.clone_project(alloc)?;
    assert!(rt; copy.is_same(project));
    Ok(())
}

#[test]
fn a_copied_projection_is_the_same(rt: HostRuntime) -> Result<(), Fail> {
    let alloc = rt.alloc();
    let mut items = Items::new(alloc);
    items.push(Expr::Column(1))?;
    check_project(&rt, alloc, &Project { items })
}

#[test]
fn operators_without_lists_are_compared(rt: HostRuntime) {
    assert!(&rt; Pad { nulls: 2 }.is_same(&Pad { nulls: 2 }));
    assert!(&rt; !Pad { nulls: 2 }.is_same(&Pad { nulls: 3 }));
    assert!(&rt; Distinct.is_same(&Distinct));
}

// A copy of the test is the same.
fn check_keep(rt: &impl Abort, alloc: Global, keep: &Keep) -> Result<(), Fail> {
    let copy = keep.clone_keep(alloc)?;
    assert!(rt; copy.is_same(keep));
    Ok(())
}

#[test]
fn a_copied_test_is_the_same(rt: HostRuntime) -> Result<(), Fail> {
    let alloc = rt.alloc();
    let cond = Cond::All(Items::new(alloc));
    check_keep(&rt, alloc, &Keep { cond })
}

// A copy of the pairing is the same.
fn check_pairing(rt: &impl Abort, alloc: Global, pairing: &Pairing) -> Result<(), Fail> {
    let copy = pairing.clone_pairing(alloc)?;
    assert!(rt; copy.is_same(pairing));
    Ok(())
}

#[test]
fn a_copied_pairing_is_the_same(rt: HostRuntime) -> Result<(), Fail> {
    let alloc = rt.alloc();
    let pairing = both_columns(alloc, true)?;
    check_pairing(&rt, alloc, &pairing)
}

#[test]
fn entries_are_handed_over(rt: HostRuntime) -> Result<(), Fail> {
    let alloc = rt.alloc();
    let row = row_of(alloc, &[Some(1)])?;
    let entries = zset_of(alloc, &[(2, 5), (1, -3)])?.into_entries();
    assert_eq!(&rt; entries.len(), 2);
    assert!(&rt; entries[0] == (row, -3));
    Ok(())
}

// The same row twice.
fn two_nulls(alloc: Global) -> Result<Vec<Row>, Fail> {
    let mut rows = Vec::new(alloc);
    for _ in 0..2 {
        rows.push(row_of(alloc, &[None])?)?;
    }
    Ok(rows)
}

#[test]
fn rows_are_counted(rt: HostRuntime) -> Result<(), Fail> {
    let alloc = rt.alloc();
    let one = ZSet::of_row(alloc, row_of(alloc, &[None])?)?;
    assert_eq!(&rt; one.len(), 1);
    let two = ZSet::of_rows(alloc, two_nulls(alloc)?)?;
    assert_eq!(&rt; two.total(), 2);
    Ok(())
}
