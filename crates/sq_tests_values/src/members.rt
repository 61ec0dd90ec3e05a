//! The members of conditions, and the sources that they belong to.
use sq_expr::{Cmp, Cond, Expr};
use sq_members::{members, members_at, members_of, push_copies};
use sqlite_items::Items;
use std::alloc::Global;
use std::process::Abort;
use std::test::Fail;

// A first source of two columns, and a second of one.
const WIDTHS: [usize; 2] = [2, 1];

fn equal(left: u32, right: u32) -> Cond {
    Cond::Compare {
        cmp: Cmp::Eq,
        left: Expr::Column(left),
        right: Expr::Column(right),
    }
}

// A member that names both sources, one that names the first alone, and one that names none.
fn three_members(alloc: Global) -> Result<Cond, Fail> {
    let mut parts = Items::new(alloc);
    parts.push(equal(0, 2))?;
    parts.push(equal(1, 0))?;
    parts.push(Cond::All(Items::new(alloc)))?;
    Ok(Cond::All(parts))
}

fn all_members(alloc: Global) -> Result<Vec<Cond>, Fail> {
    let cond = three_members(alloc)?;
    Ok(members(alloc, &cond)?)
}

fn is_equality(cond: Option<&Cond>, (left, right): (u32, u32)) -> bool {
    match cond {
        Some(cond) => cond.is_same(&equal(left, right)),
        None => false,
    }
}

// How many of the conditions belong to the source, and whether the first of these compares the two columns.
fn found_at(
    alloc: Global,
    conds: &[Cond],
    source: usize,
    columns: (u32, u32),
) -> Result<(usize, bool), Fail> {
    let found = members_at(alloc, &WIDTHS, conds, source)?;
    Ok((found.len(), is_equality(found.first(), columns)))
}

fn check_sources(rt: &impl Abort, alloc: Global, all: &[Cond]) -> Result<(), Fail> {
    let rows = [
        (1, (1, 0), (2, true)),
        (2, (0, 2), (1, true)),
        (3, (0, 2), (0, false)),
    ];
    for (source, columns, expected) in rows {
        assert_eq!(rt; found_at(alloc, all, source, columns)?, expected);
    }
    Ok(())
}

#[test]
fn members_belong_to_their_latest_source(rt: HostRuntime) -> Result<(), Fail> {
    let all = all_members(rt.alloc())?;
    assert_eq!(rt; all.len(), 3);
    check_sources(&rt, rt.alloc(), &all)
}

// The members of a comparison, or of nothing, and then a copy of another one.
fn members_and_copy(alloc: Global, is_there: bool) -> Result<Vec<Cond>, Fail> {
    let cond = if is_there { Some(equal(0, 1)) } else { None };
    let mut to = members_of(alloc, &cond)?;
    push_copies(alloc, &[equal(2, 3)], &mut to)?;
    Ok(to)
}

#[test]
fn copies_stand_behind_others(rt: HostRuntime) -> Result<(), Fail> {
    for (is_there, expected) in [(true, 2), (false, 1)] {
        let to = members_and_copy(rt.alloc(), is_there)?;
        assert_eq!(rt; to.len(), expected);
        assert!(rt; is_equality(to.last(), (2, 3)));
    }
    Ok(())
}
