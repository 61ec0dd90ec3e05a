//! DISTINCT of Z-sets: weights above 0 become 1, and others leave no row.

use crate::rows::{LIMIT, check_rows, zset_of};
use sq_distinct::distinct_whole;
use std::alloc::Global;
use std::process::Abort;
use std::test::Fail;

fn check_distinct(
    rt: &impl Abort,
    alloc: Global,
    items: &[(i64, i64)],
    expected: &[(i64, i64)],
) -> Result<(), Fail> {
    let z = zset_of(alloc, items)?;
    let answer = distinct_whole(alloc, &z)?;
    check_rows(rt, alloc, &answer, expected)
}

#[test]
fn weights_above_zero_become_one(rt: HostRuntime) -> Result<(), Fail> {
    let alloc = rt.alloc();
    check_distinct(&rt, alloc, &[(1, 3), (2, -1)], &[(1, 1)])?;
    check_distinct(
        &rt,
        alloc,
        &[(4, 1), (3, 2), (5, 1)],
        &[(3, 1), (4, 1), (5, 1)],
    )?;
    check_distinct(&rt, alloc, &[(1, LIMIT), (2, -LIMIT)], &[(1, 1)])
}

#[test]
fn weights_that_cancel_leave_no_row(rt: HostRuntime) -> Result<(), Fail> {
    let alloc = rt.alloc();
    check_distinct(&rt, alloc, &[(1, 3), (1, -3), (2, 1)], &[(2, 1)])?;
    check_distinct(&rt, alloc, &[], &[])
}
