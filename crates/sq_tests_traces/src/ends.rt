//! The first and the last row of a key under a change, with their steps.
use crate::rows::{add, apply, change_of_two, greatest, least, zset_of};
use sq_trace::Trace;
use sq_zset::ZFault;
use std::alloc::Global;
use std::process::Abort;
use std::test::Fail;

/// A trace of the key 1 with these rows and weights, each in a commit of its own.
fn trace_of(alloc: Global, rows: &[(i64, i64)]) -> Result<Trace<i64>, ZFault> {
    let mut trace = Trace::new(alloc);
    for row in rows {
        add(alloc, &mut trace, 1, row.0, row.1)?;
    }
    Ok(trace)
}

/// Compares the two rows of the key 1, and their steps, under a change that adds some rows and takes others away.
fn check_ends(
    rt: &impl Abort,
    alloc: Global,
    trace: &Trace<i64>,
    change: (&[i64], &[i64]),
    ends: [(Option<i64>, u64); 2],
) -> Result<(), Fail> {
    let change = zset_of(alloc, change.0, change.1)?;
    assert_eq!(rt; least(alloc, trace, 1, &change)?, ends[0]);
    assert_eq!(rt; greatest(alloc, trace, 1, &change)?, ends[1]);
    Ok(())
}

#[test]
fn a_row_that_a_change_takes_away_is_passed_over(rt: HostRuntime) -> Result<(), Fail> {
    let alloc = rt.alloc();
    let mut trace = Trace::new(alloc);
    apply(alloc, &mut trace, &change_of_two(alloc, false, (2, 1))?)?;
    check_ends(
        &rt,
        alloc,
        &trace,
        (&[], &[7]),
        [(Some(5), 1), (Some(5), 2)],
    )
}

#[test]
fn an_empty_change_takes_one_step(rt: HostRuntime) -> Result<(), Fail> {
    let alloc = rt.alloc();
    let trace = trace_of(alloc, &[(5, 2), (7, 1)])?;
    check_ends(&rt, alloc, &trace, (&[], &[]), [(Some(5), 1), (Some(7), 1)])
}

#[test]
fn rows_of_other_keys_do_not_count(rt: HostRuntime) -> Result<(), Fail> {
    let alloc = rt.alloc();
    let mut trace = trace_of(alloc, &[(5, 1)])?;
    add(alloc, &mut trace, 0, 9, 1)?;
    add(alloc, &mut trace, 2, 1, 1)?;
    check_ends(&rt, alloc, &trace, (&[], &[]), [(Some(5), 1), (Some(5), 1)])?;
    check_ends(&rt, alloc, &trace, (&[], &[5]), [(None, 2), (None, 2)])
}

#[test]
fn sums_of_zero_at_an_end_are_passed_over(rt: HostRuntime) -> Result<(), Fail> {
    let alloc = rt.alloc();
    let trace = trace_of(alloc, &[(1, 1), (2, 1), (3, 1), (4, 1)])?;
    check_ends(
        &rt,
        alloc,
        &trace,
        (&[], &[1, 2]),
        [(Some(3), 3), (Some(4), 1)],
    )?;
    check_ends(
        &rt,
        alloc,
        &trace,
        (&[], &[3, 4]),
        [(Some(1), 1), (Some(2), 3)],
    )?;
    check_ends(
        &rt,
        alloc,
        &trace,
        (&[], &[1, 4]),
        [(Some(2), 2), (Some(3), 2)],
    )
}

#[test]
fn a_sum_of_zero_over_several_commits_is_passed_over(rt: HostRuntime) -> Result<(), Fail> {
    let alloc = rt.alloc();
    let trace = trace_of(alloc, &[(1, 1), (2, 1), (3, 1), (4, 1), (1, -1), (4, -1)])?;
    check_ends(&rt, alloc, &trace, (&[], &[]), [(Some(2), 1), (Some(3), 1)])?;
    check_ends(
        &rt,
        alloc,
        &trace,
        (&[4, 1], &[2]),
        [(Some(1), 1), (Some(4), 1)],
    )
}

#[test]
fn rows_of_the_change_that_are_not_in_the_trace_count(rt: HostRuntime) -> Result<(), Fail> {
    let alloc = rt.alloc();
    let trace = trace_of(alloc, &[(5, 2), (7, 1)])?;
    check_ends(
        &rt,
        alloc,
        &trace,
        (&[3, 9], &[]),
        [(Some(3), 2), (Some(9), 2)],
    )?;
    check_ends(
        &rt,
        alloc,
        &trace,
        (&[6], &[]),
        [(Some(5), 1), (Some(7), 1)],
    )?;
    check_ends(
        &rt,
        alloc,
        &trace,
        (&[6], &[5, 5, 7]),
        [(Some(6), 3), (Some(6), 3)],
    )?;
    check_ends(
        &rt,
        alloc,
        &Trace::new(alloc),
        (&[2, 4], &[]),
        [(Some(2), 2), (Some(4), 2)],
    )
}

#[test]
fn no_row_may_be_left(rt: HostRuntime) -> Result<(), Fail> {
    let alloc = rt.alloc();
    let trace = trace_of(alloc, &[(5, 2), (7, 1)])?;
    check_ends(
        &rt,
        alloc,
        &trace,
        (&[], &[5, 5, 7]),
        [(None, 3), (None, 3)],
    )?;
    check_ends(
        &rt,
        alloc,
        &trace,
        (&[], &[5, 7]),
        [(Some(5), 1), (Some(5), 2)],
    )?;
    check_ends(
        &rt,
        alloc,
        &Trace::new(alloc),
        (&[], &[]),
        [(None, 1), (None, 1)],
    )
}
