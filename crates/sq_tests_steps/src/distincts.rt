//! DISTINCT step by step, beside DISTINCT of all rows.
use crate::rows::zset_of;
use crate::traces::row_trace;
use sq_base::Steps;
use sq_distinct::{distinct_step, distinct_whole};
use sq_zset::{ZFault, ZSet};
use std::alloc::Global;
use std::process::Abort;
use std::test::Fail;

type Items<'a> = &'a [(i64, i64)];

// The step from these rows by these changes, and its steps.
fn step_on(alloc: Global, old: &ZSet, d: &ZSet) -> Result<(ZSet, u64), ZFault> {
    let trace = row_trace(alloc, old)?;
    let mut steps = Steps::begin(());
    let answer = distinct_step(alloc, &trace, d, &mut steps);
    let count = steps.count();
    steps.end();
    Ok((answer?, count))
}

// The change of DISTINCT of all rows.
fn rise_on(alloc: Global, old: &ZSet, d: &ZSet) -> Result<ZSet, ZFault> {
    let before = distinct_whole(alloc, old)?;
    let after = distinct_whole(alloc, &old.plus(alloc, d)?)?;
    after.minus(alloc, &before)
}

// The step has these rows, as has the change of DISTINCT of all rows, and it takes a step for each changed row.
fn check_step(
    rt: &impl Abort,
    alloc: Global,
    old: Items<'_>,
    change: Items<'_>,
    expected: Items<'_>,
) -> Result<(), Fail> {
    let (old, d) = (zset_of(alloc, old)?, zset_of(alloc, change)?);
    let (answer, count) = step_on(alloc, &old, &d)?;
    let rise = rise_on(alloc, &old, &d)?;
    let wanted = zset_of(alloc, expected)?;
    let differences = (
        answer.minus(alloc, &rise)?.len(),
        answer.minus(alloc, &wanted)?.len(),
    );
    assert_eq!(rt; (differences, count), ((0, 0), d.len() as u64));
    Ok(())
}

#[test]
fn rows_come_and_go(rt: HostRuntime) -> Result<(), Fail> {
    let alloc = rt.alloc();
    check_step(&rt, alloc, &[(1, 1)], &[(1, -1)], &[(1, -1)])?;
    check_step(&rt, alloc, &[(1, 1)], &[(1, 2), (2, 3)], &[(2, 1)])?;
    check_step(
        &rt,
        alloc,
        &[(1, 3), (4, 1)],
        &[(1, -2), (4, -1)],
        &[(4, -1)],
    )?;
    check_step(&rt, alloc, &[(1, -1)], &[(1, 1)], &[])?;
    check_step(&rt, alloc, &[(1, -1), (3, 2)], &[(1, 2)], &[(1, 1)])
}
