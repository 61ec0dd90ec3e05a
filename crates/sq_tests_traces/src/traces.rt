//! Look-ups after commits, with their steps.
use crate::rows::{add, apply, change_of_two, look, look_up_key, row_of, walk};
use sq_trace::{Entry, Trace};
use sq_zset::ZFault;
use std::alloc::Global;
use std::process::Abort;
use std::test::Fail;

fn check_entries(
    rt: &impl Abort,
    alloc: Global,
    entries: &[Entry<i64>],
    expected: &[(i64, i64, i64)],
) -> Result<(), Fail> {
    assert_eq!(rt; entries.len(), expected.len());
    for (entry, wanted) in entries.iter().zip(expected) {
        assert!(rt; entry.key == row_of(alloc, wanted.0)?);
        assert!(rt; entry.row == row_of(alloc, wanted.1)?);
        assert_eq!(rt; entry.payload, wanted.2);
    }
    Ok(())
}

fn two_rows(alloc: Global) -> Result<Trace<i64>, ZFault> {
    let mut trace = Trace::new(alloc);
    apply(alloc, &mut trace, &change_of_two(alloc, false, (2, 1))?)?;
    Ok(trace)
}

#[test]
fn a_payload_is_found_in_one_step(rt: HostRuntime) -> Result<(), Fail> {
    let alloc = rt.alloc();
    let trace = two_rows(alloc)?;
    assert_eq!(rt; look(alloc, &trace, 1, 5)?, (Some(2), 1));
    assert_eq!(rt; look(alloc, &trace, 1, 6)?, (None, 1));
    assert_eq!(rt; look(alloc, &trace, 2, 5)?, (None, 1));
    Ok(())
}

#[test]
fn rows_of_a_key_take_one_step_more_than_there_are(rt: HostRuntime) -> Result<(), Fail> {
    let alloc = rt.alloc();
    let trace = two_rows(alloc)?;
    let (rows, count) = look_up_key(alloc, &trace, 1)?;
    assert_eq!(rt; count, 3);
    check_entries(&rt, alloc, &rows, &[(1, 5, 2), (1, 7, 1)])
}

#[test]
fn a_walk_takes_a_step_for_each_row(rt: HostRuntime) -> Result<(), Fail> {
    let alloc = rt.alloc();
    let trace = two_rows(alloc)?;
    let (rows, count) = walk(alloc, &trace)?;
    assert_eq!(rt; count, 2);
    check_entries(&rt, alloc, &rows, &[(1, 5, 2), (1, 7, 1)])
}

#[test]
fn a_row_that_is_taken_away_is_gone(rt: HostRuntime) -> Result<(), Fail> {
    let alloc = rt.alloc();
    let mut trace = two_rows(alloc)?;
    add(alloc, &mut trace, 1, 7, -1)?;
    let (rows, _) = walk(alloc, &trace)?;
    check_entries(&rt, alloc, &rows, &[(1, 5, 2)])
}

#[test]
fn entries_in_either_order_make_one_run(rt: HostRuntime) -> Result<(), Fail> {
    let alloc = rt.alloc();
    for descends in [false, true] {
        let mut trace = Trace::new(alloc);
        let change = change_of_two(alloc, descends, (2, 1))?;
        apply(alloc, &mut trace, &change)?;
        let (rows, count) = walk(alloc, &trace)?;
        assert_eq!(rt; count, 2);
        check_entries(&rt, alloc, &rows, &[(1, 5, 2), (1, 7, 1)])?;
    }
    Ok(())
}

#[test]
fn an_entry_without_a_weight_is_dropped(rt: HostRuntime) -> Result<(), Fail> {
    let alloc = rt.alloc();
    for descends in [false, true] {
        let change = change_of_two(alloc, descends, (0, 1))?;
        check_entries(&rt, alloc, change.entries(), &[(1, 7, 1)])?;
    }
    Ok(())
}
