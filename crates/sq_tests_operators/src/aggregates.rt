//! Aggregates of Z-sets: how often rows count, what no value gives, and which sum is reported.

use crate::rows::{are_of_kinds, check_row, has_no_weight_below_zero, row_of, zset_of_two};
use sq_agg::agg_whole;
use sq_expr::{Func, Kind};
use sq_ops::{AggSpec, Call, WholeFault};
use sq_value::NoMemory;
use sq_zset::ZSet;
use sqlite_items::Items;
use std::alloc::Global;
use std::process::Abort;
use std::test::Fail;

// The aggregate, if the rows are of two BIGINTs and suit it.
fn agg_on(alloc: Global, spec: &AggSpec, z: &ZSet) -> Option<Result<ZSet, WholeFault>> {
    let kinds = [Kind::Bigint, Kind::Bigint];
    if spec.suits(&kinds)
        && are_of_kinds(z, &kinds)
        && has_no_weight_below_zero(z)
        && z.total() <= 1 << 61
    {
        Some(agg_whole(alloc, spec, z))
    } else {
        None
    }
}

// By the first column, this call on the second.
pub fn by_first(alloc: Global, func: Func) -> Result<AggSpec, NoMemory> {
    Ok(AggSpec {
        group: Items::from_slice(alloc, &[0])?,
        calls: Items::from_slice(alloc, &[Call { func, arg: 1 }])?,
        global: false,
    })
}

// The answer has so many rows, and this one with the weight 1 among them.
fn check_answer(
    rt: &impl Abort,
    alloc: Global,
    answer: Option<Result<ZSet, WholeFault>>,
    rows: usize,
    numbers: &[Option<i64>],
) -> Result<(), Fail> {
    match answer_of(answer) {
        Some(z) => check_row(rt, alloc, &z, rows, numbers, 1),
        None => {
            assert!(rt; false, "no answer");
            Ok(())
        }
    }
}

fn answer_of(answer: Option<Result<ZSet, WholeFault>>) -> Option<ZSet> {
    match answer {
        Some(Ok(z)) => Some(z),
        Some(Err(_fault)) => None,
        None => None,
    }
}

fn fault_of(answer: Option<Result<ZSet, WholeFault>>) -> Option<WholeFault> {
    match answer {
        Some(Ok(_z)) => None,
        Some(Err(fault)) => Some(fault),
        None => None,
    }
}

// The value of the call over the rows of the group 1, among these many groups.
fn check_call(
    rt: &impl Abort,
    alloc: Global,
    items: &[(i64, Option<i64>, i64)],
    func: Func,
    (groups, expected): (usize, Option<i64>),
) -> Result<(), Fail> {
    let z = zset_of_two(alloc, items)?;
    let spec = by_first(alloc, func)?;
    let answer = agg_on(alloc, &spec, &z);
    check_answer(rt, alloc, answer, groups, &[Some(1), expected])
}

#[test]
fn rows_count_as_often_as_they_weigh(rt: HostRuntime) -> Result<(), Fail> {
    let alloc = rt.alloc();
    let items = [
        (1, Some(4), 2),
        (1, Some(-3), 1),
        (1, None, 5),
        (2, None, 1),
    ];
    check_call(&rt, alloc, &items, Func::CountAll, (2, Some(8)))?;
    check_call(&rt, alloc, &items, Func::Count, (2, Some(3)))?;
    check_call(&rt, alloc, &items, Func::Sum, (2, Some(5)))?;
    check_call(&rt, alloc, &items, Func::Min, (2, Some(-3)))?;
    check_call(&rt, alloc, &items, Func::Max, (2, Some(4)))?;
    check_call(&rt, alloc, &[(1, Some(4), 2)], Func::Sum, (1, Some(8)))
}

#[test]
fn no_value_gives_null(rt: HostRuntime) -> Result<(), Fail> {
    let alloc = rt.alloc();
    let items = [(1, None, 2), (2, Some(1), 1)];
    check_call(&rt, alloc, &items, Func::Count, (2, Some(0)))?;
    check_call(&rt, alloc, &items, Func::Sum, (2, None))?;
    check_call(&rt, alloc, &items, Func::Min, (2, None))?;
    check_call(&rt, alloc, &items, Func::Max, (2, None))
}

// The number of all rows and the SUM of the first column, over all rows.
fn count_and_sum(alloc: Global) -> Result<AggSpec, NoMemory> {
    let count = Call {
        func: Func::CountAll,
        arg: 0,
    };
    let sum = Call {
        func: Func::Sum,
        arg: 0,
    };
    Ok(AggSpec {
        group: Items::new(alloc),
        calls: Items::from_slice(alloc, &[count, sum])?,
        global: true,
    })
}

#[test]
fn a_global_aggregate_shows_a_row_over_no_rows(rt: HostRuntime) -> Result<(), Fail> {
    let alloc = rt.alloc();
    let spec = count_and_sum(alloc)?;
    let answer = agg_on(alloc, &spec, &ZSet::empty(alloc));
    check_answer(&rt, alloc, answer, 1, &[Some(0), None])
}

// The fault of the SUM by the first column.
fn sum_fault(alloc: Global, items: &[(i64, Option<i64>, i64)]) -> Result<Option<WholeFault>, Fail> {
    let z = zset_of_two(alloc, items)?;
    let spec = by_first(alloc, Func::Sum)?;
    Ok(fault_of(agg_on(alloc, &spec, &z)))
}

// The fault names the group with this key, and this sum.
fn check_fault(
    rt: &impl Abort,
    alloc: Global,
    fault: Option<WholeFault>,
    group: i64,
    sum: i128,
) -> Result<(), Fail> {
    let key = row_of(alloc, &[Some(group)])?;
    match fault {
        Some(fault) => assert!(rt; fault == WholeFault::Sum { key, sum }),
        None => assert!(rt; false, "no sum outside"),
    }
    Ok(())
}

#[test]
fn the_first_sum_outside_bigint_is_reported(rt: HostRuntime) -> Result<(), Fail> {
    let alloc = rt.alloc();
    let items = [
        (1, Some(i64::MAX), 2),
        (2, Some(i64::MIN), 3),
        (0, Some(1), 1),
    ];
    let fault = sum_fault(alloc, &items)?;
    check_fault(&rt, alloc, fault, 1, 18446744073709551614)?;
    let most = [(1, Some(i64::MAX), 1), (2, None, 1)];
    check_call(&rt, alloc, &most, Func::Sum, (2, Some(i64::MAX)))
}
