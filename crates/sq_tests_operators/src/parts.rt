//! The calls of a `Whole` through its bound.
ghost use Rattle.sq_ops.specs.Fits.{FitsRow};

use crate::aggregates::by_first;
use crate::rows::{check_row, row_of};
use sq_expr::{Func, Kind, is_of_kinds};
use sq_ops::{AggSpec, Call, Distinct, Whole, WholeFault};
use sq_value::{NoMemory, Row};
use sq_zset::ZSet;
use sqlite_items::Items;
use std::alloc::Global;
use std::process::Abort;
use std::test::Fail;

// The part of the row's key over the row alone.
fn part_of_one<W: Whole>(alloc: Global, op: &W, row: Row) -> Result<ZSet, WholeFault>
    requires { FitsRow (W.suits op.now) row }
{
    let key = op.key(alloc, &row)?;
    let z = ZSet::of_row(alloc, row)?;
    op.part(alloc, &key, &z)
}

// The part is this row with the weight 1.
fn check_part(
    rt: &impl Abort,
    alloc: Global,
    part: Option<Result<ZSet, WholeFault>>,
    numbers: &[Option<i64>],
) -> Result<(), Fail> {
    match part {
        Some(Ok(z)) => check_row(rt, alloc, &z, 1, numbers, 1),
        _ => {
            assert!(rt; false, "no part");
            Ok(())
        }
    }
}

#[tactic(auto, using(sq_ops::proofs::Fitting::row_fits))]
fn distinct_part(alloc: Global, row: Row) -> Option<Result<ZSet, WholeFault>> {
    if is_of_kinds(&row, &[Kind::Bigint]) {
        Some(part_of_one(alloc, &Distinct, row))
    } else {
        None
    }
}

#[tactic(auto, using(sq_ops::proofs::Fitting::row_fits))]
fn distinct_key(alloc: Global, row: &Row) -> Option<Result<Row, NoMemory>> {
    if is_of_kinds(row, &[Kind::Bigint]) {
        Some(Distinct.key(alloc, row))
    } else {
        None
    }
}

#[test]
fn distinct_gives_a_row_of_its_own_key(rt: HostRuntime) -> Result<(), Fail> {
    let alloc = rt.alloc();
    let row = row_of(alloc, &[Some(3)])?;
    match distinct_key(alloc, &row) {
        Some(key) => assert!(&rt; key? == row),
        None => assert!(&rt; false, "no key"),
    }
    assert!(&rt; !Distinct.standing());
    check_part(&rt, alloc, distinct_part(alloc, row), &[Some(3)])
}

#[tactic(auto, using(sq_ops::proofs::Fitting::row_fits))]
fn agg_part(alloc: Global, spec: &AggSpec, row: Row) -> Option<Result<ZSet, WholeFault>> {
    let kinds = [Kind::Bigint, Kind::Bigint];
    if spec.suits(&kinds) && is_of_kinds(&row, &kinds) {
        Some(part_of_one(alloc, spec, row))
    } else {
        None
    }
}

// The part of the row (1, 4) alone is this row.
fn check_agg(
    rt: &impl Abort,
    alloc: Global,
    spec: &AggSpec,
    numbers: &[Option<i64>],
) -> Result<(), Fail> {
    let row = row_of(alloc, &[Some(1), Some(4)])?;
    check_part(rt, alloc, agg_part(alloc, spec, row), numbers)
}

// The SUM of the second column over all rows.
fn sum_of_all(alloc: Global) -> Result<AggSpec, NoMemory> {
    let sum = Call {
        func: Func::Sum,
        arg: 1,
    };
    Ok(AggSpec {
        group: Items::new(alloc),
        calls: Items::from_slice(alloc, &[sum])?,
        global: true,
    })
}

#[test]
fn an_aggregate_gives_the_row_of_a_group(rt: HostRuntime) -> Result<(), Fail> {
    let alloc = rt.alloc();
    let spec = by_first(alloc, Func::Sum)?;
    check_agg(&rt, alloc, &spec, &[Some(1), Some(4)])
}

#[test]
fn a_global_aggregate_gives_one_row(rt: HostRuntime) -> Result<(), Fail> {
    let alloc = rt.alloc();
    let spec = sum_of_all(alloc)?;
    check_agg(&rt, alloc, &spec, &[Some(4)])
}
