//! Accumulators: their calls with ample memory, through the bound of a group too.
ghost use Rattle.std.specs.Prelude.{◌≡◌, None};

use crate::aggregates::by_first;
use crate::rows::{are_of_kinds, row_of, zset_of_two};
use sq_agg::Acc;
use sq_expr::{Func, Kind};
use sq_ops::AggSpec;
use sq_value::NoMemory;
use sq_zset::{Group, ZFault, ZSet};
use std::alloc::Global;
use std::process::Abort;
use std::test::Fail;

// The accumulator of at most one row of two BIGINTs, which suits the aggregate.
fn acc_on(alloc: Global, spec: &AggSpec, z: &ZSet) -> Option<Result<Acc, NoMemory>> {
    let kinds = [Kind::Bigint, Kind::Bigint];
    if spec.suits(&kinds) && are_of_kinds(z, &kinds) && z.len() <= 1 {
        Some(Acc::of_rows(alloc, spec, z))
    } else {
        None
    }
}

// The value less a copy of itself.
fn less_itself<G: Group>(alloc: Global, value: &G) -> Result<G, ZFault>
    requires { G.first_outside value.now ≡ None }
{
    let copy = value.clone_group(alloc)?;
    let turned = copy.negate(alloc)?;
    value.plus(alloc, &turned)
}

fn has_numbers(acc: &Acc, rows: i64, count: i64, sum: i128) -> bool {
    acc.rows() == rows && acc.count(0) == count && acc.sum(0) == sum
}

fn check_less_itself(rt: &impl Abort, alloc: Global, acc: &Acc) -> Result<(), Fail> {
    let _ = acc.rows();
    let none = less_itself(alloc, acc)?;
    assert!(rt; none.is_zero());
    Ok(())
}

// The accumulator of a row whose number is -7, three times.
fn acc_of_three(alloc: Global) -> Result<Acc, Fail> {
    let z = zset_of_two(alloc, &[(1, Some(-7), 3)])?;
    let spec = by_first(alloc, Func::Sum)?;
    match acc_on(alloc, &spec, &z) {
        Some(acc) => Ok(acc?),
        None => Ok(Group::zero(alloc)),
    }
}

#[test]
fn an_accumulator_of_rows_less_itself_is_zero(rt: HostRuntime) -> Result<(), Fail> {
    let acc = acc_of_three(rt.alloc())?;
    assert!(rt; has_numbers(&acc, 3, 3, -21));
    check_less_itself(&rt, rt.alloc(), &acc)
}

// The accumulator of a row whose number is 9, taken away twice.
fn acc_of_two_less(alloc: Global) -> Result<Acc, Fail> {
    let row = row_of(alloc, &[Some(1), Some(9)])?;
    let spec = by_first(alloc, Func::Sum)?;
    Ok(Acc::of_row(alloc, &spec, &row, -2)?)
}

#[test]
fn an_accumulator_of_one_row_has_its_numbers(rt: HostRuntime) -> Result<(), Fail> {
    let acc = acc_of_two_less(rt.alloc())?;
    assert!(rt; has_numbers(&acc, -2, -2, -18));
    Ok(())
}
