//! Linear operators on Z-sets: which rows they give with which weights, and which fault they report.
ghost use Rattle.std.specs.Prelude.{[], ◌∷◌};
ghost use Rattle.sq_expr.specs.declared.expr.Kind.TheVariants.{Bigint};

use crate::rows::{LIMIT, SUM_LIMIT, are_of_kinds, check_row, check_rows, zset_of};
use sq_expr::{Cmp, Cond, Expr, Kind, Term, suits, suits_cond};
use sq_linear::{LinearFault, apply_linear};
use sq_ops::{Keep, Linear, Pad, Project};
use sq_zset::ZSet;
use sqlite_items::Items;
use std::alloc::Global;
use std::process::Abort;
use std::test::Fail;

type Answer = Option<Result<ZSet, LinearFault>>;

// The operator on a Z-set of rows of one BIGINT, which suits it.
#[tactic(auto, using(sq_ops::proofs::Fitting::rows_fit))]
fn apply_on<O: Linear>(alloc: Global, op: &O, z: &ZSet) -> Answer
    requires { O.suits op.now (Bigint ∷ []) }
{
    if are_of_kinds(z, &[Kind::Bigint]) {
        Some(apply_linear(alloc, op, z))
    } else {
        None
    }
}

fn keep_on(alloc: Global, op: &Keep, z: &ZSet) -> Answer {
    if suits_cond(&op.cond, &[Kind::Bigint]) {
        apply_on(alloc, op, z)
    } else {
        None
    }
}

// The projection to one item.
fn project_on(alloc: Global, item: Expr, z: &ZSet) -> Result<Answer, Fail> {
    if !suits(&item, &[Kind::Bigint]) {
        return Ok(None);
    }
    let mut items = Items::new(alloc);
    items.push(item)?;
    Ok(apply_on(alloc, &Project { items }, z))
}

// The answer is a Z-set of these rows of one number, in this order, with these weights.
fn check_answer(
    rt: &impl Abort,
    alloc: Global,
    answer: Answer,
    expected: &[(i64, i64)],
) -> Result<(), Fail> {
    match answer {
        Some(Ok(z)) => check_rows(rt, alloc, &z, expected),
        _ => {
            assert!(rt; false, "no answer");
            Ok(())
        }
    }
}

fn fault_of(answer: Answer) -> Option<LinearFault> {
    match answer {
        Some(Err(fault)) => Some(fault),
        _ => None,
    }
}

// What is kept where the number is above 1.
fn check_kept(
    rt: &impl Abort,
    alloc: Global,
    items: &[(i64, i64)],
    expected: &[(i64, i64)],
) -> Result<(), Fail> {
    let z = zset_of(alloc, items)?;
    let op = Keep {
        cond: Cond::Compare {
            cmp: Cmp::Gt,
            left: Expr::Column(0),
            right: Expr::Number(1),
        },
    };
    check_answer(rt, alloc, keep_on(alloc, &op, &z), expected)
}

#[test]
fn rows_are_kept_with_their_weights(rt: HostRuntime) -> Result<(), Fail> {
    let alloc = rt.alloc();
    check_kept(&rt, alloc, &[(1, 1), (2, 3)], &[(2, 3)])?;
    check_kept(&rt, alloc, &[], &[])
}

// The Z-set of rows whose one item is 7: the weights of all rows add up.
fn check_sum(
    rt: &impl Abort,
    alloc: Global,
    items: &[(i64, i64)],
    expected: &[(i64, i64)],
) -> Result<(), Fail> {
    let z = zset_of(alloc, items)?;
    check_answer(rt, alloc, project_on(alloc, Expr::Number(7), &z)?, expected)
}

#[test]
fn weights_of_equal_images_add_up(rt: HostRuntime) -> Result<(), Fail> {
    let alloc = rt.alloc();
    check_sum(&rt, alloc, &[(1, 2), (2, 3), (3, -1)], &[(7, 4)])?;
    check_sum(&rt, alloc, &[(1, 2), (2, -2)], &[])?;
    check_sum(&rt, alloc, &[(1, LIMIT), (2, -LIMIT)], &[])
}

#[test]
fn weights_reach_the_ends_of_the_range(rt: HostRuntime) -> Result<(), Fail> {
    let alloc = rt.alloc();
    check_sum(&rt, alloc, &[(1, LIMIT - 1), (2, 1)], &[(7, LIMIT)])?;
    check_sum(
        &rt,
        alloc,
        &[(1, -LIMIT), (2, LIMIT), (3, -LIMIT)],
        &[(7, -LIMIT)],
    )
}

// The fault of the projection to the item.
fn check_fault(
    rt: &impl Abort,
    alloc: Global,
    item: Expr,
    items: &[(i64, i64)],
    expected: LinearFault,
) -> Result<(), Fail> {
    let z = zset_of(alloc, items)?;
    let fault = fault_of(project_on(alloc, item, &z)?);
    assert_eq!(rt; fault, Some(expected));
    Ok(())
}

#[test]
fn a_weight_outside_the_range_is_reported(rt: HostRuntime) -> Result<(), Fail> {
    let alloc = rt.alloc();
    let above = LinearFault::Weight { sum: SUM_LIMIT + 1 };
    check_fault(&rt, alloc, Expr::Number(7), &[(1, LIMIT), (2, 1)], above)?;
    let below = LinearFault::Weight {
        sum: -SUM_LIMIT - 1,
    };
    check_fault(&rt, alloc, Expr::Number(7), &[(1, -LIMIT), (2, -1)], below)
}

// The number in a row, added to itself.
fn doubled(alloc: Global) -> Result<Expr, Fail> {
    let mut terms = Items::new(alloc);
    for _ in 0..2 {
        terms.push(Term {
            minus: false,
            expr: Expr::Column(0),
        })?;
    }
    Ok(Expr::Sum(terms))
}

fn check_doubled_fault(
    rt: &impl Abort,
    alloc: Global,
    items: &[(i64, i64)],
    value: i128,
) -> Result<(), Fail> {
    let item = doubled(alloc)?;
    check_fault(rt, alloc, item, items, LinearFault::Value { value })
}

#[test]
fn the_first_row_outside_bigint_is_reported(rt: HostRuntime) -> Result<(), Fail> {
    let alloc = rt.alloc();
    check_doubled_fault(
        &rt,
        alloc,
        &[(i64::MAX, 1), (5, LIMIT), (i64::MIN, -1)],
        -18446744073709551616,
    )?;
    check_doubled_fault(
        &rt,
        alloc,
        &[(i64::MAX, 1), (5, LIMIT)],
        18446744073709551614,
    )
}

#[test]
fn numbers_are_doubled(rt: HostRuntime) -> Result<(), Fail> {
    let alloc = rt.alloc();
    let inside = zset_of(alloc, &[(-3, 1), (5, LIMIT)])?;
    let answer = project_on(alloc, doubled(alloc)?, &inside)?;
    check_answer(&rt, alloc, answer, &[(-6, 1), (10, LIMIT)])
}

#[test]
fn rows_are_padded(rt: HostRuntime) -> Result<(), Fail> {
    let alloc = rt.alloc();
    let z = zset_of(alloc, &[(1, 2), (3, -1)])?;
    match apply_on(alloc, &Pad { nulls: 2 }, &z) {
        Some(Ok(answer)) => check_row(&rt, alloc, &answer, 2, &[Some(3), None, None], -1),
        _ => {
            assert!(&rt; false, "no answer");
            Ok(())
        }
    }
}
