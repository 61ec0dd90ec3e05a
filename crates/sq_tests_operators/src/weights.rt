//! Z-sets: weights that add up, the ends of their range, and the calls of a group through its bound.
ghost use Rattle.std.specs.Prelude.{◌≡◌, IfOk, None};

use crate::rows::{LIMIT, SUM_LIMIT, check_rows, row_of, zset_of};
use sq_value::NoMemory;
use sq_zset::{Group, ZFault, ZSet};
use std::alloc::Global;
use std::process::Abort;
use std::test::Fail;

// The rows of the Z-set of these.
fn check_collected(
    rt: &impl Abort,
    alloc: Global,
    items: &[(i64, i64)],
    expected: &[(i64, i64)],
) -> Result<(), Fail> {
    let z = zset_of(alloc, items)?;
    check_rows(rt, alloc, &z, expected)
}

#[test]
fn weights_add_up(rt: HostRuntime) -> Result<(), Fail> {
    let alloc = rt.alloc();
    let z = zset_of(alloc, &[(2, 3), (1, 2), (2, -3), (3, -1), (1, 5)])?;
    check_rows(&rt, alloc, &z, &[(1, 7), (3, -1)])?;
    assert_eq!(rt; z.total(), 6);
    assert_eq!(rt; z.weight_of(&row_of(alloc, &[Some(2)])?), 0);
    check_rows(&rt, alloc, &ZSet::empty(alloc), &[])
}

#[test]
fn weights_reach_the_ends_of_the_range(rt: HostRuntime) -> Result<(), Fail> {
    check_collected(
        &rt,
        rt.alloc(),
        &[(1, LIMIT), (1, LIMIT), (1, -LIMIT), (2, -LIMIT)],
        &[(1, LIMIT), (2, -LIMIT)],
    )
}

#[test]
fn the_first_sum_outside_the_range_is_reported(rt: HostRuntime) {
    let alloc = rt.alloc();
    let above = zset_of(alloc, &[(1, LIMIT), (1, 1)]);
    assert_eq!(rt; above.err(), Some(ZFault::Weight { sum: SUM_LIMIT + 1 }));
    let below = zset_of(alloc, &[(2, LIMIT + 5), (1, -LIMIT - 1)]);
    assert_eq!(rt;
        below.err(),
        Some(ZFault::Weight {
            sum: -SUM_LIMIT - 1
        })
    );
}

// The difference, the sum and the negation of two Z-sets.
fn check_combined(
    rt: &impl Abort,
    alloc: Global,
    sides: (&[(i64, i64)], &[(i64, i64)]),
    expected: (&[(i64, i64)], &[(i64, i64)], &[(i64, i64)]),
) -> Result<(), Fail> {
    let left = zset_of(alloc, sides.0)?;
    let right = zset_of(alloc, sides.1)?;
    check_rows(rt, alloc, &left.minus(alloc, &right)?, expected.0)?;
    check_rows(rt, alloc, &left.plus(alloc, &right)?, expected.1)?;
    check_rows(rt, alloc, &left.negate(alloc)?, expected.2)
}

#[test]
fn z_sets_combine_row_by_row(rt: HostRuntime) -> Result<(), Fail> {
    check_combined(
        &rt,
        rt.alloc(),
        (&[(1, 1), (3, 2), (4, 2)], &[(2, 1), (3, 3), (4, 2)]),
        (
            &[(1, 1), (2, -1), (3, -1)],
            &[(1, 1), (2, 1), (3, 5), (4, 4)],
            &[(1, -1), (3, -2), (4, -2)],
        ),
    )
}

#[test]
fn sums_and_negations_reach_the_ends_of_the_range(rt: HostRuntime) -> Result<(), Fail> {
    check_combined(
        &rt,
        rt.alloc(),
        (&[(1, LIMIT), (2, 1 - LIMIT)], &[(2, -1)]),
        (
            &[(1, LIMIT), (2, 2 - LIMIT)],
            &[(1, LIMIT), (2, -LIMIT)],
            &[(1, -LIMIT), (2, LIMIT - 1)],
        ),
    )
}

#[test]
fn a_sum_and_a_difference_outside_the_range_are_reported(rt: HostRuntime) -> Result<(), Fail> {
    let alloc = rt.alloc();
    let ends = zset_of(alloc, &[(1, -LIMIT), (2, LIMIT)])?;
    let further = zset_of(alloc, &[(1, -1), (2, 1)])?;
    let below = Some(ZFault::Weight {
        sum: -SUM_LIMIT - 1,
    });
    assert_eq!(rt; ends.plus(alloc, &further).err(), below);
    let fewer = zset_of(alloc, &[(2, -1)])?;
    let above = Some(ZFault::Weight { sum: SUM_LIMIT + 1 });
    assert_eq!(rt; ends.minus(alloc, &fewer).err(), above);
    Ok(())
}

// The first value again, after the second is added and taken away.
fn there_and_back<G: Group>(alloc: Global, value: &G, step: &G) -> Result<G, ZFault>
    requires value_in_range { G.first_outside value.now ≡ None }
    requires step_in_range { G.first_outside step.now ≡ None }
    ensures { IfOk result (λ back. back ≡ value.now) }
{
    let there = value.plus(alloc, step)?;
    let away = step.negate(alloc)?;
    there.plus(alloc, &away)
}

#[test]
fn groups_of_both_types_lead_back(rt: HostRuntime) -> Result<(), Fail> {
    let alloc = rt.alloc();
    let z = zset_of(alloc, &[(1, 2), (3, 1)])?;
    let step = zset_of(alloc, &[(1, -2), (2, 1)])?;
    let back = there_and_back(alloc, &z, &step)?;
    check_rows(&rt, alloc, &back, &[(1, 2), (3, 1)])?;
    assert_eq!(rt; there_and_back(alloc, &5_i64, &-7)?, 5);
    Ok(())
}

// A copy of a value, and a zero, which differs from it exactly if the value is not zero.
fn check_copies<G: Group>(rt: &impl Abort, alloc: Global, value: &G) -> Result<G, NoMemory>
    requires { G.first_outside value.now ≡ None }
    ensures { IfOk result (λ copy. copy ≡ value.now) }
{
    assert!(rt; G::zero(alloc).is_zero());
    assert!(rt; !value.is_zero());
    value.clone_group(alloc)
}

#[test]
fn groups_of_both_types_are_copied(rt: HostRuntime) -> Result<(), Fail> {
    let alloc = rt.alloc();
    let z = zset_of(alloc, &[(1, 2), (3, -1)])?;
    let copy = check_copies(&rt, alloc, &z)?;
    check_rows(&rt, alloc, &copy, &[(1, 2), (3, -1)])?;
    assert_eq!(rt; check_copies(&rt, alloc, &-7_i64)?, -7);
    Ok(())
}

#[test]
fn whole_numbers_have_the_range_of_a_weight(rt: HostRuntime) -> Result<(), Fail> {
    let alloc = rt.alloc();
    assert_eq!(rt; Group::plus(&(LIMIT - 1), alloc, &1)?, LIMIT);
    assert_eq!(rt;
        Group::plus(&LIMIT, alloc, &1).err(),
        Some(ZFault::Weight { sum: SUM_LIMIT + 1 })
    );
    assert_eq!(rt; Group::negate(&LIMIT, alloc)?, -LIMIT);
    Ok(())
}
