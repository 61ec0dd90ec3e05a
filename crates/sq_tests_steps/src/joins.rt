//! Joins step by step, beside the join of all rows.
ghost use Rattle.std.specs.Prelude.{◌≡◌, [], ◌∷◌, IsTrue, nat_lt};
ghost use Rattle.std.specs.List.{list_all};
ghost use Rattle.sq_expr.specs.declared.expr.Kind.TheVariants.{Bigint};
ghost use Rattle.sq_ops.specs.JoinLaws.{SuitsPairing};
ghost use Rattle.sq_tests_steps.specs.Ready.{AreBigints, IsReady};

use crate::drawn::next;
use crate::rows::{are_of_kinds, is_small, row_of, zset_of};
use crate::traces::{left_trace, right_trace};
use sq_base::Steps;
use sq_expr::{Cond, Kind, suits_cond};
use sq_join::{join_step, join_whole};
use sq_ops::{Bilinear, Pairing};
use sq_zset::{ZFault, ZSet};
use sqlite_items::Items;
use std::alloc::Global;
use std::process::Abort;
use std::test::Fail;

fn are_bigints(z: &ZSet) -> bool
    ensures { IsTrue result → AreBigints z.now }
{
    are_of_kinds(z, &[Kind::Bigint])
}

fn are_ready(y: &ZSet, da: &ZSet, new_y: &ZSet, z: &ZSet, db: &ZSet, new_z: &ZSet) -> bool
    ensures { IsTrue result → IsReady y.now da.now new_y.now z.now db.now new_z.now }
{
    are_bigints(y)
        && are_bigints(da)
        && are_bigints(z)
        && are_bigints(db)
        && are_bigints(new_y)
        && are_bigints(new_z)
        && is_small(y)
        && is_small(new_y)
        && is_small(z)
        && is_small(new_z)
}

// The step from old rows, whose traces are made here. None if the rows do not suit.
fn step_on<B: Bilinear>(
    alloc: Global,
    op: &B,
    left: (&ZSet, &ZSet),
    right: (&ZSet, &ZSet),
    steps: &mut Steps<()>,
) -> Result<Option<ZSet>, ZFault>
    requires { B.suits op.now (Bigint ∷ []) (Bigint ∷ []) }
    ensures { steps.new.ledger ≡ steps.old.ledger }
{
    let new_y = left.0.plus(alloc, left.1)?;
    let new_z = right.0.plus(alloc, right.1)?;
    if !are_ready(left.0, left.1, &new_y, right.0, right.1, &new_z) {
        return Ok(None);
    }
    let a = left_trace(alloc, op, left.0)?;
    let b = right_trace(alloc, op, right.0)?;
    Ok(Some(join_step(alloc, op, &a, &b, left.1, right.1, steps)?))
}

// The join of all rows after the changes, less that of all rows before. None if the rows do not suit.
fn rise_on<B: Bilinear>(
    alloc: Global,
    op: &B,
    left: (&ZSet, &ZSet),
    right: (&ZSet, &ZSet),
) -> Result<Option<ZSet>, ZFault>
    requires { B.suits op.now (Bigint ∷ []) (Bigint ∷ []) }
{
    let new_y = left.0.plus(alloc, left.1)?;
    let new_z = right.0.plus(alloc, right.1)?;
    if !are_ready(left.0, left.1, &new_y, right.0, right.1, &new_z) {
        return Ok(None);
    }
    let before = join_whole(alloc, op, left.0, right.0)?;
    let after = join_whole(alloc, op, &new_y, &new_z)?;
    Ok(Some(after.minus(alloc, &before)?))
}

// In how many rows the step differs from the join of all rows, and how many steps it takes.
fn compared<B: Bilinear>(
    alloc: Global,
    op: &B,
    left: (&ZSet, &ZSet),
    right: (&ZSet, &ZSet),
) -> Result<Option<(usize, u64)>, ZFault>
    requires { B.suits op.now (Bigint ∷ []) (Bigint ∷ []) }
{
    let mut steps = Steps::begin(());
    let step = step_on(alloc, op, left, right, &mut steps);
    let count = steps.count();
    steps.end();
    let rise = rise_on(alloc, op, left, right);
    match (step, rise) {
        (Ok(Some(step)), Ok(Some(rise))) => Ok(Some((step.minus(alloc, &rise)?.len(), count))),
        _ => Ok(None),
    }
}

fn are_below(columns: &[u32], width: u32) -> bool
    ensures { result ≡ list_all (λ c. nat_lt c width) columns.now }
{
    columns.iter().all(|column| *column < width)
}

fn fits_bigints(op: &Pairing) -> bool
    ensures { IsTrue result → SuitsPairing op.now.left op.now.right op.now.items op.now.keep (Bigint ∷ []) (Bigint ∷ []) }
{
    are_below(op.left.as_slice(), 1)
        && are_below(op.right.as_slice(), 1)
        && are_below(op.items.as_slice(), 2)
        && suits_cond(&op.keep, &[Kind::Bigint, Kind::Bigint])
}

// Pairs rows by these columns of both, and gives both rows.
fn pairing(alloc: Global, keys: &[u32]) -> Result<Pairing, Fail> {
    let left = Items::from_slice(alloc, keys)?;
    let right = Items::from_slice(alloc, keys)?;
    let items = Items::from_slice(alloc, &[0, 1])?;
    Ok(Pairing {
        left,
        right,
        nulls_match: false,
        keep: Cond::All(Items::new(alloc)),
        items,
    })
}

fn compared_pairing(
    alloc: Global,
    keys: &[u32],
    left: (&ZSet, &ZSet),
    right: (&ZSet, &ZSet),
) -> Result<Option<(usize, u64)>, Fail> {
    let op = pairing(alloc, keys)?;
    if !fits_bigints(&op) {
        return Ok(None);
    }
    Ok(compared(alloc, &op, left, right)?)
}

// Five rows of a number below 8 with a weight below 4.
fn drawn_set(alloc: Global, number: u64) -> Result<ZSet, ZFault> {
    let mut items = [(0, 0); 5];
    for (i, item) in items.iter_mut().enumerate() {
        let bits = number >> (20 + 8 * i as u32);
        *item = ((bits & 7) as i64, (bits >> 3 & 3) as i64);
    }
    zset_of(alloc, &items)
}

// The step from and to drawn sides, by these key columns.
fn check_drawn(
    rt: &impl Abort,
    alloc: Global,
    keys: &[u32],
    numbers: [u64; 4],
) -> Result<(), Fail> {
    let (y, new_y) = (drawn_set(alloc, numbers[0])?, drawn_set(alloc, numbers[1])?);
    let (z, new_z) = (drawn_set(alloc, numbers[2])?, drawn_set(alloc, numbers[3])?);
    let da = new_y.minus(alloc, &y)?;
    let db = new_z.minus(alloc, &z)?;
    match compared_pairing(alloc, keys, (&y, &da), (&z, &db))? {
        Some((differences, _)) => assert_eq!(rt; differences, 0),
        None => assert!(rt; false, "no answer"),
    }
    Ok(())
}

#[test]
fn a_step_is_what_the_whole_rises_by(rt: HostRuntime) -> Result<(), Fail> {
    let alloc = rt.alloc();
    let mut number: u64 = 1;
    for _ in 0..100 {
        let numbers = [number, next(number), next(next(number)), next(number ^ 77)];
        check_drawn(&rt, alloc, &[0], numbers)?;
        check_drawn(&rt, alloc, &[], numbers)?;
        number = next(numbers[3]);
    }
    Ok(())
}

// So many rows of one number on the left, and the steps of a change by one row of the other side, and of the same one.
fn steps_at(alloc: Global, rows: i64) -> Result<Option<(u64, u64)>, Fail> {
    let mut items = Vec::new(alloc);
    for number in 0..rows {
        items.push((number, 1))?;
    }
    let many = zset_of(alloc, &items)?;
    let (none, one) = (zset_of(alloc, &[])?, zset_of(alloc, &[(5, 1)])?);
    let right = compared_pairing(alloc, &[], (&many, &none), (&none, &one))?;
    let left = compared_pairing(alloc, &[], (&many, &one), (&none, &none))?;
    match (right, left) {
        (Some((0, right)), Some((0, left))) => Ok(Some((right, left))),
        _ => Ok(None),
    }
}

#[test]
fn a_step_looks_at_the_rows_of_its_key(rt: HostRuntime) -> Result<(), Fail> {
    assert_eq!(rt; steps_at(rt.alloc(), 1000)?, Some((1001, 1)));
    Ok(())
}

fn first_step(alloc: Global) -> Result<Option<(usize, i64)>, Fail> {
    let none = zset_of(alloc, &[])?;
    let (two, three) = (zset_of(alloc, &[(1, 2)])?, zset_of(alloc, &[(1, 3)])?);
    let op = pairing(alloc, &[0])?;
    if !fits_bigints(&op) {
        return Ok(None);
    }
    let mut steps = Steps::begin(());
    let answer = step_on(alloc, &op, (&none, &two), (&none, &three), &mut steps);
    steps.end();
    let row = row_of(alloc, &[1, 1])?;
    Ok(answer?.map(|z| (z.len(), z.weight_of(&row))))
}

#[test]
fn changes_are_joined_with_each_other(rt: HostRuntime) -> Result<(), Fail> {
    assert_eq!(rt; first_step(rt.alloc())?, Some((1, 6)));
    Ok(())
}
