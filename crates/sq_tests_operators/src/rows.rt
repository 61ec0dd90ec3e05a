//! What the tests share: rows and Z-sets of a few numbers, and tests of their kinds.
ghost use Rattle.std.specs.Prelude.{◌*◌, ◌≤◌, ◌^◌, ◌≤ℤ◌, pos, length, IsTrue, IfOk, OnOk};
ghost use Rattle.std.specs.List.{All};
ghost use Rattle.sq_algebra.specs.ZSet.{entries};
ghost use Rattle.sq_expr.specs.Kinds.{AreOfKinds};
ghost use Rattle.sq_zset.specs.Pairs.{mass};
ghost use Rattle.sq_zset.specs.Range.{IsInRange};

use sq_expr::{Kind, is_of_kinds};
use sq_value::{NoMemory, Row, Value};
use sq_zset::{Pair, ZFault, ZSet};
use std::alloc::Global;
use std::process::Abort;
use std::test::Fail;

/// How far from 0 a weight may be.
pub const LIMIT: i64 = 4_611_686_018_427_387_904;

/// The same, as sums have it.
pub const SUM_LIMIT: i128 = 4_611_686_018_427_387_904;

/// A row of these numbers, with NULL for `None`.
pub fn row_of(alloc: Global, numbers: &[Option<i64>]) -> Result<Row, NoMemory> {
    let mut values = Vec::new(alloc);
    for number in numbers {
        values.push(number.map_or(Value::Null, Value::Int))?;
    }
    Ok(Row::of(values))
}

// Puts a row of these numbers with the weight behind the pairs.
fn push_row(
    alloc: Global,
    numbers: &[Option<i64>],
    weight: i64,
    pairs: &mut Vec<Pair>,
) -> Result<(), NoMemory>
    requires { mass pairs.now.items ≤ length pairs.now.items * 2 ^ 63 }
    ensures { OnOk result (mass pairs.new.items ≤ length pairs.new.items * 2 ^ 63) }
{
    let row = row_of(alloc, numbers)?;
    pairs.push(Pair {
        row,
        weight: i128::from(weight),
    })?;
    Ok(())
}

/// Rows of one number, with weights.
pub fn zset_of(alloc: Global, items: &[(i64, i64)]) -> Result<ZSet, ZFault>
    ensures { IfOk result IsInRange }
{
    let mut pairs = Vec::new(alloc);
    for item in items {
        push_row(alloc, &[Some(item.0)], item.1, &mut pairs)?;
    }
    ZSet::consolidate(alloc, pairs)
}

/// Rows of one number or NULL, with weights.
pub fn zset_with_nulls(alloc: Global, items: &[(Option<i64>, i64)]) -> Result<ZSet, ZFault> {
    let mut pairs = Vec::new(alloc);
    for item in items {
        push_row(alloc, &[item.0], item.1, &mut pairs)?;
    }
    ZSet::consolidate(alloc, pairs)
}

/// Rows of a number and a number or NULL, with weights.
pub fn zset_of_two(alloc: Global, items: &[(i64, Option<i64>, i64)]) -> Result<ZSet, ZFault> {
    let mut pairs = Vec::new(alloc);
    for item in items {
        push_row(alloc, &[Some(item.0), item.1], item.2, &mut pairs)?;
    }
    ZSet::consolidate(alloc, pairs)
}

/// Whether all rows are of these kinds.
pub fn are_of_kinds(z: &ZSet, kinds: &[Kind]) -> bool
    ensures { IsTrue result → All (λ e. AreOfKinds e.0 kinds.now) (entries z.now) }
{
    for i in 0..z.len() {
        let (row, _) = z.at(i);
        if !is_of_kinds(row, kinds) {
            return false;
        }
    }
    true
}

/// Whether no weight is below 0.
pub fn has_no_weight_below_zero(z: &ZSet) -> bool
    ensures { IsTrue result → All (λ e. pos 0 ≤ℤ e.1) (entries z.now) }
{
    for i in 0..z.len() {
        let (_, weight) = z.at(i);
        if weight < 0 {
            return false;
        }
    }
    true
}

/// The Z-set has these rows of one number, in this order, with these weights.
pub fn check_rows(
    rt: &impl Abort,
    alloc: Global,
    z: &ZSet,
    expected: &[(i64, i64)],
) -> Result<(), Fail> {
    assert_eq!(rt; z.len(), expected.len());
    for (i, item) in expected.iter().enumerate() {
        let row = row_of(alloc, &[Some(item.0)])?;
        let (found, weight) = z.at(i);
        let answers = (*found == row, weight, z.weight_of(&row));
        assert_eq!(rt; answers, (true, item.1, item.1), "at {i}");
    }
    Ok(())
}

/// The Z-set has so many rows, and the row of these numbers has this weight.
pub fn check_row(
    rt: &impl Abort,
    alloc: Global,
    z: &ZSet,
    rows: usize,
    numbers: &[Option<i64>],
    weight: i64,
) -> Result<(), Fail> {
    assert_eq!(rt; z.len(), rows);
    let row = row_of(alloc, numbers)?;
    assert_eq!(rt; z.weight_of(&row), weight);
    Ok(())
}
