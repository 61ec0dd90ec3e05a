//! What the tests share: Z-sets of rows of one number or of two, and tests of their kinds and their size.
ghost use Rattle.std.specs.Prelude.{◌*◌, ◌≤◌, ◌^◌, ◌≤ℤ◌, pos, length, IsTrue, OnOk};
ghost use Rattle.std.specs.List.{All};
ghost use Rattle.sq_algebra.specs.ZSet.{entries};
ghost use Rattle.sq_expr.specs.Kinds.{AreOfKinds};
ghost use Rattle.sq_join.specs.Stepping.{IsSmall};
ghost use Rattle.sq_zset.specs.Pairs.{mass};

use crate::drawn::Item;
use sq_expr::{Kind, is_of_kinds};
use sq_value::{NoMemory, Row, Value};
use sq_zset::{Pair, ZFault, ZSet};
use std::alloc::Global;

/// A row of these numbers.
pub fn row_of(alloc: Global, numbers: &[i64]) -> Result<Row, NoMemory> {
    let mut values = Vec::new(alloc);
    for number in numbers {
        values.push(Value::Int(*number))?;
    }
    Ok(Row::of(values))
}

// Puts a row of one number with the weight behind the pairs.
fn push_row(alloc: Global, number: i64, weight: i64, pairs: &mut Vec<Pair>) -> Result<(), NoMemory>
    requires { mass pairs.now.items ≤ length pairs.now.items * 2 ^ 63 }
    ensures { OnOk result (mass pairs.new.items ≤ length pairs.new.items * 2 ^ 63) }
{
    let row = row_of(alloc, &[number])?;
    pairs.push(Pair {
        row,
        weight: i128::from(weight),
    })?;
    Ok(())
}

/// Rows of one number, with weights.
pub fn zset_of(alloc: Global, items: &[(i64, i64)]) -> Result<ZSet, ZFault> {
    let mut pairs = Vec::new(alloc);
    for item in items {
        push_row(alloc, item.0, item.1, &mut pairs)?;
    }
    ZSet::consolidate(alloc, pairs)
}

// Puts a row of a number and a number or NULL with the weight behind the pairs.
fn push_two(alloc: Global, item: Item, pairs: &mut Vec<Pair>) -> Result<(), NoMemory>
    requires { mass pairs.now.items ≤ length pairs.now.items * 2 ^ 63 }
    ensures { OnOk result (mass pairs.new.items ≤ length pairs.new.items * 2 ^ 63) }
{
    let mut values = Vec::new(alloc);
    values.push(Value::Int(item.0))?;
    values.push(match item.1 {
        Some(number) => Value::Int(number),
        None => Value::Null,
    })?;
    pairs.push(Pair {
        row: Row::of(values),
        weight: i128::from(item.2),
    })?;
    Ok(())
}

/// Rows of a number and a number or NULL, with weights.
pub fn zset_of_two(alloc: Global, items: &[Item]) -> Result<ZSet, ZFault> {
    let mut pairs = Vec::new(alloc);
    for item in items {
        push_two(alloc, *item, &mut pairs)?;
    }
    ZSet::consolidate(alloc, pairs)
}

/// Whether all rows are of these kinds.
pub fn are_of_kinds(z: &ZSet, kinds: &[Kind]) -> bool
    ensures { IsTrue result → All (λ e. AreOfKinds e.0 kinds.now) (entries z.now) }
{
    for i in 0..z.len() {
        let (row, _) = z.at(i);
        if !is_of_kinds(row, kinds) {
            return false;
        }
    }
    true
}

// Whether no weight is below 0.
fn has_no_weight_below_zero(z: &ZSet) -> bool
    ensures { IsTrue result → All (λ e. pos 0 ≤ℤ e.1) (entries z.now) }
{
    for i in 0..z.len() {
        let (_, weight) = z.at(i);
        if weight < 0 {
            return false;
        }
    }
    true
}

/// Whether no weight is below 0, and the total is at most 2^61.
pub fn is_small(z: &ZSet) -> bool
    ensures { IsTrue result → IsSmall z.now }
{
    if !has_no_weight_below_zero(z) {
        return false;
    }
    z.total() <= 2_305_843_009_213_693_952
}
