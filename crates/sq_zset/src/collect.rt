//! Pairs into the entries of a Z-set: sorted, the weights of equal rows added up, and each sum tested against the range.
ghost use Rattle.std.specs.Prelude.{◌≡◌, ◌+◌, ◌^◌, ◌≤◌, ℤ, pos, reverse, unsigned_abs, IfOk, OnOk, Some, None};
ghost use Rattle.sq_value.specs.Order.{row_cmp};
ghost use Rattle.sq_algebra.specs.Operators.{weighing};
ghost use Rattle.sq_algebra.specs.ZSet.{add, collect};
ghost use Rattle.sq_zset.specs.Collecting.{IsLowest, mass_of, first_weight, without_first};
ghost use Rattle.sq_zset.specs.Pairs.{mass, weighted_rows};
ghost use Rattle.sq_zset.specs.Range.{first_outside_in};

use crate::merge::weight_from;
use crate::{Pair, ZFault};
use sq_value::{NoMemory, Row};
use std::alloc::Global;

/// Takes the sum of `row` off the end of a list that descends. It is 0 if another row stands at the end.
fn take_sum(sums: &mut Vec<(Row, i128)>, row: &Row) -> i128
    ensures sum { result ≡ first_weight row.now (reverse sums.old.items) }
    ensures rest { reverse sums.new.items ≡ without_first row.now (reverse sums.old.items) }
{
    let sum = match sums.last() {
        Some(last) if last.0 == *row => last.1,
        _ => return 0,
    };
    sums.truncate(sums.len() - 1);
    sum
}

/// Adds a pair to sums that descend by their rows, none of which is below the pair's row.
fn add_pair(sums: &mut Vec<(Row, i128)>, pair: Pair) -> Result<(), NoMemory>
    requires lowest { IsLowest pair.row (reverse sums.old.items) }
    requires fits { unsigned_abs pair.weight + mass_of sums.old.items ≤ 2 ^ 126 }
    ensures { OnOk result (reverse sums.new.items ≡ add row_cmp pair.row pair.weight (reverse sums.old.items)) }
{
    let Pair { row, weight } = pair;
    let sum = weight + take_sum(sums, &row);
    if sum != 0 {
        sums.push((row, sum))?;
    }
    Ok(())
}

/// The sums of the pairs of each row, other than 0. The rows descend.
pub fn sums_of(alloc: Global, mut pairs: Vec<Pair>) -> Result<Vec<(Row, i128)>, NoMemory>
    requires { mass pairs.items ≤ 2 ^ 126 }
    ensures { IfOk result (λ sums. reverse sums.items ≡ collect row_cmp (weighted_rows pairs.items)) }
{
    pairs.sort_unstable();
    let mut sums = Vec::new(alloc);
    while let Some(pair) = pairs.pop() {
        add_pair(&mut sums, pair)?;
    }
    Ok(sums)
}

/// The sums in ascending order, as weights, or the first that lies outside the range. The sums are given in descending order.
pub fn weights_of(alloc: Global, mut sums: Vec<(Row, i128)>) -> Result<Vec<(Row, i64)>, ZFault>
    ensures ok { IfOk result (λ list. list.items ≡ reverse sums.items) }
    ensures in_range { IfOk result (λ list. first_outside_in list.items ≡ None) }
    ensures outside { (sum : ℤ) → result ≡ Err (ZFault.Weight sum) → first_outside_in (reverse sums.items) ≡ Some sum }
{
    let mut list = Vec::with_capacity(alloc, sums.len())?;
    while let Some((row, sum)) = sums.pop() {
        let weight = weight_from(sum)?;
        list.push((row, weight))?;
    }
    Ok(list)
}

/// Each row with the weight 1.
pub fn single_pairs(alloc: Global, rows: Vec<Row>) -> Result<Vec<Pair>, NoMemory>
    ensures { IfOk result (λ pairs. weighted_rows pairs.items ≡ weighing (pos 1) rows.items) }
{
    let mut pairs = Vec::with_capacity(alloc, rows.len())?;
    for row in rows {
        pairs.push(Pair { row, weight: 1 })?;
    }
    Ok(pairs)
}
