//! The count and the sum of one call, and lists of them.
ghost use Rattle.std.specs.Prelude.{◌≡◌, ◌&&◌, ◌<◌, ◌≤◌, ◌^◌, ℤ, map, pos, length, unsigned_abs, IfOk, OnOk, OnErr, IfErr, false};
ghost use Rattle.std.specs.List.{AllByRecursion, list_all};
ghost use Rattle.std.specs.Ordering.{int_eq};
ghost use Rattle.sq_agg.specs.Accumulators.{call_tally, is_sum_in_range};
ghost use Rattle.sq_agg.specs.Tallies.{IsWithin, both, first_of_tally, first_of_tallies, is_no_tally, summed, tally_or_none, turned};
ghost use Rattle.sq_ops.specs.Measures.{IsMeasurable, weighted};
ghost use Rattle.sq_zset.specs.declared.pair.OutsideRange.{OutsideRange as Outside};

use sq_expr::Func;
use sq_ops::{Call, count_of, count_of_row, sum_of, sum_of_row, total_of};
use sq_value::{NoMemory, Row};
use sq_zset::{OutsideRange, ZFault, ZSet, weight_from};
use std::alloc::Global;

/// How far from 0 a sum is always less.
const SUM_LIMIT: i128 = 1 << 126;

/// The count and the sum of a call.
#[derive(Clone, Copy, Debug, PartialEq, Eq)]
pub struct Tally {
    pub count: i64,
    pub sum: i128,
}

impl Tally {
    // The count and the sum added up, or the first of them that lies outside its range.
    fn plus(self, other: Tally) -> Result<Tally, OutsideRange>
        requires self_within { IsWithin self }
        requires other_within { IsWithin other }
        ensures ok { IfOk result (λ tally. tally ≡ both self other) }
        ensures within { IfOk result IsWithin }
        ensures outside { (outside : Outside) → result ≡ Err outside → first_of_tally (both self other) ≡ Some outside.sum }
    {
        let count = weight_from(i128::from(self.count) + i128::from(other.count))?;
        let sum = sum_from(self.sum + other.sum)?;
        Ok(Tally { count, sum })
    }

    // The count and the sum with the other sign.
    fn negate(self) -> Tally
        requires { IsWithin self }
        ensures negation { result ≡ turned self }
        ensures within { IsWithin result }
    {
        Tally {
            count: -self.count,
            sum: -self.sum,
        }
    }

    // Whether both are 0.
    fn is_none(self) -> bool
        ensures { result ≡ is_no_tally self }
    {
        self.count == 0 && self.sum == 0
    }
}

// The sum, or that it lies outside the range.
fn sum_from(sum: i128) -> Result<i128, OutsideRange>
    ensures ok { IfOk result (λ same. same ≡ sum) }
    ensures in_range { OnOk result (unsigned_abs sum < 2 ^ 126) }
    ensures outside { OnErr result (is_sum_in_range sum ≡ false) }
    ensures fault { IfErr result (λ outside. outside.sum ≡ sum) }
{
    if sum <= -SUM_LIMIT || SUM_LIMIT <= sum {
        return Err(OutsideRange { sum });
    }
    Ok(sum)
}

/// The counts and sums of a call number, nothing if there is no such call.
pub fn tally_at(tallies: &[Tally], i: usize) -> Tally
    requires { AllByRecursion IsWithin tallies.now }
    ensures tally { result ≡ tally_or_none i tallies.now }
    ensures within { IsWithin result }
{
    if i < tallies.len() {
        return tallies[i];
    }
    Tally { count: 0, sum: 0 }
}

/// The counts and sums of two lists added up, call by call, or the first number that lies outside its range.
pub fn plus_tallies(alloc: Global, a: &[Tally], b: &[Tally]) -> Result<Vec<Tally>, ZFault>
    requires left_within { AllByRecursion IsWithin a.now }
    requires right_within { AllByRecursion IsWithin b.now }
    ensures ok { IfOk result (λ list. list.items ≡ summed a.now b.now) }
    ensures within { IfOk result (λ list. AllByRecursion IsWithin list.items) }
    ensures outside { (number : ℤ) → result ≡ Err (ZFault.Weight number) → first_of_tallies (summed a.now b.now) ≡ Some number }
{
    let mut list = Vec::new(alloc);
    for i in 0..longer(a, b) {
        let sum = tally_at(a, i).plus(tally_at(b, i))?;
        list.push(sum)?;
    }
    Ok(list)
}

// The length of the longer list.
fn longer(a: &[Tally], b: &[Tally]) -> usize
    ensures { result ≡ length (summed a.now b.now) }
{
    if a.len() < b.len() { b.len() } else { a.len() }
}

/// The counts and sums with the other sign.
pub fn negate_tallies(alloc: Global, tallies: &[Tally]) -> Result<Vec<Tally>, NoMemory>
    requires { AllByRecursion IsWithin tallies.now }
    ensures ok { IfOk result (λ list. list.items ≡ map turned tallies.now) }
    ensures within { IfOk result (λ list. AllByRecursion IsWithin list.items) }
{
    let mut list = Vec::with_capacity(alloc, tallies.len())?;
    for tally in tallies {
        list.push(tally.negate())?;
    }
    Ok(list)
}

/// Copies of the counts and sums.
pub fn copy_tallies(alloc: Global, tallies: &[Tally]) -> Result<Vec<Tally>, NoMemory>
    ensures { IfOk result (λ list. list.items ≡ tallies.now) }
{
    let mut list = Vec::with_capacity(alloc, tallies.len())?;
    list.extend_from_slice(tallies)?;
    Ok(list)
}

/// Whether the number of rows and all counts and sums are 0.
pub fn is_nothing(rows: i64, tallies: &[Tally]) -> bool
    ensures { result ≡ int_eq rows (pos 0) && list_all is_no_tally tallies.now }
{
    rows == 0 && are_none(tallies)
}

// Whether all counts and sums are 0.
fn are_none(tallies: &[Tally]) -> bool
    ensures { result ≡ list_all is_no_tally tallies.now }
{
    tallies.iter().all(|tally| tally.is_none())
}

/// The counts and sums of the calls over the rows of a group.
pub fn tallies_of(alloc: Global, calls: &[Call], z: &ZSet) -> Result<Vec<Tally>, NoMemory>
    requires { IsMeasurable z.now }
    ensures ok { IfOk result (λ list. list.items ≡ map (call_tally z.now) calls.now) }
    ensures within { IfOk result (λ list. AllByRecursion IsWithin list.items) }
{
    let mut list = Vec::with_capacity(alloc, calls.len())?;
    for call in calls {
        list.push(tally_of(call, z))?;
    }
    Ok(list)
}

// The count and the sum of the call over the rows of a group.
fn tally_of(call: &Call, z: &ZSet) -> Tally
    requires { IsMeasurable z.now }
    ensures { result ≡ call_tally z.now call.now }
{
    match call.func {
        Func::CountAll => Tally {
            count: total_of(z),
            sum: 0,
        },
        Func::Sum => Tally {
            count: count_of(z, call.arg),
            sum: sum_of(z, call.arg),
        },
        Func::Count | Func::Min | Func::Max => Tally {
            count: count_of(z, call.arg),
            sum: 0,
        },
    }
}

/// The counts and sums of the calls over one row that is there as often as the weight says.
pub fn tallies_of_row(
    alloc: Global,
    calls: &[Call],
    row: &Row,
    weight: i64,
) -> Result<Vec<Tally>, NoMemory>
    requires { unsigned_abs weight ≤ 2 ^ 62 }
    ensures ok { IfOk result (λ list. list.items ≡ map (call_tally (weighted row.now weight)) calls.now) }
    ensures within { IfOk result (λ list. AllByRecursion IsWithin list.items) }
{
    let mut list = Vec::with_capacity(alloc, calls.len())?;
    for call in calls {
        list.push(tally_of_row(call, row, weight))?;
    }
    Ok(list)
}

// The count and the sum of the call over one row.
fn tally_of_row(call: &Call, row: &Row, weight: i64) -> Tally
    requires { unsigned_abs weight ≤ 2 ^ 62 }
    ensures tally { result ≡ call_tally (weighted row.now weight) call.now }
    ensures within { IsWithin result }
{
    match call.func {
        Func::CountAll => Tally {
            count: weight,
            sum: 0,
        },
        Func::Sum => Tally {
            count: count_of_row(row, weight, call.arg),
            sum: sum_of_row(row, weight, call.arg),
        },
        Func::Count | Func::Min | Func::Max => Tally {
            count: count_of_row(row, weight, call.arg),
            sum: 0,
        },
    }
}
