//! Totals, counts and sums over the rows of a Z-set, each row as often as its weight says.
ghost use Rattle.std.specs.Prelude.{◌≡◌, ◌≤◌, ◌^◌, ◌*ℤ◌, unsigned_abs};
ghost use Rattle.sq_algebra.specs.Groups.{integers};
ghost use Rattle.sq_algebra.specs.Operators.{lin};
ghost use Rattle.sq_algebra.specs.ZSet.{total};
ghost use Rattle.sq_ops.specs.Aggregates.{count_in, number_at, sum_in};
ghost use Rattle.sq_ops.specs.Measures.{IsMeasurable, factor_of, weighted};

use crate::columns::is_null_at;
use sq_value::{Row, Value};
use sq_zset::ZSet;

/// What a row counts for.
#[derive(Clone, Copy, Debug, PartialEq, Eq)]
pub enum Measure {
    /// Whether it has a value in a column.
    Values,
    /// The number in a column.
    Numbers,
}

/// How many rows there are, each as often as its weight says. Takes no memory.
pub fn total_of(z: &ZSet) -> i64
    requires { IsMeasurable z.now }
    ensures { result ≡ total z.now }
{
    z.total() as i64
}

/// How many rows have a value in the column. Takes no memory.
pub fn count_of(z: &ZSet, column: u32) -> i64
    requires { IsMeasurable z.now }
    ensures { result ≡ count_in column z.now }
{
    measured(z, Measure::Values, column) as i64
}

/// The sum of the numbers in the column. Takes no memory.
pub fn sum_of(z: &ZSet, column: u32) -> i128
    requires { IsMeasurable z.now }
    ensures { result ≡ sum_in column z.now }
{
    measured(z, Measure::Numbers, column)
}

/// How many rows have a value in the column, if the row is there as often as the weight says and no other is. Takes no
/// memory.
pub fn count_of_row(row: &Row, weight: i64, column: u32) -> i64
    ensures { result ≡ count_in column (weighted row.now weight) }
{
    if is_null_at(row, column) { 0 } else { weight }
}

/// The sum of the numbers in the column, if the row is there as often as the weight says and no other is. Takes no
/// memory.
pub fn sum_of_row(row: &Row, weight: i64, column: u32) -> i128
    requires { unsigned_abs weight ≤ 2 ^ 62 }
    ensures sum { result ≡ sum_in column (weighted row.now weight) }
    ensures bound { unsigned_abs result ≤ 2 ^ 125 }
{
    product(row, weight, Measure::Numbers, column)
}

// What all rows count for, each as often as its weight says.
fn measured(z: &ZSet, measure: Measure, column: u32) -> i128
    requires { IsMeasurable z.now }
    ensures { result ≡ lin integers (factor_of measure column) z.now }
{
    let mut sum: i128 = 0;
    for i in 0..z.len() {
        let (row, weight) = z.at(i);
        sum += product(row, weight, measure, column);
    }
    sum
}

// What the row counts for, as often as its weight says.
fn product(row: &Row, weight: i64, measure: Measure, column: u32) -> i128
    requires { unsigned_abs weight ≤ 2 ^ 62 }
    ensures value { result ≡ weight *ℤ factor_of measure column row.now }
    ensures bound { unsigned_abs result ≤ 2 ^ 125 }
{
    i128::from(weight) * i128::from(factor(row, measure, column))
}

// What the row counts for.
fn factor(row: &Row, measure: Measure, column: u32) -> i64
    ensures { result ≡ factor_of measure column row.now }
{
    match measure {
        Measure::Values => if is_null_at(row, column) { 0 } else { 1 },
        Measure::Numbers => number(row, column),
    }
}

// The number in the column, and 0 if there is none.
fn number(row: &Row, column: u32) -> i64
    ensures { result ≡ number_at column row.now }
{
    let place = column as usize;
    if place >= row.len() {
        return 0;
    }
    match row.at(place) {
        Value::Int(number) => *number,
        Value::Null => 0,
        Value::Text(_) => 0,
    }
}
