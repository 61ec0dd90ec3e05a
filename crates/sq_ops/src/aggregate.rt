//! `AggSpec`: groups of rows and the values of aggregate calls over them, as an operator that works key by key.
ghost use Rattle.std.specs.Prelude.{◌≡◌, ◌↔◌, ◌&&◌, IsTrue, nat_lt, slice_get, not, ◌++◌, ◌^◌, ◌≤ℤ◌, ℤ, List, map, pos, Some, None, IfOk, IfErr, OnOk};
ghost use Rattle.std.specs.List.{list_all};
ghost use Rattle.sq_algebra.specs.Operators.{IsNonNegative};
ghost use Rattle.sq_algebra.specs.ZSet.{entries, total};
ghost use Rattle.sq_ops.specs.Aggregates.{SuitsSpec, call_suits, call_value, group_row, is_numeric, spec_suits, sums_of, tested_sum};
ghost use Rattle.sq_expr.specs.declared.expr.Func.TheVariants.{Sum};
ghost use Rattle.sq_expr.specs.Bigint.{first_not_bigint};
ghost use Rattle.sq_ops.specs.Fits.{FitsRows};
ghost use Rattle.sq_ops.specs.Measures.{IsMeasurable};
ghost use Rattle.sq_ops.specs.Wholes.{has_no_values};
ghost use Rattle.sq_value.specs.declared.value.Value.{Value as Datum};

use crate::columns::row_of;
use crate::copy::copy_values;
use crate::extreme::{greatest_in, least_in};
use crate::items::{clone_columns, same_columns};
use crate::measure::{count_of, sum_of, total_of};
use crate::{OpFault, Whole, WholeFault};
use sq_expr::{Func, Kind, OutOfRange, to_i64};
use sq_value::{NoMemory, Row, Value};
use sq_zset::ZSet;
use sqlite_items::Items;
use std::alloc::Global;

/// A call of an aggregate function on a column, counted from 0. The column of `Func::CountAll` is not read.
#[derive(Clone, Copy, Debug, PartialEq, Eq)]
pub struct Call {
    pub func: Func,
    pub arg: u32,
}

impl Call {
    /// Whether another call is the same. Takes no memory.
    pub fn is_same(&self, other: &Call) -> bool
        ensures { IsTrue result ↔ (self.now ≡ other.now) }
    {
        self.func == other.func && self.arg == other.arg
    }
}

/// Gives one row for each group of rows with the same values in the group columns: these values, and then those of the
/// calls. Two NULLs are the same here.
#[derive(Debug, Drop)]
pub struct AggSpec {
    /// The group columns, counted from 0.
    pub group: Items<u32>,
    /// The calls.
    pub calls: Items<Call>,
    /// Whether all rows are one group, which there is also over no rows. Then there is no group column.
    pub global: bool,
}

impl AggSpec {
    /// An operator of its own that is the same, or `NoMemory` when memory runs out.
    pub fn clone_spec(&self, alloc: Global) -> Result<AggSpec, NoMemory>
        ensures equal { IfOk result (λ copy. copy ≡ self.now) }
    {
        let group = clone_columns(alloc, &self.group)?;
        let calls = Items::from_slice(alloc, self.calls.as_slice())?;
        Ok(AggSpec {
            group,
            calls,
            global: self.global,
        })
    }

    /// Whether another operator is the same. Takes no memory.
    pub fn is_same(&self, other: &AggSpec) -> bool
        ensures { IsTrue result ↔ (self.now ≡ other.now) }
    {
        self.global == other.global
            && same_columns(&self.group, &other.group)
            && same_calls(self.calls.as_slice(), other.calls.as_slice())
    }

    /// Whether the aggregate takes rows of these kinds: a global one has no group column, the columns stand there, and
    /// those to be summed hold numbers. Takes no memory.
    pub fn suits(&self, kinds: &[Kind]) -> bool
        ensures { result ≡ spec_suits self.now kinds.now }
    {
        (!self.global || are_none(self.group.as_slice()))
            && are_below(self.group.as_slice(), kinds.len())
            && all_suit(self.calls.as_slice(), kinds)
    }

    /// The row of the group with the key, whose rows are `z`, without negative weights and with a total of at most 2^61.
    ///
    /// The answer is `Sum` exactly if a SUM lies outside the range of BIGINT, with the key and the first such sum, and
    /// `Memory` when memory runs out.
    pub fn row_of_group(&self, alloc: Global, key: &Row, z: &ZSet) -> Result<Row, WholeFault>
        requires fits { FitsRows (SuitsSpec self.now) z.now }
        requires not_negative { IsNonNegative z.now }
        requires bounded { total z.now ≤ℤ pos (2 ^ 61) }
        ensures ok { IfOk result (λ row. row ≡ group_row self.now.calls key.now z.now) }
        ensures all_sums { OnOk result (first_not_bigint (sums_of self.now.calls z.now) ≡ None) }
        ensures outside { (group : List Datum) (sum : ℤ) → result ≡ Err (WholeFault.Sum group sum) → (group ≡ key.now) × (first_not_bigint (sums_of self.now.calls z.now) ≡ Some sum) }
    {
        match call_values(alloc, self.calls.as_slice(), z) {
            Ok(values) => Ok(keyed_row(alloc, key, values)?),
            Err(OpFault::Value { value }) => Err(WholeFault::Sum {
                key: key.clone_row(alloc)?,
                sum: value,
            }),
            Err(OpFault::Memory) => Err(WholeFault::Memory),
        }
    }
}

impl Whole for AggSpec {
    ghost use Rattle.sq_ops.specs.Aggregates.{SuitsSpec, aggregated, group_of, part_of, sums_of};
    ghost use Rattle.sq_ops.specs.WholeLaws.{aggregates_add_up, part_is_nothing_for_none};

    ghost keys = { λ spec row. group_of spec row };

    ghost stands = { λ spec. spec.global };

    ghost parts = { λ spec c z. part_of spec.global spec.calls c z };

    ghost sums = { λ spec z. sums_of spec.calls z };

    ghost suits = { λ spec kinds. SuitsSpec spec kinds };

    ghost answers = { λ spec z. aggregated spec z };

    fn key(&self, alloc: Global, row: &Row) -> Result<Row, NoMemory> {
        if self.global {
            return Ok(Row::of(Vec::new(alloc)));
        }
        row_of(alloc, self.group.as_slice(), row)
    }

    fn standing(&self) -> bool {
        self.global
    }

    fn part(&self, alloc: Global, key: &Row, z: &ZSet) -> Result<ZSet, WholeFault> {
        if is_nothing(self.global, key, z) {
            return Ok(ZSet::empty(alloc));
        }
        let row = self.row_of_group(alloc, key, z)?;
        let part = ZSet::of_row(alloc, row)?;
        Ok(part)
    }

    ghost adds_up = { λ spec z. aggregates_add_up spec z };

    ghost nothing_for_none = { λ spec. part_is_nothing_for_none spec.global spec.calls };
}

// Whether two lists of calls are the same.
fn same_calls(calls: &[Call], others: &[Call]) -> bool
    ensures { IsTrue result ↔ (calls.now ≡ others.now) }
{
    if calls.len() != others.len() {
        return false;
    }
    for i in 0..calls.len() {
        if !calls[i].is_same(&others[i]) {
            return false;
        }
    }
    true
}

fn are_none(columns: &[u32]) -> bool
    ensures { result ≡ has_no_values columns.now }
{
    columns.len() == 0
}

fn are_below(columns: &[u32], width: usize) -> bool
    ensures { result ≡ list_all (λ c. nat_lt c width) columns.now }
{
    columns.iter().all(|column| (*column as usize) < width)
}

fn all_suit(calls: &[Call], kinds: &[Kind]) -> bool
    ensures { result ≡ list_all (λ call. call_suits call.func call.arg kinds.now) calls.now }
{
    calls.iter().all(|call| call_suits(*call, kinds))
}

fn call_suits(call: Call, kinds: &[Kind]) -> bool
    ensures { result ≡ call_suits call.func call.arg kinds.now }
{
    match call.func {
        Func::CountAll => true,
        Func::Sum => is_numeric(kinds, call.arg),
        Func::Count | Func::Min | Func::Max => (call.arg as usize) < kinds.len(),
    }
}

fn is_numeric(kinds: &[Kind], column: u32) -> bool
    ensures { result ≡ is_numeric (slice_get kinds.now column) }
{
    match kinds.get(column as usize) {
        Some(Kind::Integer | Kind::Bigint) => true,
        Some(Kind::Text) => false,
        None => false,
    }
}

// Whether there are no rows, and the key does not stand without any.
fn is_nothing(stands: bool, key: &Row, z: &ZSet) -> bool
    ensures { result ≡ has_no_values (entries z.now) && not (stands && has_no_values key.now) }
{
    has_no_rows(z) && !(stands && is_without_values(key))
}

fn has_no_rows(z: &ZSet) -> bool
    ensures { result ≡ has_no_values (entries z.now) }
{
    z.len() == 0
}

fn is_without_values(row: &Row) -> bool
    ensures { result ≡ has_no_values row.now }
{
    row.len() == 0
}

// The key with the values behind it.
fn keyed_row(alloc: Global, key: &Row, mut values: Vec<Value>) -> Result<Row, NoMemory>
    ensures { IfOk result (λ row. row ≡ key.now ++ values.items) }
{
    let mut all = copy_values(alloc, key)?;
    all.append(&mut values)?;
    Ok(Row::of(all))
}

// The values of the calls over the rows of a group, or the first SUM outside the range of BIGINT.
fn call_values(alloc: Global, calls: &[Call], z: &ZSet) -> Result<Vec<Value>, OpFault>
    requires { IsMeasurable z.now }
    ensures ok { IfOk result (λ values. values.items ≡ map (λ call. call_value call.func call.arg z.now) calls.now) }
    ensures in_range { OnOk result (first_not_bigint (sums_of calls.now z.now) ≡ None) }
    ensures outside { (sum : ℤ) → result ≡ Err (OpFault.Value sum) → first_not_bigint (sums_of calls.now z.now) ≡ Some sum }
{
    let mut values = Vec::with_capacity(alloc, calls.len())?;
    for call in calls {
        let value = value_of_call(alloc, call, z)?;
        values.push(value)?;
    }
    Ok(values)
}

// The value of a call over the rows of a group, or its SUM if that is outside the range of BIGINT.
fn value_of_call(alloc: Global, call: &Call, z: &ZSet) -> Result<Value, OpFault>
    requires { IsMeasurable z.now }
    ensures ok { IfOk result (λ value. value ≡ call_value call.now.func call.now.arg z.now) }
    ensures in_range { OnOk result (first_not_bigint (tested_sum call.now.func call.now.arg z.now) ≡ None) }
    ensures outside { (sum : ℤ) → result ≡ Err (OpFault.Value sum) → first_not_bigint (tested_sum call.now.func call.now.arg z.now) ≡ Some sum }
{
    match call.func {
        Func::CountAll => Ok(Value::Int(total_of(z))),
        Func::Count => Ok(Value::Int(count_of(z, call.arg))),
        Func::Sum => Ok(sum_value(z, call.arg)?),
        Func::Min => Ok(least_in(alloc, z, call.arg)?),
        Func::Max => Ok(greatest_in(alloc, z, call.arg)?),
    }
}

// The SUM of a column, NULL if it has no value; or the sum, if it lies outside the range of BIGINT.
fn sum_value(z: &ZSet, column: u32) -> Result<Value, OutOfRange>
    requires { IsMeasurable z.now }
    ensures ok { IfOk result (λ value. value ≡ call_value Sum column z.now) }
    ensures in_range { OnOk result (first_not_bigint (tested_sum Sum column z.now) ≡ None) }
    ensures outside { IfErr result (λ outside. first_not_bigint (tested_sum Sum column z.now) ≡ Some outside.value) }
{
    let sum = sum_of(z, column);
    match to_i64(sum) {
        Err(outside) => Err(outside),
        Ok(number) => if count_of(z, column) == 0 {
            Ok(Value::Null)
        } else {
            Ok(Value::Int(number))
        },
    }
}
