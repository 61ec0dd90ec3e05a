//! The values of aggregate calls over the rows of a group.
ghost use Rattle.std.specs.Prelude.{◌≡◌, ◌<◌, ◌^◌, ◌+◌, ◌+ℤ◌, ◌&&◌, pos, if◌then◌else◌, map, length, IfOk, OnOk, Err, true, false, option_copied, option_map, unwrap_or, Some};
ghost use Rattle.std.specs.List.{AllByRecursion, list_any};
ghost use Rattle.sq_expr.specs.Fits.{Fits};
ghost use Rattle.sq_value.specs.declared.value.Value.TheVariants.{Int, Null};
ghost use Rattle.sq_expr.specs.Meaning.{is_null, num, of_both, sum_of};
ghost use Rattle.sq_lists.specs.Values.{ArgumentFits, IsSumOf, better, extreme, is_call_outside, of_arguments, sum_value};
ghost use Rattle.sq_typed.specs.Blocks.{arguments, call_value, is_sum, present, sum_or_null};
ghost use Rattle.sq_typed.specs.Queries.{is_outside};

use crate::Stop;
use sq_expr::{Expr, Func, item, to_i64};
use sq_typed::BlockCall;
use sq_value::{NoMemory, Row, Value};
use std::alloc::Global;

// The expression on the row. The row is of kinds that it suits.
pub(crate) fn value_on(alloc: Global, expr: &Expr, row: &Row) -> Result<Value, Stop>
    requires { Fits expr.now row.now }
    ensures ok { IfOk result (λ value. value ≡ num expr.now row.now) }
    ensures inside { OnOk result (is_outside (num expr.now row.now) ≡ false) }
    ensures range { result ≡ Err Stop.Range → is_outside (num expr.now row.now) ≡ true }
{
    let value = item(alloc, expr, row)?;
    Ok(value)
}

// The expression on each of the rows, which are of kinds that it suits.
pub(crate) fn values_on(alloc: Global, expr: &Expr, rows: &[Row]) -> Result<Vec<Value>, Stop>
    requires { AllByRecursion (λ row. Fits expr.now row) rows.now }
    ensures ok { IfOk result (λ values. values.items ≡ map (num expr.now) rows.now) }
    ensures inside { OnOk result (list_any is_outside (map (num expr.now) rows.now) ≡ false) }
    ensures range { result ≡ Err Stop.Range → list_any is_outside (map (num expr.now) rows.now) ≡ true }
{
    let mut values = Vec::with_capacity(alloc, rows.len())?;
    for row in rows {
        let value = value_on(alloc, expr, row)?;
        values.push(value)?;
    }
    Ok(values)
}

// The sum with one more value, in which NULL counts for nothing. A sum is None once a text was added.
fn add_value(sum: Option<i128>, value: &Value, before: usize) -> Option<i128>
    requires sum { IsSumOf before sum }
    requires before { before < 2 ^ 62 }
    ensures added { sum_value result ≡ (if is_null value.now then sum_value sum else of_both ◌+ℤ◌ (sum_value sum) value.now) }
    ensures sum { IsSumOf (before + 1) result }
{
    match (sum, value) {
        (sum, Value::Null) => sum,
        (Some(sum), Value::Int(number)) => Some(sum + i128::from(*number)),
        _ => None,
    }
}

// The sum of the values other than NULL. None if one of them is a text.
fn sum_of(values: &[Value]) -> Option<i128>
    ensures { sum_value result ≡ sum_of (present values.now) }
{
    let mut sum = Some(0);
    for i in 0..values.len() {
        sum = add_value(sum, &values[i], i);
    }
    sum
}

fn is_null(value: &Value) -> bool
    ensures { result ≡ is_null value.now }
{
    matches!(value, Value::Null)
}

// How many of the values are not NULL.
fn count_present(values: &[Value]) -> usize
    ensures count { result ≡ length (present values.now) }
    ensures few { result < 2 ^ 62 }
{
    let mut count = 0;
    for value in values {
        count += usize::from(!is_null(value));
    }
    count
}

// Which of two values is the less, or the greater; the first if they are the same.
fn better<'a>(greatest: bool, chosen: &'a Value, value: &'a Value) -> &'a Value
    ensures { result.now ≡ better greatest chosen.now value.now }
{
    let takes_place = if greatest {
        chosen < value
    } else {
        value < chosen
    };
    if takes_place { value } else { chosen }
}

// What is chosen of the values so far and one more, of which NULL counts for nothing.
fn choose<'a>(greatest: bool, chosen: Option<&'a Value>, value: &'a Value) -> Option<&'a Value>
    ensures { option_copied result ≡ (if is_null value.now then option_copied chosen.entry else Some (unwrap_or (option_map (λ x. better greatest x value.now) (option_copied chosen.entry)) value.now)) }
{
    if is_null(value) {
        return chosen;
    }
    match chosen {
        Some(chosen) => Some(better(greatest, chosen, value)),
        None => Some(value),
    }
}

// The least or the greatest of the values other than NULL, if there is any.
fn extreme(greatest: bool, values: &[Value]) -> Option<&Value>
    ensures { option_copied result ≡ extreme greatest (present values.now) }
{
    let mut chosen = None;
    for value in values {
        chosen = choose(greatest, chosen, value);
    }
    chosen
}

// The argument of a call on each of the rows; none if it has no argument.
pub(crate) fn arguments(alloc: Global, arg: &Option<Expr>, rows: &[Row]) -> Result<Vec<Value>, Stop>
    requires { AllByRecursion (ArgumentFits arg.now) rows.now }
    ensures ok { IfOk result (λ values. values.items ≡ arguments arg.now rows.now) }
    ensures inside { OnOk result (list_any is_outside (arguments arg.now rows.now) ≡ false) }
    ensures range { result ≡ Err Stop.Range → list_any is_outside (arguments arg.now rows.now) ≡ true }
{
    match arg {
        Some(expr) => values_on(alloc, expr, rows),
        None => Ok(Vec::new(alloc)),
    }
}

// The sum as a value.
fn stored(sum: Option<i128>) -> Result<Value, Stop>
    ensures ok { IfOk result (λ value. value ≡ sum_value sum) }
    ensures inside { OnOk result (is_outside (sum_value sum) ≡ false) }
    ensures range { result ≡ Err Stop.Range → is_outside (sum_value sum) ≡ true }
{
    let Some(sum) = sum else {
        return Ok(Value::Null);
    };
    match to_i64(sum) {
        Ok(number) => Ok(Value::Int(number)),
        Err(_) => Err(Stop::Range),
    }
}

#[tactic(auto, using(crate::proofs::Values::sum_of_none, crate::proofs::Values::sum_of_some))]
// The sum of the values other than NULL; NULL if there is none.
fn sum_or_null(values: &[Value]) -> Result<Value, Stop>
    ensures ok { IfOk result (λ value. value ≡ sum_or_null (present values.now)) }
    ensures inside { OnOk result (is_outside (sum_or_null (present values.now)) ≡ false) }
    ensures range { result ≡ Err Stop.Range → is_outside (sum_or_null (present values.now)) ≡ true }
{
    if count_present(values) == 0 {
        Ok(Value::Null)
    } else {
        stored(sum_of(values))
    }
}

// The least or the greatest of the values other than NULL; NULL if there is none.
fn extreme_or_null(alloc: Global, greatest: bool, values: &[Value]) -> Result<Value, NoMemory>
    ensures { IfOk result (λ value. value ≡ unwrap_or (extreme greatest (present values.now)) Null) }
{
    match extreme(greatest, values) {
        Some(value) => value.clone_value(alloc),
        None => Ok(Value::Null),
    }
}

fn counted(count: usize) -> Value
    requires { count < 2 ^ 62 }
    ensures { result ≡ Int (pos count) }
{
    Value::Int(count as i64)
}

// The value of a call from the number of rows and its argument on each of them.
#[tactic(auto, using(crate::proofs::Values::least_chosen, crate::proofs::Values::greatest_chosen))]
fn of_arguments(alloc: Global, func: Func, rows: usize, values: &[Value]) -> Result<Value, Stop>
    requires { rows < 2 ^ 62 }
    ensures ok { IfOk result (λ value. value ≡ of_arguments func rows values.now) }
    ensures inside { OnOk result ((is_sum func && is_outside (of_arguments func rows values.now)) ≡ false) }
    ensures range { result ≡ Err Stop.Range → (is_sum func && is_outside (of_arguments func rows values.now)) ≡ true }
{
    match func {
        Func::CountAll => Ok(counted(rows)),
        Func::Count => Ok(counted(count_present(values))),
        Func::Sum => sum_or_null(values),
        Func::Min => Ok(extreme_or_null(alloc, false, values)?),
        Func::Max => Ok(extreme_or_null(alloc, true, values)?),
    }
}

// The value of a call over the rows of a group.
#[tactic(auto, using(crate::proofs::Values::call_by_arguments))]
pub(crate) fn call_value(alloc: Global, call: &BlockCall, rows: &[Row]) -> Result<Value, Stop>
    requires { AllByRecursion (ArgumentFits call.now.arg) rows.now }
    ensures ok { IfOk result (λ value. value ≡ call_value call.now.func call.now.arg rows.now) }
    ensures inside { OnOk result (is_call_outside rows.now call.now ≡ false) }
    ensures range { result ≡ Err Stop.Range → is_call_outside rows.now call.now ≡ true }
{
    let values = arguments(alloc, &call.arg, rows)?;
    of_arguments(alloc, call.func, rows.len(), &values)
}
