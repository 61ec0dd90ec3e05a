//! How many rows the views list, raised tick by tick by the totals of their changes.
ghost use Rattle.std.specs.Prelude.{◌≡◌, ◌<◌, ◌+ℤ◌, ℤ, length, slice_get, Some, IfOk};
ghost use Rattle.std.specs.Int.{int_wrap, w128};
ghost use Rattle.sq_algebra.specs.ZSet.{total};
ghost use Rattle.sq_circuit.specs.Nodes.{Rows};
ghost use Rattle.sq_sample.specs.Running.{wrapped};

use sq_value::NoMemory;
use sq_zset::ZSet;
use std::alloc::Global;

/// Each number with the total of the change of its view, as 128 bits have it. There is a change for each number.
pub fn raised(alloc: Global, numbers: &[i128], views: &[ZSet]) -> Result<Vec<i128>, NoMemory>
    requires { length views.now ≡ length numbers.now }
    ensures { IfOk result (λ sums. sums.items ≡ wrapped numbers.now views.now) }
{
    let mut sums = Vec::with_capacity(alloc, numbers.len())?;
    for i in 0..numbers.len() {
        sums.push(sum_at(numbers, views, i))?;
    }
    Ok(sums)
}

// The number in a place with the total of the change of the view there.
fn sum_at(numbers: &[i128], views: &[ZSet], i: usize) -> i128
    requires number { i < length numbers.now }
    requires view { i < length views.now }
    ensures { (n : ℤ) (z : Rows) → slice_get numbers.now i ≡ Some n → slice_get views.now i ≡ Some z → result ≡ int_wrap w128 (n +ℤ total z) }
{
    wrapped_sum(number_at(numbers, i), total_at(views, i))
}

/// The number in a place.
pub fn number_at(numbers: &[i128], i: usize) -> i128
    requires { i < length numbers.now }
    ensures { slice_get numbers.now i ≡ Some result }
{
    numbers[i]
}

// The total of the change of the view in a place.
fn total_at(views: &[ZSet], i: usize) -> i128
    requires { i < length views.now }
    ensures { (z : Rows) → slice_get views.now i ≡ Some z → result ≡ total z }
{
    views[i].total()
}

// The sum of two numbers, as 128 bits have it.
fn wrapped_sum(a: i128, b: i128) -> i128
    ensures { result ≡ int_wrap w128 (a +ℤ b) }
{
    a.wrapping_add(b)
}
