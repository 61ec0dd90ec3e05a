//! An expression as a value that a row can hold.
ghost use Rattle.std.specs.Prelude.{◌≡◌, MatchResult, FitsSigned};
ghost use Rattle.std.specs.Int.{w64};
ghost use Rattle.sq_expr.specs.Fits.{Fits};
ghost use Rattle.sq_expr.specs.Items.{HasCause, IsStorable};
ghost use Rattle.sq_expr.specs.Meaning.{num};

use crate::{Expr, Num, eval};
use sq_value::{NoMemory, Row, Value};
use std::alloc::Global;

/// A number outside the range of BIGINT, -2^63 to 2^63 - 1.
#[derive(Clone, Copy, Debug, PartialEq, Eq)]
pub struct OutOfRange {
    /// The number.
    pub value: i128,
}

/// Why an expression gives no value of a row.
#[derive(Clone, Copy, Debug, PartialEq, Eq)]
pub enum ItemFault {
    /// It is a number outside the range of BIGINT.
    Value { value: i128 },
    /// Memory ran out.
    Memory,
}

impl From<OutOfRange> for ItemFault {
    ghost use Rattle.sq_expr.specs.declared.value.ItemFault.TheVariants.{Value};

    ghost from_gives = { λ fault e. e ≡ Value fault.value };

    fn from(fault: OutOfRange) -> Self {
        ItemFault::Value { value: fault.value }
    }
}

impl From<NoMemory> for ItemFault {
    ghost use Rattle.sq_expr.specs.declared.value.ItemFault.TheVariants.{Memory};

    ghost from_gives = { λ _ e. e ≡ Memory };

    fn from(_: NoMemory) -> Self {
        ItemFault::Memory
    }
}

/// The number in 64 bits. `OutOfRange` exactly if it lies outside the range of BIGINT. Takes
/// no memory.
pub fn to_i64(value: i128) -> Result<i64, OutOfRange>
    ensures { MatchResult result (λ number. (number ≡ value) × FitsSigned w64 value) (λ fault. (fault.value ≡ value) × ¬ FitsSigned w64 value) }
{
    i64::try_from(value).map_err(|_| OutOfRange { value })
}

/// The expression on the row, as a value that a row can hold. The row must be of kinds that the expression suits.
///
/// `ItemFault::Value` comes exactly if it is a number outside the range of BIGINT. Only a text takes memory.
pub fn item(alloc: Global, expr: &Expr, row: &Row) -> Result<Value, ItemFault>
    requires { Fits expr.now row.now }
    ensures { MatchResult result (λ value. (value ≡ num expr.now row.now) × IsStorable (num expr.now row.now)) (λ fault. HasCause fault (num expr.now row.now)) }
{
    Ok(match eval(expr, row) {
        Num::Null => Value::Null,
        Num::Whole(number) => Value::Int(to_i64(number)?),
        Num::Text(text) => Value::Text(text.clone_str(alloc)?),
    })
}
