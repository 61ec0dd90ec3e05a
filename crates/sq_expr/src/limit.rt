//! The static bound of an expression: how large it may get on rows of some kinds.
ghost use Rattle.std.specs.Prelude.{◌≡◌, ◌<◌, ◌≤◌, ◌^◌, MatchOption, unwrap_or, slice_get, Some};
ghost use Rattle.std.specs.Option.{option_map};
ghost use Rattle.sq_expr.specs.Bounds.{IsBounded, bound_of, kind_bound};

use crate::{Expr, Kind};

/// The static bound of the expression over columns of these kinds: what its absolute value is at most on any
/// row of these kinds. None if the bound of the expression or of one in it is above 2^127 - 1. A text
/// counts as 0. Takes no memory.
pub fn bound(expr: &Expr, kinds: &[Kind]) -> Option<u128>
    ensures { MatchOption result (¬ IsBounded kinds.now expr.now) (λ bound. (bound ≡ bound_of kinds.now expr.now) × IsBounded kinds.now expr.now) }
{
    within_limit(match expr {
        Expr::Column(at) => column_bound(kinds, *at),
        Expr::Number(number) => u128::from(*number).max(1),
        Expr::Text(_) => 0,
        Expr::Neg(operand) => bound(operand.get(), kinds)?,
        Expr::Sum(terms) => {
            let mut sum = 0u128;
            for term in terms.as_slice() {
                sum = sum.saturating_add(bound(&term.expr, kinds)?);
            }
            sum
        }
        Expr::Product(factors) => {
            let mut product = 1u128;
            for factor in factors.as_slice() {
                product = product.saturating_mul(bound(factor, kinds)?);
            }
            product
        }
    })
}

// The bound of a column; 0 if there is none.
fn column_bound(kinds: &[Kind], at: u32) -> u128
    ensures { result ≡ unwrap_or (option_map kind_bound (slice_get kinds.now at)) 0 }
{
    match kinds.get(at as usize) {
        Some(Kind::Integer) => 1 << 31,
        Some(Kind::Bigint) => 1 << 63,
        Some(Kind::Text) | None => 0,
    }
}

// The bound, if it is at most 2^127 - 1.
fn within_limit(bound: u128) -> Option<u128>
    ensures { MatchOption result (2 ^ 127 ≤ bound) (λ kept. (kept ≡ bound) × (bound < 2 ^ 127)) }
{
    if bound < 1 << 127 { Some(bound) } else { None }
}
