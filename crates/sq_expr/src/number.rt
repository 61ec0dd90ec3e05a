//! Sums, products and comparisons of the values that expressions have.
ghost use Rattle.std.specs.Prelude.{◌≡◌, ◌+ℤ◌, ◌*ℤ◌};
ghost use Rattle.sq_expr.specs.Meaning.{value_of, negative, signed, of_both, comparison, compares, tri_of, is_null};
ghost use Rattle.sq_expr.specs.Wrapping.{wrapped};

use crate::Cmp;
use sq_value::{Str, Tri};
use std::cmp::Ordering;

/// What an expression is on a row.
#[derive(Clone, Copy, Debug)]
pub enum Num<'a> {
    /// NULL.
    Null,
    /// A whole number.
    Whole(i128),
    /// A text, lent by the expression or by the row.
    Text(&'a Str),
}

// Numbers wrap in 128 bits. The static bound keeps the value of each expression in them, but not each front of
// a product that goes on with a sum of no terms, whose bound is 0.
impl<'a> Num<'a> {
    // The number with its sign turned, in 128 bits.
    pub(crate) fn negated(self) -> Num<'a>
        ensures { value_of result ≡ wrapped (negative (value_of self.entry)) }
    {
        match self {
            Num::Whole(x) => Num::Whole(x.wrapping_neg()),
            _ => Num::Null,
        }
    }

    // The sum of the two, or their difference if `minus` is true, in 128 bits.
    pub(crate) fn add(self, minus: bool, other: Num<'a>) -> Num<'a>
        ensures { value_of result ≡ wrapped (of_both ◌+ℤ◌ (value_of self.entry) (signed minus (value_of other.entry))) }
    {
        match (self, other) {
            (Num::Whole(x), Num::Whole(y)) if minus => Num::Whole(x.wrapping_sub(y)),
            (Num::Whole(x), Num::Whole(y)) => Num::Whole(x.wrapping_add(y)),
            _ => Num::Null,
        }
    }

    // The product of the two, in 128 bits.
    pub(crate) fn times(self, other: Num<'a>) -> Num<'a>
        ensures { value_of result ≡ wrapped (of_both ◌*ℤ◌ (value_of self.entry) (value_of other.entry)) }
    {
        match (self, other) {
            (Num::Whole(x), Num::Whole(y)) => Num::Whole(x.wrapping_mul(y)),
            _ => Num::Null,
        }
    }

    pub(crate) fn is_null(self) -> bool
        ensures { result ≡ is_null (value_of self.entry) }
    {
        match self {
            Num::Null => true,
            _ => false,
        }
    }

    // How the two compare, numbers by size and texts by their bytes.
    pub(crate) fn compare(self, cmp: Cmp, other: Num<'a>) -> Tri
        ensures { result ≡ comparison cmp (value_of self.entry) (value_of other.entry) }
    {
        match (self, other) {
            (Num::Null, _) | (_, Num::Null) => Tri::Unknown,
            (Num::Whole(x), Num::Whole(y)) => cmp.judge(x.cmp(&y)),
            (Num::Whole(_), Num::Text(_)) => cmp.judge(Ordering::Less),
            (Num::Text(_), Num::Whole(_)) => cmp.judge(Ordering::Greater),
            (Num::Text(x), Num::Text(y)) => cmp.judge(x.cmp(y)),
        }
    }
}

impl Cmp {
    // Whether two things in this order compare so.
    fn judge(self, order: Ordering) -> Tri
        ensures { result ≡ tri_of (compares self order) }
    {
        truth_of(match self {
            Cmp::Eq => order.is_eq(),
            Cmp::Ne => order.is_ne(),
            Cmp::Lt => order.is_lt(),
            Cmp::Le => order.is_le(),
            Cmp::Gt => order.is_gt(),
            Cmp::Ge => order.is_ge(),
        })
    }
}

pub(crate) fn truth_of(holds: bool) -> Tri
    ensures { result ≡ tri_of holds }
{
    if holds { Tri::True } else { Tri::False }
}
