//! The two ends from which the rows of a key are looked through.
ghost use Rattle.std.specs.Prelude.{◌≡◌, ◌<◌, option_copied};
ghost use Rattle.sq_trace.specs.Ends.{toward, is_before, nearer, place_from, beside};

use sq_value::Row;
use std::cmp::Ordering;

/// The end from which rows are looked through.
#[derive(Debug, Clone, Copy, Drop)]
pub(crate) enum Side {
    Least,
    Greatest,
}

impl Side {
    /// How two rows compare, seen from this end.
    fn compare(self, left: &Row, right: &Row) -> Ordering
        ensures { result ≡ toward self left.now right.now }
    {
        match self {
            Side::Least => left.cmp(right),
            Side::Greatest => right.cmp(left),
        }
    }

    /// Whether a row stands before another, if there is another.
    pub(crate) fn is_before(self, row: &Row, other: Option<&Row>) -> bool
        ensures { result ≡ is_before self row.now (option_copied other.entry) }
    {
        match other {
            None => true,
            Some(other) => self.compare(row, other) == Ordering::Less,
        }
    }

    /// The one of two rows that stands before the other, if there are two.
    pub(crate) fn nearer<'a>(self, best: Option<&'a Row>, row: Option<&'a Row>) -> Option<&'a Row>
        ensures { option_copied result ≡ nearer self (option_copied best.entry) (option_copied row.entry) }
    {
        match row {
            None => best,
            Some(row) => if self.is_before(row, best) {
                Some(row)
            } else {
                best
            },
        }
    }

    /// The index of the n-th of some members, counted from this end.
    pub(crate) fn place(self, length: usize, n: usize) -> usize
        requires { n < length }
        ensures { result ≡ place_from self length n }
    {
        match self {
            Side::Least => n,
            Side::Greatest => length - 1 - n,
        }
    }

    /// The member beside a cut, on the side to which the look goes.
    pub(crate) fn beside<T>(self, members: &[T], cut: usize) -> Option<&T>
        ensures { option_copied result ≡ beside self members.now cut }
    {
        match self {
            Side::Least => members.get(cut),
            Side::Greatest => members.get(cut.checked_sub(1)?),
        }
    }
}
