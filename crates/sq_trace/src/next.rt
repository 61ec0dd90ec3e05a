//! The next row of a key behind one that is done, from either end.
ghost use Rattle.std.specs.Prelude.{◌≡◌, option_copied};
ghost use Rattle.sq_trace.specs.Runs.{IsRun, place_of, at, content};
ghost use Rattle.sq_trace.specs.Ends.{is_low, low_there, IsCut, NextOf, left_in, left_of};

use crate::side::Side;
use crate::{Entry, Keyed};
use sq_value::Row;
use sq_zset::Group;
use std::cmp::Ordering;

/// Whether an entry at the last row that is done stands below the cut.
fn is_low_there(side: Side, last: Option<&Row>) -> bool
    ensures { result ≡ low_there side (option_copied last.entry) }
{
    match side {
        Side::Least => last.is_some(),
        Side::Greatest => last.is_none(),
    }
}

/// Whether an entry stands below the cut behind the last row that is done.
fn is_low<P>(side: Side, entry: &Entry<P>, key: &Row, last: Option<&Row>) -> bool
    ensures { result ≡ is_low side key.now (option_copied last.entry) (place_of entry.now) }
{
    let order = match last {
        None => entry.key.cmp(key),
        Some(row) => entry.compare_place(key, row),
    };
    match order {
        Ordering::Less => true,
        Ordering::Equal => is_low_there(side, last),
        Ordering::Greater => false,
    }
}

/// How many entries of a run stand below the cut. Takes no memory.
fn cut<P: Group>(side: Side, entries: &[Entry<P>], key: &Row, last: Option<&Row>) -> usize
    requires { IsRun P.addition P.first_outside entries.now }
    ensures { IsCut (is_low side key.now (option_copied last.entry)) entries.now result }
{
    let mut low = 0;
    let mut high = entries.len();
    while low < high {
        let middle = low + (high - low) / 2;
        if is_low(side, &entries[middle], key, last) {
            low = middle + 1;
        } else {
            high = middle;
        }
    }
    low
}

/// The next row of the key in a run, lent. Takes no memory.
fn next_in<'a, P: Group>(
    side: Side,
    entries: &'a [Entry<P>],
    key: &Row,
    last: Option<&Row>,
) -> Option<&'a Row>
    requires { IsRun P.addition P.first_outside entries.now }
    ensures { NextOf P.addition side key.now (option_copied last.entry) (λ q. at P.addition (key.now, q) entries.now) (left_in side key.now entries.now) (option_copied result) }
{
    let entry = side.beside(entries, cut(side, entries, key, last))?;
    if entry.key == *key {
        Some(&entry.row)
    } else {
        None
    }
}

/// The next row of the key in all parts, lent. Takes no memory.
pub(crate) fn next_of<'a, P: Group>(
    side: Side,
    parts: &'a [Keyed<P>],
    key: &Row,
    last: Option<&Row>,
) -> Option<&'a Row>
    ensures { NextOf P.addition side key.now (option_copied last.entry) (λ q. content P.addition (key.now, q) parts.now) (left_of side key.now parts.now) (option_copied result) }
{
    let mut best = None;
    for part in parts {
        best = side.nearer(best, next_in(side, part.entries(), key, last));
    }
    best
}
