//! Binary search in a run.
ghost use Rattle.std.specs.Prelude.{◌≡◌, None, IfNone, IfSome};
ghost use Rattle.sq_trace.specs.Runs.{IsRun, at};
ghost use Rattle.sq_trace.specs.Inside.{IsBound, IsFound};

use crate::Entry;
use sq_value::Row;
use sq_zset::Group;
use std::cmp::Ordering;

/// How many entries of a run stand below a place. Takes no memory.
pub(crate) fn bound<P: Group>(entries: &[Entry<P>], key: &Row, row: &Row) -> usize
    requires { IsRun P.addition P.first_outside entries.now }
    ensures { IsBound (key.now, row.now) entries.now result }
{
    let mut low = 0;
    let mut high = entries.len();
    while low < high {
        let middle = low + (high - low) / 2;
        match entries[middle].compare_place(key, row) {
            Ordering::Less => low = middle + 1,
            Ordering::Equal | Ordering::Greater => high = middle,
        }
    }
    low
}

/// The payload of a run at a place, if it has one there, lent. Takes no memory.
pub(crate) fn found<'a, P: Group>(entries: &'a [Entry<P>], key: &Row, row: &Row) -> Option<&'a P>
    requires { IsRun P.addition P.first_outside entries.now }
    ensures none { IfNone result (at P.addition (key.now, row.now) entries.now ≡ P.addition.zero) }
    ensures some { IfSome result (λ payload. IsFound P.addition P.first_outside (key.now, row.now) entries.now payload.now) }
{
    let entry = entries.get(bound(entries, key, row))?;
    match entry.compare_place(key, row) {
        Ordering::Equal => Some(&entry.payload),
        Ordering::Less | Ordering::Greater => None,
    }
}
