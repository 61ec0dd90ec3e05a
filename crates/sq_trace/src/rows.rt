//! Many entries of a trace: all of them, or those of one key.
ghost use Rattle.std.specs.Prelude.{◌≡◌, [], None, IfOk};
ghost use Rattle.sq_trace.specs.Runs.{Place, IsRun, FrontsInRange, at};
ghost use Rattle.sq_trace.specs.Looking.{AreRowsOf, AreAllRows, IsRangeOf};
ghost use Rattle.sq_trace.specs.Inside.{IsSum};

use crate::merge::{copy_entries, merge};
use crate::search::bound;
use crate::{Entry, Keyed};
use sq_value::{NoMemory, Row};
use sq_zset::{Group, ZFault};
use std::alloc::Global;

/// The sum of two runs whose sums are in the range.
pub(crate) fn merge_in_range<P: Group>(
    alloc: Global,
    left: &[Entry<P>],
    right: &[Entry<P>],
) -> Result<Vec<Entry<P>>, NoMemory>
    requires left_run { IsRun P.addition P.first_outside left.now }
    requires right_run { IsRun P.addition P.first_outside right.now }
    requires in_range { (p : Place) → P.first_outside (P.addition.plus (at P.addition p left.now) (at P.addition p right.now)) ≡ None }
    ensures { IfOk result (λ sum. IsSum P.addition P.first_outside left.now right.now sum.items) }
{
    match merge(alloc, left, right) {
        Ok(sum) => Ok(sum),
        Err(ZFault::Memory) => Err(NoMemory),
        Err(ZFault::Weight { .. }) => unreachable!(),
    }
}

/// A run, and one more added to it. Where one of the two is empty, nothing is merged.
fn add_run<P: Group>(
    alloc: Global,
    rows: Vec<Entry<P>>,
    run: &[Entry<P>],
) -> Result<Vec<Entry<P>>, NoMemory>
    requires left_run { IsRun P.addition P.first_outside rows.items }
    requires right_run { IsRun P.addition P.first_outside run.now }
    requires in_range { (p : Place) → P.first_outside (P.addition.plus (at P.addition p rows.items) (at P.addition p run.now)) ≡ None }
    ensures { IfOk result (λ sum. IsSum P.addition P.first_outside rows.items run.now sum.items) }
{
    if run.is_empty() {
        return Ok(rows);
    }
    if rows.is_empty() {
        return copy_entries(alloc, run);
    }
    merge_in_range(alloc, &rows, run)
}

/// All entries of a trace, ascending.
pub(crate) fn all_rows<P: Group>(
    alloc: Global,
    parts: &[Keyed<P>],
) -> Result<Vec<Entry<P>>, NoMemory>
    requires { FrontsInRange P.addition P.first_outside parts.now }
    ensures { IfOk result (λ rows. AreAllRows P.addition P.first_outside parts.now rows.items) }
{
    let mut rows = Vec::new(alloc);
    for part in parts {
        rows = add_run(alloc, rows, part.entries())?;
    }
    Ok(rows)
}

/// The entries of a key in a run. The row `first` is the empty one. Takes no memory.
fn range_of<'a, P: Group>(entries: &'a [Entry<P>], key: &Row, first: &Row) -> &'a [Entry<P>]
    requires is_run { IsRun P.addition P.first_outside entries.now }
    requires first { first.now ≡ [] }
    ensures { IsRangeOf P.addition P.first_outside key.now entries.now result.now }
{
    let rest = &entries[bound(entries, key, first)..];
    let mut count = 0;
    while count < rest.len() && rest[count].key == *key {
        count += 1;
    }
    &rest[..count]
}

/// The entries of a key, ascending.
pub(crate) fn rows_at<P: Group>(
    alloc: Global,
    parts: &[Keyed<P>],
    key: &Row,
) -> Result<Vec<Entry<P>>, NoMemory>
    requires { FrontsInRange P.addition P.first_outside parts.now }
    ensures { IfOk result (λ rows. AreRowsOf P.addition P.first_outside key.now parts.now rows.items) }
{
    let first = Row::of(Vec::new(alloc));
    let mut rows = Vec::new(alloc);
    for part in parts {
        rows = add_run(alloc, rows, range_of(part.entries(), key, &first))?;
    }
    Ok(rows)
}
