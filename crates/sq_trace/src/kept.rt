//! Rows of a key that are kept after a change of the key's rows, looked through from either end.
ghost use Rattle.std.specs.Prelude.{◌≡◌, ◌-◌, ◌^◌, ◌<◌, ◌≤◌, length, true, false, pos, ◌≤ℤ◌, IfOk, IfSome, IfNone, option_copied};
ghost use Rattle.sq_algebra.specs.Groups.{integers};
ghost use Rattle.sq_algebra.specs.ZSet.{entries};
ghost use Rattle.sq_zset.specs.Range.{number_outside};
ghost use Rattle.sq_trace.specs.Runs.{FrontsInRange, content};
ghost use Rattle.sq_trace.specs.Extremes.{weight_after};
ghost use Rattle.sq_trace.specs.Ends.{FirstOf, IsFirstHeld, IsNthBefore, EndsBefore};

use crate::Keyed;
use crate::next::next_of;
use crate::side::Side;
use crate::totals::total_at;
use sq_value::{NoMemory, Row};
use sq_zset::ZSet;
use std::alloc::Global;

/// Whether a row of the key has a positive weight after the change.
fn is_kept(
    alloc: Global,
    parts: &[Keyed<i64>],
    key: &Row,
    change: &ZSet,
    row: &Row,
) -> Result<bool, NoMemory>
    requires { FrontsInRange integers number_outside parts.now }
    ensures kept { IfOk result (λ kept. kept ≡ true → pos 1 ≤ℤ weight_after key.now parts.now change.now row.now) }
    ensures gone { IfOk result (λ kept. kept ≡ false → pos 1 ≤ℤ weight_after key.now parts.now change.now row.now → ⊥) }
{
    let held = total_at(alloc, parts, key, row)?;
    let sum = i128::from(held) + i128::from(change.weight_of(row));
    Ok(sum > 0)
}

/// The first row that is kept among those at which the trace holds something, lent.
fn first_held<'a>(
    alloc: Global,
    side: Side,
    parts: &'a [Keyed<i64>],
    key: &Row,
    change: &ZSet,
) -> Result<Option<&'a Row>, NoMemory>
    requires { FrontsInRange integers number_outside parts.now }
    ensures { IfOk result (λ best. IsFirstHeld side (weight_after key.now parts.now change.now) (λ q. content integers (key.now, q) parts.now) (option_copied best)) }
{
    let mut last = None;
    while let Some(row) = next_of(side, parts, key, last) {
        if is_kept(alloc, parts, key, change, row)? {
            return Ok(Some(row));
        }
        last = Some(row);
    }
    Ok(None)
}

/// The n-th row of the change from an end, if there is one and it stands before another row, lent.
fn nth_before<'a>(side: Side, change: &'a ZSet, n: usize, other: Option<&Row>) -> Option<&'a Row>
    ensures some { IfSome result (λ row. IsNthBefore side change.now n (option_copied other.entry) row.now) }
    ensures fits { IfSome result (λ row. n < 2 ^ 64 - 1) }
    ensures none { IfNone result (EndsBefore side change.now n (option_copied other.entry)) }
{
    if n >= change.len() {
        return None;
    }
    let (row, _) = change.at(side.place(change.len(), n));
    if side.is_before(row, other) {
        Some(row)
    } else {
        None
    }
}

/// A copy of the row, if there is one.
fn copy_row(alloc: Global, row: Option<&Row>) -> Result<Option<Row>, NoMemory>
    ensures { IfOk result (λ copy. copy ≡ option_copied row.entry) }
{
    match row {
        None => Ok(None),
        Some(row) => Ok(Some(row.clone_row(alloc)?)),
    }
}

/// The first row that is kept, and how many rows of the change were tested.
///
/// Of the change, only the rows before the first one that is kept in the trace matter.
pub(crate) fn first_of(
    alloc: Global,
    side: Side,
    parts: &[Keyed<i64>],
    key: &Row,
    change: &ZSet,
) -> Result<(Option<Row>, usize), NoMemory>
    requires { FrontsInRange integers number_outside parts.now }
    ensures first { IfOk result (λ answer. FirstOf side (weight_after key.now parts.now change.now) answer.0) }
    ensures few { IfOk result (λ answer. answer.1 ≤ length (entries change.now)) }
{
    let held = first_held(alloc, side, parts, key, change)?;
    let mut tested = 0;
    while let Some(row) = nth_before(side, change, tested, held) {
        tested += 1;
        if is_kept(alloc, parts, key, change, row)? {
            return Ok((Some(row.clone_row(alloc)?), tested));
        }
    }
    Ok((copy_row(alloc, held)?, tested))
}
