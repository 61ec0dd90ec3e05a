//! What a trace holds at a place, and whether a change keeps it within range.
ghost use Rattle.std.specs.Prelude.{◌≡◌, ℤ, Some, None, IfOk, OnOk};
ghost use Rattle.sq_trace.specs.Runs.{Place, IsRun, FrontsInRange, at, content};
ghost use Rattle.sq_trace.specs.Changes.{changed, IsFirstOutside, Shows};

use crate::search::found;
use crate::{Entry, Keyed};
use sq_value::{NoMemory, Row};
use sq_zset::{Group, ZFault};
use std::alloc::Global;

/// The sum of two values, if it is in the range.
pub(crate) fn sum_in_range<P: Group>(alloc: Global, left: &P, right: &P) -> Result<P, NoMemory>
    requires left_in_range { P.first_outside left.now ≡ None }
    requires right_in_range { P.first_outside right.now ≡ None }
    requires sum_in_range { P.first_outside (P.addition.plus left.now right.now) ≡ None }
    ensures ok { IfOk result (λ sum. sum ≡ P.addition.plus left.now right.now) }
{
    match left.plus(alloc, right) {
        Ok(sum) => Ok(sum),
        Err(ZFault::Memory) => Err(NoMemory),
        Err(ZFault::Weight { .. }) => unreachable!(),
    }
}

/// The sum and the payload that a run has at a place, added up.
fn add_found<P: Group>(
    alloc: Global,
    sum: P,
    run: &[Entry<P>],
    key: &Row,
    row: &Row,
) -> Result<P, NoMemory>
    requires is_run { IsRun P.addition P.first_outside run.now }
    requires in_range { P.first_outside sum ≡ None }
    requires sum_in_range { P.first_outside (P.addition.plus sum (at P.addition (key.now, row.now) run.now)) ≡ None }
    ensures ok { IfOk result (λ total. total ≡ P.addition.plus sum (at P.addition (key.now, row.now) run.now)) }
{
    match found(run, key, row) {
        None => Ok(sum),
        Some(payload) => sum_in_range(alloc, &sum, payload),
    }
}

/// What the parts add up to at a place.
pub(crate) fn total_at<P: Group>(
    alloc: Global,
    parts: &[Keyed<P>],
    key: &Row,
    row: &Row,
) -> Result<P, NoMemory>
    requires { FrontsInRange P.addition P.first_outside parts.now }
    ensures ok { IfOk result (λ total. total ≡ content P.addition (key.now, row.now) parts.now) }
{
    let mut sum = P::zero(alloc);
    for part in parts {
        sum = add_found(alloc, sum, part.entries(), key, row)?;
    }
    Ok(sum)
}

/// The test whether all payloads stay in their ranges after a change.
///
/// The answer is `Weight` exactly if one does not, with the first number outside at the first such place.
pub(crate) fn test_change<P: Group>(
    alloc: Global,
    parts: &[Keyed<P>],
    change: &[Entry<P>],
) -> Result<(), ZFault>
    requires fronts { FrontsInRange P.addition P.first_outside parts.now }
    requires is_run { IsRun P.addition P.first_outside change.now }
    ensures ok { OnOk result ((p : Place) → P.first_outside (changed P.addition parts.now change.now p) ≡ None) }
    ensures outside { (number : ℤ) → result ≡ Err (ZFault.Weight number) → IsFirstOutside P.first_outside (changed P.addition parts.now change.now) number }
{
    for entry in change {
        let total = total_at(alloc, parts, &entry.key, &entry.row)?;
        let _sum = total.plus(alloc, &entry.payload)?;
    }
    Ok(())
}

/// What the parts add up to at a place, unless that is zero.
pub(crate) fn shown_at<P: Group>(
    alloc: Global,
    parts: &[Keyed<P>],
    key: &Row,
    row: &Row,
) -> Result<Option<P>, NoMemory>
    requires { FrontsInRange P.addition P.first_outside parts.now }
    ensures { IfOk result (λ answer. Shows P.addition (content P.addition (key.now, row.now) parts.now) answer) }
{
    let total = total_at(alloc, parts, key, row)?;
    if total.is_zero() {
        return Ok(None);
    }
    Ok(Some(total))
}
