//! The runs that a change is merged with, by the rule of lengths.
ghost use Rattle.std.specs.Prelude.{◌≡◌, ◌≤◌, ◌<◌, length, take, None, IfOk, false, true};
ghost use Rattle.sq_trace.specs.Runs.{Place, IsRun, FrontsInRange};
ghost use Rattle.sq_trace.specs.Changes.{changed};
ghost use Rattle.sq_trace.specs.Inside.{MayStandBehind, IsMerged};

use crate::merge::{copy_entries, merge};
use crate::rows::{all_rows, merge_in_range};
use crate::{Entry, Keyed};
use sq_value::NoMemory;
use sq_zset::{Group, ZFault};
use std::alloc::Global;

/// How many first parts stay, and the run that comes behind them.
#[derive(Drop)]
pub(crate) struct Merged<P> {
    pub stay: usize,
    pub run: Vec<Entry<P>>,
}

/// Whether a run may stand behind the first `stay` parts by the rule of lengths.
fn may_stand_behind<P: Group>(parts: &[Keyed<P>], stay: usize, run: &[Entry<P>]) -> bool
    requires { stay ≤ length parts.now }
    ensures fits { result ≡ true → MayStandBehind (take stay parts.now) run.now }
    ensures some { result ≡ false → 0 < stay }
{
    if stay == 0 {
        return true;
    }
    let older = parts[stay - 1].entries().len();
    0 < older && run.len() <= older / 2
}

/// The change merged with the newest runs, with as few as the rule of lengths allows.
///
/// The answer is `Weight` only if a payload leaves its range on the way.
fn merge_newest<P: Group>(
    alloc: Global,
    parts: &[Keyed<P>],
    change: &[Entry<P>],
) -> Result<Merged<P>, ZFault>
    requires { IsRun P.addition P.first_outside change.now }
    ensures { IfOk result (λ merged. IsMerged P.addition P.first_outside parts.now change.now merged.stay merged.run.items) }
{
    let mut stay = parts.len();
    let mut run = copy_entries(alloc, change)?;
    while !may_stand_behind(parts, stay, &run) {
        stay -= 1;
        run = merge(alloc, parts[stay].entries(), &run)?;
    }
    Ok(Merged { stay, run })
}

/// The change merged with all runs, from the oldest on: no payload leaves its range on the way.
fn merge_all<P: Group>(
    alloc: Global,
    parts: &[Keyed<P>],
    change: &[Entry<P>],
) -> Result<Merged<P>, NoMemory>
    requires fronts { FrontsInRange P.addition P.first_outside parts.now }
    requires is_run { IsRun P.addition P.first_outside change.now }
    requires in_range { (p : Place) → P.first_outside (changed P.addition parts.now change.now p) ≡ None }
    ensures { IfOk result (λ merged. IsMerged P.addition P.first_outside parts.now change.now merged.stay merged.run.items) }
{
    let held = all_rows(alloc, parts)?;
    let run = merge_in_range(alloc, &held, change)?;
    Ok(Merged { stay: 0, run })
}

/// The change merged with the runs that the rule of lengths asks for, or with all if a payload would leave its range.
pub(crate) fn merged_with<P: Group>(
    alloc: Global,
    parts: &[Keyed<P>],
    change: &[Entry<P>],
) -> Result<Merged<P>, NoMemory>
    requires fronts { FrontsInRange P.addition P.first_outside parts.now }
    requires is_run { IsRun P.addition P.first_outside change.now }
    requires in_range { (p : Place) → P.first_outside (changed P.addition parts.now change.now p) ≡ None }
    ensures { IfOk result (λ merged. IsMerged P.addition P.first_outside parts.now change.now merged.stay merged.run.items) }
{
    match merge_newest(alloc, parts, change) {
        Ok(merged) => Ok(merged),
        Err(ZFault::Memory) => Err(NoMemory),
        Err(ZFault::Weight { .. }) => merge_all(alloc, parts, change),
    }
}
