//! The accumulator of a group after a change of its rows.
ghost use Rattle.std.specs.Prelude.{◌≡◌, ◌+◌, ◌≤◌, None, IfOk};
ghost use Rattle.sq_agg.specs.Accumulators.{first_number_outside};
ghost use Rattle.sq_agg.specs.Kept.{kept_accumulator};
ghost use Rattle.sq_algebra.specs.ZSet.{plus};

use crate::Acc;
use sq_base::Steps;
use sq_trace::Trace;
use sq_value::{NoMemory, Row};
use sq_zset::{Group, ZFault};
use std::alloc::Global;

/// The accumulator that the trace keeps of the group, and that of its changed rows, added up.
pub fn acc_after<L>(
    alloc: Global,
    accs: &Trace<Acc>,
    key: &Row,
    change: &Acc,
    steps: &mut Steps<L>,
) -> Result<Acc, NoMemory>
    requires in_range { first_number_outside (plus (kept_accumulator accs.now key.now) change.now) ≡ None }
    ensures ok { IfOk result (λ after. after ≡ plus (kept_accumulator accs.now key.now) change.now) }
    ensures count { steps.new.count ≤ steps.old.count + 1 }
    ensures ledger { steps.new.ledger ≡ steps.old.ledger }
{
    let no_values = Row::of(Vec::new(alloc));
    match accs.payload_of(alloc, key, &no_values, steps)? {
        Some(kept) => sum_of_both(alloc, &kept, change),
        None => copy_of(alloc, change),
    }
}

// The sum of two accumulators.
fn sum_of_both(alloc: Global, kept: &Acc, change: &Acc) -> Result<Acc, NoMemory>
    requires in_range { first_number_outside (plus kept.now change.now) ≡ None }
    ensures { IfOk result (λ sum. sum ≡ plus kept.now change.now) }
{
    // What an accumulator holds lies in the range.
    let _ = kept.rows();
    let _ = change.rows();
    match Group::plus(kept, alloc, change) {
        Ok(sum) => Ok(sum),
        Err(ZFault::Memory) => Err(NoMemory),
        Err(ZFault::Weight { .. }) => unreachable!(),
    }
}

fn copy_of(alloc: Global, acc: &Acc) -> Result<Acc, NoMemory>
    ensures { IfOk result (λ copy. copy ≡ acc.now) }
{
    let _ = acc.rows();
    acc.clone_group(alloc)
}
