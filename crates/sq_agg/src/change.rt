//! What a change of its rows changes of one group.
ghost use Rattle.std.specs.Prelude.{◌≡◌, ◌+◌, ◌≤◌, ◌^◌, ℤ, List, Option, length, None, IfOk, OnOk};
ghost use Rattle.sq_agg.specs.Accumulators.{accumulated};
ghost use Rattle.sq_agg.specs.Shifts.{FirstSum, GroupState, OnState, ShowsRow, group_cost, shown_row};
ghost use Rattle.sq_algebra.specs.ZSet.{entries};
ghost use Rattle.sq_expr.specs.Bigint.{first_not_bigint};
ghost use Rattle.sq_ops.specs.Aggregates.{SuitsSpec, sums_of};
ghost use Rattle.sq_ops.specs.Fits.{FitsRows};
ghost use Rattle.sq_value.specs.declared.value.Value.{Value as Datum};
ghost use Rattle.sq_zset.specs.Collecting.{mass_of};

use crate::Acc;
use crate::follow::acc_after;
use crate::group_row::{row_after, row_before};
use sq_base::Steps;
use sq_ops::{AggSpec, WholeFault};
use sq_trace::Trace;
use sq_value::Row;
use sq_zset::ZSet;
use std::alloc::Global;

/// What a change of its rows changes of one group: the accumulator of the changed rows, and the row that was shown and the
/// one that is shown now.
#[derive(Debug, Drop)]
pub struct GroupChange {
    pub acc: Acc,
    pub before: Option<Row>,
    pub after: Option<Row>,
}

/// What the changed rows of a group change of it. Each of the three traces is looked up once, and the kept arguments once for
/// each call of MIN and MAX.
///
/// The answer is `Sum` if a SUM of the group lies outside the range of BIGINT after the change, with the first such sum, and
/// `Memory` when memory runs out.
pub fn change_of_group<L>(
    alloc: Global,
    spec: &AggSpec,
    accs: &Trace<Acc>,
    ordered: &Trace<i64>,
    shown: &Trace<i64>,
    key: &Row,
    changed: &ZSet,
    steps: &mut Steps<L>,
) -> Result<GroupChange, WholeFault>
    requires state { GroupState spec.now accs.now ordered.now key.now changed.now }
    requires fits { FitsRows (SuitsSpec spec.now) changed.now }
    requires few { mass_of (entries changed.now) ≤ 2 ^ 62 }
    ensures acc { IfOk result (λ change. change.acc ≡ accumulated spec.now.calls changed.now) }
    ensures before { IfOk result (λ change. (r : Option (List Datum)) → ShowsRow shown.now key.now r → change.before ≡ r) }
    ensures after { IfOk result (λ change. OnState spec.now accs.now ordered.now key.now changed.now (λ z. change.after ≡ shown_row spec.now.global spec.now.calls key.now z)) }
    ensures all_sums { OnOk result (OnState spec.now accs.now ordered.now key.now changed.now (λ z. first_not_bigint (sums_of spec.now.calls z) ≡ None)) }
    ensures outside { (group : List Datum) (sum : ℤ) → result ≡ Err (WholeFault.Sum group sum) → (group ≡ key.now) × OnState spec.now accs.now ordered.now key.now changed.now (λ z. FirstSum spec.now.calls z sum) }
    ensures count { steps.new.count ≤ steps.old.count + group_cost spec.now (length (entries changed.now)) }
    ensures ledger { steps.new.ledger ≡ steps.old.ledger }
{
    let acc = Acc::of_rows(alloc, spec, changed)?;
    let whole = acc_after(alloc, accs, key, &acc, steps)?;
    let before = row_before(alloc, key, shown, steps)?;
    let after = row_after(alloc, spec, key, &whole, ordered, changed, steps)?;
    Ok(GroupChange { acc, before, after })
}
