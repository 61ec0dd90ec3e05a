//! Aggregates step by step: what a change of the rows changes of the answer and of the three traces.
ghost use Rattle.std.specs.Prelude.{◌≡◌, ◌≤◌, ◌+◌, ◌^◌, ◌<◌, ◌++◌, ◌∷◌, [], ℤ, List, length, unsigned_abs, None, Some, IfOk, OnOk};
ghost use Rattle.std.specs.BTreeMap.{keys};
ghost use Rattle.std.specs.List.{All, AllByRecursion};
ghost use Rattle.sq_agg.specs.Aggregating.{AddsNoOthers, AggState, FirstOutside, KeepsAccumulators, KeepsArguments, KeepsShown, LeavesOthers, OnOld, agg_cost, aggregate_rise, touched};
ghost use Rattle.sq_agg.specs.ByKey.{places_of};
ghost use Rattle.sq_agg.specs.Entering.{MovesShown, NamesSum, accumulator_entries, accumulators_of, argument_entries, arguments_of_calls, as_pairs, moves_of};
ghost use Rattle.sq_agg.specs.Shifts.{GroupState, OnState, group_cost};
ghost use Rattle.sq_algebra.specs.ZSet.{entries, from_pairs};
ghost use Rattle.sq_expr.specs.Bigint.{first_not_bigint};
ghost use Rattle.sq_ops.specs.Aggregates.{SuitsSpec, group_of, rows_of_group, sums_of};
ghost use Rattle.sq_ops.specs.Fits.{FitsRows};
ghost use Rattle.sq_ops.specs.Indexes.{entries_at, with_key};
ghost use Rattle.sq_ops.specs.Wholes.{has_no_values};
ghost use Rattle.sq_value.specs.declared.value.Value.{Value as Datum};
ghost use Rattle.sq_value.specs.Order.{row_cmp};
ghost use Rattle.sq_zset.specs.Collecting.{mass_of};
ghost use Rattle.sq_zset.specs.Pairs.{weighted_rows};
ghost use Rattle.sq_zset.specs.Range.{IsInRange};

use crate::Acc;
use crate::change::{GroupChange, change_of_group};
use crate::entries::{push_accumulator, push_arguments, push_shown};
use crate::group::{group_places, rows_at};
use sq_base::Steps;
use sq_ops::{AggSpec, WholeFault};
use sq_trace::{Entry, Keyed, Trace};
use sq_value::{NoMemory, Row};
use sq_zset::{Pair, ZFault, ZSet};
use std::alloc::Global;
use std::collections::BTreeMap;

/// What a change of the rows changes: the answer, and the three traces.
#[derive(Debug, Drop)]
pub struct AggChange {
    /// What the aggregate has more over the old rows and their change than over the old rows.
    pub change: ZSet,
    /// By which the accumulators change, each under its group, with the row without values.
    pub acc: Keyed<Acc>,
    /// By which the arguments of MIN and MAX change, under the group with the number of the call behind it.
    pub ordered: Keyed<i64>,
    /// By which the shown rows change, each under its group.
    pub shown: Keyed<i64>,
}

// The entries by which the traces change, in the order of the groups.
#[derive(Debug, Drop)]
struct Entered {
    accs: Vec<Entry<Acc>>,
    ordered: Vec<Entry<i64>>,
    shown: Vec<Entry<i64>>,
}

/// What the aggregate of the old rows and their change has more than the aggregate of the old rows, and by what the three
/// traces change.
///
/// The traces hold what belongs to the old rows. If `first` is true, there are none yet, the traces hold nothing, and the
/// aggregate before is empty; so a group that stands without rows is shown now. Only the groups with changed rows are looked
/// at, and at first that one. A row that stays as it was shown is no change. In a shard that never has rows of the group that
/// stands without rows, `first` is false, and that group is never shown.
///
/// The answer is `Sum` exactly if a SUM of some group lies outside the range of BIGINT after the change, with the first such
/// group in the order of rows and its first such sum, and `Memory` when memory runs out.
pub fn agg_step<L>(
    alloc: Global,
    spec: &AggSpec,
    acc: &Trace<Acc>,
    ordered: &Trace<i64>,
    shown: &Trace<i64>,
    d: &ZSet,
    first: bool,
    steps: &mut Steps<L>,
) -> Result<AggChange, WholeFault>
    requires state { AggState spec.now acc.now ordered.now shown.now d.now first }
    ensures change { IfOk result (λ step. OnOld spec.now acc.now ordered.now shown.now d.now first (λ old. step.change ≡ aggregate_rise first spec.now old d.now)) }
    ensures in_range { IfOk result (λ step. IsInRange step.change) }
    ensures acc { IfOk result (λ step. OnOld spec.now acc.now ordered.now shown.now d.now first (λ old. KeepsAccumulators spec.now acc.now step.acc old d.now)) }
    ensures ordered { IfOk result (λ step. OnOld spec.now acc.now ordered.now shown.now d.now first (λ old. KeepsArguments spec.now ordered.now step.ordered old d.now)) }
    ensures shown { IfOk result (λ step. OnOld spec.now acc.now ordered.now shown.now d.now first (λ old. KeepsShown first spec.now shown.now step.shown old d.now)) }
    ensures no_others { IfOk result (λ step. AddsNoOthers spec.now step.ordered) }
    ensures elsewhere { IfOk result (λ step. LeavesOthers first spec.now d.now step.shown) }
    ensures all_sums { OnOk result (FirstOutside spec.now acc.now ordered.now shown.now d.now first None) }
    ensures outside { (group : List Datum) (sum : ℤ) → result ≡ Err (WholeFault.Sum group sum) → FirstOutside spec.now acc.now ordered.now shown.now d.now first (Some (group, sum)) }
    ensures count { steps.new.count ≤ steps.old.count + agg_cost first spec.now d.now }
    ensures ledger { steps.new.ledger ≡ steps.old.ledger }
{
    let groups = touched_groups(alloc, spec, d, first)?;
    let Entered {
        accs,
        ordered,
        shown,
    } = all_entries(alloc, spec, acc, ordered, shown, d, first, &groups, steps)?;
    let change = rows_of_entries(alloc, &shown)?;
    let acc = Keyed::of(alloc, accs)?;
    let ordered = Keyed::of(alloc, ordered)?;
    let shown = Keyed::of(alloc, shown)?;
    Ok(AggChange {
        change,
        acc,
        ordered,
        shown,
    })
}

// The places of the changed rows, by the groups that a step looks at.
fn touched_groups(
    alloc: Global,
    spec: &AggSpec,
    d: &ZSet,
    first: bool,
) -> Result<BTreeMap<Row, Vec<usize>>, NoMemory>
    requires { FitsRows (SuitsSpec spec.now) d.now }
    ensures keys { IfOk result (λ groups. keys groups ≡ touched first spec.now d.now) }
    ensures in_range { IfOk result (λ groups. (key : List Datum) → All (λ i. i < length (entries d.now)) (places_of groups key)) }
    ensures rows { IfOk result (λ groups. (key : List Datum) → entries_at (entries d.now) (places_of groups key) ≡ with_key (λ row. Some (group_of spec.now row)) key (entries d.now)) }
{
    if has_no_rows(d) && !first {
        return Ok(BTreeMap::new(alloc));
    }
    group_places(alloc, spec, d)
}

fn has_no_rows(z: &ZSet) -> bool
    ensures { result ≡ has_no_values (entries z.now) }
{
    z.len() == 0
}

// The entries of all groups that a step looks at.
fn all_entries<L>(
    alloc: Global,
    spec: &AggSpec,
    acc: &Trace<Acc>,
    ordered: &Trace<i64>,
    shown: &Trace<i64>,
    d: &ZSet,
    first: bool,
    groups: &BTreeMap<Row, Vec<usize>>,
    steps: &mut Steps<L>,
) -> Result<Entered, WholeFault>
    requires state { AggState spec.now acc.now ordered.now shown.now d.now first }
    requires keys { keys groups.now ≡ touched first spec.now d.now }
    requires in_range { (key : List Datum) → All (λ i. i < length (entries d.now)) (places_of groups.now key) }
    requires rows { (key : List Datum) → entries_at (entries d.now) (places_of groups.now key) ≡ with_key (λ row. Some (group_of spec.now row)) key (entries d.now) }
    ensures accs { IfOk result (λ entered. entered.accs.items ≡ accumulators_of first spec.now d.now) }
    ensures ordered { IfOk result (λ entered. entered.ordered.items ≡ arguments_of_calls first spec.now d.now) }
    ensures shown { IfOk result (λ entered. OnOld spec.now acc.now ordered.now shown.now d.now first (λ old. entered.shown.items ≡ moves_of first spec.now old d.now)) }
    ensures all_sums { OnOk result (FirstOutside spec.now acc.now ordered.now shown.now d.now first None) }
    ensures outside { (group : List Datum) (sum : ℤ) → result ≡ Err (WholeFault.Sum group sum) → FirstOutside spec.now acc.now ordered.now shown.now d.now first (Some (group, sum)) }
    ensures count { steps.new.count ≤ steps.old.count + agg_cost first spec.now d.now }
    ensures ledger { steps.new.ledger ≡ steps.old.ledger }
{
    let mut entered = Entered {
        accs: Vec::new(alloc),
        ordered: Vec::new(alloc),
        shown: Vec::new(alloc),
    };
    for (key, places) in groups {
        push_group(
            alloc,
            spec,
            acc,
            ordered,
            shown,
            d,
            key,
            places,
            steps,
            &mut entered,
        )?;
    }
    Ok(entered)
}

// Puts the entries of the group with the key, whose changed rows stand at these places, behind the others.
fn push_group<L>(
    alloc: Global,
    spec: &AggSpec,
    acc: &Trace<Acc>,
    ordered: &Trace<i64>,
    shown: &Trace<i64>,
    d: &ZSet,
    key: &Row,
    places: &[usize],
    steps: &mut Steps<L>,
    entered: &mut Entered,
) -> Result<(), WholeFault>
    requires state { GroupState spec.now acc.now ordered.now key.now (rows_of_group spec.now d.now key.now) }
    requires fits { FitsRows (SuitsSpec spec.now) d.now }
    requires few { mass_of (entries d.now) ≤ 2 ^ 62 }
    requires in_range { All (λ i. i < length (entries d.now)) places.now }
    requires rows { entries_at (entries d.now) places.now ≡ with_key (λ row. Some (group_of spec.now row)) key.now (entries d.now) }
    ensures accs { OnOk result (entered.new.accs.items ≡ entered.old.accs.items ++ accumulator_entries spec.now.calls key.now (rows_of_group spec.now d.now key.now)) }
    ensures ordered { OnOk result (entered.new.ordered.items ≡ entered.old.ordered.items ++ argument_entries key.now 0 spec.now.calls (rows_of_group spec.now d.now key.now)) }
    ensures shown { OnOk result (MovesShown spec.now acc.now ordered.now shown.now key.now (rows_of_group spec.now d.now key.now) entered.old.shown.items entered.new.shown.items) }
    ensures all_sums { OnOk result (OnState spec.now acc.now ordered.now key.now (rows_of_group spec.now d.now key.now) (λ z. first_not_bigint (sums_of spec.now.calls z) ≡ None)) }
    ensures outside { (group : List Datum) (sum : ℤ) → result ≡ Err (WholeFault.Sum group sum) → NamesSum spec.now acc.now ordered.now key.now (rows_of_group spec.now d.now key.now) group sum }
    ensures count { steps.new.count ≤ steps.old.count + group_cost spec.now (length (entries (rows_of_group spec.now d.now key.now))) }
    ensures ledger { steps.new.ledger ≡ steps.old.ledger }
{
    let changed = rows_at(alloc, spec, key, d, places)?;
    let change = change_of_group(alloc, spec, acc, ordered, shown, key, &changed, steps)?;
    let GroupChange { acc, before, after } = change;
    push_accumulator(alloc, key, acc, &mut entered.accs)?;
    push_arguments(alloc, spec, key, &changed, &mut entered.ordered)?;
    push_shown(alloc, key, &before, &after, &mut entered.shown)?;
    Ok(())
}

// The rows of the entries with their weights, each 1 or -1.
fn rows_of_entries(alloc: Global, entries: &[Entry<i64>]) -> Result<ZSet, NoMemory>
    requires { AllByRecursion (λ e. unsigned_abs e.payload ≤ 1) entries.now }
    ensures ok { IfOk result (λ z. z ≡ from_pairs row_cmp (as_pairs entries.now)) }
    ensures in_range { IfOk result IsInRange }
{
    let pairs = pairs_of_entries(alloc, entries)?;
    match ZSet::consolidate(alloc, pairs) {
        Ok(z) => Ok(z),
        Err(ZFault::Memory) => Err(NoMemory),
        // No more than 2^62 entries are in a list.
        Err(ZFault::Weight { .. }) => unreachable!(),
    }
}

fn pairs_of_entries(alloc: Global, entries: &[Entry<i64>]) -> Result<Vec<Pair>, NoMemory>
    ensures { IfOk result (λ pairs. weighted_rows pairs.items ≡ as_pairs entries.now) }
{
    let mut pairs = Vec::with_capacity(alloc, entries.len())?;
    for i in 0..entries.len() {
        let entry = &entries[i];
        push_row(alloc, &entry.row, entry.payload, &mut pairs)?;
    }
    Ok(pairs)
}

// Puts a copy of the row with the weight behind the pairs.
fn push_row(alloc: Global, row: &Row, weight: i64, pairs: &mut Vec<Pair>) -> Result<(), NoMemory>
    ensures { OnOk result (weighted_rows pairs.new.items ≡ weighted_rows pairs.old.items ++ (row.now, weight) ∷ []) }
{
    let row = row.clone_row(alloc)?;
    pairs.push(Pair {
        row,
        weight: i128::from(weight),
    })?;
    Ok(())
}
