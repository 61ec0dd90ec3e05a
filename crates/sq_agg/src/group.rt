//! The groups of a Z-set: where the rows of each key stand, and the rows of one key.
ghost use Rattle.std.specs.Prelude.{◌≡◌, ◌++◌, ◌∷◌, [], ◌<◌, List, length, Some, IfOk, OnOk, if◌then◌else◌};
ghost use Rattle.std.specs.BTreeMap.{keys};
ghost use Rattle.std.specs.List.{All};
ghost use Rattle.std.specs.Ordering.{is_eq};
ghost use Rattle.sq_agg.specs.ByKey.{places_of};
ghost use Rattle.sq_algebra.specs.Listed.{place};
ghost use Rattle.sq_algebra.specs.ZSet.{entries};
ghost use Rattle.sq_ops.specs.Aggregates.{SuitsSpec, group_of, groups_of, rows_of_group};
ghost use Rattle.sq_ops.specs.Fits.{FitsRows};
ghost use Rattle.sq_ops.specs.Indexes.{entries_at, with_key};
ghost use Rattle.sq_ops.specs.Measures.{IsMeasurable};
ghost use Rattle.sq_value.specs.declared.value.Value.{Value as Datum};
ghost use Rattle.sq_value.specs.Order.{row_cmp};
ghost use Rattle.sq_zset.specs.Pairs.{weighted_rows};
ghost use Rattle.sq_zset.specs.Range.{IsInRange};

use sq_ops::{AggSpec, Whole};
use sq_value::{NoMemory, Row};
use sq_zset::{Pair, ZFault, ZSet};
use std::alloc::Global;
use std::collections::BTreeMap;

/// The places at which the rows of each group stand, by the key of the group.
pub fn group_places(
    alloc: Global,
    spec: &AggSpec,
    z: &ZSet,
) -> Result<BTreeMap<Row, Vec<usize>>, NoMemory>
    requires { FitsRows (SuitsSpec spec.now) z.now }
    ensures keys { IfOk result (λ groups. keys groups ≡ groups_of spec.now z.now) }
    ensures in_range { IfOk result (λ groups. (key : List Datum) → All (λ i. i < length (entries z.now)) (places_of groups key)) }
    ensures rows { IfOk result (λ groups. (key : List Datum) → entries_at (entries z.now) (places_of groups key) ≡ with_key (λ row. Some (group_of spec.now row)) key (entries z.now)) }
{
    let mut groups = groups_over_no_rows(alloc, spec)?;
    for i in 0..z.len() {
        let (row, _) = z.at(i);
        let key = spec.key(alloc, row)?;
        add_place(alloc, key, i, &mut groups)?;
    }
    Ok(groups)
}

// A global aggregate has its one group, whose key has no values, also over no rows.
fn groups_over_no_rows(alloc: Global, spec: &AggSpec) -> Result<BTreeMap<Row, Vec<usize>>, NoMemory>
    ensures keys { IfOk result (λ groups. keys groups ≡ (if spec.now.global then [] ∷ [] else [])) }
    ensures places { IfOk result (λ groups. (key : List Datum) → places_of groups key ≡ []) }
{
    let mut groups = BTreeMap::new(alloc);
    if spec.global {
        groups.insert(Row::of(Vec::new(alloc)), Vec::new(alloc))?;
    }
    Ok(groups)
}

// Puts the place behind those of the key.
fn add_place(
    alloc: Global,
    key: Row,
    i: usize,
    groups: &mut BTreeMap<Row, Vec<usize>>,
) -> Result<(), NoMemory>
    ensures keys { OnOk result (keys groups.new ≡ place row_cmp key (keys groups.old)) }
    ensures places { OnOk result ((k : List Datum) → places_of groups.new k ≡ places_of groups.old k ++ (if is_eq (row_cmp k key) then i ∷ [] else [])) }
{
    if let Some(places) = groups.get_mut(&key) {
        places.push(i)?;
        return Ok(());
    }
    let mut places = Vec::new(alloc);
    places.push(i)?;
    groups.insert(key, places)?;
    Ok(())
}

/// The rows of the group, which stand at these places.
pub fn rows_at(
    alloc: Global,
    spec: &AggSpec,
    key: &Row,
    z: &ZSet,
    places: &[usize],
) -> Result<ZSet, NoMemory>
    requires group { IsMeasurable z.now }
    requires in_range { All (λ i. i < length (entries z.now)) places.now }
    requires rows { entries_at (entries z.now) places.now ≡ with_key (λ row. Some (group_of spec.now row)) key.now (entries z.now) }
    ensures { IfOk result (λ rows. rows ≡ rows_of_group spec.now z.now key.now) }
{
    let pairs = pairs_at(alloc, z, places)?;
    // The rows ascend already, so sorting them takes one pass.
    match ZSet::consolidate(alloc, pairs) {
        Ok(rows) => Ok(rows),
        Err(ZFault::Memory) => Err(NoMemory),
        // Each row has the weight that it has in `z`.
        Err(ZFault::Weight { .. }) => unreachable!(),
    }
}

// Copies of the entries at these places.
fn pairs_at(alloc: Global, z: &ZSet, places: &[usize]) -> Result<Vec<Pair>, NoMemory>
    requires { All (λ i. i < length (entries z.now)) places.now }
    ensures rows { IfOk result (λ pairs. weighted_rows pairs.items ≡ entries_at (entries z.now) places.now) }
    ensures in_range { IsInRange z.now }
{
    let _ = z.len();
    let mut pairs = Vec::with_capacity(alloc, places.len())?;
    for i in 0..places.len() {
        let (row, weight) = z.at(places[i]);
        push_entry(alloc, row, weight, &mut pairs)?;
    }
    Ok(pairs)
}

// Puts a copy of an entry behind the pairs.
fn push_entry(alloc: Global, row: &Row, weight: i64, pairs: &mut Vec<Pair>) -> Result<(), NoMemory>
    ensures { OnOk result (weighted_rows pairs.new.items ≡ weighted_rows pairs.old.items ++ (row.now, weight) ∷ []) }
{
    let row = row.clone_row(alloc)?;
    pairs.push(Pair {
        row,
        weight: i128::from(weight),
    })?;
    Ok(())
}
