//! The aggregate of a whole Z-set.
ghost use Rattle.std.specs.Prelude.{◌≡◌, ◌^◌, ◌<◌, ◌≤ℤ◌, ℤ, List, length, pos, Some, None, IfOk, OnOk};
ghost use Rattle.sq_algebra.specs.Operators.{IsNonNegative};
ghost use Rattle.sq_agg.specs.ByKey.{places_of};
ghost use Rattle.sq_algebra.specs.ZSet.{entries, total};
ghost use Rattle.sq_expr.specs.Bigint.{first_not_bigint};
ghost use Rattle.sq_ops.specs.Indexes.{entries_at, with_key};
ghost use Rattle.std.specs.BTreeMap.{keys};
ghost use Rattle.std.specs.List.{All};
ghost use Rattle.sq_ops.specs.Aggregates.{SuitsSpec, aggregated, first_sum_outside, group_of, group_row, groups_of, rows_of_group, shown_rows, sums_of};
ghost use Rattle.sq_ops.specs.Fits.{FitsRows};
ghost use Rattle.sq_value.specs.declared.value.Value.{Value as Datum};
ghost use Rattle.sq_zset.specs.Range.{IsInRange};

use crate::group::{group_places, rows_at};
use sq_ops::{AggSpec, WholeFault};
use sq_value::Row;
use sq_zset::ZSet;
use std::alloc::Global;
use std::collections::BTreeMap;

/// One row for each group, the group columns and the values of the calls, in which each row counts as often as its weight
/// says.
///
/// The rows are of kinds that suit the aggregate, without negative weights and with a total of at most 2^61. The answer
/// is `Sum` exactly if a SUM of some group lies outside the range of BIGINT, with the first such group in the order of
/// rows and its first such sum, and `Memory` when memory runs out.
pub fn agg_whole(alloc: Global, spec: &AggSpec, z: &ZSet) -> Result<ZSet, WholeFault>
    requires fits { FitsRows (SuitsSpec spec.now) z.now }
    requires not_negative { IsNonNegative z.now }
    requires bounded { total z.now ≤ℤ pos (2 ^ 61) }
    ensures ok { IfOk result (λ answer. answer ≡ aggregated spec.now z.now) }
    ensures in_range { IfOk result IsInRange }
    ensures all_sums { OnOk result (first_sum_outside spec.now z.now ≡ None) }
    ensures outside { (group : List Datum) (sum : ℤ) → result ≡ Err (WholeFault.Sum group sum) → first_sum_outside spec.now z.now ≡ Some (group, sum) }
{
    let groups = group_places(alloc, spec, z)?;
    let rows = rows_shown(alloc, spec, z, &groups)?;
    let answer = ZSet::of_rows(alloc, rows)?;
    Ok(answer)
}

// The row of each group, in the order of their keys.
fn rows_shown(
    alloc: Global,
    spec: &AggSpec,
    z: &ZSet,
    groups: &BTreeMap<Row, Vec<usize>>,
) -> Result<Vec<Row>, WholeFault>
    requires fits { FitsRows (SuitsSpec spec.now) z.now }
    requires not_negative { IsNonNegative z.now }
    requires bounded { total z.now ≤ℤ pos (2 ^ 61) }
    requires keys { keys groups.now ≡ groups_of spec.now z.now }
    requires in_range { (key : List Datum) → All (λ i. i < length (entries z.now)) (places_of groups.now key) }
    requires rows { (key : List Datum) → entries_at (entries z.now) (places_of groups.now key) ≡ with_key (λ row. Some (group_of spec.now row)) key (entries z.now) }
    ensures ok { IfOk result (λ rows. rows.items ≡ shown_rows spec.now z.now) }
    ensures all_sums { OnOk result (first_sum_outside spec.now z.now ≡ None) }
    ensures outside { (group : List Datum) (sum : ℤ) → result ≡ Err (WholeFault.Sum group sum) → first_sum_outside spec.now z.now ≡ Some (group, sum) }
{
    let mut rows = Vec::with_capacity(alloc, groups.len())?;
    for (key, places) in groups {
        let row = row_of_key(alloc, spec, z, key, places)?;
        rows.push(row)?;
    }
    Ok(rows)
}

// The row of the group with the key, whose rows stand at these places.
fn row_of_key(
    alloc: Global,
    spec: &AggSpec,
    z: &ZSet,
    key: &Row,
    places: &[usize],
) -> Result<Row, WholeFault>
    requires fits { FitsRows (SuitsSpec spec.now) z.now }
    requires not_negative { IsNonNegative z.now }
    requires bounded { total z.now ≤ℤ pos (2 ^ 61) }
    requires in_range { All (λ i. i < length (entries z.now)) places.now }
    requires rows { entries_at (entries z.now) places.now ≡ with_key (λ row. Some (group_of spec.now row)) key.now (entries z.now) }
    ensures ok { IfOk result (λ row. row ≡ group_row spec.now.calls key.now (rows_of_group spec.now z.now key.now)) }
    ensures all_sums { OnOk result (first_not_bigint (sums_of spec.now.calls (rows_of_group spec.now z.now key.now)) ≡ None) }
    ensures outside { (group : List Datum) (sum : ℤ) → result ≡ Err (WholeFault.Sum group sum) → (group ≡ key.now) × (first_not_bigint (sums_of spec.now.calls (rows_of_group spec.now z.now key.now)) ≡ Some sum) }
{
    let group = rows_at(alloc, spec, key, z, places)?;
    let row = spec.row_of_group(alloc, key, &group)?;
    Ok(row)
}
