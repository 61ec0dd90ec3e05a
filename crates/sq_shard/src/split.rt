//! A Z-set in parts by shard.
ghost use Rattle.std.specs.Prelude.{◌≡◌, ◌≤◌, [], map, replicate, vec_items, IfOk};
ghost use Rattle.std.specs.List.{All, AllByRecursion};
ghost use Rattle.sq_algebra.specs.ZSet.{entries};
ghost use Rattle.sq_shard.specs.Pairs.{AreShares, IsReady, sums};
ghost use Rattle.sq_zset.specs.Range.{IsInRange};
ghost use Rattle.sq_shard.specs.Shards.{HasColumns, parts as parts_lem};

use crate::key::shard_at;
use crate::pairs::push_pair;
use sq_value::{NoMemory, Row};
use sq_zset::{Group, Pair, ZFault, ZSet};
use std::alloc::Global;

/// The parts of a Z-set in `shards` shards, 1 to 64, in the order of the shards: each row stands in the part of the shard of the
/// key that it has in these columns. Each row has these columns. It is copied once, and the rows are gone through once.
/// `NoMemory` if memory runs out.
pub fn scatter(alloc: Global, z: &ZSet, columns: &[u32], shards: u32) -> Result<Vec<ZSet>, NoMemory>
    requires shards { (1 ≤ shards) × (shards ≤ 64) }
    requires columns { All (λ e. HasColumns columns.now e.0) (entries z.now) }
    ensures parts { IfOk result (λ parts. parts.items ≡ parts_lem shards columns.now z.now) }
{
    scatter_owned(alloc, z.clone_group(alloc)?, columns, shards)
}

/// The same of a Z-set that is given away: no row is copied, and with one shard it is handed on as it is.
pub fn scatter_owned(
    alloc: Global,
    z: ZSet,
    columns: &[u32],
    shards: u32,
) -> Result<Vec<ZSet>, NoMemory>
    requires shards { (1 ≤ shards) × (shards ≤ 64) }
    requires columns { All (λ e. HasColumns columns.now e.0) (entries z) }
    ensures parts { IfOk result (λ parts. parts.items ≡ parts_lem shards columns.now z) }
{
    if shards == 1 {
        let mut parts = Vec::with_capacity(alloc, 1)?;
        parts.push(z)?;
        return Ok(parts);
    }
    let lists = shares(alloc, z, columns, shards)?;
    let parts = parts_of(alloc, lists)?;
    Ok(parts)
}

// The entries of a Z-set in one list a shard.
fn shares(alloc: Global, z: ZSet, columns: &[u32], shards: u32) -> Result<Vec<Vec<Pair>>, NoMemory>
    requires shards { (1 ≤ shards) × (shards ≤ 64) }
    requires columns { All (λ e. HasColumns columns.now e.0) (entries z) }
    ensures shares { IfOk result (λ lists. AreShares shards columns.now (entries z) (map vec_items lists.items)) }
    ensures in_range { IfOk result (λ lists. IsInRange z) }
{
    let mut lists = empty_lists(alloc, shards)?;
    for entry in z.into_entries() {
        let shard = shard_at(&entry.0, columns, shards);
        push_pair(entry, &mut lists[shard as usize])?;
    }
    Ok(lists)
}

// So many lists without a pair.
fn empty_lists(alloc: Global, count: u32) -> Result<Vec<Vec<Pair>>, NoMemory>
    ensures { IfOk result (λ lists. map vec_items lists.items ≡ replicate count []) }
{
    let mut lists = Vec::with_capacity(alloc, count as usize)?;
    for _ in 0..count {
        lists.push(Vec::new(alloc))?;
    }
    Ok(lists)
}

// The Z-set of each list.
fn parts_of(alloc: Global, lists: Vec<Vec<Pair>>) -> Result<Vec<ZSet>, NoMemory>
    requires { AllByRecursion IsReady (map vec_items lists.items) }
    ensures { IfOk result (λ parts. parts.items ≡ map sums (map vec_items lists.items)) }
{
    let mut parts = Vec::with_capacity(alloc, lists.len())?;
    for list in lists {
        parts.push(part_of(alloc, list)?)?;
    }
    Ok(parts)
}

// The Z-set of a list in whose sums all weights are in range.
fn part_of(alloc: Global, pairs: Vec<Pair>) -> Result<ZSet, NoMemory>
    requires { IsReady pairs.items }
    ensures { IfOk result (λ z. z ≡ sums pairs.items) }
{
    match ZSet::consolidate(alloc, pairs) {
        Ok(z) => Ok(z),
        Err(ZFault::Memory) => Err(NoMemory),
        Err(ZFault::Weight { .. }) => unreachable!(),
    }
}
