//! The parts of what a node reads, by its keys.
ghost use Rattle.std.specs.Prelude.{◌≡◌, ◌<◌, ◌≤◌, ◌^◌, ◌++◌, ◌∷◌, [], filter, unsigned_abs, IfOk, OnOk};
ghost use Rattle.sq_algebra.specs.Keyed.{cut};
ghost use Rattle.sq_algebra.specs.ZSet.{entries};
ghost use Rattle.sq_circuit.specs.Nodes.{left_key, right_key};
ghost use Rattle.sq_expr.specs.Meaning.{columns_of};
ghost use Rattle.sq_ops.specs.Aggregates.{group_columns, group_of};
ghost use Rattle.sq_shard.specs.Pairs.{IsLight, IsReady, sums};
ghost use Rattle.sq_shard.specs.Shards.{shards as shards_lem};
ghost use Rattle.sq_zset.specs.Pairs.{weighted_rows};
ghost use Rattle.sq_zset.specs.Range.{IsInRange};
ghost use Rattle.sq_incr.specs.Inputs.{HaveColumns, HaveLeftKeys, HaveRightKeys, is_own};

use sq_circuit::Node;
use sq_ops::AggSpec;
use sq_shard::{scatter_owned, shard_of};
use sq_value::{NoMemory, Row};
use sq_zset::{Pair, ZFault, ZSet};
use std::alloc::Global;

/// The part of a Z-set in one shard, by whole rows; no row is copied, and with one shard it is handed on as it is.
pub fn own_part(alloc: Global, z: ZSet, shards: u32, shard: u32) -> Result<ZSet, NoMemory>
    requires shards { (1 ≤ shards) × (shards ≤ 64) }
    requires inside { shard < shards }
    ensures { IfOk result (λ part. part ≡ cut (shards_lem shards) (λ row. row) shard z) }
{
    if shards == 1 {
        return Ok(z);
    }
    let pairs = own_pairs(alloc, z, shards, shard)?;
    sum_of_pairs(alloc, pairs)
}

/// The part of what a node reads on its left in one shard, by its key.
pub fn left_part(
    alloc: Global,
    node: &Node,
    z: ZSet,
    shards: u32,
    shard: u32,
) -> Result<ZSet, NoMemory>
    requires shards { (1 ≤ shards) × (shards ≤ 64) }
    requires inside { shard < shards }
    requires keys { HaveLeftKeys node.now z }
    ensures { IfOk result (λ part. part ≡ cut (shards_lem shards) (left_key node.now) shard z) }
{
    match node {
        Node::Table { .. } => own_part(alloc, z, shards, shard),
        Node::Linear { .. } => own_part(alloc, z, shards, shard),
        Node::Join { op, .. } => part_by(alloc, z, op.left.as_slice(), shards, shard),
        Node::Distinct { .. } => own_part(alloc, z, shards, shard),
        Node::Aggregate { spec, .. } => group_part(alloc, spec, z, shards, shard),
        Node::Plus { .. } => own_part(alloc, z, shards, shard),
        Node::Minus { .. } => own_part(alloc, z, shards, shard),
        Node::View { .. } => own_part(alloc, z, shards, shard),
    }
}

/// The part of what it reads on its right.
pub fn right_part(
    alloc: Global,
    node: &Node,
    z: ZSet,
    shards: u32,
    shard: u32,
) -> Result<ZSet, NoMemory>
    requires shards { (1 ≤ shards) × (shards ≤ 64) }
    requires inside { shard < shards }
    requires keys { HaveRightKeys node.now z }
    ensures { IfOk result (λ part. part ≡ cut (shards_lem shards) (right_key node.now) shard z) }
{
    match node {
        Node::Table { .. } => own_part(alloc, z, shards, shard),
        Node::Linear { .. } => own_part(alloc, z, shards, shard),
        Node::Join { op, .. } => part_by(alloc, z, op.right.as_slice(), shards, shard),
        Node::Distinct { .. } => own_part(alloc, z, shards, shard),
        Node::Aggregate { .. } => own_part(alloc, z, shards, shard),
        Node::Plus { .. } => own_part(alloc, z, shards, shard),
        Node::Minus { .. } => own_part(alloc, z, shards, shard),
        Node::View { .. } => own_part(alloc, z, shards, shard),
    }
}

// The part of one shard, by the groups of an aggregate.
fn group_part(
    alloc: Global,
    spec: &AggSpec,
    z: ZSet,
    shards: u32,
    shard: u32,
) -> Result<ZSet, NoMemory>
    requires shards { (1 ≤ shards) × (shards ≤ 64) }
    requires inside { shard < shards }
    requires keys { HaveColumns (group_columns spec.now) z }
    ensures { IfOk result (λ part. part ≡ cut (shards_lem shards) (group_of spec.now) shard z) }
{
    if spec.global {
        return part_by(alloc, z, &[], shards, shard);
    }
    part_by(alloc, z, spec.group.as_slice(), shards, shard)
}

// The part of one shard, by the key that rows have in these columns.
fn part_by(
    alloc: Global,
    z: ZSet,
    columns: &[u32],
    shards: u32,
    shard: u32,
) -> Result<ZSet, NoMemory>
    requires shards { (1 ≤ shards) × (shards ≤ 64) }
    requires inside { shard < shards }
    requires keys { HaveColumns columns.now z }
    ensures { IfOk result (λ part. part ≡ cut (shards_lem shards) (columns_of columns.now) shard z) }
{
    let mut parts = scatter_owned(alloc, z, columns, shards)?;
    Ok(parts.swap_remove(shard as usize))
}

// Its rows with their weights.
fn own_pairs(alloc: Global, z: ZSet, shards: u32, shard: u32) -> Result<Vec<Pair>, NoMemory>
    requires shards { (1 ≤ shards) × (shards ≤ 64) }
    ensures pairs { IfOk result (λ pairs. weighted_rows pairs.items ≡ filter (is_own shards shard) (entries z)) }
    ensures light { IfOk result (λ pairs. IsLight pairs.items) }
    ensures in_range { IfOk result (λ pairs. IsInRange z) }
{
    let mut pairs = Vec::new(alloc);
    for entry in z.into_entries() {
        keep_pair(entry, shards, shard, &mut pairs)?;
    }
    Ok(pairs)
}

// Puts a row with its weight behind the pairs, if it belongs to the shard.
fn keep_pair(
    entry: (Row, i64),
    shards: u32,
    shard: u32,
    pairs: &mut Vec<Pair>,
) -> Result<(), NoMemory>
    requires small { unsigned_abs entry.1 ≤ 2 ^ 62 }
    requires shards { (1 ≤ shards) × (shards ≤ 64) }
    ensures pairs { OnOk result (weighted_rows pairs.new.items ≡ weighted_rows pairs.old.items ++ filter (is_own shards shard) (entry ∷ [])) }
    ensures light { IsLight pairs.old.items → OnOk result (IsLight pairs.new.items) }
{
    if shard_of(&entry.0, shards) == shard {
        return push_pair(entry, pairs);
    }
    Ok(())
}

// Puts a row with its weight behind the pairs.
fn push_pair(entry: (Row, i64), pairs: &mut Vec<Pair>) -> Result<(), NoMemory>
    requires { unsigned_abs entry.1 ≤ 2 ^ 62 }
    ensures pairs { OnOk result (weighted_rows pairs.new.items ≡ weighted_rows pairs.old.items ++ entry ∷ []) }
    ensures light { IsLight pairs.old.items → OnOk result (IsLight pairs.new.items) }
{
    let (row, weight) = entry;
    pairs.push(Pair {
        row,
        weight: i128::from(weight),
    })?;
    Ok(())
}

// The Z-set of a list in whose sums all weights are in range.
fn sum_of_pairs(alloc: Global, pairs: Vec<Pair>) -> Result<ZSet, NoMemory>
    requires { IsReady pairs.items }
    ensures { IfOk result (λ z. z ≡ sums pairs.items) }
{
    match ZSet::consolidate(alloc, pairs) {
        Ok(z) => Ok(z),
        Err(ZFault::Memory) => Err(NoMemory),
        Err(ZFault::Weight { .. }) => unreachable!(),
    }
}
