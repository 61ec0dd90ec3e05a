//! The sum of Z-sets.
ghost use Rattle.std.specs.Prelude.{◌≡◌, ◌++◌, ◌∷◌, [], ℤ, Some, IfOk, IfErr, OnOk};
ghost use Rattle.std.specs.List.{flat_map};
ghost use Rattle.sq_algebra.specs.Groups.{sum_over, z_sets};
ghost use Rattle.sq_algebra.specs.ZSet.{entries};
ghost use Rattle.sq_value.specs.Order.{row_cmp};
ghost use Rattle.sq_shard.specs.Pairs.{IsLight};
ghost use Rattle.sq_zset.specs.Pairs.{weighted_rows};
ghost use Rattle.sq_zset.specs.Range.{first_outside, IsInRange};

use crate::pairs::push_pair;
use sq_value::NoMemory;
use sq_zset::{Pair, ZFault, ZSet};
use std::alloc::Global;

/// The sum of the parts, of which several may have the same row. A single part is handed on.
///
/// The answer is `Weight` exactly if the sum for some row lies outside the range of a weight, with that of the first such
/// row in the order of rows; and `Memory` when memory runs out.
#[tactic(auto, using(crate::proofs::Gathering::alone))]
pub fn gather(alloc: Global, parts: Vec<ZSet>) -> Result<ZSet, ZFault>
    ensures ok { IfOk result (λ z. z ≡ sum_over (z_sets row_cmp) (λ y. y) parts.items) }
    ensures in_range { IfOk result IsInRange }
    ensures outside { (sum : ℤ) → result ≡ Err (ZFault.Weight sum) → first_outside (sum_over (z_sets row_cmp) (λ y. y) parts.items) ≡ Some sum }
{
    match single(parts) {
        Ok(part) => Ok(part),
        Err(parts) => sum_of(alloc, parts),
    }
}

// The part, if it is the only one, and else the parts again.
fn single(mut parts: Vec<ZSet>) -> Result<ZSet, Vec<ZSet>>
    ensures one { IfOk result (λ part. parts.items ≡ part ∷ []) }
    ensures in_range { IfOk result IsInRange }
    ensures others { IfErr result (λ all. all.items ≡ parts.items) }
{
    if parts.len() != 1 {
        return Err(parts);
    }
    match parts.pop() {
        Some(part) => Ok(in_range(part)),
        None => unreachable!(),
    }
}

// The same Z-set. That its weights are in range is known from `len`.
fn in_range(z: ZSet) -> ZSet
    ensures same { result ≡ z }
    ensures in_range { IsInRange result }
{
    let _ = z.len();
    z
}

// The sum of the parts, as all their rows together.
#[tactic(auto, using(crate::proofs::Gathering::all_together))]
fn sum_of(alloc: Global, parts: Vec<ZSet>) -> Result<ZSet, ZFault>
    ensures ok { IfOk result (λ z. z ≡ sum_over (z_sets row_cmp) (λ y. y) parts.items) }
    ensures in_range { IfOk result IsInRange }
    ensures outside { (sum : ℤ) → result ≡ Err (ZFault.Weight sum) → first_outside (sum_over (z_sets row_cmp) (λ y. y) parts.items) ≡ Some sum }
{
    let pairs = all_pairs(alloc, parts)?;
    ZSet::consolidate(alloc, pairs)
}

// The rows of all parts with their weights, part after part.
fn all_pairs(alloc: Global, parts: Vec<ZSet>) -> Result<Vec<Pair>, NoMemory>
    ensures pairs { IfOk result (λ pairs. weighted_rows pairs.items ≡ flat_map entries parts.items) }
    ensures light { IfOk result (λ pairs. IsLight pairs.items) }
{
    let mut pairs = Vec::new(alloc);
    for part in parts {
        move_pairs(part, &mut pairs)?;
    }
    Ok(pairs)
}

// Moves the rows of a part behind the pairs.
fn move_pairs(part: ZSet, pairs: &mut Vec<Pair>) -> Result<(), NoMemory>
    ensures pairs { OnOk result (weighted_rows pairs.new.items ≡ weighted_rows pairs.old.items ++ entries part) }
    ensures light { IsLight pairs.old.items → OnOk result (IsLight pairs.new.items) }
{
    for entry in part.into_entries() {
        push_pair(entry, pairs)?;
    }
    Ok(())
}
