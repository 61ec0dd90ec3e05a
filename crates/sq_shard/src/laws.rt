//! What holds of shards, each as the contract of a function that does nothing.
ghost use Rattle.std.specs.Prelude.{◌≡◌, ◌<◌, ℕ, List, []};
ghost use Rattle.sq_algebra.specs.Groups.{sum_over, z_sets};
ghost use Rattle.sq_algebra.specs.Keyed.{numbers_below};
ghost use Rattle.sq_algebra.specs.ZSet.{ZSet as Weighted};
ghost use Rattle.sq_shard.specs.Shards.{parts, shard_number, shards};
ghost use Rattle.sq_value.specs.Order.{row_cmp};
ghost use Rattle.sq_value.specs.declared.value.Value.{Value as Datum};

/// The parts of a Z-set add up to it, whatever columns they are made by. The empty key has shard 0. The shards are those with
/// the numbers below n, and each key has the shard that `shard_of` answers.
#[tactic(auto, using(crate::proofs::Parting::gathered, crate::proofs::Parting::empty_key, crate::proofs::Parting::numbers_are, crate::proofs::Parting::shard_is))]
pub fn parts_add_up()
    ensures gathered { (n : ℕ) (columns : List ℕ) (z : Weighted (List Datum) row_cmp) → 0 < n → sum_over (z_sets row_cmp) (λ y. y) (parts n columns z) ≡ z }
    ensures empty { (n : ℕ) → shard_number n [] ≡ 0 }
    ensures numbers { (n : ℕ) → 0 < n → (shards n).numbers ≡ numbers_below n }
    ensures shard { (n : ℕ) (key : List Datum) → 0 < n → (shards n).shard key ≡ shard_number n key }
{}
