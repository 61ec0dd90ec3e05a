//! Z-sets whose keys all pass a test.

ghost use Rattle.std.specs.Prelude.{◌≡◌, ◌↔◌, ℕ, List, Bool, IsTrue, false, pos};
ghost use Rattle.std.specs.List.{list_all};
ghost use Rattle.sq_algebra.specs.Orders.{IsOrder, Order};
ghost use Rattle.sq_algebra.specs.Keyed.{Shards, at_key, cut};
ghost use Rattle.sq_algebra.specs.Operators.{distinct, image, keep, product};
ghost use Rattle.sq_algebra.specs.Passing.{PairsPass, all_pass};
ghost use Rattle.sq_algebra.specs.ZSet.{ZSet, minus, negate, of_list, plus, weight};

/// All keys of a list's Z-set pass a test exactly if all members of the list do.
/// In short: `∀ k ∈ [xs]: p(k)` exactly if `∀ x ∈ xs: p(x)`.
pub fn tests_of_lists<K: Ord>()
    ensures { IsOrder K.cmp → (p : K → Bool) (xs : List K) → all_pass p (of_list K.cmp xs) ≡ list_all p xs }
{}

/// If all keys of two Z-sets pass a test, so do those of their sum and their difference.
/// In short: with `p(z)` for `∀ k ∈ z: p(k)`, `p(y)` and `p(z)` give `p(y + z)`, `p(y - z)` and `p(-z)`.
pub fn sums_pass<K: Ord>()
    ensures sum { (p : K → Bool) (y z : ZSet K K.cmp) → IsTrue (all_pass p y) → IsTrue (all_pass p z) → IsTrue (all_pass p (plus y z)) }
    ensures difference { (p : K → Bool) (y z : ZSet K K.cmp) → IsTrue (all_pass p y) → IsTrue (all_pass p z) → IsTrue (all_pass p (minus y z)) }
    ensures negation { (p : K → Bool) (z : ZSet K K.cmp) → IsTrue (all_pass p z) → IsTrue (all_pass p (negate z)) }
{}

/// If all keys of a Z-set pass a test, so do those that pass another test, those of the part of a key, those of the part in
/// a shard, and those of the distinct Z-set. All keys that pass a test pass it.
/// In short: `p(z)` gives `p(σ_q(z))`, `p(z|c)`, `p(z|s)` and `p(distinct(z))`; and `p(σ_p(z))`.
pub fn parts_pass<K: Ord, C, D>()
    ensures kept { (p q : K → Bool) (z : ZSet K K.cmp) → IsTrue (all_pass p z) → IsTrue (all_pass p (keep q z)) }
    ensures tested { (p : K → Bool) (z : ZSet K K.cmp) → IsTrue (all_pass p (keep p z)) }
    ensures part { (p : K → Bool) (Q : Order C) (key : K → C) (c : C) (z : ZSet K K.cmp) → IsTrue (all_pass p z) → IsTrue (all_pass p (at_key Q key c z)) }
    ensures shard { (p : K → Bool) (S : Shards D) (key : K → D) (s : ℕ) (z : ZSet K K.cmp) → IsTrue (all_pass p z) → IsTrue (all_pass p (cut S key s z)) }
    ensures distinct { (p : K → Bool) (z : ZSet K K.cmp) → IsTrue (all_pass p z) → IsTrue (all_pass p (distinct z)) }
{}

/// If all keys of a Z-set pass a test, and all images of each key that passes it pass another test, so do all keys of the
/// image.
/// In short: if `p(k)` gives `q(l)` for each `l` of `f(k)`, `p(z)` gives `q(f(z))`.
pub fn images_pass<K: Ord, L: Ord>()
    ensures { (p : K → Bool) (q : L → Bool) (f : K → List L) → ((k : K) → IsTrue (p k) → IsTrue (list_all q (f k))) → (z : ZSet K K.cmp) → IsTrue (all_pass p z) → IsTrue (all_pass q (image L.cmp f z)) }
{}

/// If all keys of two Z-sets pass tests, and all images of each pair of keys that pass them pass another test, so do all keys
/// of the product.
/// In short: if `p(j)` and `r(k)` give `q(l)` for each `l` of `f(j, k)`, `p(y)` and `r(z)` give `q(y × z)`.
pub fn products_pass<J: Ord, K: Ord, L: Ord>()
    ensures { (p : J → Bool) (r : K → Bool) (q : L → Bool) (f : J → K → List L) → PairsPass p r q f
        → (y : ZSet J J.cmp) (z : ZSet K K.cmp) → IsTrue (all_pass p y) → IsTrue (all_pass r z) → IsTrue (all_pass q (product L.cmp f y z)) }
{}

/// All keys of a Z-set pass a test exactly if each key that fails it has no weight.
/// In short: `∀ k ∈ z: p(k)` exactly if `z(k) = 0` for each `k` with `¬p(k)`.
pub fn tests_by_weights<K: Ord>()
    ensures { IsOrder K.cmp → (p : K → Bool) (z : ZSet K K.cmp) → IsTrue (all_pass p z) ↔ ((k : K) → p k ≡ false → weight k z ≡ pos 0) }
{}
