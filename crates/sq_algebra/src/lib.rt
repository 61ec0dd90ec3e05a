//! Z-sets (DBSP, PVLDB 16(7), 2023) and lists in which a key may stand several times: the definitions, and their laws.
//!
//! No code here runs. Each function has an empty body, and its contract is a law. The laws hold for every type of keys;
//! if one has the premise `IsOrder` (`TwoOrders`, ..), the order of the keys answers `Equal` only at identical keys.
//!
//! Weights, totals and lists stand here; `groups` has abelian groups and sums; `linear` the linear extension of a function
//! on keys, from which the laws of the operators follow (`operators`, `products`); `keyed` sums over the keys of parts;
//! `shards` parts by shard; `from_lists` what is done to lists as it is done to their Z-sets; `members`, `passing` and
//! `nonnegative` entries, keys that all pass a test, and Z-sets that are lists.
//!
//! In the equations beside the laws `z(k)` is the weight of the key `k`, `|z|` the total, `[xs]` the Z-set of a list,
//! `#_k(xs)` how often `k` stands in it, `σ_p(z)` what passes the test `p`, `z|c` the part of the key `c`, and `z|s` that in
//! the shard `s`; `[P]` is 1 if `P` holds, and otherwise 0.
#![tactic(auto)]

pub mod from_lists;
pub mod groups;
pub mod keyed;
pub mod linear;
pub mod members;
pub mod nonnegative;
pub mod operators;
pub mod passing;
pub mod products;
pub mod shards;

ghost use Rattle.std.specs.Prelude.{◌≡◌, ◌==◌, ◌<◌, ℕ, slice_get, Some, ◌++◌, ℤ, List, pos, ◌+ℤ◌, ◌-ℤ◌, neg_ℤ, map, length, IsTrue, if◌then◌else◌};
ghost use Rattle.std.specs.List.Sorted.{IsPermutation};
ghost use Rattle.std.specs.declared.cmp.Ordering.TheVariants.{Less};
ghost use Rattle.std.specs.Ordering.{is_eq};
ghost use Rattle.sq_algebra.specs.Orders.{IsOrder};
ghost use Rattle.sq_algebra.specs.Listed.{count, is_ascending, in_order, changed};
ghost use Rattle.sq_algebra.specs.ZSet.{ZSet, is_canonical, entries, zero, single, from_entries, from_pairs, of_list, weight, weight_in, total, plus, negate, minus};

/// Two Z-sets that give each key the same weight are the same Z-set.
/// In short: `y = z` if `y(k) = z(k)` for each `k`.
pub fn weights_decide<K: Ord>()
    ensures { IsOrder K.cmp → (y z : ZSet K K.cmp) → ((k : K) → weight k y ≡ weight k z) → y ≡ z }
{}

/// The entries of a Z-set are canonical, which says that their keys ascend, and a canonical list is the entries of one Z-set.
/// In short: the entries `(k_1, n_1), (k_2, n_2), ..` have `k_1 < k_2 < ..` and `n_i ≠ 0`, and `Σ_i n_i k_i = z`.
pub fn entries_are_canonical<K: Ord>()
    ensures ascending { (z : ZSet K K.cmp) (i j : ℕ) (d e : K × ℤ) → i < j → slice_get (entries z) i ≡ Some d → slice_get (entries z) j ≡ Some e → K.cmp d.0 e.0 ≡ Less }
    ensures canonical { (z : ZSet K K.cmp) → IsTrue (is_canonical K.cmp (entries z)) }
    ensures back { (z : ZSet K K.cmp) → from_entries K.cmp (entries z) ≡ z }
    ensures there { (es : List (K × ℤ)) → IsTrue (is_canonical K.cmp es) → entries (from_entries K.cmp es) ≡ es }
{}

/// The weight of a key in the empty Z-set, in that of one key, and in a sum, a negation and a difference.
/// In short: `0(k) = 0`, `(1 j)(k) = [k = j]`, `(y + z)(k) = y(k) + z(k)`, `(-z)(k) = -z(k)`,
/// `(y - z)(k) = y(k) - z(k)`.
pub fn weights_add<K: Ord>()
    ensures none { (k : K) → weight k (zero K.cmp) ≡ pos 0 }
    ensures one { (k j : K) → weight k (single K.cmp j) ≡ (if is_eq (K.cmp k j) then pos 1 else pos 0) }
    ensures sum { (k : K) (y z : ZSet K K.cmp) → weight k (plus y z) ≡ weight k y +ℤ weight k z }
    ensures negation { (k : K) (z : ZSet K K.cmp) → weight k (negate z) ≡ neg_ℤ (weight k z) }
    ensures difference { (k : K) (y z : ZSet K K.cmp) → weight k (minus y z) ≡ weight k y -ℤ weight k z }
{}

/// The total of the empty Z-set, and of a sum, a negation and a difference.
/// In short: `|0| = 0`, `|y + z| = |y| + |z|`, `|-z| = -|z|`, `|y - z| = |y| - |z|`, with `|z| = Σ_k z(k)`.
pub fn totals_add<K: Ord>()
    ensures none { total (zero K.cmp) ≡ pos 0 }
    ensures sum { (y z : ZSet K K.cmp) → total (plus y z) ≡ total y +ℤ total z }
    ensures negation { (z : ZSet K K.cmp) → total (negate z) ≡ neg_ℤ (total z) }
    ensures difference { (y z : ZSet K K.cmp) → total (minus y z) ≡ total y -ℤ total z }
{}

/// The Z-set of a list of pairs gives each key the sum of its weights, and does not depend on the order of the pairs.
/// In short: `[ps](k) = Σ n` over the pairs `(k, n)` of `ps`, and `[ps ++ qs] = [ps] + [qs]`.
pub fn pairs_add_up<K: Ord>()
    ensures weights { (k : K) (ps : List (K × ℤ)) → weight k (from_pairs K.cmp ps) ≡ weight_in K.cmp k ps }
    ensures order { IsOrder K.cmp → (ps qs : List (K × ℤ)) → IsPermutation ps qs → from_pairs K.cmp qs ≡ from_pairs K.cmp ps }
    ensures joined { IsOrder K.cmp → (ps qs : List (K × ℤ)) → from_pairs K.cmp (ps ++ qs) ≡ plus (from_pairs K.cmp ps) (from_pairs K.cmp qs) }
{}

/// The Z-set of a list gives each key its count, and its total is the length of the list.
/// In short: `[xs](k) = #_k(xs)`, `|[xs]| = length(xs)`, `[xs ++ ys] = [xs] + [ys]`.
pub fn lists_are_counted<K: Ord>()
    ensures weights { (k : K) (xs : List K) → weight k (of_list K.cmp xs) ≡ pos (count K.cmp k xs) }
    ensures total { (xs : List K) → total (of_list K.cmp xs) ≡ pos (length xs) }
    ensures joined { IsOrder K.cmp → (xs ys : List K) → of_list K.cmp (xs ++ ys) ≡ plus (of_list K.cmp xs) (of_list K.cmp ys) }
{}

/// A list in order ascends, and each key of the list stands in it once, and no other key.
/// In short: in order, `x_1 < x_2 < ..`, and `#_k = 1` if `#_k(xs) > 0`, and otherwise 0.
pub fn lists_are_ordered<K: Ord>()
    ensures ascending { (xs : List K) → IsTrue (is_ascending K.cmp (in_order K.cmp xs)) }
    ensures once { (k : K) (xs : List K) → count K.cmp k (in_order K.cmp xs) ≡ (if count K.cmp k xs == 0 then 0 else 1) }
{}

/// The keys by which two lists differ ascend; they are the keys whose counts differ, each once; and with the rise of its
/// count each is an entry of the difference of the two lists' Z-sets, which has no others.
/// In short: `[now] - [before] = Σ_k (#_k(now) - #_k(before)) k`.
pub fn changes_are_differences<K: Ord>()
    ensures ascending { (before now : List K) → IsTrue (is_ascending K.cmp (changed K.cmp before now)) }
    ensures once { (k : K) (before now : List K) → count K.cmp k (changed K.cmp before now) ≡ (if count K.cmp k before == count K.cmp k now then 0 else 1) }
    ensures entries { IsOrder K.cmp → (before now : List K) → entries (minus (of_list K.cmp now) (of_list K.cmp before)) ≡ map (λ k. (k, pos (count K.cmp k now) -ℤ pos (count K.cmp k before))) (changed K.cmp before now) }
{}
