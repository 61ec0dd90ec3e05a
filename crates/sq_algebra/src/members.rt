//! The entries of a Z-set, and members of a list that pass a test.

ghost use Rattle.std.specs.Prelude.{◌≡◌, ℤ, pos, neg_ℤ, List, [], ◌∷◌, ◌++◌, map, Bool, ◌⊎◌, ◌↔◌, IsTrue, int_lt};
ghost use Rattle.std.specs.List.{Any, Contains, filter, flat_map, list_any};
ghost use Rattle.std.specs.Ordering.{is_eq};
ghost use Rattle.sq_algebra.specs.Orders.{IsOrder, Order};
ghost use Rattle.sq_algebra.specs.Listed.{count, first_of_each, in_order};
ghost use Rattle.sq_algebra.specs.ZSet.{ZSet, entries, from_pairs, of_list, weight, negate};
ghost use Rattle.sq_algebra.specs.Groups.{z_sets, sum_over};
ghost use Rattle.sq_algebra.specs.Operators.{keep, distinct};
ghost use Rattle.sq_algebra.specs.Keyed.{at_key};

/// An entry is a key with its weight, which is not 0, and each key with another weight than 0 has its entry. The
/// entries after a test are those whose keys pass. The entries of a list's Z-set are its keys in order with their
/// counts.
/// In short: `(k, n)` is an entry of `z` exactly if `z(k) = n` and `n ≠ 0`.
pub fn entries_are_members<K: Ord>()
    ensures weights { (z : ZSet K K.cmp) (k : K) (n : ℤ) → Contains (entries z) (k, n) → (weight k z ≡ n) × (n ≡ pos 0 → ⊥) }
    ensures there { IsOrder K.cmp → (z : ZSet K K.cmp) (k : K) → (weight k z ≡ pos 0 → ⊥) → Contains (entries z) (k, weight k z) }
    ensures test { IsOrder K.cmp → (p : K → Bool) (z : ZSet K K.cmp) (k : K) (n : ℤ) → Contains (entries (keep p z)) (k, n) ↔ (Contains (entries z) (k, n) × IsTrue (p k)) }
    ensures list { IsOrder K.cmp → (xs : List K) → entries (of_list K.cmp xs) ≡ map (λ k. (k, pos (count K.cmp k xs))) (in_order K.cmp xs) }
{}

/// The entries of the keys that pass a test, of the part of one key, of a negation and of the distinct Z-set are those
/// of the Z-set, filtered or with other weights; and the Z-set of the entries is the Z-set.
/// In short: `σ_p(z) = Σ_{p(k)} z(k) k`, `-z = Σ_k -z(k) k`, `distinct(z) = Σ_{z(k) > 0} k`.
pub fn entries_of_operators<K: Ord, C>()
    ensures test { (p : K → Bool) (z : ZSet K K.cmp) → entries (keep p z) ≡ filter (λ e. p e.0) (entries z) }
    ensures part { (Q : Order C) (key : K → C) (c : C) (z : ZSet K K.cmp) → entries (at_key Q key c z) ≡ filter (λ e. is_eq (Q c (key e.0))) (entries z) }
    ensures negation { (z : ZSet K K.cmp) → entries (negate z) ≡ map (λ e. (e.0, neg_ℤ e.1)) (entries z) }
    ensures distinct { IsOrder K.cmp → (z : ZSet K K.cmp) → entries (distinct z) ≡ map (λ e. (e.0, pos 1)) (filter (λ e. int_lt (pos 0) e.1) (entries z)) }
    ensures collected { (z : ZSet K K.cmp) → from_pairs K.cmp (entries z) ≡ z }
{}

/// A sum of Z-sets over a list collects the entries of all of them.
/// In short: `Σ_x f(x) = Σ n k` over the entries `(k, n)` of all `f(x)`.
pub fn sums_collect_entries<K: Ord, X>()
    ensures { IsOrder K.cmp → (f : X → ZSet K K.cmp) (xs : List X) → sum_over (z_sets K.cmp) f xs ≡ from_pairs K.cmp (flat_map (λ x. entries (f x)) xs) }
{}

/// Some member of a list passes a test: never of an empty list, and of a list with one member more, of two lists
/// joined, and of a list with a given member that passes. It is what `list_any` tells.
/// In short: `∃ x ∈ xs ++ ys: p(x)` exactly if `∃ x ∈ xs: p(x)` or `∃ y ∈ ys: p(y)`.
pub fn some_member<X>()
    ensures none { (p : X → Bool) → Any (λ x. IsTrue (p x)) [] → ⊥ }
    ensures first_or_later { (p : X → Bool) (x : X) (xs : List X) → Any (λ x. IsTrue (p x)) (x ∷ xs) ↔ (IsTrue (p x) ⊎ Any (λ x. IsTrue (p x)) xs) }
    ensures joined { (p : X → Bool) (xs ys : List X) → Any (λ x. IsTrue (p x)) (xs ++ ys) ↔ (Any (λ x. IsTrue (p x)) xs ⊎ Any (λ x. IsTrue (p x)) ys) }
    ensures member { (p : X → Bool) (xs : List X) (x : X) → Contains xs x → IsTrue (p x) → Any (λ x. IsTrue (p x)) xs }
    ensures test { (p : X → Bool) (xs : List X) → IsTrue (list_any p xs) ↔ Any (λ x. IsTrue (p x)) xs }
{}

/// Some member of a list passes a test exactly if some one of the list in order does, some one of the list without repeats,
/// and some key of its Z-set.
/// In short: `∃ x ∈ xs: p(x)` exactly if `∃ k ∈ [xs]: p(k)`.
pub fn some_member_of_a_list<K: Ord>()
    ensures ordered { IsOrder K.cmp → (p : K → Bool) (xs : List K) → list_any p (in_order K.cmp xs) ≡ list_any p xs }
    ensures first { IsOrder K.cmp → (p : K → Bool) (xs : List K) → list_any p (first_of_each K.cmp xs) ≡ list_any p xs }
    ensures key { IsOrder K.cmp → (p : K → Bool) (xs : List K) → list_any (λ e. p e.0) (entries (of_list K.cmp xs)) ≡ list_any p xs }
{}
