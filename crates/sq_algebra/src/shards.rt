//! The parts of Z-sets in a set of shards.

ghost use Rattle.std.specs.Prelude.{◌≡◌, ℕ, ℤ, pos, Option, List, map, Bool, ◌==◌, ◌↔◌, IsTrue, nat_lt, if◌then◌else◌};
ghost use Rattle.std.specs.List.{Any, filter};
ghost use Rattle.std.specs.Ordering.{nat_cmp};
ghost use Rattle.sq_algebra.specs.Orders.{IsOrder, TwoOrders, FourOrders};
ghost use Rattle.sq_algebra.specs.Listed.{count};
ghost use Rattle.sq_algebra.specs.ZSet.{ZSet, entries, zero, weight};
ghost use Rattle.sq_algebra.specs.Groups.{AbelianGroup, IsAbelian, IsAdditive, z_sets, sum_over, change_of};
ghost use Rattle.sq_algebra.specs.Operators.{distinct, product, join};
ghost use Rattle.sq_algebra.specs.Keyed.{by_key, Shards, cut, over_shards, numbers_below};
ghost use Rattle.sq_algebra.specs.KeyedLaws.{Coarser, SomeKey, OnlySameKeys, IsSummable, AddsUpOverShards, AddUpIn, AddsUp};

/// The parts of a Z-set in the shards add up to it, and so does what an additive map gives for them. Taking a part is
/// additive.
/// In short: `Σ_s z|s = z`, `Σ_s f(z|s) = f(z)`, `(y + z)|s = y|s + z|s`, `(z|s)(k) = [shard(k) = s] z(k)`,
/// `(z|t)|s = [s = t] z|s`.
pub fn shards_add_up<K: Ord, D, A>()
    ensures whole { IsOrder K.cmp → (S : Shards D) (key : K → D) (z : ZSet K K.cmp) → over_shards (z_sets K.cmp) S (λ s. cut S key s z) ≡ z }
    ensures additive { IsOrder K.cmp → (S : Shards D) (key : K → D) (G : AbelianGroup A) → IsAbelian G → (f : ZSet K K.cmp → A)
        → IsAdditive (z_sets K.cmp) G f → (z : ZSet K K.cmp) → over_shards G S (λ s. f (cut S key s z)) ≡ f z }
    ensures part { IsOrder K.cmp → (S : Shards D) (key : K → D) (s : ℕ) → IsAdditive (z_sets K.cmp) (z_sets K.cmp) (cut S key s) }
    ensures none { IsOrder K.cmp → (S : Shards D) (key : K → D) (s : ℕ) → cut S key s (zero K.cmp) ≡ zero K.cmp }
    ensures weights { IsOrder K.cmp → (S : Shards D) (key : K → D) (k : K) (s : ℕ) (z : ZSet K K.cmp) → weight k (cut S key s z) ≡ (if s == S.shard (key k) then weight k z else pos 0) }
    ensures entries { (S : Shards D) (key : K → D) (s : ℕ) (z : ZSet K K.cmp) → entries (cut S key s z) ≡ filter (λ e. s == S.shard (key e.0)) (entries z) }
    ensures gathered { IsOrder K.cmp → (S : Shards D) (key : K → D) (z : ZSet K K.cmp) → sum_over (z_sets K.cmp) (λ y. y) (map (λ s. cut S key s z) S.numbers) ≡ z }
    ensures again { IsOrder K.cmp → (S : Shards D) (key : K → D) (s t : ℕ) (z : ZSet K K.cmp) → cut S key s (cut S key t z) ≡ (if t == s then cut S key s z else zero K.cmp) }
{}

/// The products of the parts of both sides add up to the product, if two keys have images only if they have the same
/// key; so do those of the pairs with the same optional keys, cut by columns that tell these keys.
/// In short: `Σ_s (y|s × z|s) = y × z` and `Σ_s (y|s ⋈ z|s) = y ⋈ z`.
pub fn products_add_up_over_shards<D: Ord, J: Ord, K: Ord, L: Ord>()
    ensures keys { FourOrders D.cmp J.cmp K.cmp L.cmp → (S : Shards D) (left : J → D) (right : K → D) (f : J → K → List L)
        → OnlySameKeys D.cmp left right f → AddUpIn S J.cmp K.cmp left right (product L.cmp f) }
    ensures optional { FourOrders D.cmp J.cmp K.cmp L.cmp → (S : Shards D) (left : SomeKey J D) (right : SomeKey K D)
        (pair : J → K → Option L) → AddUpIn S J.cmp K.cmp left.cell right.cell (join L.cmp D.cmp left.key right.key pair) }
{}

/// A sum over the keys adds up over the shards, if the key of a row tells the key by which it is cut; and the
/// distinct Z-set adds up however it is cut.
/// In short: `Σ_s F(z|s) = F(z)` with `F(z) = Σ_c P c (z|c)`, and `Σ_s distinct(z|s) = distinct(z)`.
pub fn sums_over_keys_add_up_over_shards<K: Ord, C: Ord, D, A>()
    ensures keys { TwoOrders C.cmp K.cmp → (S : Shards D) (fine : K → C) (outer : Coarser fine D) (G : AbelianGroup A)
        → (part : C → ZSet K K.cmp → A) → IsSummable G part → AddsUpOverShards S outer.place G (by_key C.cmp fine G part) }
    ensures distinct { IsOrder K.cmp → (S : Shards D) (key : K → D) (z : ZSet K K.cmp) → over_shards (z_sets K.cmp) S (λ s. distinct (cut S key s z)) ≡ distinct z }
{}

/// If what f gives for the pieces adds up over the shards, so do its changes.
/// In short: `Σ_s (f((z + d)|s) - f(z|s)) = f(z + d) - f(z)`.
pub fn changes_add_up_over_shards<A, B, D>()
    ensures { (H : AbelianGroup B) (G : AbelianGroup A) (S : Shards D) (part : ℕ → B → B) (f : B → A)
        → IsAbelian G → AddsUp G S part f → (z d : B) → over_shards G S (λ s. change_of H G (λ b. f (part s b)) z d) ≡ change_of H G f z d }
{}

/// What stands in the shard of one key alone adds up to itself.
/// In short: `Σ_s [s = shard(c)] a = a`.
pub fn one_shard_adds_up<D, A>()
    ensures { (S : Shards D) (G : AbelianGroup A) → IsAbelian G → (c : D) (a : A) → over_shards G S (λ s. if s == S.shard c then a else G.zero) ≡ a }
{}

/// Some entry passes a test exactly if one of some part does.
/// In short: `∃ e ∈ z: p(e)` exactly if `∃ s: ∃ e ∈ z|s: p(e)`.
pub fn entries_over_shards<K: Ord, D>()
    ensures { IsOrder K.cmp → (S : Shards D) (key : K → D) (p : K × ℤ → Bool) (z : ZSet K K.cmp) → Any (λ e. IsTrue (p e)) (entries z) ↔ Any (λ s. Any (λ e. IsTrue (p e)) (entries (cut S key s z))) S.numbers }
{}

/// Each number below n stands once in the list of the numbers below n, and no other number does.
/// In short: `#_s(0, .., n - 1) = [s < n]`.
pub fn shard_numbers()
    ensures { (s n : ℕ) → count nat_cmp s (numbers_below n) ≡ (if nat_lt s n then 1 else 0) }
{}
