//! Z-sets parted by a key of their keys.

ghost use Rattle.std.specs.Prelude.{◌≡◌, pos, Option, List, Bool, ◌⊎◌, int_lt, if◌then◌else◌};
ghost use Rattle.std.specs.Ordering.{is_eq};
ghost use Rattle.sq_algebra.specs.Orders.{IsOrder, TwoOrders, ThreeOrders, FourOrders, Order};
ghost use Rattle.sq_algebra.specs.Listed.{count};
ghost use Rattle.sq_algebra.specs.ZSet.{ZSet, zero, single, weight};
ghost use Rattle.sq_algebra.specs.Groups.{AbelianGroup, IsAbelian, IsAdditive, z_sets, sum_over, AreAdditive, IsHomomorphism};
ghost use Rattle.sq_algebra.specs.Operators.{lin, keep, distinct, product, pairs_where, join};
ghost use Rattle.sq_algebra.specs.Keyed.{at_key, keys_of, CoversOnce, by_key, some_keys_of, CoversSomeOnce};
ghost use Rattle.sq_algebra.specs.KeyedLaws.{Coarser, SomeKey, OnlySameKeys, IsSummable, under, only_at, AddsUpBy, AgreesOnParts, SumsOverCovers, ChangesByKey, LeftPartsAddUp, RightPartsAddUp, LeftSomePartsAddUp, RightSomePartsAddUp, ChangesBySomeKey};

/// The part of one key: its weights, that taking it is additive, and the part of a part.
/// In short: `(z|c)(k) = [key(k) = c] z(k)`, `(y + z)|c = y|c + z|c`, `0|c = 0`, `(z|d)|c = [d = inner(c)] z|c`.
pub fn parts_are_linear<C: Ord, K: Ord, D>()
    ensures weights { TwoOrders C.cmp K.cmp → (key : K → C) (k : K) (c : C) (z : ZSet K K.cmp) → weight k (at_key C.cmp key c z) ≡ (if is_eq (C.cmp c (key k)) then weight k z else pos 0) }
    ensures additive { TwoOrders C.cmp K.cmp → (key : K → C) (c : C) → IsAdditive (z_sets K.cmp) (z_sets K.cmp) (at_key C.cmp key c) }
    ensures none { TwoOrders C.cmp K.cmp → (key : K → C) (c : C) → at_key C.cmp key c (zero K.cmp) ≡ zero K.cmp }
    ensures part { TwoOrders C.cmp K.cmp → (key : K → C) (P : Order D) (outer : Coarser key D) (c : C) (d : D) (z : ZSet K K.cmp)
        → at_key C.cmp key c (at_key P outer.place d z) ≡ only_at P d (outer.inner c) (at_key C.cmp key c z) }
{}

/// The keys that a Z-set has, ascending, cover it. A list covers it exactly if each key with a weight has its own in
/// the list once, and then covers what is left of it after a test. The keys that a Z-set has are those with a part that
/// is not empty, and each stands in every cover.
/// In short: `cs` covers `z` if `#_{key(k)}(cs) = 1` for each `k` with `z(k) ≠ 0`; `z|c = 0` or `#_c(cs) = 1`.
pub fn covers_are_covers<C: Ord, K: Ord>()
    ensures own_keys { TwoOrders C.cmp K.cmp → (key : K → C) (z : ZSet K K.cmp) → CoversOnce C.cmp key (keys_of C.cmp key z) z }
    ensures by_weight { TwoOrders C.cmp K.cmp → (key : K → C) (cs : List C) (z : ZSet K K.cmp) → CoversOnce C.cmp key cs z → (k : K) → (weight k z ≡ pos 0) ⊎ (count C.cmp (key k) cs ≡ 1) }
    ensures from_weights { TwoOrders C.cmp K.cmp → (key : K → C) (cs : List C) (z : ZSet K K.cmp) → ((k : K) → (weight k z ≡ pos 0) ⊎ (count C.cmp (key k) cs ≡ 1)) → CoversOnce C.cmp key cs z }
    ensures test { TwoOrders C.cmp K.cmp → (key : K → C) (p : K → Bool) (cs : List C) (z : ZSet K K.cmp) → CoversOnce C.cmp key cs z → CoversOnce C.cmp key cs (keep p z) }
    ensures no_key { TwoOrders C.cmp K.cmp → (key : K → C) (c : C) (z : ZSet K K.cmp) → at_key C.cmp key c z ≡ zero K.cmp → count C.cmp c (keys_of C.cmp key z) ≡ 0 }
    ensures no_part { TwoOrders C.cmp K.cmp → (key : K → C) (c : C) (z : ZSet K K.cmp) → count C.cmp c (keys_of C.cmp key z) ≡ 0 → at_key C.cmp key c z ≡ zero K.cmp }
    ensures part_or_cover { TwoOrders C.cmp K.cmp → (key : K → C) (c : C) (z : ZSet K K.cmp) → (at_key C.cmp key c z ≡ zero K.cmp) ⊎ ((cs : List C) → CoversOnce C.cmp key cs z → count C.cmp c cs ≡ 1) }
{}

/// The parts by the keys of a cover add up to the Z-set, and what an additive map gives for them adds up to what it
/// gives for the Z-set.
/// In short: `Σ_c z|c = z` and `Σ_c f(z|c) = f(z)`.
pub fn parts_add_up<C: Ord, K: Ord, A>()
    ensures whole { TwoOrders C.cmp K.cmp → (key : K → C) (cs : List C) (z : ZSet K K.cmp) → CoversOnce C.cmp key cs z → sum_over (z_sets K.cmp) (λ c. at_key C.cmp key c z) cs ≡ z }
    ensures additive { TwoOrders C.cmp K.cmp → (key : K → C) (G : AbelianGroup A) → IsAbelian G → (f : ZSet K K.cmp → A) → IsAdditive (z_sets K.cmp) G f
        → AddsUpBy C.cmp key G f }
{}

/// A sum over the keys, if the part over no keys is zero: it is the sum over any list of keys that covers the Z-set;
/// over no keys it is zero; and its change by a change of the Z-set is the sum of the changes of the parts over the
/// keys of the change.
/// In short: with `F(z) = Σ_c P c (z|c)`, `F(z + d) - F(z) = Σ_c (P c ((z + d)|c) - P c (z|c))` over the keys of `d`.
pub fn sums_over_keys<C: Ord, K: Ord, A>()
    ensures cover { TwoOrders C.cmp K.cmp → (key : K → C) (G : AbelianGroup A) (part : C → ZSet K K.cmp → A) → IsSummable G part
        → SumsOverCovers C.cmp key G part (by_key C.cmp key G part) }
    ensures none { TwoOrders C.cmp K.cmp → (key : K → C) (G : AbelianGroup A) (part : C → ZSet K K.cmp → A) → IsSummable G part
        → by_key C.cmp key G part (zero K.cmp) ≡ G.zero }
    ensures change { TwoOrders C.cmp K.cmp → (key : K → C) (G : AbelianGroup A) (part : C → ZSet K K.cmp → A) → IsSummable G part
        → ChangesByKey C.cmp key G part (by_key C.cmp key G part) }
{}

/// Parts that agree have the same sum over the keys; an additive map goes inside it; and over the part of one key only
/// what is given for this key is left.
/// In short: with `F(z) = Σ_c P c (z|c)`, `f(F(z)) = Σ_c f(P c (z|c))` and `F(z|c) = P c (z|c)`.
pub fn sums_over_keys_of_parts<C: Ord, K: Ord, A, B>()
    ensures same { (key : K → C) (G : AbelianGroup A) (part other : C → ZSet K K.cmp → A) → ((c : C) (y : ZSet K K.cmp) → part c y ≡ other c y) → (z : ZSet K K.cmp) → by_key C.cmp key G part z ≡ by_key C.cmp key G other z }
    ensures inside { (key : K → C) (G : AbelianGroup A) (H : AbelianGroup B) (f : A → B) → IsHomomorphism G H f → (part : C → ZSet K K.cmp → A)
        (z : ZSet K K.cmp) → f (by_key C.cmp key G part z) ≡ by_key C.cmp key H (under f part) z }
    ensures one_key { TwoOrders C.cmp K.cmp → (key : K → C) (G : AbelianGroup A) (part : C → ZSet K K.cmp → A) → IsSummable G part
        → AgreesOnParts C.cmp key part (by_key C.cmp key G part) }
{}

/// A sum over the keys of additive parts is additive, and one of linear extensions is a linear extension.
/// In short: `F(y + z) = F(y) + F(z)`, and `Σ_c Σ_k (z|c)(k) h(c, k) = Σ_k z(k) h(key(k), k)`.
pub fn sums_over_keys_are_linear<C: Ord, K: Ord, A>()
    ensures additive { TwoOrders C.cmp K.cmp → (key : K → C) (G : AbelianGroup A) → IsAbelian G → (part : C → ZSet K K.cmp → A)
        → AreAdditive (z_sets K.cmp) G part → IsAdditive (z_sets K.cmp) G (by_key C.cmp key G part) }
    ensures extension { TwoOrders C.cmp K.cmp → (key : K → C) (G : AbelianGroup A) → IsAbelian G
        → (h : C → K → A) (z : ZSet K K.cmp) → by_key C.cmp key G (λ c y. lin G (h c) y) z ≡ lin G (λ k. h (key k) k) z }
{}

/// If the key of a row tells its place, a sum over the keys adds up over the parts by place: a finer key under a
/// coarser one.
/// In short: `Σ_d F(z|d) = F(z)`.
pub fn sums_over_keys_add_up<C: Ord, K: Ord, D: Ord, A>()
    ensures { ThreeOrders C.cmp K.cmp D.cmp → (key : K → C) (outer : Coarser key D) (G : AbelianGroup A) (part : C → ZSet K K.cmp → A)
        → IsSummable G part → AddsUpBy D.cmp outer.place G (by_key C.cmp key G part) }
{}

/// If two keys have images only if they have the same key, the products of the parts by the keys of a cover of one
/// side add up to the product.
/// In short: `Σ_c (y|c × z|c) = y × z`.
pub fn products_add_up_by_key<C: Ord, J: Ord, K: Ord, L: Ord>()
    ensures left { FourOrders C.cmp J.cmp K.cmp L.cmp → (left : J → C) (right : K → C) (f : J → K → List L)
        → OnlySameKeys C.cmp left right f → LeftPartsAddUp C.cmp J.cmp K.cmp left right (product L.cmp f) }
    ensures right { FourOrders C.cmp J.cmp K.cmp L.cmp → (left : J → C) (right : K → C) (f : J → K → List L)
        → OnlySameKeys C.cmp left right f → RightPartsAddUp C.cmp J.cmp K.cmp left right (product L.cmp f) }
{}

/// The change of the product of the pairs with the same optional keys, key by key of a list that covers the changes of
/// both sides.
/// In short: `Δ(y ⋈ z) = Σ_c (y|c ⋈ Δz|c + Δy|c ⋈ z|c + Δy|c ⋈ Δz|c)`.
pub fn joins_change_by_key<C: Ord, J: Ord, K: Ord, L: Ord>()
    ensures { FourOrders C.cmp J.cmp K.cmp L.cmp → (left : J → Option C) (right : K → Option C) (pair : J → K → Option L)
        → ChangesBySomeKey C.cmp J.cmp K.cmp left right (join L.cmp C.cmp left right pair) }
{}

/// The products of the parts add up also for the pairs with the same optional keys, by the keys of a list that covers
/// those of one side, as the keys that are there do. Two keys without a common key have no image.
/// In short: `Σ_c (y|c ⋈ z|c) = y ⋈ z`.
pub fn products_add_up_by_optional_key<C: Ord, J: Ord, K: Ord, L: Ord>()
    ensures left { FourOrders C.cmp J.cmp K.cmp L.cmp → (left : J → Option C) (right : K → Option C) (pair : J → K → Option L)
        → LeftSomePartsAddUp C.cmp J.cmp K.cmp left right (join L.cmp C.cmp left right pair) }
    ensures right { FourOrders C.cmp J.cmp K.cmp L.cmp → (left : J → Option C) (right : K → Option C) (pair : J → K → Option L)
        → RightSomePartsAddUp C.cmp J.cmp K.cmp left right (join L.cmp C.cmp left right pair) }
    ensures cover { (key : K → Option C) (z : ZSet K K.cmp) → CoversSomeOnce C.cmp key (some_keys_of C.cmp key z) z }
    ensures apart { FourOrders C.cmp J.cmp K.cmp L.cmp → (left : SomeKey J C) (right : SomeKey K C) (pair : J → K → Option L)
        → OnlySameKeys C.cmp left.cell right.cell (pairs_where C.cmp left.key right.key pair) }
{}

/// The distinct Z-set is a sum over the keys themselves.
/// In short: `distinct(z) = Σ_k [z(k) > 0] k`.
pub fn distinct_is_by_key<K: Ord>()
    ensures { IsOrder K.cmp → (z : ZSet K K.cmp) → distinct z ≡ by_key K.cmp (λ k. k) (z_sets K.cmp) (λ k y. if int_lt (pos 0) (weight k y) then single K.cmp k else zero K.cmp) z }
{}
