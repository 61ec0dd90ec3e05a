//! Abelian groups: what follows from their laws, and the whole numbers and the Z-sets as groups.

ghost use Rattle.std.specs.Prelude.{◌≡◌, ℤ, pos, ◌+ℤ◌, ◌*ℤ◌, neg_ℤ, List, ◌++◌, map, Bool, if◌then◌else◌};
ghost use Rattle.std.specs.List.{All, filter, flat_map};
ghost use Rattle.sq_algebra.specs.Orders.{IsOrder};
ghost use Rattle.sq_algebra.specs.Groups.{AbelianGroup, IsAbelian, IsAdditive, pairs_of, functions_to, integers, z_sets, times, sum_over, minus, IsHomomorphism, IsBilinear};

/// The whole numbers are an abelian group, and the multiple of one by another is their product.
/// In short: `n` added `m` times is `m n`, and `m + n`, `-n` and 0 have the laws of an abelian group.
pub fn integers_are_a_group()
    ensures group { IsAbelian integers }
    ensures product { (m n : ℤ) → times integers m n ≡ m *ℤ n }
{}

/// The Z-sets over keys of one type are an abelian group.
/// In short: `(x + y) + z = x + (y + z)`, `y + z = z + y`, `0 + z = z`, `z + (-z) = 0`.
pub fn z_sets_are_a_group<K: Ord>()
    ensures { IsOrder K.cmp → IsAbelian (z_sets K.cmp) }
{}

/// The pairs of members of two groups, and the functions into a group, are groups.
/// In short: `(a, b) + (c, d) = (a + c, b + d)` and `(f + g)(x) = f(x) + g(x)`.
pub fn pairs_and_functions_are_groups<A, B, X>()
    ensures pairs { (G : AbelianGroup A) (H : AbelianGroup B) → IsAbelian G → IsAbelian H → IsAbelian (pairs_of G H) }
    ensures functions { (G : AbelianGroup A) → IsAbelian G → IsAbelian (functions_to X G) }
{}

/// A summand falls away against the same one taken off, and so do equal parts of two sums.
/// In short: `(a + b) - a = b`, `a + (b - a) = b`, `a - a = 0`.
pub fn differences_cancel<A>()
    ensures left { (G : AbelianGroup A) → IsAbelian G → (a b : A) → minus G (G.plus a b) a ≡ b }
    ensures right { (G : AbelianGroup A) → IsAbelian G → (a b : A) → minus G (G.plus a b) b ≡ a }
    ensures back { (G : AbelianGroup A) → IsAbelian G → (a b : A) → G.plus a (minus G b a) ≡ b }
    ensures none { (G : AbelianGroup A) → IsAbelian G → (a : A) → minus G a a ≡ G.zero }
    ensures same { (G : AbelianGroup A) → IsAbelian G → (a b : A) → minus G a b ≡ G.zero → a ≡ b }
    ensures summand { (G : AbelianGroup A) → IsAbelian G → (a b c : A) → G.plus a b ≡ G.plus a c → b ≡ c }
{}

/// The difference of two sums is the sum of the differences, and differences add up in a row.
/// In short: `(a + b) - (c + d) = (a - c) + (b - d)`, `(a - b) + (b - c) = a - c`, `a - 0 = a`.
pub fn differences_add<A>()
    ensures sums { (G : AbelianGroup A) → IsAbelian G → (a b c d : A) → minus G (G.plus a b) (G.plus c d) ≡ G.plus (minus G a c) (minus G b d) }
    ensures row { (G : AbelianGroup A) → IsAbelian G → (a b c : A) → G.plus (minus G a b) (minus G b c) ≡ minus G a c }
    ensures zero { (G : AbelianGroup A) → IsAbelian G → (a : A) → minus G a G.zero ≡ a }
{}

/// The negation of zero, of a negation and of a sum.
/// In short: `-0 = 0`, `-(-a) = a`, `-(a + b) = -a + -b`.
pub fn negations_add<A>()
    ensures zero { (G : AbelianGroup A) → IsAbelian G → G.negate G.zero ≡ G.zero }
    ensures twice { (G : AbelianGroup A) → IsAbelian G → (a : A) → G.negate (G.negate a) ≡ a }
    ensures sum { (G : AbelianGroup A) → IsAbelian G → (a b : A) → G.negate (G.plus a b) ≡ G.plus (G.negate a) (G.negate b) }
{}

/// Multiples: by 0, by 1, by a sum, by a product and by a negation, and of zero and of a sum.
/// In short: `0a = 0`, `1a = a`, `(m + n)a = ma + na`, `m(na) = (mn)a`, `(-n)a = -(na)`, `n(a + b) = na + nb`.
pub fn multiples_add<A>()
    ensures by_none { (G : AbelianGroup A) → IsAbelian G → (a : A) → times G (pos 0) a ≡ G.zero }
    ensures by_one { (G : AbelianGroup A) → IsAbelian G → (a : A) → times G (pos 1) a ≡ a }
    ensures by_sum { (G : AbelianGroup A) → IsAbelian G → (m n : ℤ) (a : A) → times G (m +ℤ n) a ≡ G.plus (times G m a) (times G n a) }
    ensures by_product { (G : AbelianGroup A) → IsAbelian G → (m n : ℤ) (a : A) → times G m (times G n a) ≡ times G (m *ℤ n) a }
    ensures by_negation { (G : AbelianGroup A) → IsAbelian G → (n : ℤ) (a : A) → times G (neg_ℤ n) a ≡ G.negate (times G n a) }
    ensures of_zero { (G : AbelianGroup A) → IsAbelian G → (n : ℤ) → times G n G.zero ≡ G.zero }
    ensures of_sum { (G : AbelianGroup A) → IsAbelian G → (n : ℤ) (a b : A) → times G n (G.plus a b) ≡ G.plus (times G n a) (times G n b) }
{}

/// An additive map keeps zero, negations, differences and multiples, and goes inside a sum over a list.
/// In short: `f(0) = 0`, `f(-a) = -f(a)`, `f(a - b) = f(a) - f(b)`, `f(na) = n f(a)`, `f(Σ g) = Σ f(g)`.
pub fn additive_maps<A, B, X>()
    ensures zero { (G : AbelianGroup A) (H : AbelianGroup B) (f : A → B) → IsHomomorphism G H f → f G.zero ≡ H.zero }
    ensures negation { (G : AbelianGroup A) (H : AbelianGroup B) (f : A → B) → IsHomomorphism G H f → (a : A) → f (G.negate a) ≡ H.negate (f a) }
    ensures difference { (G : AbelianGroup A) (H : AbelianGroup B) (f : A → B) → IsHomomorphism G H f → (a b : A) → f (minus G a b) ≡ minus H (f a) (f b) }
    ensures multiple { (G : AbelianGroup A) (H : AbelianGroup B) (f : A → B) → IsHomomorphism G H f → (n : ℤ) (a : A) → f (times G n a) ≡ times H n (f a) }
    ensures sum { (G : AbelianGroup A) (H : AbelianGroup B) (f : A → B) → IsHomomorphism G H f → (g : X → A) (xs : List X) → f (sum_over G g xs) ≡ sum_over H (λ x. f (g x)) xs }
{}

/// Additive maps: one after another, their sum and their negation, and the map to zero.
/// In short: `g ∘ f`, `f + g`, `-f`, 0 and `a ↦ n a` are additive, if `f` and `g` are.
pub fn additive_maps_compose<A, B, C>()
    ensures composed { (G : AbelianGroup A) (H : AbelianGroup B) (F : AbelianGroup C) (f : A → B) (g : B → C) → IsAdditive G H f → IsAdditive H F g → IsAdditive G F (λ a. g (f a)) }
    ensures sum { (G : AbelianGroup A) (H : AbelianGroup B) → IsAbelian H → (f g : A → B) → IsAdditive G H f → IsAdditive G H g → IsAdditive G H (λ a. H.plus (f a) (g a)) }
    ensures negation { (G : AbelianGroup A) (H : AbelianGroup B) → IsAbelian H → (f : A → B) → IsAdditive G H f → IsAdditive G H (λ a. H.negate (f a)) }
    ensures zero { (G : AbelianGroup A) (H : AbelianGroup B) → IsAbelian H → IsAdditive G H (λ _. H.zero) }
    ensures multiple { (G : AbelianGroup A) → IsAbelian G → (n : ℤ) → IsAdditive G G (times G n) }
{}

/// The change of a map that is additive in each of two places, by the changes of these.
/// In short: `f(a + x, b + y) - f(a, b) = f(a, y) + f(x, b) + f(x, y)`.
pub fn bilinear_maps_change<A, B, C>()
    ensures { (G : AbelianGroup A) (H : AbelianGroup B) (F : AbelianGroup C) (f : A → B → C) → IsBilinear G H F f → (a x : A) (b y : B)
        → minus F (f (G.plus a x) (H.plus b y)) (f a b) ≡ F.plus (F.plus (f a y) (f x b)) (f x y) }
{}

/// Sums over joined, filtered and mapped lists, and the two sums of a double sum in the other order.
/// In short: `Σ_{xs ++ ys} f = Σ_xs f + Σ_ys f`, `Σ_{g(ys)} f = Σ_ys (f ∘ g)`,
/// `Σ_x Σ_y f(x, y) = Σ_y Σ_x f(x, y)`.
pub fn sums_over_lists<A, X, Y>()
    ensures joined { (G : AbelianGroup A) → IsAbelian G → (f : X → A) (xs ys : List X) → sum_over G f (xs ++ ys) ≡ G.plus (sum_over G f xs) (sum_over G f ys) }
    ensures filtered { (G : AbelianGroup A) → IsAbelian G → (f : X → A) (p : X → Bool) (xs : List X) → sum_over G f (filter p xs) ≡ sum_over G (λ x. if p x then f x else G.zero) xs }
    ensures mapped { (G : AbelianGroup A) (f : X → A) (g : Y → X) (ys : List Y) → sum_over G f (map g ys) ≡ sum_over G (λ y. f (g y)) ys }
    ensures flat_mapped { (G : AbelianGroup A) → IsAbelian G → (f : X → A) (g : Y → List X) (ys : List Y) → sum_over G f (flat_map g ys) ≡ sum_over G (λ y. sum_over G f (g y)) ys }
    ensures swapped { (G : AbelianGroup A) → IsAbelian G → (f : X → Y → A) (xs : List X) (ys : List Y) → sum_over G (λ x. sum_over G (f x) ys) xs ≡ sum_over G (λ y. sum_over G (λ x. f x y) xs) ys }
{}

/// Sums of zeros, sums, differences and multiples, and of functions that agree at the members of a list.
/// In short: `Σ 0 = 0`, `Σ (f + g) = Σ f + Σ g`, `Σ (f - g) = Σ f - Σ g`, `Σ n f = n Σ f`.
pub fn sums_of_functions<A, X>()
    ensures zeros { (G : AbelianGroup A) → IsAbelian G → (xs : List X) → sum_over G (λ _. G.zero) xs ≡ G.zero }
    ensures sums { (G : AbelianGroup A) → IsAbelian G → (f g : X → A) (xs : List X) → sum_over G (λ x. G.plus (f x) (g x)) xs ≡ G.plus (sum_over G f xs) (sum_over G g xs) }
    ensures differences { (G : AbelianGroup A) → IsAbelian G → (f g : X → A) (xs : List X) → sum_over G (λ x. minus G (f x) (g x)) xs ≡ minus G (sum_over G f xs) (sum_over G g xs) }
    ensures multiples { (G : AbelianGroup A) → IsAbelian G → (n : ℤ) (f : X → A) (xs : List X) → sum_over G (λ x. times G n (f x)) xs ≡ times G n (sum_over G f xs) }
    ensures same { (G : AbelianGroup A) (f g : X → A) (xs : List X) → All (λ x. f x ≡ g x) xs → sum_over G f xs ≡ sum_over G g xs }
{}
