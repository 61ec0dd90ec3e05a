//! The product of two Z-sets.

ghost use Rattle.std.specs.Prelude.{◌≡◌, ◌*ℤ◌, List, [], Bool, if◌then◌else◌};
ghost use Rattle.std.specs.List.{filter, flat_map};
ghost use Rattle.sq_algebra.specs.Orders.{IsOrder, ThreeOrders, FourOrders};
ghost use Rattle.sq_algebra.specs.ZSet.{ZSet, zero, of_list, weight, plus, minus};
ghost use Rattle.sq_algebra.specs.Groups.{AbelianGroup, IsAbelian, IsAdditive, z_sets};
ghost use Rattle.sq_algebra.specs.Operators.{lin, image, keep, product, meet, cross_terms, double_sum, pair_sum};

/// A product is a linear extension in each place, so it is additive in each; with no keys on one side it is empty; and
/// the sides may change places.
/// In short: `y × z = Σ_j Σ_k y(j) z(k) f(j, k)`, `(x + y) × z = x × z + y × z`, `y × (x + z) = y × x + y × z`,
/// `0 × z = 0`.
pub fn products_are_bilinear<J: Ord, K: Ord, L: Ord>()
    ensures extension { ThreeOrders J.cmp K.cmp L.cmp
        → (f : J → K → List L) (y : ZSet J J.cmp) (z : ZSet K K.cmp) → product L.cmp f y z
        ≡ lin (z_sets L.cmp) (λ j. lin (z_sets L.cmp) (λ k. of_list L.cmp (f j k)) z) y }
    ensures left { ThreeOrders J.cmp K.cmp L.cmp → (f : J → K → List L) (z : ZSet K K.cmp) → IsAdditive (z_sets J.cmp) (z_sets L.cmp) (λ y. product L.cmp f y z) }
    ensures right { ThreeOrders J.cmp K.cmp L.cmp → (f : J → K → List L) (y : ZSet J J.cmp) → IsAdditive (z_sets K.cmp) (z_sets L.cmp) (product L.cmp f y) }
    ensures none_left { ThreeOrders J.cmp K.cmp L.cmp → (f : J → K → List L) (z : ZSet K K.cmp) → product L.cmp f (zero J.cmp) z ≡ zero L.cmp }
    ensures none_right { ThreeOrders J.cmp K.cmp L.cmp → (f : J → K → List L) (y : ZSet J J.cmp) → product L.cmp f y (zero K.cmp) ≡ zero L.cmp }
    ensures flipped { ThreeOrders J.cmp K.cmp L.cmp → (f : J → K → List L) (y : ZSet J J.cmp) (z : ZSet K K.cmp) → product L.cmp f y z ≡ product L.cmp (λ k j. f j k) z y }
    ensures same { ThreeOrders J.cmp K.cmp L.cmp → (f g : J → K → List L) → ((j : J) (k : K) → f j k ≡ g j k)
        → (y : ZSet J J.cmp) (z : ZSet K K.cmp) → product L.cmp f y z ≡ product L.cmp g y z }
{}

/// The change of a product is old times change, change times old, and change times change.
/// In short: `(y + Δy) × (z + Δz) - y × z = y × Δz + Δy × z + Δy × Δz`.
pub fn products_change<J: Ord, K: Ord, L: Ord>()
    ensures { ThreeOrders J.cmp K.cmp L.cmp → (f : J → K → List L) (y dy : ZSet J J.cmp) (z dz : ZSet K K.cmp)
        → minus (product L.cmp f (plus y dy) (plus z dz)) (product L.cmp f y z) ≡ cross_terms (product L.cmp f) y dy z dz }
{}

/// A test before a product, on either side, and a test or an image after it are in the product.
/// In short: `σ_p(y) × z = Σ_j Σ_k y(j) z(k) [p(j)] f(j, k)`, `σ_p(y × z) = Σ_j Σ_k y(j) z(k) σ_p(f(j, k))`, and alike.
pub fn products_take_tests_in<J: Ord, K: Ord, L: Ord, M: Ord>()
    ensures left { ThreeOrders J.cmp K.cmp L.cmp
        → (f : J → K → List L) (p : J → Bool) (y : ZSet J J.cmp) (z : ZSet K K.cmp) → product L.cmp f (keep p y) z
        ≡ product L.cmp (λ j k. if p j then f j k else []) y z }
    ensures right { ThreeOrders J.cmp K.cmp L.cmp
        → (f : J → K → List L) (p : K → Bool) (y : ZSet J J.cmp) (z : ZSet K K.cmp) → product L.cmp f y (keep p z)
        ≡ product L.cmp (λ j k. if p k then f j k else []) y z }
    ensures after { ThreeOrders J.cmp K.cmp L.cmp
        → (p : L → Bool) (f : J → K → List L) (y : ZSet J J.cmp) (z : ZSet K K.cmp) → keep p (product L.cmp f y z)
        ≡ product L.cmp (λ j k. filter p (f j k)) y z }
    ensures image { FourOrders J.cmp K.cmp L.cmp M.cmp
        → (g : L → List M) (f : J → K → List L) (y : ZSet J J.cmp) (z : ZSet K K.cmp) → image M.cmp g (product L.cmp f y z)
        ≡ product M.cmp (λ j k. flat_map g (f j k)) y z }
{}

/// A product with the image of a Z-set on one side is a product with the Z-set itself.
/// In short: `g(x) × z = Σ_i Σ_k x(i) z(k) f(g(i), k)`, and the same on the right.
pub fn products_take_images_in<I: Ord, J: Ord, K: Ord, L: Ord>()
    ensures left { FourOrders I.cmp J.cmp K.cmp L.cmp
        → (f : J → K → List L) (g : I → List J) (x : ZSet I I.cmp) (z : ZSet K K.cmp) → product L.cmp f (image J.cmp g x) z
        ≡ product L.cmp (λ i k. flat_map (λ j. f j k) (g i)) x z }
    ensures right { FourOrders I.cmp J.cmp K.cmp L.cmp
        → (f : J → K → List L) (g : I → List K) (y : ZSet J J.cmp) (x : ZSet I I.cmp) → product L.cmp f y (image K.cmp g x)
        ≡ product L.cmp (λ j i. flat_map (f j) (g i)) y x }
{}

/// A linear extension over a product is one over its sides; and a key that two Z-sets have both has the product of its
/// weights in what they have both.
/// In short: `h(y × z) = Σ_j Σ_k y(j) z(k) h(f(j, k))` and `(y ∩ z)(k) = y(k) z(k)`.
pub fn products_are_weighed<J: Ord, K: Ord, L: Ord, A>()
    ensures linear { ThreeOrders J.cmp K.cmp L.cmp → (G : AbelianGroup A) → IsAbelian G → (h : L → A) (f : J → K → List L) (y : ZSet J J.cmp) (z : ZSet K K.cmp)
        → lin G h (product L.cmp f y z) ≡ double_sum G (pair_sum G h f) y z }
    ensures meet { IsOrder K.cmp → (k : K) (y z : ZSet K K.cmp) → weight k (meet y z) ≡ weight k y *ℤ weight k z }
{}
