//! Operators on one Z-set: the images of its keys, the keys that pass a test, and the keys with a weight above 0.

ghost use Rattle.std.specs.Prelude.{◌≡◌, pos, ◌+ℤ◌, ◌-ℤ◌, List, [], ◌∷◌, map, length, Bool, true, false, not, ◌&&◌, ◌⊎◌, if◌then◌else◌};
ghost use Rattle.std.specs.List.{filter, flat_map};
ghost use Rattle.sq_algebra.specs.Listed.{count};
ghost use Rattle.sq_algebra.specs.Orders.{IsOrder, TwoOrders, ThreeOrders};
ghost use Rattle.sq_algebra.specs.ZSet.{ZSet, entries, zero, single, from_pairs, of_list, weight, total, plus, minus};
ghost use Rattle.sq_algebra.specs.Groups.{AbelianGroup, IsAbelian, IsAdditive, integers, z_sets, sum_over};
ghost use Rattle.sq_algebra.specs.Operators.{lin, image, keep, distinct, product, presence};

/// The image of a Z-set is a linear extension, so it is additive; over no keys it is empty.
/// In short: `f(y + z) = f(y) + f(z)`, `f(0) = 0`.
pub fn images_are_linear<K: Ord, L: Ord>()
    ensures extension { TwoOrders K.cmp L.cmp → (f : K → List L) (z : ZSet K K.cmp) → image L.cmp f z ≡ lin (z_sets L.cmp) (λ k. of_list L.cmp (f k)) z }
    ensures additive { TwoOrders K.cmp L.cmp → (f : K → List L) → IsAdditive (z_sets K.cmp) (z_sets L.cmp) (image L.cmp f) }
    ensures none { TwoOrders K.cmp L.cmp → (f : K → List L) → image L.cmp f (zero K.cmp) ≡ zero L.cmp }
    ensures one { TwoOrders K.cmp L.cmp → (f : K → List L) (k : K) → image L.cmp f (single K.cmp k) ≡ of_list L.cmp (f k) }
    ensures same { TwoOrders K.cmp L.cmp → (f g : K → List L) → ((k : K) → f k ≡ g k) → (z : ZSet K K.cmp) → image L.cmp f z ≡ image L.cmp g z }
{}

/// An image after an image, after a test and before a test is an image, and a linear extension goes over the images.
/// In short: `g(f(z)) = (g ∘ f)(z)`, `h(f(z)) = Σ_k z(k) Σ_{l of f(k)} h(l)`.
pub fn images_follow_each_other<K: Ord, L: Ord, M: Ord, A>()
    ensures image { ThreeOrders K.cmp L.cmp M.cmp → (g : L → List M) (f : K → List L) (z : ZSet K K.cmp) → image M.cmp g (image L.cmp f z) ≡ image M.cmp (λ k. flat_map g (f k)) z }
    ensures after_test { TwoOrders K.cmp L.cmp → (f : K → List L) (p : K → Bool) (z : ZSet K K.cmp) → image L.cmp f (keep p z) ≡ image L.cmp (λ k. if p k then f k else []) z }
    ensures before_test { TwoOrders K.cmp L.cmp → (p : L → Bool) (f : K → List L) (z : ZSet K K.cmp) → keep p (image L.cmp f z) ≡ image L.cmp (λ k. filter p (f k)) z }
    ensures linear { TwoOrders K.cmp L.cmp → (f : K → List L) (G : AbelianGroup A) → IsAbelian G → (h : L → A) (z : ZSet K K.cmp) → lin G h (image L.cmp f z) ≡ lin G (λ k. sum_over G h (f k)) z }
{}

/// A key has in an image the weight of each key that it is an image of, as often as it is one; so if each key has one image,
/// and no two have the same, each image has the weight of its key.
/// In short: `f(z)(l) = Σ_k z(k) #_l(f(k))`, and `g(z)(g(k)) = z(k)` if `g(j) = g(k)` gives `j = k`.
pub fn weights_of_images<K: Ord, L: Ord>()
    ensures all { TwoOrders K.cmp L.cmp → (f : K → List L) (l : L) (z : ZSet K K.cmp) → weight l (image L.cmp f z) ≡ lin integers (λ k. pos (count L.cmp l (f k))) z }
    ensures injective { TwoOrders K.cmp L.cmp → (g : K → L) → ((j k : K) → g j ≡ g k → j ≡ k) → (k : K) (z : ZSet K K.cmp) → weight (g k) (image L.cmp (λ j. g j ∷ []) z) ≡ weight k z }
{}

/// The keys that pass a test: their weights, and that keeping them is linear.
/// In short: `σ_p(z)(k) = [p(k)] z(k)`, `σ_p(y + z) = σ_p(y) + σ_p(z)`, `σ_p(0) = 0`,
/// `h(σ_p(z)) = Σ_k z(k) [p(k)] h(k)`.
pub fn tests_are_linear<K: Ord, A>()
    ensures weights { IsOrder K.cmp → (p : K → Bool) (k : K) (z : ZSet K K.cmp) → weight k (keep p z) ≡ (if p k then weight k z else pos 0) }
    ensures extension { IsOrder K.cmp → (p : K → Bool) (z : ZSet K K.cmp) → keep p z ≡ lin (z_sets K.cmp) (λ k. if p k then single K.cmp k else zero K.cmp) z }
    ensures additive { IsOrder K.cmp → (p : K → Bool) → IsAdditive (z_sets K.cmp) (z_sets K.cmp) (keep p) }
    ensures none { IsOrder K.cmp → (p : K → Bool) → keep p (zero K.cmp) ≡ zero K.cmp }
    ensures linear { IsOrder K.cmp → (G : AbelianGroup A) → IsAbelian G → (h : K → A) (p : K → Bool) (z : ZSet K K.cmp) → lin G h (keep p z) ≡ lin G (λ k. if p k then h k else G.zero) z }
{}

/// One test after another, a test that all keys or no keys pass, and what passes with what does not.
/// In short: `σ_p(σ_q(z)) = σ_{p ∧ q}(z)`, `σ_p(z) + σ_{¬p}(z) = z`.
pub fn tests_follow_each_other<K: Ord>()
    ensures both { IsOrder K.cmp → (p q : K → Bool) (z : ZSet K K.cmp) → keep p (keep q z) ≡ keep (λ k. p k && q k) z }
    ensures all { IsOrder K.cmp → (z : ZSet K K.cmp) → keep (λ _. true) z ≡ z }
    ensures nothing { IsOrder K.cmp → (z : ZSet K K.cmp) → keep (λ _. false) z ≡ zero K.cmp }
    ensures parts { IsOrder K.cmp → (p : K → Bool) (z : ZSet K K.cmp) → plus (keep p z) (keep (λ k. not (p k)) z) ≡ z }
    ensures same { IsOrder K.cmp → (p q : K → Bool) → ((k : K) → p k ≡ q k) → (z : ZSet K K.cmp) → keep p z ≡ keep q z }
{}

/// The weights of the distinct Z-set; it is the same if each weight is 0 or 1, so a second time it changes nothing,
/// and a test may come before or after.
/// In short: `distinct(z)(k) = [z(k) > 0]`, `distinct(distinct(z)) = distinct(z)`,
/// `distinct(σ_p(z)) = σ_p(distinct(z))`.
pub fn distinct_weights<K: Ord>()
    ensures weights { (k : K) (z : ZSet K K.cmp) → weight k (distinct z) ≡ presence (weight k z) }
    ensures none { IsOrder K.cmp → distinct (zero K.cmp) ≡ zero K.cmp }
    ensures same { IsOrder K.cmp → (z : ZSet K K.cmp) → ((k : K) → (weight k z ≡ pos 0) ⊎ (weight k z ≡ pos 1)) → distinct z ≡ z }
    ensures twice { IsOrder K.cmp → (z : ZSet K K.cmp) → distinct (distinct z) ≡ distinct z }
    ensures test { IsOrder K.cmp → (p : K → Bool) (z : ZSet K K.cmp) → distinct (keep p z) ≡ keep p (distinct z) }
{}

/// The change of the distinct Z-set is found at the keys of the change.
/// In short: `distinct(z + d) - distinct(z) = Σ_k ([z(k) + d(k) > 0] - [z(k) > 0]) k` over the keys of `d`.
pub fn distinct_changes<K: Ord>()
    ensures { IsOrder K.cmp → (z d : ZSet K K.cmp) → minus (distinct (plus z d)) (distinct z)
        ≡ from_pairs K.cmp (map (λ e. (e.0, presence (weight e.0 z +ℤ e.1) -ℤ presence (weight e.0 z))) (entries d)) }
{}

/// The total of an image, of a product and of the keys that pass a test.
/// In short: `|f(z)| = Σ_k z(k) |f(k)|`, `|σ_p(z)| = Σ_k z(k) [p(k)]`, `|y × z| = Σ_j Σ_k y(j) z(k) |f(j, k)|`.
pub fn totals_of_operators<J: Ord, K: Ord, L: Ord>()
    ensures image { TwoOrders K.cmp L.cmp → (f : K → List L) (z : ZSet K K.cmp) → total (image L.cmp f z) ≡ lin integers (λ k. pos (length (f k))) z }
    ensures test { IsOrder K.cmp → (p : K → Bool) (z : ZSet K K.cmp) → total (keep p z) ≡ lin integers (λ k. if p k then pos 1 else pos 0) z }
    ensures product { ThreeOrders J.cmp K.cmp L.cmp
        → (f : J → K → List L) (y : ZSet J J.cmp) (z : ZSet K K.cmp) → total (product L.cmp f y z)
        ≡ lin integers (λ j. lin integers (λ k. pos (length (f j k))) z) y }
{}
