//! The linear extension of a function on keys to Z-sets.

ghost use Rattle.std.specs.Prelude.{◌≡◌, ℤ, pos, List, if◌then◌else◌};
ghost use Rattle.std.specs.List.{All};
ghost use Rattle.std.specs.Ordering.{is_eq};
ghost use Rattle.sq_algebra.specs.Orders.{IsOrder, TwoOrders};
ghost use Rattle.sq_algebra.specs.ZSet.{ZSet, entries, zero, single, of_list, weight, total, plus, negate, minus};
ghost use Rattle.sq_algebra.specs.Groups.{AbelianGroup, IsAbelian, IsAdditive, integers, z_sets, minus as minus_in, times, sum_over, IsHomomorphism};
ghost use Rattle.sq_algebra.specs.Operators.{lin};

/// The linear extension over no keys, one key, a sum, a negation, a difference, and the Z-set of a list.
/// In short: `h(0) = 0`, `h(1 k) = h(k)`, `h(y + z) = h(y) + h(z)`, `h(-z) = -h(z)`, `h(y - z) = h(y) - h(z)`,
/// `h([xs]) = Σ_x h(x)`.
pub fn linear_extensions_add<K: Ord, A>()
    ensures none { IsOrder K.cmp → (G : AbelianGroup A) → IsAbelian G → (h : K → A) → lin G h (zero K.cmp) ≡ G.zero }
    ensures one { IsOrder K.cmp → (G : AbelianGroup A) → IsAbelian G → (h : K → A) (k : K) → lin G h (single K.cmp k) ≡ h k }
    ensures sum { IsOrder K.cmp → (G : AbelianGroup A) → IsAbelian G → (h : K → A) (y z : ZSet K K.cmp) → lin G h (plus y z) ≡ G.plus (lin G h y) (lin G h z) }
    ensures negation { IsOrder K.cmp → (G : AbelianGroup A) → IsAbelian G → (h : K → A) (z : ZSet K K.cmp) → lin G h (negate z) ≡ G.negate (lin G h z) }
    ensures difference { IsOrder K.cmp → (G : AbelianGroup A) → IsAbelian G → (h : K → A) (y z : ZSet K K.cmp) → lin G h (minus y z) ≡ minus_in G (lin G h y) (lin G h z) }
    ensures additive { IsOrder K.cmp → (G : AbelianGroup A) → IsAbelian G → (h : K → A) → IsAdditive (z_sets K.cmp) G (lin G h) }
    ensures list { IsOrder K.cmp → (G : AbelianGroup A) → IsAbelian G → (h : K → A) (xs : List K) → lin G h (of_list K.cmp xs) ≡ sum_over G h xs }
{}

/// The linear extension of the constant zero, and of sums, negations and multiples of functions.
/// In short: `(g + h)(z) = g(z) + h(z)`, `(-h)(z) = -h(z)`, `(n h)(z) = n h(z)`.
pub fn linear_in_the_function<K: Ord, A, X>()
    ensures zero { IsOrder K.cmp → (G : AbelianGroup A) → IsAbelian G → (z : ZSet K K.cmp) → lin G (λ _. G.zero) z ≡ G.zero }
    ensures sum { IsOrder K.cmp → (G : AbelianGroup A) → IsAbelian G → (g h : K → A) (z : ZSet K K.cmp) → lin G (λ k. G.plus (g k) (h k)) z ≡ G.plus (lin G g z) (lin G h z) }
    ensures negation { IsOrder K.cmp → (G : AbelianGroup A) → IsAbelian G → (h : K → A) (z : ZSet K K.cmp) → lin G (λ k. G.negate (h k)) z ≡ G.negate (lin G h z) }
    ensures multiple { IsOrder K.cmp → (G : AbelianGroup A) → IsAbelian G → (n : ℤ) (h : K → A) (z : ZSet K K.cmp) → lin G (λ k. times G n (h k)) z ≡ times G n (lin G h z) }
    ensures list { IsOrder K.cmp → (G : AbelianGroup A) → IsAbelian G → (h : X → K → A) (xs : List X) (z : ZSet K K.cmp) → lin G (λ k. sum_over G (λ x. h x k) xs) z ≡ sum_over G (λ x. lin G (h x) z) xs }
{}

/// Functions that agree at the keys of a Z-set have the same linear extension over it, and one function has the same
/// over two Z-sets if the multiples by their weights are the same.
/// In short: `g(z) = h(z)` if `g(k) = h(k)` for each `k` of `z`, and `h(y) = h(z)` if `y(k) h(k) = z(k) h(k)` for each
/// `k`.
pub fn linear_extensions_agree<K: Ord, A>()
    ensures functions { IsOrder K.cmp → (G : AbelianGroup A) → IsAbelian G → (g h : K → A) (z : ZSet K K.cmp) → All (λ e. g e.0 ≡ h e.0) (entries z) → lin G g z ≡ lin G h z }
    ensures weights { IsOrder K.cmp → (G : AbelianGroup A) → IsAbelian G → (h : K → A) (y z : ZSet K K.cmp) → ((k : K) → times G (weight k y) (h k) ≡ times G (weight k z) (h k)) → lin G h y ≡ lin G h z }
    ensures one_key { IsOrder K.cmp → (G : AbelianGroup A) → IsAbelian G → (j : K) (a : A) (z : ZSet K K.cmp) → lin G (λ k. if is_eq (K.cmp j k) then a else G.zero) z ≡ times G (weight j z) a }
{}

/// A Z-set is the linear extension of its single keys, and its weights and its total are linear extensions.
/// In short: `z = Σ_k z(k) k`, `z(k) = Σ_j z(j) [k = j]`, `|z| = Σ_k z(k)`.
pub fn z_sets_are_linear<K: Ord>()
    ensures singles { IsOrder K.cmp → (z : ZSet K K.cmp) → lin (z_sets K.cmp) (single K.cmp) z ≡ z }
    ensures weight { (k : K) (z : ZSet K K.cmp) → weight k z ≡ lin integers (λ j. if is_eq (K.cmp k j) then pos 1 else pos 0) z }
    ensures total { (z : ZSet K K.cmp) → total z ≡ lin integers (λ _. pos 1) z }
    ensures weights_add { (k : K) → IsAdditive (z_sets K.cmp) integers (weight k) }
    ensures totals_add { IsAdditive (z_sets K.cmp) integers total }
{}

/// An additive map goes inside a linear extension, and is itself the linear extension of what it gives for single keys.
/// In short: `f(Σ_k z(k) h(k)) = Σ_k z(k) f(h(k))` and `f(z) = Σ_k z(k) f(1 k)`.
pub fn additive_maps_are_linear<K: Ord, A, B>()
    ensures inside { IsOrder K.cmp → (G : AbelianGroup A) (H : AbelianGroup B) (f : A → B) → IsHomomorphism G H f → (h : K → A) (z : ZSet K K.cmp)
        → f (lin G h z) ≡ lin H (λ k. f (h k)) z }
    ensures single_keys { IsOrder K.cmp → (G : AbelianGroup A) → IsAbelian G → (f : ZSet K K.cmp → A) → IsAdditive (z_sets K.cmp) G f → (z : ZSet K K.cmp) → f z ≡ lin G (λ k. f (single K.cmp k)) z }
{}

/// The sides of a double sum change places, and a linear extension over a linear extension is one over the first Z-set.
/// In short: `Σ_j Σ_k y(j) z(k) f(j, k) = Σ_k Σ_j y(j) z(k) f(j, k)` and `h(Σ_j y(j) g(j)) = Σ_j y(j) h(g(j))`.
pub fn linear_extensions_nest<J: Ord, K: Ord, A>()
    ensures swapped { TwoOrders J.cmp K.cmp → (G : AbelianGroup A) → IsAbelian G
        → (f : J → K → A) (y : ZSet J J.cmp) (z : ZSet K K.cmp) → lin G (λ j. lin G (f j) z) y ≡ lin G (λ k. lin G (λ j. f j k) y) z }
    ensures nested { TwoOrders J.cmp K.cmp → (G : AbelianGroup A) → IsAbelian G → (h : K → A) (g : J → ZSet K K.cmp) (y : ZSet J J.cmp) → lin G h (lin (z_sets K.cmp) g y) ≡ lin G (λ j. lin G h (g j)) y }
{}
