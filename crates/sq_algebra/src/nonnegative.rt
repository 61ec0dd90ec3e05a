//! Z-sets without weights below 0.

ghost use Rattle.std.specs.Prelude.{◌≡◌, pos, ◌≤ℤ◌, List, length, Bool};
ghost use Rattle.std.specs.List.{list_all};
ghost use Rattle.sq_algebra.specs.Orders.{IsOrder, TwoOrders, ThreeOrders};
ghost use Rattle.sq_algebra.specs.ZSet.{ZSet, of_list, weight, total, plus};
ghost use Rattle.sq_algebra.specs.Operators.{image, keep, distinct, product, IsNonNegative, repeated};
ghost use Rattle.sq_algebra.specs.Passing.{all_pass};

/// A Z-set without weights below 0 is that of a list: of its keys, each as often as its weight says. Its total is the
/// length of this list, and all members of this list pass a test exactly if all its keys do.
/// In short: if `z ≥ 0`, there is a list `xs` with `[xs] = z` and `length(xs) = |z|`, and `p(x)` for each `x` of it exactly
/// if `p(k)` for each key `k` of `z`.
pub fn nonnegative_is_a_list<K: Ord>()
    ensures list { (xs : List K) → IsNonNegative (of_list K.cmp xs) }
    ensures repeated { IsOrder K.cmp → (z : ZSet K K.cmp) → IsNonNegative z → of_list K.cmp (repeated z) ≡ z }
    ensures total { IsOrder K.cmp → (z : ZSet K K.cmp) → IsNonNegative z → total z ≡ pos (length (repeated z)) }
    ensures test { IsOrder K.cmp → (p : K → Bool) (z : ZSet K K.cmp) → IsNonNegative z → list_all p (repeated z) ≡ all_pass p z }
{}

/// The operators give no weight below 0 if they are given none.
/// In short: `y + z ≥ 0`, `distinct(z) ≥ 0`, `σ_p(z) ≥ 0`, `f(z) ≥ 0`, `y × z ≥ 0` if `y ≥ 0` and `z ≥ 0`.
pub fn operators_stay_nonnegative<J: Ord, K: Ord, L: Ord>()
    ensures sum { (y z : ZSet K K.cmp) → IsNonNegative y → IsNonNegative z → IsNonNegative (plus y z) }
    ensures distinct { (z : ZSet K K.cmp) → IsNonNegative (distinct z) }
    ensures test { IsOrder K.cmp → (p : K → Bool) (z : ZSet K K.cmp) → IsNonNegative z → IsNonNegative (keep p z) }
    ensures image { TwoOrders K.cmp L.cmp → (f : K → List L) (z : ZSet K K.cmp) → IsNonNegative z → IsNonNegative (image L.cmp f z) }
    ensures product { ThreeOrders J.cmp K.cmp L.cmp → (f : J → K → List L) (y : ZSet J J.cmp) (z : ZSet K K.cmp) → IsNonNegative y → IsNonNegative z → IsNonNegative (product L.cmp f y z) }
{}

/// Without weights below 0 no weight is above the total, and a test does not raise the total.
/// In short: `z(k) ≤ |z|` and `|σ_p(z)| ≤ |z|` if `z ≥ 0`.
pub fn nonnegative_totals<K: Ord>()
    ensures weight { IsOrder K.cmp → (k : K) (z : ZSet K K.cmp) → IsNonNegative z → weight k z ≤ℤ total z }
    ensures test { IsOrder K.cmp → (p : K → Bool) (z : ZSet K K.cmp) → IsNonNegative z → total (keep p z) ≤ℤ total z }
{}
