//! What is done to lists, as it is done to their Z-sets.

ghost use Rattle.std.specs.Prelude.{◌≡◌, ◌+◌, List, [], ◌∷◌, ◌++◌, map, Bool, ◌==◌, if◌then◌else◌};
ghost use Rattle.std.specs.List.{filter, flat_map, fold};
ghost use Rattle.sq_algebra.specs.Orders.{IsOrder, TwoOrders, ThreeOrders};
ghost use Rattle.sq_algebra.specs.Listed.{count, in_order, first_of_each, among, without, ForgetsOrder, ForgetsRepeats};
ghost use Rattle.sq_algebra.specs.ZSet.{zero, single, of_list, plus};
ghost use Rattle.sq_algebra.specs.Groups.{AbelianGroup, IsAbelian, z_sets};
ghost use Rattle.sq_algebra.specs.Operators.{image, keep, distinct, product, meet, excluding};
ghost use Rattle.sq_algebra.specs.Keyed.{at_key, CoversOnce, by_key, members_at, groups_by};
ghost use Rattle.sq_algebra.specs.LeftJoins.{LeftJoin, left_join, padded_product, has_no_match, matching};
ghost use Rattle.sq_algebra.specs.KeyedLaws.{GroupMap, GroupValue, sum_over_groups};

/// The Z-set of no members, of one member, and of a filtered, a mapped and a flat-mapped list.
/// In short: with `[xs]` for the Z-set of a list, `σ_p([xs]) = [σ_p(xs)]` and `f([xs]) = [f(x_1) ++ f(x_2) ++ ..]`.
pub fn lists_are_mapped<K: Ord, L: Ord>()
    ensures none { IsOrder K.cmp → of_list K.cmp [] ≡ zero K.cmp }
    ensures one { (k : K) → of_list K.cmp (k ∷ []) ≡ single K.cmp k }
    ensures filtered { IsOrder K.cmp → (p : K → Bool) (xs : List K) → keep p (of_list K.cmp xs) ≡ of_list K.cmp (filter p xs) }
    ensures mapped { TwoOrders K.cmp L.cmp → (g : K → L) (xs : List K) → image L.cmp (λ k. g k ∷ []) (of_list K.cmp xs) ≡ of_list L.cmp (map g xs) }
    ensures flat_mapped { TwoOrders K.cmp L.cmp → (f : K → List L) (xs : List K) → image L.cmp f (of_list K.cmp xs) ≡ of_list L.cmp (flat_map f xs) }
{}

/// Nested loops over two lists are the product of their Z-sets.
/// In short: `[xs] × [ys] = [f(x, y) for each x of xs and y of ys]`.
pub fn nested_loops_are_products<J: Ord, K: Ord, L: Ord>()
    ensures { ThreeOrders J.cmp K.cmp L.cmp → (f : J → K → List L) (xs : List J) (ys : List K)
        → product L.cmp f (of_list J.cmp xs) (of_list K.cmp ys) ≡ of_list L.cmp (flat_map (λ x. flat_map (f x) ys) xs) }
{}

/// A list without repeats, in the order of first appearance, is the distinct Z-set; the members that another list has
/// too are what both have, with the other taken as distinct; and the members that it has not are the rest.
/// In short: `[first of each] = distinct [xs]`, `[among] = [xs] ∩ distinct [ys]`,
/// `[without] = [xs] - [xs] ∩ distinct [ys]`.
pub fn lists_without_repeats<K: Ord>()
    ensures first { IsOrder K.cmp → (xs : List K) → distinct (of_list K.cmp xs) ≡ of_list K.cmp (first_of_each K.cmp xs) }
    ensures among { IsOrder K.cmp → (xs ys : List K) → of_list K.cmp (among K.cmp xs ys) ≡ meet (of_list K.cmp xs) (distinct (of_list K.cmp ys)) }
    ensures without { IsOrder K.cmp → (xs ys : List K) → of_list K.cmp (without K.cmp xs ys) ≡ excluding (of_list K.cmp xs) (of_list K.cmp ys) }
{}

/// How often a key stands in a list without repeats, among the members that another list has, and among those that it
/// has not.
/// In short: `#_k(first of each) = [#_k(xs) > 0]`, `#_k(among) = [#_k(ys) > 0] #_k(xs)`,
/// `#_k(xs ++ ys) = #_k(xs) + #_k(ys)`.
pub fn repeats_are_counted<K: Ord>()
    ensures first { (k : K) (xs : List K) → count K.cmp k (first_of_each K.cmp xs) ≡ (if count K.cmp k xs == 0 then 0 else 1) }
    ensures among { (k : K) (xs ys : List K) → count K.cmp k (among K.cmp xs ys) ≡ (if count K.cmp k ys == 0 then 0 else count K.cmp k xs) }
    ensures without { (k : K) (xs ys : List K) → count K.cmp k (without K.cmp xs ys) ≡ (if count K.cmp k ys == 0 then count K.cmp k xs else 0) }
    ensures joined { (k : K) (xs ys : List K) → count K.cmp k (xs ++ ys) ≡ count K.cmp k xs + count K.cmp k ys }
{}

/// UNION, INTERSECT and EXCEPT on lists: as operators on their Z-sets, and how often a key stands in them.
/// In short: `xs ∪ ys = distinct(xs + ys)`, `xs ∩ ys = distinct(xs) ∩ distinct(ys)`,
/// `xs \ ys = distinct(xs) - distinct(xs) ∩ distinct(ys)`.
pub fn set_operations<K: Ord>()
    ensures union { IsOrder K.cmp → (xs ys : List K) → of_list K.cmp (first_of_each K.cmp (xs ++ ys)) ≡ distinct (plus (of_list K.cmp xs) (of_list K.cmp ys)) }
    ensures intersection { IsOrder K.cmp → (xs ys : List K) → of_list K.cmp (among K.cmp (first_of_each K.cmp xs) ys) ≡ meet (distinct (of_list K.cmp xs)) (distinct (of_list K.cmp ys)) }
    ensures difference { IsOrder K.cmp → (xs ys : List K) → of_list K.cmp (without K.cmp (first_of_each K.cmp xs) ys) ≡ excluding (distinct (of_list K.cmp xs)) (of_list K.cmp ys) }
    ensures count_union { (k : K) (xs ys : List K) → count K.cmp k (first_of_each K.cmp (xs ++ ys)) ≡ (if count K.cmp k xs + count K.cmp k ys == 0 then 0 else 1) }
    ensures count_intersection { (k : K) (xs ys : List K) → count K.cmp k (among K.cmp (first_of_each K.cmp xs) ys) ≡ (if count K.cmp k ys == 0 then 0 else if count K.cmp k xs == 0 then 0 else 1) }
    ensures count_difference { (k : K) (xs ys : List K) → count K.cmp k (without K.cmp (first_of_each K.cmp xs) ys) ≡ (if count K.cmp k ys == 0 then (if count K.cmp k xs == 0 then 0 else 1) else 0) }
{}

/// Nested loops that give a padded row for each left member without a match are the product and the padded rest; and
/// the left members without a match are found by those of the pairs.
/// In short: `[left join] = [xs] ⋈ [ys] + pad(rest)`, with
/// `rest = σ_{no match}([xs]) = [xs] - [xs] ∩ distinct(matching)`.
pub fn padded_loops_are_products<J: Ord, K: Ord, L: Ord>()
    ensures padded { ThreeOrders J.cmp K.cmp L.cmp → (by : LeftJoin J K L) (xs : List J) (ys : List K)
        → of_list L.cmp (left_join by xs ys) ≡ padded_product L.cmp by (of_list J.cmp xs) (of_list K.cmp ys) ys }
    ensures unmatched { TwoOrders J.cmp K.cmp → (test : J → K → Bool) (xs : List J) (ys : List K)
        → keep (has_no_match test ys) (of_list J.cmp xs) ≡ excluding (of_list J.cmp xs) (matching test (of_list J.cmp xs) (of_list K.cmp ys)) }
{}

/// What the groups of a list give is the sum over the keys of its Z-set, if an empty group gives nothing.
/// In short: `[out(c_1) ++ out(c_2) ++ ..] = Σ_c P c (z|c)` and `Σ_c value(c) = Σ_c P c (z|c)`, with `z = [xs]`.
pub fn groups_are_sums_over_keys<C: Ord, K: Ord, L: Ord, A>()
    ensures lists { ThreeOrders C.cmp K.cmp L.cmp → (key : K → C) (f : GroupMap C K.cmp L.cmp) (xs : List K)
        → of_list L.cmp (groups_by C.cmp key f.out xs) ≡ by_key C.cmp key (z_sets L.cmp) f.part (of_list K.cmp xs) }
    ensures sums { TwoOrders C.cmp K.cmp → (key : K → C) (G : AbelianGroup A) → IsAbelian G → (f : GroupValue C K.cmp G) (xs : List K)
        → sum_over_groups G C.cmp key f.value xs ≡ by_key C.cmp key G f.part (of_list K.cmp xs) }
    ensures part { TwoOrders C.cmp K.cmp → (key : K → C) (c : C) (xs : List K) → at_key C.cmp key c (of_list K.cmp xs) ≡ of_list K.cmp (members_at C.cmp key c xs) }
    ensures cover { TwoOrders C.cmp K.cmp → (key : K → C) (xs : List K) → CoversOnce C.cmp key (first_of_each C.cmp (map key xs)) (of_list K.cmp xs) }
{}

/// A fold whose steps may change places and be repeated, as one for the least or the greatest member, depends on which
/// keys a list has alone.
/// In short: `fold(xs) = fold(x_1, x_2, ..)` with the keys of `xs` in order, `x_1 < x_2 < ..`.
pub fn folds_of_members<K: Ord, B>()
    ensures { IsOrder K.cmp → (step : B → K → B) → ForgetsOrder step → ForgetsRepeats step → (b : B) (xs : List K) → fold step b (in_order K.cmp xs) ≡ fold step b xs }
{}
