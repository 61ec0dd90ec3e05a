//! Laws of Z-sets of rows, each as the contract of a function that does nothing.
ghost use Rattle.std.specs.Prelude.{◌≡◌, ◌↔◌, ◌≤◌, unsigned_abs, ◌+◌, ◌*◌, ◌^◌, ℤ, List, ◌++◌, length, Bool, pos, neg_ℤ, ◌+ℤ◌, ◌-ℤ◌, map, if◌then◌else◌};
ghost use Rattle.std.specs.List.{filter, flat_map, list_all};
ghost use Rattle.std.specs.Ordering.{is_eq};
ghost use Rattle.sq_value.specs.declared.value.Value.{Value as Datum};
ghost use Rattle.sq_value.specs.Order.{row_cmp};
ghost use Rattle.sq_algebra.specs.Groups.{IsAbelian, IsAdditive, z_sets};
ghost use Rattle.sq_algebra.specs.Keyed.{at_key};
ghost use Rattle.sq_algebra.specs.Listed.{count, changed, first_of_each, among, without};
ghost use Rattle.sq_algebra.specs.Operators.{IsNonNegative, image, keep, distinct, product, meet, repeated};
ghost use Rattle.sq_algebra.specs.Passing.{all_pass};
ghost use Rattle.sq_algebra.specs.ZSet.{ZSet as Weighted, entries, from_pairs, zero, single, of_list, weight, total, plus, negate, minus};
ghost use Rattle.sq_zset.specs.Collecting.{mass_of};
ghost use Rattle.sq_zset.specs.Loops.{GivesAtMostOne, nested_loops};
ghost use Rattle.sq_zset.specs.Range.{IsInRange};

use crate::{Group, OutsideRange, Pair, ZFault, ZSet};
use sq_algebra::changes_are_differences;
use sq_value::Row;

/// The entries of the difference of two lists of rows are the rows whose counts differ, ascending, each with the rise of its count.
pub fn changes_of_rows()
    ensures { (before now : List (List Datum)) → entries (minus (of_list row_cmp now) (of_list row_cmp before)) ≡ map (λ row. (row, pos (count row_cmp row now) -ℤ pos (count row_cmp row before))) (changed row_cmp before now) }
{
    changes_are_differences::<Row>();
}

/// The laws of an abelian group hold of the addition of every group.
pub fn groups_are_abelian<G: Group>()
    ensures { IsAbelian G.addition }
{}

/// The weights of its rows decide a Z-set. The weight of a row in the empty Z-set, in that of one row, and in a sum, a
/// negation, a difference and the Z-set of a list.
pub fn rows_have_weights()
    ensures decide { (y z : Weighted (List Datum) row_cmp) → ((row : List Datum) → weight row y ≡ weight row z) → y ≡ z }
    ensures none { (row : List Datum) → weight row (zero row_cmp) ≡ pos 0 }
    ensures one { (row other : List Datum) → weight row (single row_cmp other) ≡ (if is_eq (row_cmp row other) then pos 1 else pos 0) }
    ensures sum { (row : List Datum) (y z : Weighted (List Datum) row_cmp) → weight row (plus y z) ≡ weight row y +ℤ weight row z }
    ensures negation { (row : List Datum) (z : Weighted (List Datum) row_cmp) → weight row (negate z) ≡ neg_ℤ (weight row z) }
    ensures difference { (row : List Datum) (y z : Weighted (List Datum) row_cmp) → weight row (minus y z) ≡ weight row y -ℤ weight row z }
    ensures list { (row : List Datum) (rows : List (List Datum)) → weight row (of_list row_cmp rows) ≡ pos (count row_cmp row rows) }
{}

/// The total of a sum, a negation, a difference and the Z-set of a list of rows.
pub fn rows_have_totals()
    ensures sum { (y z : Weighted (List Datum) row_cmp) → total (plus y z) ≡ total y +ℤ total z }
    ensures negation { (z : Weighted (List Datum) row_cmp) → total (negate z) ≡ neg_ℤ (total z) }
    ensures difference { (y z : Weighted (List Datum) row_cmp) → total (minus y z) ≡ total y -ℤ total z }
    ensures list { (rows : List (List Datum)) → total (of_list row_cmp rows) ≡ pos (length rows) }
{}

/// A Z-set of rows without a weight below 0 is that of a list of rows: of its rows, each as often as its weight says. Its
/// total is the length of this list, and all members of this list pass a test exactly if all its rows do.
pub fn nonnegative_rows_are_lists()
    ensures repeated { (z : Weighted (List Datum) row_cmp) → IsNonNegative z → of_list row_cmp (repeated z) ≡ z }
    ensures total { (z : Weighted (List Datum) row_cmp) → IsNonNegative z → total z ≡ pos (length (repeated z)) }
    ensures test { (p : List Datum → Bool) (z : Weighted (List Datum) row_cmp) → IsNonNegative z → list_all p (repeated z) ≡ all_pass p z }
{}

/// The mass of a Z-set is the sum of its absolute weights. If no weight is negative, it is the total. That of a sum or a
/// difference is at most the sum of both, and that of a negation, of the rows that pass a test, or of images, at most one
/// for each row, at most the whole. That of a product with at most one row for each pair is at most the product of both.
/// Equal rows of a list of pairs may cancel: `|Σ n k| ≤ Σ |n|`, `|y + z| ≤ |y| + |z|`, `|y × z| ≤ |y| |z|`. If the mass is at
/// most 2^62, each weight lies in its range.
pub fn masses_of_rows()
    ensures total { (z : Weighted (List Datum) row_cmp) → IsNonNegative z → pos (mass_of (entries z)) ≡ total z }
    ensures sum { (y z : Weighted (List Datum) row_cmp) → mass_of (entries (plus y z)) ≤ mass_of (entries y) + mass_of (entries z) }
    ensures difference { (y z : Weighted (List Datum) row_cmp) → mass_of (entries (minus y z)) ≤ mass_of (entries y) + mass_of (entries z) }
    ensures negation { (z : Weighted (List Datum) row_cmp) → mass_of (entries (negate z)) ≤ mass_of (entries z) }
    ensures part { (p : List Datum → Bool) (z : Weighted (List Datum) row_cmp) → mass_of (entries (keep p z)) ≤ mass_of (entries z) }
    ensures pairs { (ps : List (List Datum × ℤ)) → mass_of (entries (from_pairs row_cmp ps)) ≤ mass_of ps }
    ensures image { (f : List Datum → List (List Datum)) → ((row : List Datum) → length (f row) ≤ 1) → (z : Weighted (List Datum) row_cmp) → mass_of (entries (image row_cmp f z)) ≤ mass_of (entries z) }
    ensures product { (f : List Datum → List Datum → List (List Datum)) → GivesAtMostOne f
        → (y z : Weighted (List Datum) row_cmp) → mass_of (entries (product row_cmp f y z)) ≤ mass_of (entries y) * mass_of (entries z) }
    ensures in_range { (z : Weighted (List Datum) row_cmp) → mass_of (entries z) ≤ 2 ^ 62 → IsInRange z }
{}

/// All weights of a Z-set lie in their range exactly if that of each row does.
pub fn ranges_by_weights()
    ensures { (z : Weighted (List Datum) row_cmp) → IsInRange z ↔ ((row : List Datum) → unsigned_abs (weight row z) ≤ 2 ^ 62) }
{}

/// Images of rows, the rows that pass a test, the rows with a key, and products, in each of their sides, are additive.
pub fn operators_on_rows_are_additive()
    ensures image { (f : List Datum → List (List Datum)) → IsAdditive (z_sets row_cmp) (z_sets row_cmp) (image row_cmp f) }
    ensures test { (p : List Datum → Bool) → IsAdditive (z_sets row_cmp) (z_sets row_cmp) (keep p) }
    ensures key { (key : List Datum → List Datum) (c : List Datum) → IsAdditive (z_sets row_cmp) (z_sets row_cmp) (at_key row_cmp key c) }
    ensures left { (f : List Datum → List Datum → List (List Datum)) (z : Weighted (List Datum) row_cmp) → IsAdditive (z_sets row_cmp) (z_sets row_cmp) (λ y. product row_cmp f y z) }
    ensures right { (f : List Datum → List Datum → List (List Datum)) (y : Weighted (List Datum) row_cmp) → IsAdditive (z_sets row_cmp) (z_sets row_cmp) (product row_cmp f y) }
{}

/// What operators on Z-sets do to the Z-sets of lists of rows, said by what happens to the lists.
pub fn operators_on_rows_follow_lists()
    ensures joined { (rows more : List (List Datum)) → of_list row_cmp (rows ++ more) ≡ plus (of_list row_cmp rows) (of_list row_cmp more) }
    ensures image { (f : List Datum → List (List Datum)) (rows : List (List Datum)) → image row_cmp f (of_list row_cmp rows) ≡ of_list row_cmp (flat_map f rows) }
    ensures test { (p : List Datum → Bool) (rows : List (List Datum)) → keep p (of_list row_cmp rows) ≡ of_list row_cmp (filter p rows) }
    ensures product { (f : List Datum → List Datum → List (List Datum)) (rows others : List (List Datum))
        → product row_cmp f (of_list row_cmp rows) (of_list row_cmp others) ≡ of_list row_cmp (nested_loops f rows others) }
    ensures distinct { (rows : List (List Datum)) → distinct (of_list row_cmp rows) ≡ of_list row_cmp (first_of_each row_cmp rows) }
    ensures among { (rows others : List (List Datum)) → of_list row_cmp (among row_cmp rows others) ≡ meet (of_list row_cmp rows) (distinct (of_list row_cmp others)) }
    ensures without { (rows others : List (List Datum)) → of_list row_cmp (without row_cmp rows others) ≡ minus (of_list row_cmp rows) (meet (of_list row_cmp rows) (distinct (of_list row_cmp others))) }
{}

fn is_send_and_sync<T: Send + Sync>() {}

// Each type of data may be handed to another thread, and be shared.
fn data_crosses_threads() {
    is_send_and_sync::<Pair>();
    is_send_and_sync::<OutsideRange>();
    is_send_and_sync::<ZFault>();
    is_send_and_sync::<ZSet>();
}
