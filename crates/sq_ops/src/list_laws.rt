//! What joins, distinct and aggregates do to the Z-sets of lists, each as the contract of a function that does nothing.
ghost use Rattle.std.specs.Prelude.{◌≡◌, ◌≤◌, ◌*◌, false, true, ℕ, List, [], ◌∷◌};
ghost use Rattle.sq_algebra.specs.Listed.{first_of_each};
ghost use Rattle.sq_algebra.specs.ZSet.{ZSet, entries, of_list};
ghost use Rattle.sq_expr.specs.declared.expr.Func.{Func as Function};
ghost use Rattle.sq_ops.specs.Aggregates.{call_value};
ghost use Rattle.sq_ops.specs.Joins.{IsAdditiveInEach, cross_masses, joined, rise_of_join};
ghost use Rattle.sq_ops.specs.Lists.{NamesEachOnce, joined_in_loops, joined_lists, joined_pairs, list_value, row_of_list, rows_by_keys, rows_of_groups};
ghost use Rattle.sq_ops.specs.Rows.{Row};
ghost use Rattle.sq_ops.specs.Wholes.{IsNothingForNone, sum_of_parts};
ghost use Rattle.sq_ops.specs.declared.aggregate.AggSpec.{AggSpec as Aggregating};
ghost use Rattle.sq_ops.specs.declared.bilinear.Pairing.{Pairing as Joining};
ghost use Rattle.sq_ops.specs.declared.whole.Distinct.{Distinct as Distinguishing};
ghost use Rattle.sq_value.specs.Order.{row_cmp};
ghost use Rattle.sq_zset.specs.Collecting.{mass_of};
ghost use Rattle.sq_algebra.specs.Groups.{z_sets};

use crate::{AggSpec, Bilinear, Call, Distinct, Index, Pairing, Whole, WholeFault};

/// A join of the Z-sets of two lists is the Z-set of what nested loops over the lists give, and it is additive in each
/// place.
pub fn joins_are_nested_loops<B: Bilinear>()
    ensures lists { (op : B) (rows others : List Row)
        → joined_lists (B.left_keys op) (B.right_keys op) (B.pairs op) rows others
        ≡ of_list row_cmp (joined_in_loops (B.left_keys op) (B.right_keys op) (B.pairs op) rows others) }
    ensures additive { (op : B) → IsAdditiveInEach (z_sets row_cmp) (z_sets row_cmp) (z_sets row_cmp) (joined (B.left_keys op) (B.right_keys op) (B.pairs op)) }
{}

/// A join gives at most one row for each pair of rows, so its mass is at most the product of the masses of its sides; and
/// that of its change is at most what old and change, change and old, and both changes give:
/// `|y × z| ≤ |y| |z|`, `|(y + Δy) × (z + Δz) - y × z| ≤ |y| |Δz| + |Δy| |z| + |Δy| |Δz|`.
pub fn joins_are_bounded<B: Bilinear>()
    ensures whole { (op : B) (y z : ZSet Row row_cmp) → mass_of (entries (joined (B.left_keys op) (B.right_keys op) (B.pairs op) y z)) ≤ mass_of (entries y) * mass_of (entries z) }
    ensures change { (op : B) (y dy z dz : ZSet Row row_cmp) → mass_of (entries (rise_of_join (B.left_keys op) (B.right_keys op) (B.pairs op) y dy z dz)) ≤ cross_masses y dy z dz }
{}

/// The groups may be gone through in any order: by any list of keys in which that of each row stands once. A key there
/// that no row has gives no row.
pub fn groups_come_in_any_order()
    ensures { (spec : Aggregating) (keys rows : List Row) → spec.global ≡ false
        → NamesEachOnce spec keys rows → ⟦<AggSpec as Whole>⟧.answers spec (of_list row_cmp rows) ≡ of_list row_cmp (rows_by_keys spec keys rows) }
{}

/// An operator that works key by key is the sum of its parts, and a part over no rows is empty, but for a standing one.
pub fn parts_add_up<W: Whole>()
    ensures parts { (op : W) (z : ZSet Row row_cmp) → W.answers op z ≡ sum_of_parts (W.parts op) (W.stands op) (W.keys op) z }
    ensures none { (op : W) → IsNothingForNone (W.parts op) (W.stands op) }
{}

/// Distinct of the Z-set of a list is the Z-set of the list without repeats.
pub fn distinct_has_no_repeats()
    ensures { (op : Distinguishing) (rows : List Row) → ⟦<Distinct as Whole>⟧.answers op (of_list row_cmp rows) ≡ of_list row_cmp (first_of_each row_cmp rows) }
{}

/// A `Pairing` of the Z-sets of two lists is the Z-set of a list: of all pairs of rows those that have the same keys and
/// on whose joined row the condition is True, and of each the columns that are given.
pub fn pairings_are_filters_of_pairs()
    ensures { (op : Joining) (rows others : List Row)
        → joined_lists (⟦<Pairing as Bilinear>⟧.left_keys op) (⟦<Pairing as Bilinear>⟧.right_keys op) (⟦<Pairing as Bilinear>⟧.pairs op) rows others
        ≡ joined_pairs op rows others }
{}

/// An aggregate of the Z-set of a list is the Z-set of the rows of its groups, in the order of their first appearance; a
/// global one has one row. The value of a call over the Z-set of a list of rows is that over the list, in which each row
/// stands as often as it counts.
pub fn aggregates_of_lists()
    ensures groups { (spec : Aggregating) (rows : List Row) → spec.global ≡ false → ⟦<AggSpec as Whole>⟧.answers spec (of_list row_cmp rows)
        ≡ of_list row_cmp (rows_of_groups spec rows) }
    ensures global { (spec : Aggregating) (rows : List Row) → spec.global ≡ true → ⟦<AggSpec as Whole>⟧.answers spec (of_list row_cmp rows) ≡ of_list row_cmp (row_of_list spec.calls [] rows ∷ []) }
    ensures values { (f : Function) (column : ℕ) (rows : List Row) → call_value f column (of_list row_cmp rows) ≡ list_value f column rows }
{}

fn is_send_and_sync<T: Send + Sync>() {}

// Each type of data may be handed to another thread, and be shared.
fn data_crosses_threads() {
    is_send_and_sync::<Pairing>();
    is_send_and_sync::<Distinct>();
    is_send_and_sync::<AggSpec>();
    is_send_and_sync::<Call>();
    is_send_and_sync::<WholeFault>();
    is_send_and_sync::<Index>();
}
