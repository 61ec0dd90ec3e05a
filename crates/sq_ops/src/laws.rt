//! What holds of operators, each as the contract of a function that does nothing.
ghost use Rattle.std.specs.Prelude.{◌≡◌, ◌↔◌, ℤ, List, map, None, FitsSigned};
ghost use Rattle.std.specs.Int.{w64};
ghost use Rattle.std.specs.List.{All, AllByRecursion, filter, flat_map};
ghost use Rattle.sq_algebra.specs.Groups.{IsAdditive, z_sets};
ghost use Rattle.sq_algebra.specs.Operators.{image, keep};
ghost use Rattle.sq_algebra.specs.ZSet.{ZSet, entries, of_list, zero};
ghost use Rattle.sq_expr.specs.declared.expr.Expr.{Expr as Expression};
ghost use Rattle.sq_expr.specs.declared.expr.Kind.{Kind as ColumnKind};
ghost use Rattle.sq_expr.specs.Items.{IsStorable};
ghost use Rattle.sq_expr.specs.Kinds.{AreOfKinds};
ghost use Rattle.sq_expr.specs.Bigint.{first_not_bigint};
ghost use Rattle.sq_ops.specs.Extensions.{first_value_outside};
ghost use Rattle.sq_ops.specs.Fits.{FitsRows};
ghost use Rattle.sq_ops.specs.Rows.{holds, items_of, numbers_of, padded};
ghost use Rattle.sq_ops.specs.declared.linear.Keep.{Keep as Keeping};
ghost use Rattle.sq_ops.specs.declared.linear.Pad.{Pad as Padding};
ghost use Rattle.sq_ops.specs.declared.linear.Project.{Project as Projecting};
ghost use Rattle.sq_value.specs.declared.value.Value.{Value as Datum};
ghost use Rattle.sq_value.specs.Order.{row_cmp};

use crate::{Keep, Linear, OpFault, Pad, Project};

/// A linear operator takes sums of Z-sets to sums and no rows to no rows, and the images of the rows of a list, counted,
/// are its image of the counted list.
pub fn linear_operators_add<O: Linear>()
    ensures sums { (op : O) → IsAdditive (z_sets row_cmp) (z_sets row_cmp) (image row_cmp (O.images op)) }
    ensures none { (op : O) → image row_cmp (O.images op) (zero row_cmp) ≡ zero row_cmp }
    ensures lists { (op : O) (rows : List (List Datum)) → of_list row_cmp (flat_map (O.images op) rows) ≡ image row_cmp (O.images op) (of_list row_cmp rows) }
{}

/// To filter a list of rows and count is to count and keep; to map each row to its items, or to put NULLs behind each,
/// and count is to count and project, or pad.
pub fn lists_are_kept_projected_padded()
    ensures kept { (op : Keeping) (rows : List (List Datum)) → of_list row_cmp (filter (holds op.cond) rows) ≡ image row_cmp (⟦<Keep as Linear>⟧.images op) (of_list row_cmp rows) }
    ensures projected { (op : Projecting) (rows : List (List Datum)) → of_list row_cmp (map (items_of op.items) rows) ≡ image row_cmp (⟦<Project as Linear>⟧.images op) (of_list row_cmp rows) }
    ensures padded { (op : Padding) (rows : List (List Datum)) → of_list row_cmp (map (padded op.nulls) rows) ≡ image row_cmp (⟦<Pad as Linear>⟧.images op) (of_list row_cmp rows) }
{}

/// `Keep` keeps the rows of a Z-set on which its condition is True, with their weights.
pub fn keeping_is_a_test()
    ensures { (op : Keeping) (z : ZSet (List Datum) row_cmp) → image row_cmp (⟦<Keep as Linear>⟧.images op) z ≡ keep (holds op.cond) z }
{}

/// No number of a list lies outside the range of BIGINT exactly if each fits 64 bits with a sign; and none of a row's
/// items does exactly if each of them can be stored.
pub fn numbers_in_range()
    ensures numbers { (ns : List ℤ) → (first_not_bigint ns ≡ None) ↔ AllByRecursion (FitsSigned w64) ns }
    ensures items { (es : List Expression) (row : List Datum) → (first_not_bigint (numbers_of es row) ≡ None) ↔ AllByRecursion IsStorable (items_of es row) }
{}

/// A Z-set whose rows are of kinds that suit an operator is one that the operator takes.
pub fn rows_of_kinds_fit<O: Linear>()
    ensures { (op : O) (kinds : List ColumnKind) (z : ZSet (List Datum) row_cmp) → O.suits op kinds → All (λ e. AreOfKinds e.0 kinds) (entries z) → FitsRows (O.suits op) z }
{}

/// No number that is tested of the rows of a Z-set lies outside the range of BIGINT exactly if none of any row does.
pub fn values_of_each_row()
    ensures { (tested : List Datum → List ℤ) (z : ZSet (List Datum) row_cmp) → (first_value_outside tested z ≡ None) ↔ All (λ e. first_not_bigint (tested e.0) ≡ None) (entries z) }
{}

fn is_send_and_sync<T: Send + Sync>() {}

// Each type of data may be handed to another thread, and be shared.
fn data_crosses_threads() {
    is_send_and_sync::<OpFault>();
    is_send_and_sync::<Keep>();
    is_send_and_sync::<Project>();
    is_send_and_sync::<Pad>();
}
