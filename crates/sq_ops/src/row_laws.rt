//! What stands in some columns of a row, and the weights of padded rows, as contracts of functions that do nothing.
ghost use Rattle.std.specs.Prelude.{◌≡◌, ◌≤◌, ℕ, Bool, List, Some, length, map, take};
ghost use Rattle.sq_algebra.specs.Keyed.{numbers_below};
ghost use Rattle.sq_algebra.specs.Operators.{image};
ghost use Rattle.sq_algebra.specs.ZSet.{ZSet, weight};
ghost use Rattle.sq_expr.specs.Meaning.{columns_of};
ghost use Rattle.sq_expr.specs.declared.expr.Expr.TheVariants as expr;
ghost use Rattle.sq_ops.specs.Joins.{key_in};
ghost use Rattle.sq_ops.specs.Rows.{Row, items_of, padded};
ghost use Rattle.sq_ops.specs.declared.linear.Pad.{Pad as Padding};
ghost use Rattle.sq_value.specs.Order.{row_cmp};

use crate::{Linear, Pad};

/// The key of a row in some columns, if it has one, is what stands there. The first columns are the front of a row, and as many as
/// there are the row; items that are columns are what stands there.
#[tactic(auto, using(crate::proofs::RowColumns::plain_items, crate::proofs::RowColumns::key_tells, crate::proofs::RowColumns::columns_below, crate::proofs::RowColumns::all_columns))]
pub fn columns_of_rows()
    ensures key { (columns : List ℕ) (nulls_match : Bool) (row key : Row) → key_in columns nulls_match row ≡ Some key → columns_of columns row ≡ key }
    ensures front { (n : ℕ) (row : Row) → n ≤ length row → columns_of (numbers_below n) row ≡ take n row }
    ensures all { (n : ℕ) (row : Row) → length row ≡ n → columns_of (numbers_below n) row ≡ row }
    ensures items { (columns : List ℕ) (row : Row) → items_of (map expr.Column columns) row ≡ columns_of columns row }
{}

/// A row with NULLs behind it has among the padded rows the weight that the row has.
pub fn padding_keeps_weights()
    ensures { (op : Padding) (row : Row) (z : ZSet Row row_cmp) → weight (padded op.nulls row) (image row_cmp (⟦<Pad as Linear>⟧.images op) z) ≡ weight row z }
{}
