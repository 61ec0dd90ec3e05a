//! What operators that work key by key answer over nothing, over a change and over shards, as contracts of a function that
//! does nothing.
ghost use Rattle.std.specs.Prelude.{◌≡◌, List};
ghost use Rattle.sq_algebra.specs.Keyed.{CoversOnce, Shards};
ghost use Rattle.sq_algebra.specs.ZSet.{ZSet, minus, plus, zero};
ghost use Rattle.sq_ops.specs.Rows.{Row};
ghost use Rattle.sq_ops.specs.Wholes.{rise_of_parts, standing_rows, with_shards};
ghost use Rattle.sq_value.specs.Order.{row_cmp};

use crate::Whole;

/// With `F` the operator, `P c` the part of the key `c`, and `z at c` the rows with this key:
///
/// - over nothing: `F(0)` is the standing rows;
/// - over a change: `F(z + d) - F(z) = Σ (P c ((z + d) at c) - P c (z at c))`, over any list in which the key of each row
///   of `d` stands once;
/// - over shards, by anything that the key tells: `F(z) = F(0) + Σ (F(z in s) - F(0))`. So the standing rows count once.
pub fn answers_change_by_key<W: Whole>()
    ensures none { (op : W) → W.answers op (zero row_cmp) ≡ standing_rows (W.parts op) (W.stands op) }
    ensures change { (op : W) (cs : List Row) (z d : ZSet Row row_cmp) → CoversOnce row_cmp (W.keys op) cs d
        → minus (W.answers op (plus z d)) (W.answers op z) ≡ rise_of_parts (W.parts op) (W.keys op) cs z (plus z d) }
    ensures shards { (op : W) (S : Shards Row) (coarse : Row → Row) (z : ZSet Row row_cmp)
        → W.answers op z ≡ with_shards (standing_rows (W.parts op) (W.stands op)) (W.answers op) S (λ row. coarse (W.keys op row)) z }
{}
