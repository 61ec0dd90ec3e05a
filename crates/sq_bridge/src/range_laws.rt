//! Numbers outside BIGINT and places with too many rows, on lists and as operators say it.
ghost use Rattle.std.specs.Prelude.{◌≡◌, ◌≤◌, ◌^◌, ℕ, Bool, List, Option, length};
ghost use Rattle.std.specs.List.{AllByRecursion, flat_map, list_any};
ghost use Rattle.sq_expr.specs.declared.expr.Expr.{Expr as Expression};
ghost use Rattle.sq_expr.specs.declared.expr.Kind.{Kind as ColumnKind};
ghost use Rattle.sq_typed.specs.Fit.{Fits};
ghost use Rattle.sq_typed.specs.Blocks.{groups, item_rows, selected, without_repeats};
ghost use Rattle.sq_typed.specs.From.{Row};
ghost use Rattle.sq_typed.specs.Queries.{Contents, is_crowded, is_outside};
ghost use Rattle.sq_typed.specs.declared.query.Query.{Query as Selection};
ghost use Rattle.sq_typed.specs.declared.query.Grouping.{Grouping as Groups};
ghost use Rattle.sq_bridge.specs.Groups.{has_sum_outside, tested_sums};
ghost use Rattle.sq_bridge.specs.Meaning.{CallsSuit, GivesFewRows, HasFewRows, HoldSorts};
ghost use Rattle.sq_bridge.specs.Nodes.{has_item_outside, lists_too_many};
ghost use Rattle.sq_bridge.specs.Rows.{listed};

/// A place has as many rows as its list; an item is outside BIGINT on a row of the list exactly if the projection says so; and a SUM is
/// of some group exactly if the aggregate says so.
#[tactic(auto, using(crate::proofs::Ranging::crowded_is, crate::proofs::Ranging::selected_outside, crate::proofs::Ranging::group_sums_outside))]
pub fn operators_tell_what_is_outside()
    ensures places { (rows : List Row) → lists_too_many (listed rows) ≡ is_crowded rows }
    ensures items { (items : List Expression) (rows : List Row) → has_item_outside items (listed rows) ≡ list_any is_outside (flat_map (λ row. row) (selected items rows)) }
    ensures sums { (g : Groups) (rows : List Row) → CallsSuit rows g.calls → has_sum_outside g (listed rows) ≡ list_any is_outside (flat_map (tested_sums g.calls) (groups g.columns rows)) }
{}

/// Over relations of at most 2^61 rows, a query that fits and is not out of range gives at most 2^61 rows. So its rows are no place of
/// their own where they are read.
#[tactic(auto, using(crate::proofs::Counting::queries_few))]
pub fn rows_of_queries_are_few()
    ensures { (relations : List Contents) (kinds : List (List ColumnKind)) → HoldSorts relations kinds → AllByRecursion HasFewRows relations
        → (q : Selection) → Fits kinds q → GivesFewRows relations q }
{}

/// Behind at most 2^61 rows no more come on the way to those of the block: there are as few groups, and as few rows on which the items are
/// computed; and rows without repeats are no more than with them.
#[tactic(auto, using(crate::proofs::Counting::groups_few, crate::proofs::Counting::item_rows_few, crate::proofs::Counting::once_shrinks))]
pub fn rows_stay_few()
    ensures groups { (columns : List ℕ) (rows : List Row) → length rows ≤ 2 ^ 61 → length (groups columns rows) ≤ 2 ^ 61 }
    ensures items { (grouping : Option Groups) (rows : List Row) → length rows ≤ 2 ^ 61 → length (item_rows grouping rows) ≤ 2 ^ 61 }
    ensures once { (distinct : Bool) (rows : List Row) → length (without_repeats distinct rows) ≤ length rows }
{}
