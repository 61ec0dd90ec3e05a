//! Items, groups and DISTINCT as operators over Z-sets.
ghost use Rattle.std.specs.Prelude.{◌≡◌, Bool, List, map, Option};
ghost use Rattle.sq_expr.specs.declared.expr.Expr.{Expr as Expression};
ghost use Rattle.sq_typed.specs.Blocks.{group_row, groups, item_rows, selected, without_repeats};
ghost use Rattle.sq_typed.specs.From.{Row};
ghost use Rattle.sq_typed.specs.declared.query.Grouping.{Grouping as Groups};
ghost use Rattle.sq_bridge.specs.Groups.{group_rows, item_node, once_node};
ghost use Rattle.sq_bridge.specs.Meaning.{CallsSuit, GroupsSuit};
ghost use Rattle.sq_bridge.specs.Nodes.{Node};
ghost use Rattle.sq_bridge.specs.Rows.{listed, projected};

/// The rows of groups: group columns and arguments are projected, and grouped by the first columns. With no group column all rows are
/// one group, which is there over no rows too.
#[tactic(auto, using(crate::proofs::Grouping::groups_are))]
pub fn groups_are_projected_and_aggregated()
    ensures { (g : Groups) (rows : List Row) → CallsSuit rows g.calls → group_rows g (listed rows) ≡ listed (map (group_row g.calls) (groups g.columns rows)) }
{}

/// The rows on which the items are computed, the items, and each row once.
#[tactic(auto, using(crate::proofs::Grouping::item_rows_are, crate::proofs::Grouping::selected_are, crate::proofs::Grouping::once_is))]
pub fn items_are_projected()
    ensures rows { (grouping : Option Groups) (n : Node) (rows : List Row) → GroupsSuit rows grouping → n.rows ≡ listed rows → (item_node grouping n).rows ≡ listed (item_rows grouping rows) }
    ensures items { (items : List Expression) (rows : List Row) → projected items (listed rows) ≡ listed (selected items rows) }
    ensures once { (distinct : Bool) (n : Node) (rows : List Row) → n.rows ≡ listed rows → (once_node distinct n).rows ≡ listed (without_repeats distinct rows) }
{}
