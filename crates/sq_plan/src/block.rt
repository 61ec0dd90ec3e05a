//! A block: its sources joined, its groups, its items, and each row once if repeats are to go.
ghost use Rattle.std.specs.Prelude.{◌≡◌, ◌*◌, ◌+◌, IfOk, length, map, true};
ghost use Rattle.std.specs.List.{AllByRecursion, flat_map};
ghost use Rattle.sq_bridge.specs.Small.{AreFewGroups};
ghost use Rattle.sq_bridge.specs.Groups.{once_node, selected_node};
ghost use Rattle.sq_expr.specs.Fits.{Suits};
ghost use Rattle.sq_plan.specs.Blocks.{CanJoin, block_kinds, block_over};
ghost use Rattle.sq_plan.specs.Drafts.{CanAdd, IsNode, kinds_of as kinds_in};
ghost use Rattle.sq_plan.specs.Keyed.{IsJoinOfSource, NewJoins, NoJoin, widths_of};
ghost use Rattle.sq_plan.specs.Steps.{Becomes, node_of};
ghost use Rattle.sq_typed.specs.Fit.{item_row_kinds, may_group};
ghost use Rattle.sq_typed.specs.Numbered.{kind_of};
ghost use Rattle.sq_typed.specs.declared.query.Block.{out-Block};

use crate::columns::{copies, kinds_of};
use crate::draft::Draft;
use sq_expr::Expr;
use sq_typed::Block;
use sq_value::NoMemory;
use sqlite_items::Items;
use std::alloc::Global;

impl Draft {
    // The items on each row.
    pub(crate) fn selected(
        &mut self,
        alloc: Global,
        rows: u32,
        items: &Items<Expr>,
    ) -> Result<u32, NoMemory>
        requires room { CanAdd 1 self.old }
        requires low { IsNode self.old rows }
        requires suit { AllByRecursion (Suits (kinds_in self.old rows)) items.now }
        ensures adds { IfOk result (λ i. Becomes 1 self.old self.new i (map (kind_of (kinds_in self.old rows)) items.now) (λ tables. selected_node items.now (node_of self.old tables rows))) }
        ensures keyed { IfOk result (λ i. NewJoins self.old self.new NoJoin) }
    {
        let kinds = kinds_of(alloc, self.kinds(rows), items.as_slice())?;
        let chosen = copies(alloc, items.as_slice())?;
        self.project(rows, chosen, kinds)
    }

    // Each row once, if repeats are to go.
    pub(crate) fn once_if(
        &mut self,
        alloc: Global,
        rows: u32,
        distinct: bool,
    ) -> Result<u32, NoMemory>
        requires room { CanAdd 1 self.old }
        requires low { IsNode self.old rows }
        ensures adds { IfOk result (λ i. Becomes 1 self.old self.new i (kinds_in self.old rows) (λ tables. once_node distinct (node_of self.old tables rows))) }
        ensures keyed { IfOk result (λ i. NewJoins self.old self.new NoJoin) }
    {
        if distinct {
            self.once(alloc, rows)
        } else {
            Ok(rows)
        }
    }
    // The rows of a block, from the nodes of its sources.
    pub(crate) fn block(
        &mut self,
        alloc: Global,
        sources: &[u32],
        block: &Block,
    ) -> Result<u32, NoMemory>
        requires room { CanAdd (8 * length (out-Block block.now).sources + 5) self.old }
        requires joins { let b = out-Block block.now in CanJoin self.old sources.now b.sources b.filter }
        requires groups { may_group (flat_map (kinds_in self.old) sources.now) (out-Block block.now).grouping ≡ true }
        requires narrow { AreFewGroups (out-Block block.now).grouping }
        requires items { let b = out-Block block.now in AllByRecursion (Suits (item_row_kinds (flat_map (kinds_in self.old) sources.now) b.grouping)) b.items }
        ensures adds { let many = length (out-Block block.now).sources in
            IfOk result (λ i. Becomes (8 * many + 5) self.old self.new i (block_kinds self.old sources.now block.now) (block_over self.old sources.now block.now)) }
        ensures keyed { IfOk result (λ i. NewJoins self.old self.new (IsJoinOfSource (widths_of self.old sources.now) (out-Block block.now).sources (out-Block block.now).filter)) }
    {
        let joined = self.joined(alloc, sources, block.sources.as_slice(), &block.filter)?;
        let rows = self.item_rows(alloc, joined, &block.grouping)?;
        let chosen = self.selected(alloc, rows, &block.items)?;
        self.once_if(alloc, chosen, block.distinct)
    }
}
