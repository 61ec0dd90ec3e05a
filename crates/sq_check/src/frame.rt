//! What the items of a block are over: the columns of its sources, or its group row.
ghost use Rattle.std.specs.Prelude.{◌≡◌, IfOk, OnOk};
ghost use Rattle.std.specs.List.{flat_map};
ghost use Rattle.sq_typed.specs.Leaves.{exprs_of, leaves};
ghost use Rattle.sq_typed.specs.Selected.{block_calls, keys};
ghost use Rattle.sq_typed.specs.Sizes.{HasFewGroups};
ghost use Rattle.sq_scope.specs.Scoped.{scoped_by};
ghost use Rattle.sq_check.specs.TypesFrames.{IsFrame, frame_expr, frame_kinds, frame_place};
ghost use Rattle.sq_scope.specs.TypesGroups.{with_calls};

use crate::leaves::is_grouped;
use sq_ast::{BlockTree, CondTree, ExprTree};
use sq_expr::{Expr, Kind};
use sq_scope::{
    Groups, Keys, Row, Scope, group_expr, group_kinds, push_cond_calls, push_list_calls, row_expr,
};
use sq_typed::BlockCall;
use sq_value::NoMemory;
use sqlite_items::Items;
use std::alloc::Global;

/// What the items of a block are over: the columns of its sources, or its group row.
#[derive(Drop)]
pub(crate) struct Frame<'a> {
    pub(crate) row: Row<'a>,
    pub(crate) grouped: bool,
    pub(crate) groups: Groups,
    pub(crate) group_kinds: Items<Kind>,
}

impl<'a> Frame<'a> {
    /// The frame of the block over the scope, or `NoMemory` if memory runs out.
    pub(crate) fn of(
        alloc: Global,
        scope: &'a Scope<'a>,
        block: &BlockTree,
    ) -> Result<Frame<'a>, NoMemory>
        requires { HasFewGroups block.now }
        ensures { IfOk result (λ frame. IsFrame (scoped_by scope.now block.now) frame) }
    {
        let row = Row::of(scope);
        let groups = groups_of(alloc, &row, block)?;
        let group_kinds = group_kinds(alloc, row.kinds(), &groups)?;
        Ok(Frame {
            row,
            grouped: is_grouped(block),
            groups,
            group_kinds,
        })
    }

    /// The place of a column of the sources, by its number, in the row over which the items are. Takes no memory.
    pub(crate) fn place_of(&self, number: u32) -> u32
        ensures { result ≡ frame_place self.now number }
    {
        if self.grouped {
            self.groups.place_of_key(number)
        } else {
            number
        }
    }

    /// The expression of an item, or `NoMemory` if memory runs out.
    pub(crate) fn expr(&self, alloc: Global, tree: &ExprTree) -> Result<Expr, NoMemory>
        ensures { IfOk result (λ e. e ≡ frame_expr self.now tree.now) }
    {
        if self.grouped {
            group_expr(alloc, &self.row, &self.groups, tree)
        } else {
            row_expr(alloc, &self.row, tree)
        }
    }

    /// The kinds of the row over which the items are. Takes no memory.
    pub(crate) fn kinds(&self) -> &[Kind]
        ensures { result.now ≡ frame_kinds self.now }
    {
        if self.grouped {
            self.group_kinds.as_slice()
        } else {
            self.row.kinds()
        }
    }
}

// The columns of GROUP BY and the calls of the block over the row.
fn groups_of(alloc: Global, row: &Row, block: &BlockTree) -> Result<Groups, NoMemory>
    requires { HasFewGroups block.now }
    ensures keys { IfOk result (λ groups. groups.keys.numbers ≡ keys (scoped_by row.now block.now)) }
    ensures calls { IfOk result (λ groups. groups.calls ≡ block_calls (scoped_by row.now block.now)) }
{
    let keys = Keys::of(alloc, row, block.group.as_slice())?;
    let calls = calls_of(alloc, row, block)?;
    Ok(Groups { keys, calls })
}

#[tactic(auto, using(crate::proofs::TypesFrames::block_calls_are))]
fn calls_of(alloc: Global, row: &Row, block: &BlockTree) -> Result<Items<BlockCall>, NoMemory>
    ensures { IfOk result (λ calls. calls ≡ block_calls (scoped_by row.now block.now)) }
{
    let mut calls = Items::new(alloc);
    push_list_calls(alloc, row, block.items.as_slice(), &mut calls)?;
    push_having_calls(alloc, row, &block.having, &mut calls)?;
    Ok(calls)
}

#[tactic(auto, using(sq_scope::proofs::TypesTrees::append_empty))]
fn push_having_calls(
    alloc: Global,
    row: &Row,
    having: &Option<CondTree>,
    calls: &mut Items<BlockCall>,
) -> Result<(), NoMemory>
    ensures { OnOk result (calls.new ≡ with_calls row.now calls.old (flat_map leaves (exprs_of having.now))) }
{
    match having {
        Some(having) => push_cond_calls(alloc, row, having, calls),
        None => Ok(()),
    }
}
