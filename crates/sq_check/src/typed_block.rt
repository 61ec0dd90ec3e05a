//! The typed form of a block over typed sources.
ghost use Rattle.std.specs.Prelude.{◌≡◌, IfOk, map, option_map, take};
ghost use Rattle.std.specs.List.{flat_map};
ghost use Rattle.sq_typed.specs.Numbered.{row_cond};
ghost use Rattle.sq_typed.specs.Resolved.{typed_join};
ghost use Rattle.sq_typed.specs.Selected.{written_out};
ghost use Rattle.sq_typed.specs.Sizes.{HasFewGroups};
ghost use Rattle.sq_scope.specs.Scoped.{scoped_by};
ghost use Rattle.sq_check.specs.TypesBlockForms.{block_over, grouping_of};
ghost use Rattle.sq_check.specs.TypesFrames.{frame_item};
ghost use Rattle.sq_scope.specs.TypesGroups.{over_group_cond};

use crate::frame::Frame;
use crate::listed::push_exprs;
use sq_ast::{BlockTree, CondTree, ItemTree, JoinTree};
use sq_expr::{Cond, Expr};
use sq_scope::{Groups, Row, Scope, group_cond, row_cond};
use sq_typed::{Block, FromItem, FromJoin, Grouping, Query};
use sq_value::NoMemory;
use sqlite_items::{Boxed, Items};
use std::alloc::Global;

/// The join of a source, with the condition of ON over the columns of so many sources, or of all if there are not so
/// many. `NoMemory` if memory runs out.
pub fn typed_join(
    alloc: Global,
    scope: &Scope,
    sources: usize,
    join: &JoinTree,
) -> Result<FromJoin, NoMemory>
    ensures { IfOk result (λ typed. typed ≡ typed_join (take sources scope.now) join.now) }
{
    let row = Row::front(&*scope, sources);
    join_over(alloc, &row, join)
}

fn join_over(alloc: Global, row: &Row, join: &JoinTree) -> Result<FromJoin, NoMemory>
    ensures { IfOk result (λ typed. typed ≡ typed_join row.now join.now) }
{
    match join {
        JoinTree::Comma => Ok(FromJoin::Comma),
        JoinTree::Inner(on) => Ok(FromJoin::Inner(row_cond(alloc, row, on)?)),
        JoinTree::Left(on) => Ok(FromJoin::Left(row_cond(alloc, row, on)?)),
    }
}

/// The block with numbers in the place of names, over these typed sources, or `NoMemory` if memory runs out.
pub fn typed_block(
    alloc: Global,
    scope: &Scope,
    block: &BlockTree,
    sources: Items<FromItem>,
) -> Result<Query, NoMemory>
    requires { HasFewGroups block.now }
    ensures { IfOk result (λ query. query ≡ block_over (scoped_by scope.now block.now) block.now sources) }
{
    let frame = Frame::of(alloc, scope, block)?;
    let items = typed_items(alloc, &frame, scope, block.items.as_slice())?;
    let filter = typed_filter(alloc, &frame.row, &block.filter)?;
    let having = typed_having(alloc, &frame.row, &frame.groups, &block.having)?;
    let grouping = grouping_of(frame.grouped, frame.into_groups(), having);
    let typed = Block {
        distinct: block.distinct,
        sources,
        filter,
        grouping,
        items,
    };
    Ok(Query::Block(Boxed::new(alloc, typed)?))
}

fn typed_items(
    alloc: Global,
    frame: &Frame,
    scope: &Scope,
    items: &[ItemTree],
) -> Result<Items<Expr>, NoMemory>
    ensures { IfOk result (λ exprs. exprs ≡ map (frame_item frame.now) (flat_map (written_out scope.now) items.now)) }
{
    let mut exprs = Items::new(alloc);
    for item in items {
        push_exprs(alloc, frame, scope, item, &mut exprs)?;
    }
    Ok(exprs)
}

fn typed_filter(
    alloc: Global,
    row: &Row,
    filter: &Option<CondTree>,
) -> Result<Option<Cond>, NoMemory>
    ensures { IfOk result (λ typed. typed ≡ option_map (row_cond row.now) filter.now) }
{
    match filter {
        Some(filter) => Ok(Some(row_cond(alloc, row, filter)?)),
        None => Ok(None),
    }
}

fn typed_having(
    alloc: Global,
    row: &Row,
    groups: &Groups,
    having: &Option<CondTree>,
) -> Result<Option<Cond>, NoMemory>
    ensures { IfOk result (λ typed. typed ≡ option_map (over_group_cond row.now groups.now.keys.numbers groups.now.calls) having.now) }
{
    match having {
        Some(having) => Ok(Some(group_cond(alloc, row, groups, having)?)),
        None => Ok(None),
    }
}

// The grouping of a block with these groups and this condition of HAVING, if it is grouped.
fn grouping_of(grouped: bool, groups: Groups, having: Option<Cond>) -> Option<Grouping>
    ensures { result ≡ grouping_of grouped groups.keys.numbers groups.calls having }
{
    if !grouped {
        return None;
    }
    let Groups { keys, calls } = groups;
    Some(Grouping {
        columns: keys.into_numbers(),
        calls,
        having,
    })
}

impl<'a> Frame<'a> {
    fn into_groups(self) -> Groups
        ensures numbers { result.keys.numbers ≡ self.entry.groups.keys.numbers }
        ensures calls { result.calls ≡ self.entry.groups.calls }
    {
        let Frame {
            row: _,
            grouped: _,
            groups,
            group_kinds: _,
        } = self;
        groups
    }
}
