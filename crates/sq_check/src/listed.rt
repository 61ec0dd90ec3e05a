//! The expressions and columns of the items of a select list.
ghost use Rattle.std.specs.Prelude.{◌≡◌, ◌++◌, [], IfOk, OnOk, map, unwrap_or};
ghost use Rattle.sq_ast.specs.declared.expr.ExprTree.{out-ExprTree};
ghost use Rattle.sq_typed.specs.Selected.{Written, item_name, plain_name, written_out};
ghost use Rattle.sq_typed.specs.Numbered.{kind_of};
ghost use Rattle.sq_check.specs.TypesFrames.{frame_column, frame_item, frame_kinds};
ghost use Rattle.sq_scope.specs.TypesItems.{chosen_of};

use crate::frame::Frame;
use sq_ast::{ExprTree, ItemTree};
use sq_catalog::Column;
use sq_expr::{Expr, Kind};
use sq_scope::{ListItem, Scope, chosen, kind_at, kind_of};
use sq_value::{NoMemory, Str};
use sqlite_items::Items;
use std::alloc::Global;

impl<'a> Frame<'a> {
    /// The expression of an item, or `NoMemory` if memory runs out.
    pub(crate) fn item_expr(&self, alloc: Global, item: &ListItem) -> Result<Expr, NoMemory>
        ensures { IfOk result (λ e. e ≡ frame_item self.now (chosen_of item.now)) }
    {
        match item {
            ListItem::Starred { number, .. } => { Ok(Expr::Column(self.place_of(*number))) }
            ListItem::Written { expr, .. } => self.expr(alloc, expr),
        }
    }

    /// The column that an item gives, or `NoMemory` if memory runs out.
    pub(crate) fn item_column(&self, alloc: Global, item: &ListItem) -> Result<Column, NoMemory>
        ensures { IfOk result (λ c. c ≡ frame_column self.now (chosen_of item.now)) }
    {
        let kind = self.item_kind(alloc, item)?;
        let name = name_of(alloc, item)?;
        Ok(Column {
            name,
            kind,
            nullable: true,
        })
    }

    // The kind of what an item gives.
    #[tactic(auto, using(sq_scope::proofs::TypesTrees::kind_forms))]
    fn item_kind(&self, alloc: Global, item: &ListItem) -> Result<Kind, NoMemory>
        ensures { IfOk result (λ k. k ≡ kind_of (frame_kinds self.now) (frame_item self.now (chosen_of item.now))) }
    {
        match item {
            ListItem::Starred { number, .. } => {
                Ok(kind_at(self.kinds(), self.place_of(*number) as usize))
            }
            ListItem::Written { expr, .. } => {
                let expr = self.expr(alloc, expr)?;
                Ok(kind_of(self.kinds(), &expr))
            }
        }
    }
}

// The name of the item, the empty one if it has none.
fn name_of(alloc: Global, item: &ListItem) -> Result<Str, NoMemory>
    ensures { IfOk result (λ name. name ≡ unwrap_or (item_name (chosen_of item.now)) []) }
{
    match item {
        ListItem::Starred { column, .. } => column.name.clone_str(alloc),
        ListItem::Written { expr, alias } => alias_or_name(alloc, alias, expr),
    }
}

fn alias_or_name(alloc: Global, alias: &Option<Str>, expr: &ExprTree) -> Result<Str, NoMemory>
    ensures { IfOk result (λ name. name ≡ unwrap_or (item_name (Written expr.now alias.now)) []) }
{
    match alias {
        Some(alias) => alias.clone_str(alloc),
        None => plain_name(alloc, expr),
    }
}

#[tactic(auto, using(sq_scope::proofs::TypesTrees::name_forms))]
fn plain_name(alloc: Global, expr: &ExprTree) -> Result<Str, NoMemory>
    ensures { IfOk result (λ name. name ≡ unwrap_or (plain_name (out-ExprTree expr.now)) []) }
{
    match expr {
        ExprTree::Column(r) => r.name.clone_str(alloc),
        ExprTree::Sum(_) | ExprTree::Product(_) | ExprTree::Neg(_) => no_name(alloc),
        ExprTree::Number(_) | ExprTree::Text(_) | ExprTree::Call { .. } => no_name(alloc),
    }
}

fn no_name(alloc: Global) -> Result<Str, NoMemory>
    ensures { IfOk result (λ name. name ≡ []) }
{
    Str::of(alloc, "")
}

/// Puts the expressions of what the item stands for behind the others. If memory runs out, some are there.
pub(crate) fn push_exprs(
    alloc: Global,
    frame: &Frame,
    scope: &Scope,
    item: &ItemTree,
    exprs: &mut Items<Expr>,
) -> Result<(), NoMemory>
    ensures { OnOk result (exprs.new ≡ exprs.old ++ map (frame_item frame.now) (written_out scope.now item.now)) }
{
    let items = chosen(alloc, scope, item)?;
    push_listed(alloc, frame, items.as_slice(), exprs)
}

fn push_listed(
    alloc: Global,
    frame: &Frame,
    items: &[ListItem],
    exprs: &mut Items<Expr>,
) -> Result<(), NoMemory>
    ensures { OnOk result (exprs.new ≡ exprs.old ++ map (frame_item frame.now) (map chosen_of items.now)) }
{
    for item in items {
        let expr = frame.item_expr(alloc, item)?;
        exprs.push(expr)?;
    }
    Ok(())
}

/// Puts the columns of what the item stands for behind the others. If memory runs out, some are there.
pub(crate) fn push_columns(
    alloc: Global,
    frame: &Frame,
    scope: &Scope,
    item: &ItemTree,
    columns: &mut Items<Column>,
) -> Result<(), NoMemory>
    ensures { OnOk result (columns.new ≡ columns.old ++ map (frame_column frame.now) (written_out scope.now item.now)) }
{
    let items = chosen(alloc, scope, item)?;
    push_listed_columns(alloc, frame, items.as_slice(), columns)
}

fn push_listed_columns(
    alloc: Global,
    frame: &Frame,
    items: &[ListItem],
    columns: &mut Items<Column>,
) -> Result<(), NoMemory>
    ensures { OnOk result (columns.new ≡ columns.old ++ map (frame_column frame.now) (map chosen_of items.now)) }
{
    for item in items {
        let column = frame.item_column(alloc, item)?;
        columns.push(column)?;
    }
    Ok(())
}
