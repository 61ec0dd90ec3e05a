//! The items of a select list, with stars written out.
ghost use Rattle.std.specs.Prelude.{◌≡◌, ◌+◌, ◌<◌, ◌^◌, [], ◌∷◌, true, bytes_eq, length, IfOk, map};
ghost use Rattle.sq_typed.specs.Selected.{starred, starred_from, written_out};
ghost use Rattle.sq_scope.specs.TypesItems.{chosen_of, starred_at};

use crate::Scope;
use sq_ast::{ExprTree, ItemTree};
use sq_catalog::Column;
use sq_value::{NoMemory, Str};
use std::alloc::Global;

/// An item of a select list, lent: a column that a star stands for, or an expression that may have an alias.
#[derive(Drop)]
pub enum ListItem<'a> {
    Starred {
        number: u32,
        column: &'a Column,
    },
    Written {
        expr: &'a ExprTree,
        alias: &'a Option<Str>,
    },
}

/// What the item stands for in the scope, or `NoMemory` if memory runs out.
pub fn chosen<'a>(
    alloc: Global,
    scope: &'a Scope<'a>,
    item: &'a ItemTree,
) -> Result<Vec<ListItem<'a>>, NoMemory>
    ensures { IfOk result (λ items. map chosen_of items.items ≡ written_out scope.now item.now) }
{
    match item {
        ItemTree::Expr { expr, alias } => single(alloc, ListItem::Written { expr, alias }),
        ItemTree::Star => starred(alloc, scope),
        ItemTree::StarOf(of) => starred_of(alloc, scope, of),
    }
}

fn single(alloc: Global, item: ListItem) -> Result<Vec<ListItem>, NoMemory>
    ensures { IfOk result (λ items. items.items ≡ item.entry ∷ []) }
{
    let mut items = Vec::new(alloc);
    items.push(item)?;
    Ok(items)
}

// The columns of all sources.
fn starred<'a>(alloc: Global, scope: &'a Scope<'a>) -> Result<Vec<ListItem<'a>>, NoMemory>
    ensures { IfOk result (λ items. map chosen_of items.items ≡ starred (λ name. true) 0 scope.now) }
{
    let mut items = Vec::new(alloc);
    for place in 0..scope.len() {
        let mut more = columns_at(alloc, scope, place)?;
        items.append(&mut more)?;
    }
    Ok(items)
}

// The columns of the sources with this name.
fn starred_of<'a>(
    alloc: Global,
    scope: &'a Scope<'a>,
    name: &Str,
) -> Result<Vec<ListItem<'a>>, NoMemory>
    ensures { IfOk result (λ items. map chosen_of items.items ≡ starred (bytes_eq name.now) 0 scope.now) }
{
    let mut items = Vec::new(alloc);
    for place in scope.named(name) {
        let mut more = columns_at(alloc, scope, *place)?;
        items.append(&mut more)?;
    }
    Ok(items)
}

// The columns of the source at this place.
fn columns_at<'a>(
    alloc: Global,
    scope: &'a Scope<'a>,
    place: usize,
) -> Result<Vec<ListItem<'a>>, NoMemory>
    requires { place < length scope.now }
    ensures { IfOk result (λ items. map chosen_of items.items ≡ starred_at scope.now place) }
{
    numbered(alloc, scope.begin(place), scope.sources()[place].columns())
}

// The columns, with their numbers from this one on.
fn numbered<'a>(
    alloc: Global,
    begin: usize,
    columns: &'a [Column],
) -> Result<Vec<ListItem<'a>>, NoMemory>
    requires few { begin + length columns.now < 2 ^ 32 }
    ensures { IfOk result (λ items. map chosen_of items.items ≡ starred_from begin columns.now) }
{
    let mut items = Vec::new(alloc);
    for (i, column) in columns.iter().enumerate() {
        let number = (begin + i) as u32;
        items.push(ListItem::Starred { number, column })?;
    }
    Ok(items)
}
