//! How many columns a block gives, and which.
ghost use Rattle.std.specs.Prelude.{◌≡◌, ◌<◌, ◌≤◌, ◌^◌, ◌++◌, ◌∷◌, [], bytes_eq, if◌then◌else◌, IfOk, OnOk, length, map, nat_lt, take};
ghost use Rattle.std.specs.List.{flat_map};
ghost use Rattle.sq_typed.specs.Faults.{has_long_list, names};
ghost use Rattle.sq_typed.specs.Scopes.{columns_in, repeats};
ghost use Rattle.sq_typed.specs.Selected.{block_columns, chosen, starred, written_out};
ghost use Rattle.sq_typed.specs.Sizes.{HasFewGroups};
ghost use Rattle.sq_scope.specs.Scoped.{scoped_by};
ghost use Rattle.sq_check.specs.TypesColumns.{GivesDistinct, up_to};
ghost use Rattle.sq_check.specs.TypesFrames.{frame_column};
ghost use Rattle.sq_scope.specs.TypesItems.{chosen_of, starred_at};

use crate::frame::Frame;
use crate::listed::push_columns;
use sq_ast::{BlockTree, ItemTree};
use sq_catalog::Column;
use sq_scope::{ListItem, Scope, chosen, repeats};
use sq_typed::{MOST_COLUMNS, MOST_SOURCES};
use sq_value::{NoMemory, Str};
use sqlite_items::Items;
use std::alloc::Global;

/// The number of items of the block, with stars written out. Takes no memory.
pub fn chosen_count(scope: &Scope, block: &BlockTree) -> u128
    ensures { result ≡ length (chosen (scoped_by scope.now block.now)) }
{
    items_count(scope, block.items.as_slice())
}

fn items_count(scope: &Scope, items: &[ItemTree]) -> u128
    ensures { result ≡ length (flat_map (written_out scope.now) items.now) }
{
    let mut count = 0;
    for item in items {
        count += item_count(scope, item);
    }
    count
}

// A star stands for at most all columns, of which there are fewer than 2^64.
fn item_count(scope: &Scope, item: &ItemTree) -> u128
    ensures count { result ≡ length (written_out scope.now item.now) }
    ensures few { result ≤ 2 ^ 64 }
{
    let width = scope.width() as u128;
    match item {
        ItemTree::Expr { .. } => 1,
        ItemTree::Star => width,
        ItemTree::StarOf(of) => named_count(scope, of),
    }
}

// The number of columns of the sources with this name.
fn named_count(scope: &Scope, name: &Str) -> u128
    ensures count { result ≡ length (starred (bytes_eq name.now) 0 scope.now) }
    ensures few { result ≤ length (columns_in scope.now) }
{
    let mut count = 0;
    for place in scope.named(name) {
        let more = column_count(scope, *place);
        count += more as u128;
    }
    count
}

// The number of columns of the source at this place.
fn column_count(scope: &Scope, place: usize) -> usize
    requires { place < length scope.now }
    ensures { result ≡ length (starred_at scope.now place) }
{
    scope.sources()[place].columns().len()
}

/// Whether the block has more items than a select list may have, with stars written out, or more sources than a `FROM` may
/// have. Takes no memory.
pub fn has_long_list(scope: &Scope, block: &BlockTree) -> bool
    ensures { result ≡ has_long_list (scoped_by scope.now block.now) }
{
    let has_many_items = chosen_count(scope, block) > MOST_COLUMNS as u128;
    let has_many_sources = scope.len() > MOST_SOURCES;
    has_many_items | has_many_sources
}

/// The first columns that the block gives, up to so many, or `NoMemory` if memory runs out.
pub fn first_columns(
    alloc: Global,
    scope: &Scope,
    block: &BlockTree,
    limit: u128,
) -> Result<Items<Column>, NoMemory>
    requires { HasFewGroups block.now }
    ensures { IfOk result (λ columns. columns ≡ take limit (block_columns (scoped_by scope.now block.now))) }
{
    let frame = Frame::of(alloc, scope, block)?;
    let columns = columns_up_to(alloc, &frame, scope, block.items.as_slice(), limit)?;
    Ok(columns)
}

fn columns_up_to(
    alloc: Global,
    frame: &Frame,
    scope: &Scope,
    items: &[ItemTree],
    limit: u128,
) -> Result<Items<Column>, NoMemory>
    ensures { IfOk result (λ columns. columns ≡ take limit (map (frame_column frame.now) (flat_map (written_out scope.now) items.now))) }
{
    let mut columns = Items::new(alloc);
    for item in items {
        add_item(alloc, frame, scope, item, limit, &mut columns)?;
    }
    Ok(columns)
}

// Puts the columns of the item behind the others, up to so many in all.
fn add_item(
    alloc: Global,
    frame: &Frame,
    scope: &Scope,
    item: &ItemTree,
    limit: u128,
    columns: &mut Items<Column>,
) -> Result<(), NoMemory>
    ensures { OnOk result (columns.new ≡ up_to limit columns.old (map (frame_column frame.now) (written_out scope.now item.now))) }
{
    if columns.len() as u128 >= limit {
        return Ok(());
    }
    let items = chosen(alloc, scope, item)?;
    add_listed(alloc, frame, items.as_slice(), limit, columns)
}

fn add_listed(
    alloc: Global,
    frame: &Frame,
    items: &[ListItem],
    limit: u128,
    columns: &mut Items<Column>,
) -> Result<(), NoMemory>
    ensures { OnOk result (columns.new ≡ up_to limit columns.old (map (frame_column frame.now) (map chosen_of items.now))) }
{
    for item in items {
        add_column(alloc, frame, item, limit, columns)?;
    }
    Ok(())
}

fn add_column(
    alloc: Global,
    frame: &Frame,
    item: &ListItem,
    limit: u128,
    columns: &mut Items<Column>,
) -> Result<(), NoMemory>
    ensures { OnOk result (columns.new ≡ (if nat_lt (length columns.old) limit then columns.old ++ frame_column frame.now (chosen_of item.now) ∷ [] else columns.old)) }
{
    if (columns.len() as u128) < limit {
        let column = frame.item_column(alloc, item)?;
        columns.push(column)?;
    }
    Ok(())
}

/// All columns that the block gives, or None if two of them have the same name. `NoMemory` if memory runs out.
///
/// It stops soon after the first name that stands twice, so that the list is no longer than twice the front without such a name
/// and the columns of one star.
pub fn distinct_columns(
    alloc: Global,
    scope: &Scope,
    block: &BlockTree,
) -> Result<Option<Items<Column>>, NoMemory>
    requires { HasFewGroups block.now }
    ensures { IfOk result (GivesDistinct (block_columns (scoped_by scope.now block.now))) }
{
    let frame = Frame::of(alloc, scope, block)?;
    let found = distinct_listed(alloc, &frame, scope, block.items.as_slice())?;
    Ok(found)
}

fn distinct_listed(
    alloc: Global,
    frame: &Frame,
    scope: &Scope,
    items: &[ItemTree],
) -> Result<Option<Items<Column>>, NoMemory>
    ensures { IfOk result (GivesDistinct (map (frame_column frame.now) (flat_map (written_out scope.now) items.now))) }
{
    let mut columns = Items::new(alloc);
    let mut checked = 0;
    for item in items {
        push_columns(alloc, frame, scope, item, &mut columns)?;
        if columns.len() / 2 >= checked {
            checked = columns.len();
            if has_same_names(alloc, columns.as_slice())? {
                return Ok(None);
            }
        }
    }
    if has_same_names(alloc, columns.as_slice())? {
        return Ok(None);
    }
    Ok(Some(columns))
}

// Whether two of the columns have the same name.
fn has_same_names(alloc: Global, columns: &[Column]) -> Result<bool, NoMemory>
    ensures { IfOk result (λ found. found ≡ repeats (names columns.now)) }
{
    let mut names = Vec::new(alloc);
    for column in columns {
        names.push(column.name.as_str())?;
    }
    repeats(alloc, names.as_slice())
}
