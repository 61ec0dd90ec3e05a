//! The rows of queries over listed relations.
ghost use Rattle.std.specs.Prelude.{◌≡◌, ◌<◌, IfOk, MatchResult, OnOk, Err, Some, true, false, length, map, slice_get};
ghost use Rattle.std.specs.List.{list_any};
ghost use Rattle.sq_lists.specs.Answers.{CanAnswer, CanAnswerItems, CanAnswerOrigin, Lists, ListsItems, common_rows, common_width, is_common_crowded, is_item_out};
ghost use Rattle.sq_lists.specs.Listings.{contents_of};
ghost use Rattle.sq_typed.specs.Queries.{answer, has_range_fault, is_crowded, origin_answer, set_rows};
ghost use Rattle.sq_typed.specs.declared.query.Query.TheVariants as query;

use crate::block::block_rows;
use crate::sets::{copies, intersect_rows, set_rows};
use crate::stage::few;
use crate::{Listing, Stop};
use sq_ast::SetOp;
use sq_typed::{Block, FromItem, Origin, Query};
use sq_value::{NoMemory, Row};
use sqlite_items::Items;
use std::alloc::Global;

// A copy of the listing of the relation with this number.
fn relation(alloc: Global, relations: &[Listing], number: u32) -> Result<Listing, NoMemory>
    requires { number < length relations.now }
    ensures { IfOk result (λ l. slice_get relations.now number ≡ Some l) }
{
    let listing = &relations[number as usize];
    let rows = copies(alloc, listing.rows.as_slice())?;
    Ok(Listing {
        width: listing.width,
        rows: Items::from_vec(rows),
    })
}

// The rows of a chain so far with those of its next member.
fn next_of_chain(
    alloc: Global,
    op: SetOp,
    before: Vec<Row>,
    more: &Listing,
) -> Result<Vec<Row>, Stop>
    ensures ok { IfOk result (λ rows. rows.items ≡ set_rows op before.items more.now.rows) }
    ensures few { OnOk result (is_crowded (set_rows op before.items more.now.rows) ≡ false) }
    ensures range { result ≡ Err Stop.Range → is_crowded (set_rows op before.items more.now.rows) ≡ true }
{
    let rows = set_rows(alloc, op, before, more.rows.as_slice())?;
    few(rows)
}

// The rows that all members so far have with the next one.
fn next_of_common(alloc: Global, before: Option<Listing>, more: Listing) -> Result<Listing, Stop>
    ensures ok { IfOk result (λ l. (l.width ≡ common_width before more) × (l.rows ≡ common_rows before more.rows)) }
    ensures few { OnOk result (is_common_crowded before more.rows ≡ false) }
    ensures range { result ≡ Err Stop.Range → is_common_crowded before more.rows ≡ true }
{
    let Some(before) = before else {
        return Ok(more);
    };
    let width = before.width;
    let rows = intersect_rows(alloc, before.rows.as_slice(), more.rows.as_slice())?;
    let rows = Items::from_vec(few(rows)?);
    Ok(Listing { width, rows })
}

/// What the query lists over these relations, in the order of nested loops.
///
/// The relations hold rows of kinds over which the query fits. `Range` comes exactly if a place of the query lists more
/// than 2^61 rows, or a number that is tested lies outside BIGINT.
#[cycle(answer)]
pub(crate) fn list_query(
    alloc: Global,
    relations: &[Listing],
    query: &Query,
) -> Result<Listing, Stop>
    requires { CanAnswer (map contents_of relations.now) query.now }
    ensures { MatchResult result (λ l. Lists l (answer (map contents_of relations.now) query.now)) (λ stop. stop ≡ Stop.Range → has_range_fault (answer (map contents_of relations.now) query.now) ≡ true) }
{
    match query {
        Query::Block(block) => list_block(alloc, relations, block.get()),
        Query::Chain { first, rest } => {
            let listing = list_query(alloc, relations, first.get())?;
            let mut rows = copies(alloc, listing.rows.as_slice())?;
            for step in rest.as_slice() {
                let more = list_query(alloc, relations, &step.query)?;
                rows = next_of_chain(alloc, step.op, rows, &more)?;
            }
            Ok(Listing {
                width: listing.width,
                rows: Items::from_vec(rows),
            })
        }
        Query::Intersect(members) => {
            let mut found = None;
            for member in members.as_slice() {
                let more = list_query(alloc, relations, member)?;
                found = Some(next_of_common(alloc, found, more)?);
            }
            Ok(found.unwrap_or(Listing::empty(alloc)))
        }
    }
}

// What a block lists.
#[cycle(answer)]
fn list_block(alloc: Global, relations: &[Listing], block: &Block) -> Result<Listing, Stop>
    requires { CanAnswer (map contents_of relations.now) (query.Block block.now) }
    ensures { let a = answer (map contents_of relations.now) (query.Block block.now) in
        MatchResult result (λ l. Lists l a) (λ stop. stop ≡ Stop.Range → has_range_fault a ≡ true) }
{
    let sources = list_sources(alloc, relations, &block.sources)?;
    let rows = block_rows(alloc, block, &sources)?;
    Ok(Listing {
        width: block.items.len(),
        rows: Items::from_vec(rows),
    })
}

// What the sources of a block list.
#[cycle(answer)]
fn list_sources(
    alloc: Global,
    relations: &[Listing],
    items: &Items<FromItem>,
) -> Result<Vec<Listing>, Stop>
    requires { CanAnswerItems (map contents_of relations.now) items.now }
    ensures { MatchResult result (λ ls. ListsItems (map contents_of relations.now) ls.items items.now) (λ stop. stop ≡ Stop.Range → list_any (is_item_out (map contents_of relations.now)) items.now ≡ true) }
{
    let mut listings = Vec::new(alloc);
    for item in items.as_slice() {
        let listing = list_origin(alloc, relations, &item.source)?;
        listings.push(listing)?;
    }
    Ok(listings)
}

// What stands behind `FROM` lists.
#[cycle(answer)]
fn list_origin(alloc: Global, relations: &[Listing], origin: &Origin) -> Result<Listing, Stop>
    requires { CanAnswerOrigin (map contents_of relations.now) origin.now }
    ensures { MatchResult result (λ l. Lists l (origin_answer (map contents_of relations.now) origin.now)) (λ stop. stop ≡ Stop.Range → has_range_fault (origin_answer (map contents_of relations.now) origin.now) ≡ true) }
{
    match origin {
        Origin::Relation(number) => Ok(relation(alloc, relations, *number)?),
        Origin::Query(query) => list_query(alloc, relations, query),
    }
}
