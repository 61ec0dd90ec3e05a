//! The rows of a block from those of its sources.
ghost use Rattle.std.specs.Prelude.{◌≡◌, IfOk, OnOk, Err, Some, [], ◌∷◌, true, false, length};
ghost use Rattle.std.specs.List.{list_any};
ghost use Rattle.sq_lists.specs.BlockFits.{BlockSuits, CanGroup, has_own_fault};
ghost use Rattle.sq_lists.specs.Stages.{CanGoOn, is_stage_crowded, sources_with};
ghost use Rattle.sq_typed.specs.From.{members_of, stages};
ghost use Rattle.sq_typed.specs.Laws.{last_of};
ghost use Rattle.sq_typed.specs.declared.query.Block.{out-Block};
ghost use Rattle.sq_typed.specs.Blocks.{block_answer, item_rows, tested_calls};
ghost use Rattle.sq_typed.specs.Queries.{is_outside};

use crate::group::{grouped, selected};
use crate::join::filtered;
use crate::kept::kept;
use crate::sets::{copies, without_repeats};
use crate::{Listing, Stop};
use sq_expr::{Cond, Expr};
use sq_members::members_of;
use sq_typed::{Block, FromItem, Grouping};
use sq_value::Row;
use std::alloc::Global;

// The group rows that HAVING keeps.
fn having_rows(alloc: Global, grouping: &Grouping, rows: &[Row]) -> Result<Vec<Row>, Stop>
    requires { CanGroup (Some grouping.now) rows.now }
    ensures ok { IfOk result (λ kept. kept.items ≡ item_rows (Some grouping.now) rows.now) }
    ensures inside { OnOk result (list_any is_outside (tested_calls (Some grouping.now) rows.now) ≡ false) }
    ensures range { result ≡ Err Stop.Range → list_any is_outside (tested_calls (Some grouping.now) rows.now) ≡ true }
{
    let groups = grouped(alloc, grouping, rows)?;
    let conds = members_of(alloc, &grouping.having)?;
    let kept = filtered(alloc, &conds, &groups)?;
    Ok(kept)
}

// The rows on which the items are computed.
fn item_rows(alloc: Global, grouping: &Option<Grouping>, rows: &[Row]) -> Result<Vec<Row>, Stop>
    requires { CanGroup grouping.now rows.now }
    ensures ok { IfOk result (λ kept. kept.items ≡ item_rows grouping.now rows.now) }
    ensures inside { OnOk result (list_any is_outside (tested_calls grouping.now rows.now) ≡ false) }
    ensures range { result ≡ Err Stop.Range → list_any is_outside (tested_calls grouping.now rows.now) ≡ true }
{
    match grouping {
        Some(grouping) => having_rows(alloc, grouping, rows),
        None => Ok(copies(alloc, rows)?),
    }
}

// The joined rows on which WHERE is True.
fn where_rows(
    alloc: Global,
    filter: &Option<Cond>,
    sources: &[FromItem],
    listings: &[Listing],
) -> Result<Vec<Row>, Stop>
    requires many { length sources.now ≡ length listings.now }
    requires suits { CanGoOn (members_of filter.now) [] (sources_with sources.now listings.now) }
    ensures ok { IfOk result (λ rows. rows.items ≡ last_of ([] ∷ []) (stages (members_of filter.now) (sources_with sources.now listings.now))) }
    ensures few { OnOk result (list_any is_stage_crowded (stages (members_of filter.now) (sources_with sources.now listings.now)) ≡ false) }
    ensures range { result ≡ Err Stop.Range → list_any is_stage_crowded (stages (members_of filter.now) (sources_with sources.now listings.now)) ≡ true }
{
    let conds = members_of(alloc, filter)?;
    kept(alloc, &conds, sources, listings)
}

// The rows of a block in the order of its clauses, if its sources list these rows.
fn clause_rows(
    alloc: Global,
    block: &Block,
    sources: &[FromItem],
    items: &[Expr],
    listings: &[Listing],
) -> Result<Vec<Row>, Stop>
    requires many { length sources.now ≡ length listings.now }
    requires suits { BlockSuits (sources_with sources.now listings.now) (out-Block block.now).filter (out-Block block.now).grouping items.now }
    ensures ok { IfOk result (λ rows. rows.items ≡ (block_answer (out-Block block.now).distinct (sources_with sources.now listings.now) (out-Block block.now).filter (out-Block block.now).grouping items.now).rows) }
    ensures inside { OnOk result (has_own_fault (sources_with sources.now listings.now) (out-Block block.now).filter (out-Block block.now).grouping items.now ≡ false) }
    ensures range { result ≡ Err Stop.Range → has_own_fault (sources_with sources.now listings.now) (out-Block block.now).filter (out-Block block.now).grouping items.now ≡ true }
{
    let kept = where_rows(alloc, &block.filter, sources, listings)?;
    let rows = item_rows(alloc, &block.grouping, &kept)?;
    let selected = selected(alloc, items, &rows)?;
    let rows = without_repeats(alloc, block.distinct, selected)?;
    Ok(rows)
}

/// The rows of a block whose sources list these rows: what WHERE keeps, grouped, selected, and each once if repeats are to
/// go. `Range` comes if the rows at a place of the block are too many, or a number of its calls or items is outside BIGINT.
pub(crate) fn block_rows(
    alloc: Global,
    block: &Block,
    listings: &[Listing],
) -> Result<Vec<Row>, Stop>
    requires many { length (out-Block block.now).sources ≡ length listings.now }
    requires suits { let b = out-Block block.now in BlockSuits (sources_with b.sources listings.now) b.filter b.grouping b.items }
    ensures ok { let b = out-Block block.now in IfOk result (λ rows. rows.items ≡ (block_answer b.distinct (sources_with b.sources listings.now) b.filter b.grouping b.items).rows) }
    ensures inside { let b = out-Block block.now in OnOk result (has_own_fault (sources_with b.sources listings.now) b.filter b.grouping b.items ≡ false) }
    ensures range { let b = out-Block block.now in result ≡ Err Stop.Range → has_own_fault (sources_with b.sources listings.now) b.filter b.grouping b.items ≡ true }
{
    clause_rows(
        alloc,
        block,
        block.sources.as_slice(),
        block.items.as_slice(),
        listings,
    )
}
