//! The rows of all views of a program over its tables.
ghost use Rattle.std.specs.Prelude.{◌≡◌, ◌<◌, ◌+◌, ◌^◌, ℕ, Err, IfOk, None as Nothing, OnOk, Some, drop, length, map, slice_get, true};
ghost use Rattle.sq_catalog.specs.declared.relation.RelationKind.TheVariants as kind;
ghost use Rattle.sq_lists.specs.Answers.{CanAnswer, Lists};
ghost use Rattle.sq_lists.specs.Listings.{contents_of};
ghost use Rattle.sq_lists.specs.Walks.{IsView, Walk};
ghost use Rattle.sq_typed.specs.Fit.{TablesAreOfKinds};
ghost use Rattle.sq_typed.specs.Queries.{answer, has_range_fault};
ghost use Rattle.sq_typed.specs.Views.{first_rows, shown, verdict};

use crate::query::list_query;
use crate::sets::copies;
use crate::{Listing, Stop, ViewsFault};
use sq_catalog::{Relation, RelationKind};
use sq_typed::{Program, Query};
use sq_value::{NoMemory, Row};
use sqlite_items::Items;
use std::alloc::Global;

/// How far the relations have been gone through.
#[derive(Drop)]
struct SoFar {
    // Of each relation so far.
    listings: Vec<Listing>,
    // Of each view among them.
    shown: Vec<Items<Row>>,
    // How many of them are tables, and how many views.
    tables: usize,
    views: u32,
}

// The rows of this table, and none if there are fewer tables.
fn table_rows(alloc: Global, tables: &[Items<Row>], table: usize) -> Result<Vec<Row>, NoMemory>
    ensures { IfOk result (λ rows. rows.items ≡ first_rows (drop table tables.now)) }
{
    match tables.get(table) {
        Some(rows) => copies(alloc, rows.as_slice()),
        None => Ok(Vec::new(alloc)),
    }
}

// The next relation, a table.
fn with_table(
    alloc: Global,
    program: &Program,
    tables: &[Items<Row>],
    i: u32,
    relation: &Relation,
    so_far: SoFar,
) -> Result<SoFar, NoMemory>
    requires walk { Walk program.now tables.now i so_far }
    requires at { slice_get program.now.catalog i ≡ Some relation.now }
    requires kind { relation.now.kind ≡ kind.Table }
    ensures { IfOk result (λ next. Walk program.now tables.now (i + 1) next) }
{
    let mut so_far = so_far;
    let rows = table_rows(alloc, tables, so_far.tables)?;
    let rows = Items::from_vec(rows);
    let width = relation.columns.len();
    so_far.listings.push(Listing { width, rows })?;
    so_far.tables += 1;
    Ok(so_far)
}

// What the view with this number lists.
fn list_view(
    alloc: Global,
    listings: &[Listing],
    query: &Query,
    view: u32,
) -> Result<Listing, ViewsFault>
    requires { CanAnswer (map contents_of listings.now) query.now }
    ensures ok { IfOk result (λ l. Lists l (answer (map contents_of listings.now) query.now)) }
    ensures number { (at : ℕ) → result ≡ Err (ViewsFault.Range at) → at ≡ view }
    ensures range { (at : ℕ) → result ≡ Err (ViewsFault.Range at) → has_range_fault (answer (map contents_of listings.now) query.now) ≡ true }
{
    match list_query(alloc, listings, query) {
        Ok(listing) => Ok(listing),
        Err(Stop::Range) => Err(ViewsFault::Range { view }),
        Err(Stop::Memory) => Err(ViewsFault::Memory),
    }
}

// The next relation, a view.
fn with_view(
    alloc: Global,
    program: &Program,
    tables: &[Items<Row>],
    i: u32,
    relation: &Relation,
    so_far: SoFar,
) -> Result<SoFar, ViewsFault>
    requires walk { Walk program.now tables.now i so_far }
    requires at { slice_get program.now.catalog i ≡ Some relation.now }
    requires kind { IsView relation.now.kind }
    requires few { i + 1 < 2 ^ 32 }
    ensures ok { IfOk result (λ next. Walk program.now tables.now (i + 1) next) }
    ensures range { (view : ℕ) → result ≡ Err (ViewsFault.Range view) → verdict program.now tables.now ≡ Some view }
{
    let mut so_far = so_far;
    let query = program.query(so_far.views);
    let listing = list_view(alloc, so_far.listings.as_slice(), query, so_far.views)?;
    let rows = copies(alloc, listing.rows.as_slice())?;
    so_far.shown.push(Items::from_vec(rows))?;
    so_far.listings.push(listing)?;
    so_far.views += 1;
    Ok(so_far)
}

// The next relation.
fn with_relation(
    alloc: Global,
    program: &Program,
    tables: &[Items<Row>],
    i: u32,
    so_far: SoFar,
) -> Result<SoFar, ViewsFault>
    requires walk { Walk program.now tables.now i so_far }
    requires there { i < length program.now.catalog }
    requires few { i + 1 < 2 ^ 32 }
    ensures ok { IfOk result (λ next. Walk program.now tables.now (i + 1) next) }
    ensures range { (view : ℕ) → result ≡ Err (ViewsFault.Range view) → verdict program.now tables.now ≡ Some view }
{
    let relation = program.catalog().at(i);
    match relation.kind {
        RelationKind::Table => Ok(with_table(alloc, program, tables, i, relation, so_far)?),
        RelationKind::View { .. } => with_view(alloc, program, tables, i, relation, so_far),
    }
}

/// The rows of each view, in order of creation, over tables that hold rows of the kinds of their columns.
///
/// `Range` names the first view that is out of range, and comes only if there is one. `Memory` comes only from a refused
/// allocation.
pub fn list_views(
    alloc: Global,
    program: &Program,
    tables: &[Items<Row>],
) -> Result<Vec<Items<Row>>, ViewsFault>
    requires { TablesAreOfKinds tables.now program.now.catalog }
    ensures ok { IfOk result (λ lists. lists.items ≡ shown program.now tables.now) }
    ensures inside { OnOk result (verdict program.now tables.now ≡ Nothing) }
    ensures range { (view : ℕ) → result ≡ Err (ViewsFault.Range view) → verdict program.now tables.now ≡ Some view }
{
    let relations = program.catalog();
    let mut so_far = SoFar {
        listings: Vec::new(alloc),
        shown: Vec::new(alloc),
        tables: 0,
        views: 0,
    };
    for i in 0..relations.len() {
        so_far = with_relation(alloc, program, tables, i, so_far)?;
    }
    Ok(so_far.shown)
}
