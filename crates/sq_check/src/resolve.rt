//! What a query over the relations before it gives, and the faults of its blocks and set operations.
ghost use Rattle.std.specs.Prelude.{◌≡◌, [], map, IfOk, MatchResult};
ghost use Rattle.std.specs.List.{list_any};
ghost use Rattle.sq_ast.specs.declared.query.QueryTree.TheVariants as tree;
ghost use Rattle.sq_ast.specs.Sources.{sum};
ghost use Rattle.sq_typed.specs.Resolved.{resolved};
ghost use Rattle.sq_typed.specs.Sizes.{HasFewGroups, joined_size, size_of, source_size};
ghost use Rattle.sq_typed.proofs.QueryEquations.{resolved_joined, resolved_source};
ghost use Rattle.sq_check.specs.QueriesFew.{Small};
ghost use Rattle.sq_check.specs.QueriesFound.{Gives, GivesBlock, GivesFurther, GivesNext, GivesScope, GivesSource, OnRepeated, block_repeats, has_same_columns, joined_repeats, operand_repeats, repeats_in, source_repeats};
ghost use Rattle.sq_scope.specs.Scoped.{scoped_by};
ghost use Rattle.sq_check.specs.declared.resolve.Stop.TheVariants.{Memory, Repeated};
ghost use Rattle.sq_check.specs.declared.resolve.Wanted.TheVariants.{Distinct, Front};

use crate::columns::{chosen_count, distinct_columns, first_columns};
use crate::findings::Findings;
use crate::lookup::{columns_named, source_name};
use crate::widen::widened;
use sq_ast::{BlockTree, JoinedTree, QueryTree, SourceTree};
use sq_catalog::{Catalog, Column};
use sq_scope::{Columns, Scope, Source};
use sq_value::NoMemory;
use sqlite_items::Items;
use std::alloc::{AllocError, AllocFailed, Global};

/// Which columns of a query are wanted.
#[derive(Clone, Copy, Debug)]
pub(crate) enum Wanted {
    /// All of them, and no two of the leftmost block may have the same name.
    Distinct,
    /// So many from the front.
    Front(usize),
}

/// What a query gives: the columns that are wanted, and how many columns it has in all.
#[derive(Debug, Drop)]
pub(crate) struct Shape {
    pub(crate) columns: Items<Column>,
    pub(crate) count: u128,
}

/// Why a query was not gone through to its end.
#[derive(Clone, Copy, Debug)]
pub(crate) enum Stop {
    /// Two columns have the same name when none may.
    Repeated,
    /// Memory ran out.
    Memory,
}

impl From<NoMemory> for Stop {
    ghost from_gives = { λ _ stop. stop ≡ Memory };

    fn from(_: NoMemory) -> Stop {
        Stop::Memory
    }
}

impl From<AllocError> for Stop {
    ghost from_gives = { λ _ stop. stop ≡ Memory };

    fn from(_: AllocError) -> Stop {
        Stop::Memory
    }
}

impl<T: Drop> From<AllocFailed<T>> for Stop {
    ghost from_gives = { λ _ stop. stop ≡ Memory };

    fn from(_: AllocFailed<T>) -> Stop {
        Stop::Memory
    }
}

/// What the query gives of what is wanted, and the faults that stand in it are added to those found.
///
/// It stops if two columns of the leftmost block of a query in `FROM`, or of this query if distinct ones are
/// wanted, have the same name: so a `*` can't make more columns than there are names.
#[cycle(resolve)]
pub(crate) fn resolve(
    alloc: Global,
    catalog: &Catalog,
    query: &QueryTree,
    wanted: Wanted,
    findings: &mut Findings,
) -> Result<Shape, Stop>
    requires { Small catalog.now (size_of query.now) }
    ensures { MatchResult result (λ shape. Gives wanted (resolved catalog.now query.now) findings.old findings.new shape) (OnRepeated (repeats_in wanted (resolved catalog.now query.now))) }
{
    match query {
        QueryTree::Block(block) => resolve_block(alloc, catalog, block.get(), wanted, findings),
        QueryTree::Chain { first, rest } => {
            let mut shape = resolve(alloc, catalog, first.get(), wanted, findings)?;
            for step in rest.as_slice() {
                shape = resolve_further(alloc, catalog, &step.query, shape, findings)?;
            }
            Ok(shape)
        }
        QueryTree::Intersect(members) => {
            let mut found = None;
            for member in members.as_slice() {
                found = Some(resolve_member(alloc, catalog, member, wanted, found, findings)?);
            }
            Ok(found.unwrap_or(Shape::empty(alloc)))
        }
    }
}

/// The first operand of a set operation, or a further one behind those before it.
#[cycle(resolve)]
fn resolve_member(
    alloc: Global,
    catalog: &Catalog,
    query: &QueryTree,
    wanted: Wanted,
    before: Option<Shape>,
    findings: &mut Findings,
) -> Result<Shape, Stop>
    requires { Small catalog.now (size_of query.now) }
    ensures { MatchResult result (GivesNext wanted before (resolved catalog.now query.now) findings.old findings.new)
        (OnRepeated (operand_repeats wanted before (resolved catalog.now query.now))) }
{
    match before {
        None => resolve(alloc, catalog, query, wanted, findings),
        Some(shape) => resolve_further(alloc, catalog, query, shape, findings),
    }
}

/// A further operand of a set operation, behind those before it.
#[cycle(resolve)]
fn resolve_further(
    alloc: Global,
    catalog: &Catalog,
    query: &QueryTree,
    before: Shape,
    findings: &mut Findings,
) -> Result<Shape, Stop>
    requires { Small catalog.now (size_of query.now) }
    ensures { MatchResult result (GivesFurther before (resolved catalog.now query.now) findings.old findings.new)
        (OnRepeated (list_any has_same_columns (resolved catalog.now query.now).parts.heads)) }
{
    let front = Wanted::Front(before.columns.len());
    let other = resolve(alloc, catalog, query, front, findings)?;
    findings.note_operand(&before, &other);
    let columns = widened(alloc, before.columns.as_slice(), other.columns.as_slice())?;
    let count = before.count;
    Ok(Shape { columns, count })
}

#[cycle(resolve)]
fn resolve_block(
    alloc: Global,
    catalog: &Catalog,
    block: &BlockTree,
    wanted: Wanted,
    findings: &mut Findings,
) -> Result<Shape, Stop>
    requires { Small catalog.now (size_of (tree.Block block.now)) }
    ensures { MatchResult result (λ shape. Gives wanted (resolved catalog.now (tree.Block block.now)) findings.old findings.new shape)
        (OnRepeated (repeats_in wanted (resolved catalog.now (tree.Block block.now)))) }
{
    let scope = resolve_sources(alloc, catalog, &block.sources, findings)?;
    findings.note_block(alloc, &scope, block)?;
    block_shape(alloc, &scope, block, wanted)
}

/// The sources of a block.
#[cycle(resolve)]
fn resolve_sources<'a>(
    alloc: Global,
    catalog: &'a Catalog,
    sources: &'a Items<JoinedTree>,
    findings: &mut Findings,
) -> Result<Scope<'a>, Stop>
    requires { Small catalog.now (sum (map joined_size sources.now)) }
    ensures { MatchResult result (λ scope. GivesScope (map (resolved_joined catalog.now) sources.now) findings.old findings.new scope)
        (OnRepeated (list_any joined_repeats (map (resolved_joined catalog.now) sources.now))) }
{
    let mut found = Vec::new(alloc);
    for joined in sources.as_slice() {
        let source = resolve_source(alloc, catalog, &joined.source, findings)?;
        found.push(source)?;
    }
    Ok(Scope::of(alloc, found)?)
}

#[cycle(resolve)]
fn resolve_source<'a>(
    alloc: Global,
    catalog: &'a Catalog,
    source: &'a SourceTree,
    findings: &mut Findings,
) -> Result<Source<'a>, Stop>
    requires { Small catalog.now (source_size source.now) }
    ensures { MatchResult result (λ found. GivesSource (resolved_source catalog.now source.now) findings.old findings.new found) (OnRepeated (source_repeats (resolved_source catalog.now source.now))) }
{
    match source {
        SourceTree::Relation { name, alias } => {
            let columns = Columns::Lent(columns_named(catalog, name));
            Ok(Source::new(source_name(name, alias), columns))
        }
        SourceTree::Query { query, alias } => {
            let shape = resolve(alloc, catalog, query.get(), Wanted::Distinct, findings)?;
            Ok(Source::new(alias, Columns::Owned(shape.columns)))
        }
    }
}

/// What a block over its sources gives of what is wanted.
fn block_shape(
    alloc: Global,
    scope: &Scope,
    block: &BlockTree,
    wanted: Wanted,
) -> Result<Shape, Stop>
    requires { HasFewGroups block.now }
    ensures { MatchResult result (λ shape. GivesBlock wanted (scoped_by scope.now block.now) shape) (OnRepeated (block_repeats wanted (scoped_by scope.now block.now))) }
{
    match wanted {
        Wanted::Distinct => distinct_shape(alloc, scope, block),
        Wanted::Front(limit) => Ok(front_shape(alloc, scope, block, limit)?),
    }
}

fn distinct_shape(alloc: Global, scope: &Scope, block: &BlockTree) -> Result<Shape, Stop>
    requires { HasFewGroups block.now }
    ensures { MatchResult result (λ shape. GivesBlock Distinct (scoped_by scope.now block.now) shape) (OnRepeated (block_repeats Distinct (scoped_by scope.now block.now))) }
{
    let Some(columns) = distinct_columns(alloc, scope, block)? else {
        return Err(Stop::Repeated);
    };
    let count = columns.len() as u128;
    Ok(Shape { columns, count })
}

fn front_shape(
    alloc: Global,
    scope: &Scope,
    block: &BlockTree,
    limit: usize,
) -> Result<Shape, NoMemory>
    requires { HasFewGroups block.now }
    ensures { IfOk result (λ shape. GivesBlock (Front limit) (scoped_by scope.now block.now) shape) }
{
    let columns = first_columns(alloc, scope, block, limit as u128)?;
    let count = chosen_count(scope, block);
    Ok(Shape { columns, count })
}

impl Shape {
    // What no operand gives.
    fn empty(alloc: Global) -> Shape
        ensures { result ≡ record { columns = []; count = 0 } }
    {
        Shape {
            columns: Items::new(alloc),
            count: 0,
        }
    }
}
