//! Queries with names replaced by numbers.
ghost use Rattle.std.specs.Prelude.{◌≡◌, map, fold, length, unwrap_or, IfOk};
ghost use Rattle.std.specs.List.{list_any};
ghost use Rattle.sq_ast.specs.Sources.{sum};
ghost use Rattle.sq_ast.specs.declared.query.QueryTree.TheVariants as tree;
ghost use Rattle.sq_catalog.specs.Names.{place_of};
ghost use Rattle.sq_typed.specs.declared.query.Query.TheVariants as query;
ghost use Rattle.sq_typed.specs.Resolved.{resolved, widened as wider_columns};
ghost use Rattle.sq_typed.specs.Selected.{block_columns};
ghost use Rattle.sq_typed.specs.Sizes.{HasFewGroups, joined_size, size_of, source_size};
ghost use Rattle.sq_typed.proofs.QueryEquations.{resolved_joined, resolved_source};
ghost use Rattle.sq_check.specs.QueriesFew.{Typable};
ghost use Rattle.sq_check.specs.QueriesFound.{has_same_columns, joined_repeats, source_repeats};
ghost use Rattle.sq_check.specs.QueriesTyped.{IsTyped, HasSources, HasSource, items_from, joined_with, step_of};
ghost use Rattle.sq_scope.specs.Scoped.{scoped_by};

use crate::columns::{chosen_count, first_columns};
use crate::lookup::{columns_named, source_name};
use crate::typed_block::{typed_block, typed_join};
use crate::widen::widened;
use sq_ast::{BlockTree, JoinedTree, QueryTree, SourceTree, StepTree};
use sq_catalog::{Catalog, Column};
use sq_scope::{Columns, Scope, Source};
use sq_typed::{FromItem, Origin, Query, SetStep};
use sq_value::{NoMemory, Str};
use sqlite_items::{Boxed, Items};
use std::alloc::Global;

/// A query with names replaced by numbers, and its columns.
#[derive(Debug, Drop)]
pub(crate) struct TypedQuery {
    pub(crate) query: Query,
    pub(crate) columns: Items<Column>,
}

/// The query with names replaced by numbers. The answer is `NoMemory` if memory runs out.
#[cycle(typed)]
pub(crate) fn typed_query(
    alloc: Global,
    catalog: &Catalog,
    query: &QueryTree,
) -> Result<TypedQuery, NoMemory>
    requires { Typable catalog.now (size_of query.now)
        (list_any has_same_columns (resolved catalog.now query.now).parts.heads) }
    ensures { IfOk result (λ typed. IsTyped (resolved catalog.now query.now) typed) }
{
    match query {
        QueryTree::Block(block) => typed_select(alloc, catalog, block.get()),
        QueryTree::Chain { first, rest } => {
            let first = typed_query(alloc, catalog, first.get())?;
            typed_chain(alloc, catalog, first, rest)
        }
        QueryTree::Intersect(members) => typed_members(alloc, catalog, members),
    }
}

/// A chain behind its first operand.
#[cycle(typed)]
fn typed_chain(
    alloc: Global,
    catalog: &Catalog,
    first: TypedQuery,
    rest: &Items<StepTree>,
) -> Result<TypedQuery, NoMemory>
    requires { Typable catalog.now (sum (map (λ s. size_of s.query) rest.now))
        (list_any (λ s. list_any has_same_columns (resolved catalog.now s.query).parts.heads) rest.now) }
    ensures columns { IfOk result (λ typed. typed.columns ≡ fold wider_columns first.columns (map (λ s. (resolved catalog.now s.query).columns) rest.now)) }
    ensures query { IfOk result (λ typed. typed.query ≡ query.Chain first.query (map (step_of catalog.now) rest.now)) }
{
    let TypedQuery { query, mut columns } = first;
    let mut steps = Items::new(alloc);
    for step in rest.as_slice() {
        let other = typed_query(alloc, catalog, &step.query)?;
        columns = widened(alloc, columns.as_slice(), other.columns.as_slice())?;
        let op = step.op;
        let query = other.query;
        steps.push(SetStep { op, query })?;
    }
    let first = Boxed::new(alloc, query)?;
    let query = Query::Chain { first, rest: steps };
    Ok(TypedQuery { query, columns })
}

#[cycle(typed)]
fn typed_members(
    alloc: Global,
    catalog: &Catalog,
    members: &Items<QueryTree>,
) -> Result<TypedQuery, NoMemory>
    requires { Typable catalog.now (sum (map size_of members.now))
        (list_any (λ q. list_any has_same_columns (resolved catalog.now q).parts.heads) members.now) }
    ensures { IfOk result (λ typed. IsTyped (resolved catalog.now (tree.Intersect members.now)) typed) }
{
    let mut columns = None;
    let mut queries = Items::new(alloc);
    for member in members.as_slice() {
        let typed = typed_query(alloc, catalog, member)?;
        columns = Some(joined_columns(alloc, columns, typed.columns)?);
        queries.push(typed.query)?;
    }
    let query = Query::Intersect(queries);
    let columns = columns.unwrap_or(Items::new(alloc));
    Ok(TypedQuery { query, columns })
}

/// The columns of a set operation with one more operand.
fn joined_columns(
    alloc: Global,
    before: Option<Items<Column>>,
    columns: Items<Column>,
) -> Result<Items<Column>, NoMemory>
    ensures { IfOk result (λ all. all ≡ joined_with before columns) }
{
    match before {
        None => Ok(columns),
        Some(before) => widened(alloc, before.as_slice(), columns.as_slice()),
    }
}

#[cycle(typed)]
fn typed_select(alloc: Global, catalog: &Catalog, block: &BlockTree) -> Result<TypedQuery, NoMemory>
    requires { Typable catalog.now (size_of (tree.Block block.now))
        (list_any has_same_columns (resolved catalog.now (tree.Block block.now)).parts.heads) }
    ensures { IfOk result (λ typed. IsTyped (resolved catalog.now (tree.Block block.now)) typed) }
{
    let (scope, origins) = typed_sources(alloc, catalog, &block.sources)?;
    let sources = typed_joins(alloc, &scope, &block.sources, origins)?;
    let query = typed_block(alloc, &scope, block, sources)?;
    let columns = all_columns(alloc, &scope, block)?;
    Ok(TypedQuery { query, columns })
}

/// The sources of a block, and where each comes from.
#[cycle(typed)]
fn typed_sources<'a>(
    alloc: Global,
    catalog: &'a Catalog,
    sources: &'a Items<JoinedTree>,
) -> Result<(Scope<'a>, Items<Origin>), NoMemory>
    requires { Typable catalog.now (sum (map joined_size sources.now))
        (list_any joined_repeats (map (resolved_joined catalog.now) sources.now)) }
    ensures { IfOk result (λ typed. HasSources (map (resolved_joined catalog.now) sources.now) typed.0 typed.1) }
{
    let mut found = Vec::new(alloc);
    let mut origins = Items::new(alloc);
    for joined in sources.as_slice() {
        let (source, origin) = typed_source(alloc, catalog, &joined.source)?;
        found.push(source)?;
        origins.push(origin)?;
    }
    let scope = Scope::of(alloc, found)?;
    Ok((scope, origins))
}

#[cycle(typed)]
fn typed_source<'a>(
    alloc: Global,
    catalog: &'a Catalog,
    source: &'a SourceTree,
) -> Result<(Source<'a>, Origin), NoMemory>
    requires { Typable catalog.now (source_size source.now)
        (source_repeats (resolved_source catalog.now source.now)) }
    ensures { IfOk result (λ typed. HasSource (resolved_source catalog.now source.now) typed.0 typed.1) }
{
    match source {
        SourceTree::Relation { name, alias } => {
            let columns = Columns::Lent(columns_named(catalog, name));
            let source = Source::new(source_name(name, alias), columns);
            Ok((source, Origin::Relation(number_named(catalog, name))))
        }
        SourceTree::Query { query, alias } => {
            let typed = typed_query(alloc, catalog, query.get())?;
            let source = Source::new(alias, Columns::Owned(typed.columns));
            Ok((source, Origin::Query(typed.query)))
        }
    }
}

/// The number of the relation with this name; 0 if there is none.
fn number_named(catalog: &Catalog, name: &Str) -> u32
    ensures { result ≡ unwrap_or (place_of name.now catalog.now) 0 }
{
    catalog.find(name.as_str()).unwrap_or(0)
}

/// The sources of a block with their joins, each condition over the sources up to its own.
fn typed_joins(
    alloc: Global,
    scope: &Scope,
    sources: &Items<JoinedTree>,
    origins: Items<Origin>,
) -> Result<Items<FromItem>, NoMemory>
    requires sources { length scope.now ≡ length sources.now }
    requires origins { length origins ≡ length sources.now }
    ensures { IfOk result (λ items. items ≡ items_from 0 scope.now sources.now origins) }
{
    let mut origins = origins;
    let mut items = Items::new(alloc);
    for (i, joined) in sources.as_slice().iter().enumerate() {
        let join = typed_join(alloc, scope, i + 1, &joined.join)?;
        let source = origins.remove(0);
        items.push(FromItem { join, source })?;
    }
    Ok(items)
}

/// All columns of a block.
fn all_columns(alloc: Global, scope: &Scope, block: &BlockTree) -> Result<Items<Column>, NoMemory>
    requires { HasFewGroups block.now }
    ensures { IfOk result (λ columns. columns ≡ block_columns (scoped_by scope.now block.now)) }
{
    first_columns(alloc, scope, block, chosen_count(scope, block))
}
