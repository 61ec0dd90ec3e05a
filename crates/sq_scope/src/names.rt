//! The faults that a query has by its names before any column is looked up.
ghost use Rattle.std.specs.Prelude.{◌≡◌, List, map, IfOk, is_some};
ghost use Rattle.std.specs.List.{list_any};
ghost use Rattle.sq_ast.specs.declared.expr.ExprTree.{out-ExprTree};
ghost use Rattle.sq_catalog.specs.declared.relation.Relation.{Relation as Created};
ghost use Rattle.sq_scope.specs.NamesFaults.{has_block_fault, has_name_fault, has_source_fault, is_block_fault, is_head_fault, is_relation_fault, is_unnamed, names_fault, source_name};
ghost use Rattle.sq_typed.specs.Faults.{has_unnamed_item};
ghost use Rattle.sq_typed.specs.Resolved.{resolved};
ghost use Rattle.sq_typed.specs.Scopes.{repeats as repeats_of};
ghost use Rattle.sq_typed.specs.Selected.{plain_name};

use crate::repeats;
use sq_ast::{BlockTree, ExprTree, ItemTree, JoinedTree, QueryTree, SourceTree, StepTree};
use sq_catalog::Catalog;
use sq_typed::CheckKind;
use sq_value::{NoMemory, Str};
use sqlite_items::Items;
use std::alloc::Global;

// What can be wrong with the names in a query, told from its tree.
#[derive(Clone, Copy, Debug, PartialEq, Eq)]
enum NameFault {
    // Two sources of a block have the same name.
    SameSources,
    // A relation is not there.
    UnknownRelation,
    // A query in FROM has an item without a name.
    UnnamedItem,
}

/// The first of three faults that the query has over these relations: that two sources of a FROM have the same name, that a
/// relation is not there, and that an item of the leftmost block, here or in a query in FROM, has no name. `NoMemory` if
/// memory runs out.
pub fn names_fault(
    alloc: Global,
    catalog: &Catalog,
    query: &QueryTree,
) -> Result<Option<CheckKind>, NoMemory>
    ensures { IfOk result (λ fault. fault ≡ names_fault catalog.now (resolved catalog.now query.now)) }
{
    if any_in_query(alloc, NameFault::SameSources, catalog, query)? {
        return Ok(Some(CheckKind::DuplicateName));
    }
    if any_in_query(alloc, NameFault::UnknownRelation, catalog, query)? {
        return Ok(Some(CheckKind::UnknownRelation));
    }
    if has_unnamed_item(query) || any_in_query(alloc, NameFault::UnnamedItem, catalog, query)? {
        return Ok(Some(CheckKind::UnnamedColumn));
    }
    Ok(None)
}

// Whether the query has the fault.
#[cycle(queries)]
fn any_in_query(
    alloc: Global,
    fault: NameFault,
    catalog: &Catalog,
    query: &QueryTree,
) -> Result<bool, NoMemory>
    ensures { IfOk result (λ any. any ≡ has_name_fault fault catalog.now (resolved catalog.now query.now).parts) }
{
    match query {
        QueryTree::Block(block) => any_in_block(alloc, fault, catalog, block.get()),
        QueryTree::Chain { first, rest } => {
            let in_first = any_in_query(alloc, fault, catalog, first.get())?;
            let in_rest = any_in_steps(alloc, fault, catalog, rest)?;
            Ok(in_first | in_rest)
        }
        QueryTree::Intersect(members) => any_in_members(alloc, fault, catalog, members),
    }
}

#[cycle(queries)]
fn any_in_steps(
    alloc: Global,
    fault: NameFault,
    catalog: &Catalog,
    steps: &Items<StepTree>,
) -> Result<bool, NoMemory>
    ensures { IfOk result (λ any. any ≡ list_any (λ s. has_name_fault fault catalog.now (resolved catalog.now s.query).parts) steps.now) }
{
    let mut any = false;
    for step in steps.as_slice() {
        any |= any_in_query(alloc, fault, catalog, &step.query)?;
    }
    Ok(any)
}

#[cycle(queries)]
fn any_in_members(
    alloc: Global,
    fault: NameFault,
    catalog: &Catalog,
    members: &Items<QueryTree>,
) -> Result<bool, NoMemory>
    ensures { IfOk result (λ any. any ≡ list_any (λ q. has_name_fault fault catalog.now (resolved catalog.now q).parts) members.now) }
{
    let mut any = false;
    for member in members.as_slice() {
        any |= any_in_query(alloc, fault, catalog, member)?;
    }
    Ok(any)
}

#[cycle(queries)]
fn any_in_block(
    alloc: Global,
    fault: NameFault,
    catalog: &Catalog,
    block: &BlockTree,
) -> Result<bool, NoMemory>
    ensures { IfOk result (λ any. any ≡ has_block_fault fault catalog.now block.now) }
{
    let by_itself = is_at_fault(alloc, fault, block.sources.as_slice())?;
    let in_sources = any_in_sources(alloc, fault, catalog, &block.sources)?;
    Ok(by_itself | in_sources)
}

#[cycle(queries)]
fn any_in_sources(
    alloc: Global,
    fault: NameFault,
    catalog: &Catalog,
    sources: &Items<JoinedTree>,
) -> Result<bool, NoMemory>
    ensures { IfOk result (λ any. any ≡ list_any (λ j. has_source_fault fault catalog.now j.source) sources.now) }
{
    let mut any = false;
    for joined in sources.as_slice() {
        any |= any_in_source(alloc, fault, catalog, &joined.source)?;
    }
    Ok(any)
}

#[cycle(queries)]
fn any_in_source(
    alloc: Global,
    fault: NameFault,
    catalog: &Catalog,
    source: &SourceTree,
) -> Result<bool, NoMemory>
    ensures { IfOk result (λ any. any ≡ has_source_fault fault catalog.now source.now) }
{
    match source {
        SourceTree::Relation { name, .. } => Ok(is_unknown(fault, catalog, name)),
        SourceTree::Query { query, .. } => {
            let in_head = is_unnamed(fault, query.get());
            let in_query = any_in_query(alloc, fault, catalog, query.get())?;
            Ok(in_head | in_query)
        }
    }
}

// What the relation in FROM has by itself.
fn is_unknown(fault: NameFault, catalog: &Catalog, name: &Str) -> bool
    ensures { result ≡ is_relation_fault fault catalog.now name.now }
{
    match fault {
        NameFault::UnknownRelation => catalog.find(name.as_str()).is_none(),
        NameFault::SameSources | NameFault::UnnamedItem => false,
    }
}

// What the query in FROM has by itself.
fn is_unnamed(fault: NameFault, query: &QueryTree) -> bool
    ensures { (relations : List Created) → result ≡ is_head_fault fault (resolved relations query.now) }
{
    match fault {
        NameFault::UnnamedItem => has_unnamed_item(query),
        NameFault::SameSources | NameFault::UnknownRelation => false,
    }
}

// What a block over these sources has by itself.
fn is_at_fault(alloc: Global, fault: NameFault, sources: &[JoinedTree]) -> Result<bool, NoMemory>
    ensures { IfOk result (λ any. any ≡ is_block_fault fault sources.now) }
{
    match fault {
        NameFault::SameSources => has_same_names(alloc, sources),
        NameFault::UnknownRelation | NameFault::UnnamedItem => Ok(false),
    }
}

fn has_same_names(alloc: Global, sources: &[JoinedTree]) -> Result<bool, NoMemory>
    ensures { IfOk result (λ same. same ≡ repeats_of (map source_name sources.now)) }
{
    let mut names = Vec::new(alloc);
    for joined in sources {
        names.push(source_name(joined).as_str())?;
    }
    repeats(alloc, names.as_slice())
}

// The name by which references mean the source.
fn source_name(joined: &JoinedTree) -> &Str
    ensures { result.now ≡ source_name joined.now }
{
    match &joined.source {
        SourceTree::Relation { name, alias } => match alias {
            None => name,
            Some(alias) => alias,
        },
        SourceTree::Query { alias, .. } => alias,
    }
}

// Whether an item of the leftmost block of the query has no name.
fn has_unnamed_item(query: &QueryTree) -> bool
    ensures { (relations : List Created) → result ≡ list_any has_unnamed_item (resolved relations query.now).leftmost }
{
    match query {
        QueryTree::Block(block) => any_unnamed(block.get().items.as_slice()),
        QueryTree::Chain { first, .. } => has_unnamed_item(first.get()),
        QueryTree::Intersect(members) => match members.get(0) {
            None => false,
            Some(first) => has_unnamed_item(first),
        },
    }
}

fn any_unnamed(items: &[ItemTree]) -> bool
    ensures { result ≡ list_any is_unnamed items.now }
{
    let mut any = false;
    for item in items {
        any |= has_no_name(item);
    }
    any
}

fn has_no_name(item: &ItemTree) -> bool
    ensures { result ≡ is_unnamed item.now }
{
    match item {
        ItemTree::Star => false,
        ItemTree::StarOf(_) => false,
        ItemTree::Expr { expr, alias } => alias.is_none() && !is_column(expr),
    }
}

fn is_column(expr: &ExprTree) -> bool
    ensures { result ≡ is_some (plain_name (out-ExprTree expr.now)) }
{
    match expr {
        ExprTree::Column(_) => true,
        ExprTree::Sum(_) | ExprTree::Product(_) | ExprTree::Neg(_) => false,
        ExprTree::Number(_) | ExprTree::Text(_) | ExprTree::Call { .. } => false,
    }
}
