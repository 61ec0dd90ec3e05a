//! The first fault of a statement.
ghost use Rattle.std.specs.Prelude.{◌≡◌, ◌||◌, [], find, map, nat_le, nat_lt, IfOk};
ghost use Rattle.sq_ast.specs.declared.statement.Body.TheVariants as created;
ghost use Rattle.sq_typed.specs.Faults.{described, described_view, first_kind, has, names};
ghost use Rattle.sq_typed.specs.Programs.{table_column};
ghost use Rattle.sq_typed.specs.Resolved.{resolved};
ghost use Rattle.sq_typed.specs.Scopes.{repeats as repeated};
ghost use Rattle.sq_typed.specs.Sizes.{size_of};
ghost use Rattle.sq_check.specs.QueriesFaults.{later_kinds};
ghost use Rattle.sq_check.specs.QueriesFew.{Small, body_size};

use crate::findings::Findings;
use crate::resolve::{Stop, Wanted, resolve};
use sq_ast::{Body, ColumnTree, QueryTree};
use sq_catalog::Catalog;
use sq_scope::{names_fault, repeats};
use sq_typed::{CheckKind, MOST_COLUMNS, MOST_STATEMENTS};
use sq_value::{NoMemory, Str};
use std::alloc::Global;

/// The first kind of fault, in their order, of what a statement creates behind so many statements that created these
/// relations. The answer is `NoMemory` if memory runs out.
pub(crate) fn first_fault(
    alloc: Global,
    catalog: &Catalog,
    before: usize,
    body: &Body,
) -> Result<Option<CheckKind>, NoMemory>
    requires { Small catalog.now (body_size body.now) }
    ensures { IfOk result (λ fault. fault ≡ first_kind catalog.now before (described catalog.now body.now)) }
{
    match body {
        Body::Table { name, columns } => {
            table_fault(alloc, catalog, before, name, columns.as_slice())
        }
        Body::View { name, query, .. } => view_fault(alloc, catalog, before, name, query),
    }
}

fn table_fault(
    alloc: Global,
    catalog: &Catalog,
    before: usize,
    name: &Str,
    columns: &[ColumnTree],
) -> Result<Option<CheckKind>, NoMemory>
    ensures { IfOk result (λ fault. fault ≡ first_kind catalog.now before (described catalog.now (created.Table name.now columns.now))) }
{
    if catalog.find(name.as_str()).is_some() {
        return Ok(Some(CheckKind::DuplicateName));
    }
    if has_same_columns(alloc, columns)? {
        return Ok(Some(CheckKind::DuplicateColumn));
    }
    if is_too_much(before, columns.len() as u128) {
        return Ok(Some(CheckKind::Limit));
    }
    Ok(None)
}

/// Whether two columns have the same name.
fn has_same_columns(alloc: Global, columns: &[ColumnTree]) -> Result<bool, NoMemory>
    ensures { IfOk result (λ same. same ≡ repeated (names (map table_column columns.now))) }
{
    let mut names = Vec::new(alloc);
    for column in columns {
        names.push(column.name.as_str())?;
    }
    repeats(alloc, names.as_slice())
}

/// Whether a statement behind so many others is one too many, or has more columns than a relation may have.
fn is_too_much(before: usize, columns: u128) -> bool
    ensures { result ≡ (nat_le MOST_STATEMENTS before || nat_lt MOST_COLUMNS columns) }
{
    before >= MOST_STATEMENTS || columns > MOST_COLUMNS as u128
}

fn view_fault(
    alloc: Global,
    catalog: &Catalog,
    before: usize,
    name: &Str,
    query: &QueryTree,
) -> Result<Option<CheckKind>, NoMemory>
    requires { Small catalog.now (size_of query.now) }
    ensures { IfOk result (λ fault. fault ≡ first_kind catalog.now before (described_view name.now (resolved catalog.now query.now))) }
{
    if catalog.find(name.as_str()).is_some() {
        return Ok(Some(CheckKind::DuplicateName));
    }
    if let Some(kind) = names_fault(alloc, catalog, query)? {
        return Ok(Some(kind));
    }
    query_fault(alloc, catalog, before, query)
}

/// The first fault of a view's query, apart from those of its names.
fn query_fault(
    alloc: Global,
    catalog: &Catalog,
    before: usize,
    query: &QueryTree,
) -> Result<Option<CheckKind>, NoMemory>
    requires { Small catalog.now (size_of query.now) }
    ensures { IfOk result (λ fault. fault ≡ find (has catalog.now before (described_view [] (resolved catalog.now query.now))) later_kinds) }
{
    let mut findings = Findings::nothing();
    match resolve(alloc, catalog, query, Wanted::Distinct, &mut findings) {
        Ok(shape) => Ok(findings.first(is_too_much(before, shape.count))),
        Err(Stop::Repeated) => Ok(Some(CheckKind::DuplicateColumn)),
        Err(Stop::Memory) => Err(NoMemory),
    }
}
