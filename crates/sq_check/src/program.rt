//! The program that statements mean, statement by statement.
ghost use Rattle.std.specs.Prelude.{◌≡◌, ◌<◌, ◌-◌, ◌^◌, ◌++◌, ◌∷◌, [], ℕ, None as Nothing, Some, Err, false, IfErr, IfOk, OnOk, length, map};
ghost use Rattle.std.specs.List.{AllByRecursion, list_any};
ghost use Rattle.sq_ast.specs.Sources.{program_sources};
ghost use Rattle.sq_catalog.specs.Names.{is_named};
ghost use Rattle.sq_typed.specs.Checked.{Spelling};
ghost use Rattle.sq_typed.specs.Faults.{described, first_kind, refused};
ghost use Rattle.sq_typed.specs.Programs.{Typed, is_printed, kind_named, table_column, with_body};
ghost use Rattle.sq_typed.specs.Sources.{sources_in};
ghost use Rattle.sq_typed.specs.declared.check_kind.CheckKind.{CheckKind as Kinds};
ghost use Rattle.sq_check.specs.QueriesFew.{Small, body_size};
ghost use Rattle.sq_check.specs.QueriesFound.{has_same_columns};
ghost use Rattle.sq_check.specs.declared.program.CheckFault.TheVariants.{Fault, Memory};

use crate::statement::first_fault;
use crate::typed::typed_query;
use sq_ast::{Body, ColumnTree, Flavour, Statement, TypeName};
use sq_catalog::{Catalog, CatalogFault, Column, Relation, RelationKind};
use sq_expr::Kind;
use sq_typed::{CheckKind, Program, Query};
use sq_value::NoMemory;
use sqlite_items::Items;
use std::alloc::Global;

/// Why statements mean no program.
#[derive(Clone, Copy, Debug, PartialEq, Eq)]
pub enum CheckFault {
    /// The statement of this number is the first that has a fault, and this is its first kind.
    Fault { number: u32, kind: CheckKind },
    /// Memory ran out.
    Memory,
}

impl From<NoMemory> for CheckFault {
    ghost from_gives = { λ _ fault. fault ≡ Memory };

    fn from(_: NoMemory) -> CheckFault {
        CheckFault::Memory
    }
}

/// The program that the statements mean, if none of them has a fault; else the first that has one, by its number, with the
/// first kind of fault that it has. `CheckFault::Memory` says that memory ran out, and nothing of the statements.
///
/// Each of the statements is spelled by some tokens, fewer than 2^27. The time and the memory are about in proportion to the
/// text of the statements and to what their `*` stand for, of which at most as many columns are made as have different names.
pub fn check(alloc: Global, statements: &[Statement]) -> Result<Program, CheckFault>
    requires spelled { AllByRecursion Spelling statements.now }
    ensures accepted { IfOk result (λ program. refused statements.now ≡ Nothing) }
    ensures typed { IfOk result (λ program. Typed statements.now program) }
    ensures sources { IfOk result (λ program. sources_in program ≡ program_sources statements.now) }
    ensures refused { (number : ℕ) (kind : Kinds) → result ≡ Err (Fault number kind) → refused statements.now ≡ Some (number, kind) }
{
    let mut catalog = Catalog::new(alloc);
    let mut queries = Items::new(alloc);
    for (before, statement) in statements.iter().enumerate() {
        add_statement(alloc, &mut catalog, &mut queries, before, statement)?;
    }
    Ok(Program::of(catalog, queries))
}

/// Adds what a statement creates behind so many others, if it has no fault.
fn add_statement(
    alloc: Global,
    catalog: &mut Catalog,
    queries: &mut Items<Query>,
    before: usize,
    statement: &Statement,
) -> Result<(), CheckFault>
    requires small { Small catalog.old (body_size statement.now.body) }
    requires before { length catalog.old ≡ before }
    ensures fault { IfErr result (λ fault. (number : ℕ) (kind : Kinds) → fault ≡ Fault number kind → (number ≡ statement.now.number) × (first_kind catalog.old before (described catalog.old statement.now.body) ≡ Some kind)) }
    ensures none { OnOk result (first_kind catalog.old before (described catalog.old statement.now.body) ≡ Nothing) }
    ensures added { OnOk result (record { catalog = catalog.new; queries = queries.new } ≡ with_body (record { catalog = catalog.old; queries = queries.old }) statement.now.body) }
{
    match first_fault(alloc, catalog, before, &statement.body)? {
        Some(kind) => {
            let number = statement.number;
            Err(CheckFault::Fault { number, kind })
        }
        None => Ok(create(alloc, catalog, queries, &statement.body)?),
    }
}

/// Adds what a statement creates: a relation, and the query of a view.
fn create(
    alloc: Global,
    catalog: &mut Catalog,
    queries: &mut Items<Query>,
    body: &Body,
) -> Result<(), NoMemory>
    requires small { Small catalog.old (body_size body.now) }
    requires apart { list_any has_same_columns (described catalog.old body.now).parts.heads ≡ false }
    requires few { length catalog.old < 2 ^ 32 - 1 }
    requires new_name { is_named (described catalog.old body.now).name catalog.old ≡ false }
    ensures { OnOk result (record { catalog = catalog.new; queries = queries.new } ≡ with_body (record { catalog = catalog.old; queries = queries.old }) body.now) }
{
    match body {
        Body::Table { name, columns } => {
            let relation = Relation {
                name: name.clone_str(alloc)?,
                kind: RelationKind::Table,
                columns: table_columns(alloc, columns.as_slice())?,
            };
            add(alloc, catalog, relation)
        }
        Body::View {
            name,
            flavour,
            query,
        } => {
            let typed = typed_query(alloc, catalog, query)?;
            let printed = is_printed(*flavour);
            let relation = Relation {
                name: name.clone_str(alloc)?,
                kind: RelationKind::View { printed },
                columns: typed.columns,
            };
            add(alloc, catalog, relation)?;
            queries.push(typed.query)?;
            Ok(())
        }
    }
}

/// Adds a relation. The answer is `NoMemory` if memory runs out.
fn add(alloc: Global, catalog: &mut Catalog, relation: Relation) -> Result<(), NoMemory>
    requires few { length catalog.old < 2 ^ 32 - 1 }
    requires new_name { is_named relation.name catalog.old ≡ false }
    ensures { OnOk result (catalog.new ≡ catalog.old ++ relation ∷ []) }
{
    match catalog.add(alloc, relation) {
        Ok(()) => Ok(()),
        Err(CatalogFault::DuplicateName) => unreachable!(),
        Err(CatalogFault::Memory) => Err(NoMemory),
    }
}

fn table_columns(alloc: Global, columns: &[ColumnTree]) -> Result<Items<Column>, NoMemory>
    ensures { IfOk result (λ made. made ≡ map table_column columns.now) }
{
    let mut made = Items::new(alloc);
    for column in columns {
        made.push(Column {
            name: column.name.clone_str(alloc)?,
            kind: kind_of(column.kind),
            nullable: !column.not_null,
        })?;
    }
    Ok(made)
}

fn kind_of(name: TypeName) -> Kind
    ensures { result ≡ kind_named name }
{
    match name {
        TypeName::Int | TypeName::Integer => Kind::Integer,
        TypeName::Bigint => Kind::Bigint,
        TypeName::Varchar | TypeName::Text => Kind::Text,
    }
}

/// Whether the changes of a view are printed.
fn is_printed(flavour: Option<Flavour>) -> bool
    ensures { result ≡ is_printed flavour }
{
    match flavour {
        Some(Flavour::Local) => false,
        Some(Flavour::Materialized) | None => true,
    }
}
