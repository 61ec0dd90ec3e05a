//! The relations of a program, one by one: a node for each table, and the nodes of each view's query.
ghost use Rattle.std.specs.Prelude.{◌≡◌, ◌<◌, ◌≤◌, ◌+◌, ◌++◌, ◌∷◌, ◌^◌, [], IfOk, Some, length, slice_get};
ghost use Rattle.sq_catalog.specs.declared.relation.RelationKind.TheVariants as kind;
ghost use Rattle.sq_plan.specs.Program.{table_kinds, tables_from};
ghost use Rattle.sq_plan.specs.ProgramWalk.{IsView, Walks};
ghost use Rattle.sq_typed.specs.Fit.{kinds_of};
ghost use Rattle.sq_typed.specs.Sources.{sources_in};

use crate::draft::Draft;
use crate::query::plan_query;
use sq_catalog::{Relation, RelationKind};
use sq_circuit::{Node, Part};
use sq_expr::Kind;
use sq_typed::Program;
use sq_value::NoMemory;
use sqlite_items::Items;
use std::alloc::Global;

/// How far the relations have been gone through.
#[derive(Drop)]
pub(crate) struct Walked {
    // The parts so far, and the view that is next.
    pub(crate) draft: Draft,
    // The node of each relation so far, and of each view among them.
    pub(crate) nodes: Vec<u32>,
    pub(crate) shown: Vec<u32>,
    // How many of them are tables.
    pub(crate) tables: u32,
}

// The kinds of a relation's columns.
fn column_kinds(alloc: Global, relation: &Relation) -> Result<Items<Kind>, NoMemory>
    ensures { IfOk result (λ kinds. kinds ≡ kinds_of relation.now) }
{
    let mut kinds = Vec::new(alloc);
    for column in relation.columns.as_slice() {
        kinds.push(column.kind)?;
    }
    Ok(Items::from_vec(kinds))
}

// The parts so far, and the node of a relation behind them if it is a table.
fn with_table_part(
    alloc: Global,
    relation: &Relation,
    parts: Vec<Part>,
) -> Result<Vec<Part>, NoMemory>
    requires { length parts.items < 2 ^ 32 }
    ensures { IfOk result (λ next. next.items ≡ parts.items ++ tables_from (length parts.items) (table_kinds (relation.now ∷ []))) }
{
    let mut parts = parts;
    match relation.kind {
        RelationKind::Table => {
            let table = parts.len() as u32;
            let kinds = column_kinds(alloc, relation)?;
            parts.push(Part {
                node: Node::Table { table },
                kinds,
                place: false,
                owner: None,
            })?;
            Ok(parts)
        }
        RelationKind::View { .. } => Ok(parts),
    }
}

// The nodes of the tables, in order.
fn table_parts(alloc: Global, program: &Program) -> Result<Vec<Part>, NoMemory>
    ensures { IfOk result (λ parts. parts.items ≡ tables_from 0 (table_kinds program.now.catalog)) }
{
    let relations = program.catalog();
    let mut parts = Vec::new(alloc);
    for i in 0..relations.len() {
        parts = with_table_part(alloc, relations.at(i), parts)?;
    }
    Ok(parts)
}

// The next relation, a table, whose node is there.
fn with_table(
    program: &Program,
    i: u32,
    relation: &Relation,
    walked: Walked,
) -> Result<Walked, NoMemory>
    requires walk { Walks program.now i walked }
    requires at { slice_get program.now.catalog i ≡ Some relation.now }
    requires kind { relation.now.kind ≡ kind.Table }
    requires few { i + 1 < 2 ^ 32 }
    ensures { IfOk result (λ next. Walks program.now (i + 1) next) }
{
    let mut walked = walked;
    walked.nodes.push(walked.tables)?;
    walked.tables += 1;
    Ok(walked)
}

// The next relation, a view, whose query gets nodes.
fn with_view(
    alloc: Global,
    program: &Program,
    i: u32,
    relation: &Relation,
    walked: Walked,
) -> Result<Walked, NoMemory>
    requires walk { Walks program.now i walked }
    requires at { slice_get program.now.catalog i ≡ Some relation.now }
    requires kind { IsView relation.now.kind }
    requires few { i + 1 < 2 ^ 32 }
    ensures { IfOk result (λ next. Walks program.now (i + 1) next) }
{
    let mut walked = walked;
    let query = program.query(walked.draft.view);
    let node = plan_query(alloc, &mut walked.draft, walked.nodes.as_slice(), query)?;
    walked.nodes.push(node)?;
    walked.shown.push(node)?;
    walked.draft.view += 1;
    Ok(walked)
}

// The next relation.
fn with_relation(
    alloc: Global,
    program: &Program,
    i: u32,
    walked: Walked,
) -> Result<Walked, NoMemory>
    requires walk { Walks program.now i walked }
    requires there { i < length program.now.catalog }
    requires few { i + 1 < 2 ^ 32 }
    ensures { IfOk result (λ next. Walks program.now (i + 1) next) }
{
    let relation = program.catalog().at(i);
    match relation.kind {
        RelationKind::Table => with_table(program, i, relation, walked),
        RelationKind::View { .. } => with_view(alloc, program, i, relation, walked),
    }
}

/// The nodes of all relations.
pub(crate) fn walk(alloc: Global, program: &Program) -> Result<Walked, NoMemory>
    requires { sources_in program.now ≤ 2 ^ 20 }
    ensures { IfOk result (λ walked. Walks program.now (length program.now.catalog) walked) }
{
    let relations = program.catalog();
    let parts = table_parts(alloc, program)?;
    let mut walked = Walked {
        draft: Draft { parts, view: 0 },
        nodes: Vec::new(alloc),
        shown: Vec::new(alloc),
        tables: 0,
    };
    for i in 0..relations.len() {
        walked = with_relation(alloc, program, i, walked)?;
    }
    Ok(walked)
}
