//! Queries: blocks over what stands in FROM, and set operations.
ghost use Rattle.std.specs.Prelude.{IfOk};
ghost use Rattle.sq_plan.specs.Keyed.{IsJoinInOrigin, IsJoinInSources, IsJoinOf, NewJoins, NoJoin};
ghost use Rattle.sq_plan.specs.Plans.{CanMeet, CanPlan, CanPlanItems, CanPlanOrigin, Meets, Plans, PlansItems, PlansOrigin, relation_kinds};
ghost use Rattle.sq_typed.specs.declared.query.Query.TheVariants as selection;

use crate::draft::Draft;
use sq_typed::{Block, FromItem, Origin, Query};
use sq_value::NoMemory;
use sqlite_items::Items;
use std::alloc::Global;

impl Draft {
    // The rows of the members so far that one more member has too.
    fn meet(&mut self, alloc: Global, before: Option<u32>, more: u32) -> Result<u32, NoMemory>
        requires { CanMeet self.old before more }
        ensures meets { IfOk result (λ i. Meets self.old self.new before more i) }
        ensures keyed { IfOk result (λ i. NewJoins self.old self.new NoJoin) }
    {
        match before {
            None => Ok(more),
            Some(before) => self.intersect(alloc, before, more),
        }
    }
}

/// Adds the nodes of a query over relations with these nodes, and answers the node of its rows.
#[cycle(plan)]
pub(crate) fn plan_query(
    alloc: Global,
    draft: &mut Draft,
    relations: &[u32],
    query: &Query,
) -> Result<u32, NoMemory>
    requires { CanPlan draft.old relations.now query.now }
    ensures plans { IfOk result (λ i. Plans draft.old draft.new relations.now query.now i) }
    ensures keyed { IfOk result (λ i. NewJoins draft.old draft.new (IsJoinOf (relation_kinds draft.old relations.now) query.now)) }
{
    match query {
        Query::Block(block) => plan_block(alloc, draft, relations, block.get()),
        Query::Chain { first, rest } => {
            let mut node = plan_query(alloc, draft, relations, first.get())?;
            for step in rest.as_slice() {
                let more = plan_query(alloc, draft, relations, &step.query)?;
                node = draft.set_step(alloc, step.op, node, more)?;
            }
            Ok(node)
        }
        Query::Intersect(members) => {
            let mut found = None;
            for member in members.as_slice() {
                let more = plan_query(alloc, draft, relations, member)?;
                found = Some(draft.meet(alloc, found, more)?);
            }
            Ok(found.unwrap_or(0))
        }
    }
}

#[cycle(plan)]
fn plan_block(
    alloc: Global,
    draft: &mut Draft,
    relations: &[u32],
    block: &Block,
) -> Result<u32, NoMemory>
    requires { CanPlan draft.old relations.now (selection.Block block.now) }
    ensures plans { IfOk result (λ i. Plans draft.old draft.new relations.now (selection.Block block.now) i) }
    ensures keyed { IfOk result (λ i. NewJoins draft.old draft.new (IsJoinOf (relation_kinds draft.old relations.now) (selection.Block block.now))) }
{
    let sources = plan_sources(alloc, draft, relations, &block.sources)?;
    draft.block(alloc, &sources, block)
}

// The nodes of the sources of a block.
#[cycle(plan)]
fn plan_sources(
    alloc: Global,
    draft: &mut Draft,
    relations: &[u32],
    items: &Items<FromItem>,
) -> Result<Vec<u32>, NoMemory>
    requires { CanPlanItems draft.old relations.now items.now }
    ensures plans { IfOk result (λ found. PlansItems draft.old draft.new relations.now found.items items.now) }
    ensures keyed { IfOk result (λ i. NewJoins draft.old draft.new (IsJoinInSources (relation_kinds draft.old relations.now) items.now)) }
{
    let mut found = Vec::new(alloc);
    for item in items.as_slice() {
        let node = plan_origin(alloc, draft, relations, &item.source)?;
        found.push(node)?;
    }
    Ok(found)
}

// The node of what stands behind FROM.
#[cycle(plan)]
fn plan_origin(
    alloc: Global,
    draft: &mut Draft,
    relations: &[u32],
    origin: &Origin,
) -> Result<u32, NoMemory>
    requires { CanPlanOrigin draft.old relations.now origin.now }
    ensures plans { IfOk result (λ i. PlansOrigin draft.old draft.new relations.now origin.now i) }
    ensures keyed { IfOk result (λ i. NewJoins draft.old draft.new (IsJoinInOrigin (relation_kinds draft.old relations.now) origin.now)) }
{
    match origin {
        Origin::Relation(number) => Ok(relations[*number as usize]),
        Origin::Query(query) => plan_query(alloc, draft, relations, query),
    }
}
