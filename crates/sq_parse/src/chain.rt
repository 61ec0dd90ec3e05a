//! Chains of queries, and what they make.
ghost use Rattle.std.specs.Prelude.{◌≡◌, MatchResult};
ghost use Rattle.sq_ast.specs.Trees as trees;
ghost use Rattle.sq_terms.specs.declared.stops.Stop.TheVariants.{Memory};

use sq_ast::{QueryTree, StepTree};
use sq_terms::Stop;
use sq_terms::list::listed;
use sqlite_items::{Boxed, Items};
use std::alloc::Global;

#[tactic(auto, using(crate::proofs::QueryChains::chain_more), unfolding(sq_ast::specs::Trees::chain_of))]
pub(crate) fn chain_of(
    alloc: Global,
    first: QueryTree,
    more: Items<StepTree>,
) -> Result<QueryTree, Stop>
    ensures { MatchResult result (λ tree. tree ≡ trees.chain_of first more) (λ stop. stop ≡ Memory) }
{
    if more.is_empty() {
        return Ok(first);
    }
    Ok(QueryTree::Chain {
        first: Boxed::new(alloc, first)?,
        rest: more,
    })
}

#[tactic(auto, using(crate::proofs::QueryChains::intersect_more), unfolding(sq_ast::specs::Trees::intersect_of))]
pub(crate) fn intersect_of(
    alloc: Global,
    first: QueryTree,
    more: Items<QueryTree>,
) -> Result<QueryTree, Stop>
    ensures { MatchResult result (λ tree. tree ≡ trees.intersect_of first more) (λ stop. stop ≡ Memory) }
{
    if more.is_empty() {
        return Ok(first);
    }
    Ok(QueryTree::Intersect(listed(alloc, first, more)?))
}
