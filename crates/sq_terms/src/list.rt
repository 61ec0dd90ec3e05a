//! Chains of members, and what they make.
ghost use Rattle.std.specs.Prelude.{◌≡◌, ◌∷◌, MatchResult};
ghost use Rattle.sq_ast.specs.Trees as trees;
ghost use Rattle.sq_terms.specs.declared.stops.Stop.TheVariants.{Memory};

use crate::stops::Stop;
use sq_ast::{CondTree, ExprTree, TermTree};
use sqlite_items::Items;
use std::alloc::Global;

/// The list of one member and those behind it.
pub fn listed<T: Drop>(alloc: Global, first: T, more: Items<T>) -> Result<Items<T>, Stop>
    ensures { MatchResult result (λ list. list ≡ first ∷ more) (λ stop. stop ≡ Memory) }
{
    let mut list = Items::new(alloc);
    list.push(first)?;
    list.append(more)?;
    Ok(list)
}

#[tactic(auto, using(crate::proofs::Chains::sum_more), unfolding(sq_ast::specs::Trees::sum_of))]
pub(crate) fn sum_of(
    alloc: Global,
    first: ExprTree,
    more: Items<TermTree>,
) -> Result<ExprTree, Stop>
    ensures { MatchResult result (λ tree. tree ≡ trees.sum_of first more) (λ stop. stop ≡ Memory) }
{
    if more.is_empty() {
        return Ok(first);
    }
    let first = TermTree {
        minus: false,
        expr: first,
    };
    Ok(ExprTree::Sum(listed(alloc, first, more)?))
}

#[tactic(auto, using(crate::proofs::Chains::product_more), unfolding(sq_ast::specs::Trees::product_of))]
pub(crate) fn product_of(
    alloc: Global,
    first: ExprTree,
    more: Items<ExprTree>,
) -> Result<ExprTree, Stop>
    ensures { MatchResult result (λ tree. tree ≡ trees.product_of first more) (λ stop. stop ≡ Memory) }
{
    if more.is_empty() {
        return Ok(first);
    }
    Ok(ExprTree::Product(listed(alloc, first, more)?))
}

#[tactic(auto, using(crate::proofs::Chains::any_more), unfolding(sq_ast::specs::Trees::any_of))]
pub(crate) fn any_of(
    alloc: Global,
    first: CondTree,
    more: Items<CondTree>,
) -> Result<CondTree, Stop>
    ensures { MatchResult result (λ tree. tree ≡ trees.any_of first more) (λ stop. stop ≡ Memory) }
{
    if more.is_empty() {
        return Ok(first);
    }
    Ok(CondTree::Any(listed(alloc, first, more)?))
}

#[tactic(auto, using(crate::proofs::Chains::all_more), unfolding(sq_ast::specs::Trees::all_of))]
pub(crate) fn all_of(
    alloc: Global,
    first: CondTree,
    more: Items<CondTree>,
) -> Result<CondTree, Stop>
    ensures { MatchResult result (λ tree. tree ≡ trees.all_of first more) (λ stop. stop ≡ Memory) }
{
    if more.is_empty() {
        return Ok(first);
    }
    Ok(CondTree::All(listed(alloc, first, more)?))
}
