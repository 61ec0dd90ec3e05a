//! Whether a grouped block has a column outside of calls that is none of GROUP BY.
ghost use Rattle.std.specs.Prelude.{◌≡◌, IfOk, map};
ghost use Rattle.std.specs.List.{list_any};
ghost use Rattle.sq_typed.specs.Faults.{has_bare_column};
ghost use Rattle.sq_typed.specs.Leaves.{exprs_in, exprs_of};
ghost use Rattle.sq_typed.specs.Selected.{written_out};
ghost use Rattle.sq_typed.specs.Sizes.{HasFewGroups};
ghost use Rattle.sq_scope.specs.Scoped.{scoped_by};
ghost use Rattle.sq_check.specs.TypesBare.{bare_expr, bare_item};
ghost use Rattle.sq_scope.specs.TypesItems.{chosen_of};

use crate::leaves::is_grouped;
use sq_ast::{BlockTree, CondTree, ExprTree, ItemTree, TermTree};
use sq_scope::{Keys, ListItem, Row, Scope, chosen, each_star_once};
use sq_value::NoMemory;
use std::alloc::Global;

/// Whether the block is grouped, and a column outside calls in an item or in HAVING is none of GROUP BY. `NoMemory` if
/// memory runs out.
pub fn has_bare_column(alloc: Global, scope: &Scope, block: &BlockTree) -> Result<bool, NoMemory>
    requires { HasFewGroups block.now }
    ensures { IfOk result (λ found. found ≡ has_bare_column (scoped_by scope.now block.now)) }
{
    if !is_grouped(block) {
        return Ok(false);
    }
    let row = Row::of(scope);
    let keys = Keys::of(alloc, &row, block.group.as_slice())?;
    let in_items = items_are_bare(alloc, scope, &row, &keys, block.items.as_slice())?;
    let in_having = having_is_bare(&row, &keys, &block.having);
    Ok(in_items | in_having)
}

fn items_are_bare(
    alloc: Global,
    scope: &Scope,
    row: &Row,
    keys: &Keys,
    items: &[ItemTree],
) -> Result<bool, NoMemory>
    ensures { IfOk result (λ found. found ≡ list_any (λ i. list_any (bare_item row.now keys.now.numbers) (written_out scope.now i)) items.now) }
{
    let told_apart = each_star_once(alloc, items)?;
    let found = any_item_is_bare(alloc, scope, row, keys, told_apart.as_slice())?;
    Ok(found)
}

fn any_item_is_bare(
    alloc: Global,
    scope: &Scope,
    row: &Row,
    keys: &Keys,
    items: &[&ItemTree],
) -> Result<bool, NoMemory>
    ensures { IfOk result (λ found. found ≡ list_any (λ i. list_any (bare_item row.now keys.now.numbers) (written_out scope.now i.now)) items.now) }
{
    let mut found = false;
    for item in items {
        let bare = item_is_bare(alloc, scope, row, keys, *item)?;
        found |= bare;
    }
    Ok(found)
}

fn item_is_bare(
    alloc: Global,
    scope: &Scope,
    row: &Row,
    keys: &Keys,
    item: &ItemTree,
) -> Result<bool, NoMemory>
    ensures { IfOk result (λ found. found ≡ list_any (bare_item row.now keys.now.numbers) (written_out scope.now item.now)) }
{
    let items = chosen(alloc, scope, item)?;
    Ok(any_is_bare(row, keys, items.as_slice()))
}

fn any_is_bare(row: &Row, keys: &Keys, items: &[ListItem]) -> bool
    ensures { result ≡ list_any (bare_item row.now keys.now.numbers) (map chosen_of items.now) }
{
    let mut found = false;
    for item in items {
        found |= listed_is_bare(row, keys, item);
    }
    found
}

fn listed_is_bare(row: &Row, keys: &Keys, item: &ListItem) -> bool
    ensures { result ≡ bare_item row.now keys.now.numbers (chosen_of item.now) }
{
    match item {
        ListItem::Starred { number, .. } => keys.lacks(*number),
        ListItem::Written { expr, .. } => expr_is_bare(row, keys, expr),
    }
}

#[cycle(bare)]
#[tactic(auto, using(crate::proofs::TypesBare::bare_forms))]
fn expr_is_bare(row: &Row, keys: &Keys, expr: &ExprTree) -> bool
    ensures { result ≡ bare_expr row.now keys.now.numbers expr.now }
{
    match expr {
        ExprTree::Sum(terms) => any_term_is_bare(row, keys, terms.as_slice()),
        ExprTree::Product(factors) => any_factor_is_bare(row, keys, factors.as_slice()),
        ExprTree::Neg(operand) => expr_is_bare(row, keys, operand.get()),
        ExprTree::Column(r) => keys.lacks(row.number_of(r)),
        ExprTree::Number(_) | ExprTree::Text(_) | ExprTree::Call { .. } => false,
    }
}

#[cycle(bare)]
fn any_term_is_bare(row: &Row, keys: &Keys, terms: &[TermTree]) -> bool
    ensures { result ≡ list_any (λ t. bare_expr row.now keys.now.numbers t.expr) terms.now }
{
    let mut found = false;
    for term in terms {
        found |= expr_is_bare(row, keys, &term.expr);
    }
    found
}

#[cycle(bare)]
fn any_factor_is_bare(row: &Row, keys: &Keys, factors: &[ExprTree]) -> bool
    ensures { result ≡ list_any (bare_expr row.now keys.now.numbers) factors.now }
{
    let mut found = false;
    for factor in factors {
        found |= expr_is_bare(row, keys, factor);
    }
    found
}

fn having_is_bare(row: &Row, keys: &Keys, having: &Option<CondTree>) -> bool
    ensures { result ≡ list_any (bare_expr row.now keys.now.numbers) (exprs_of having.now) }
{
    match having {
        Some(having) => cond_is_bare(row, keys, having),
        None => false,
    }
}

#[cycle(bare_cond)]
#[tactic(auto, using(sq_scope::proofs::TypesTrees::cond_forms))]
fn cond_is_bare(row: &Row, keys: &Keys, cond: &CondTree) -> bool
    ensures { result ≡ list_any (bare_expr row.now keys.now.numbers) (exprs_in cond.now) }
{
    match cond {
        CondTree::Any(choices) => any_cond_is_bare(row, keys, choices.as_slice()),
        CondTree::All(members) => any_cond_is_bare(row, keys, members.as_slice()),
        CondTree::Not(operand) => cond_is_bare(row, keys, operand.get()),
        CondTree::Compare { left, right, .. } => expr_is_bare(row, keys, left)
            || expr_is_bare(row, keys, right),
        CondTree::Null { expr, .. } => expr_is_bare(row, keys, expr),
    }
}

#[cycle(bare_cond)]
fn any_cond_is_bare(row: &Row, keys: &Keys, conds: &[CondTree]) -> bool
    ensures { result ≡ list_any (λ c. list_any (bare_expr row.now keys.now.numbers) (exprs_in c)) conds.now }
{
    let mut found = false;
    for cond in conds {
        found |= cond_is_bare(row, keys, cond);
    }
    found
}
