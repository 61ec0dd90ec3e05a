//! Whether a block is grouped, and whether a call stands where none may.
ghost use Rattle.std.specs.Prelude.{◌≡◌, option_to_list};
ghost use Rattle.std.specs.List.{list_any};
ghost use Rattle.sq_typed.specs.Faults.{has_nested_aggregate};
ghost use Rattle.sq_typed.specs.Leaves.{exprs_in, exprs_of, has_call};
ghost use Rattle.sq_typed.specs.Scopes.{Scope};
ghost use Rattle.sq_scope.specs.Scoped.{scoped_by};
ghost use Rattle.sq_scope.specs.TypesLeaves.{calls_in_rows, calls_nest, groups, has_nested_call, item_has_call, item_nests, join_has_call};

use sq_ast::{BlockTree, CondTree, ExprTree, ItemTree, JoinTree, JoinedTree, TermTree};
use sqlite_items::Boxed;

/// Whether a call of an aggregate function stands in the expression.
#[cycle(call)]
#[tactic(auto, using(sq_scope::proofs::TypesTrees::leaf_forms))]
pub(crate) fn has_call(expr: &ExprTree) -> bool
    ensures { result ≡ has_call expr.now }
{
    match expr {
        ExprTree::Sum(terms) => term_has_call(terms.as_slice()),
        ExprTree::Product(factors) => any_has_call(factors.as_slice()),
        ExprTree::Neg(operand) => has_call(operand.get()),
        ExprTree::Call { .. } => true,
        ExprTree::Number(_) | ExprTree::Text(_) | ExprTree::Column(_) => false,
    }
}

#[cycle(call)]
fn term_has_call(terms: &[TermTree]) -> bool
    ensures { result ≡ list_any (λ t. has_call t.expr) terms.now }
{
    let mut found = false;
    for term in terms {
        found |= has_call(&term.expr);
    }
    found
}

#[cycle(call)]
fn any_has_call(exprs: &[ExprTree]) -> bool
    ensures { result ≡ list_any has_call exprs.now }
{
    let mut found = false;
    for expr in exprs {
        found |= has_call(expr);
    }
    found
}

/// Whether a call stands in the argument of a call in the expression.
#[cycle(nested)]
#[tactic(auto, using(sq_scope::proofs::TypesTrees::nested_forms))]
fn has_nested_call(expr: &ExprTree) -> bool
    ensures { result ≡ has_nested_call expr.now }
{
    match expr {
        ExprTree::Sum(terms) => term_has_nested_call(terms.as_slice()),
        ExprTree::Product(factors) => any_has_nested_call(factors.as_slice()),
        ExprTree::Neg(operand) => has_nested_call(operand.get()),
        ExprTree::Call { arg, .. } => argument_has_call(arg),
        ExprTree::Number(_) | ExprTree::Text(_) | ExprTree::Column(_) => false,
    }
}

#[cycle(nested)]
fn term_has_nested_call(terms: &[TermTree]) -> bool
    ensures { result ≡ list_any (λ t. has_nested_call t.expr) terms.now }
{
    let mut found = false;
    for term in terms {
        found |= has_nested_call(&term.expr);
    }
    found
}

#[cycle(nested)]
fn any_has_nested_call(exprs: &[ExprTree]) -> bool
    ensures { result ≡ list_any has_nested_call exprs.now }
{
    let mut found = false;
    for expr in exprs {
        found |= has_nested_call(expr);
    }
    found
}

fn argument_has_call(arg: &Option<Boxed<ExprTree>>) -> bool
    ensures { result ≡ list_any has_call (option_to_list arg.now) }
{
    match arg {
        Some(arg) => has_call(arg.get()),
        None => false,
    }
}

/// Whether a call stands in an expression of the condition.
#[cycle(cond_call)]
#[tactic(auto, using(sq_scope::proofs::TypesTrees::cond_forms))]
fn cond_has_call(cond: &CondTree) -> bool
    ensures { result ≡ list_any has_call (exprs_in cond.now) }
{
    match cond {
        CondTree::Any(choices) => any_cond_has_call(choices.as_slice()),
        CondTree::All(members) => any_cond_has_call(members.as_slice()),
        CondTree::Not(operand) => cond_has_call(operand.get()),
        CondTree::Compare { left, right, .. } => has_call(left) || has_call(right),
        CondTree::Null { expr, .. } => has_call(expr),
    }
}

#[cycle(cond_call)]
fn any_cond_has_call(conds: &[CondTree]) -> bool
    ensures { result ≡ list_any (λ c. list_any has_call (exprs_in c)) conds.now }
{
    let mut found = false;
    for cond in conds {
        found |= cond_has_call(cond);
    }
    found
}

/// Whether a call stands in the argument of a call in the condition.
#[cycle(cond_nested)]
#[tactic(auto, using(sq_scope::proofs::TypesTrees::cond_forms))]
fn cond_has_nested_call(cond: &CondTree) -> bool
    ensures { result ≡ list_any has_nested_call (exprs_in cond.now) }
{
    match cond {
        CondTree::Any(choices) => any_cond_has_nested_call(choices.as_slice()),
        CondTree::All(members) => any_cond_has_nested_call(members.as_slice()),
        CondTree::Not(operand) => cond_has_nested_call(operand.get()),
        CondTree::Compare { left, right, .. } => has_nested_call(left) || has_nested_call(right),
        CondTree::Null { expr, .. } => has_nested_call(expr),
    }
}

#[cycle(cond_nested)]
fn any_cond_has_nested_call(conds: &[CondTree]) -> bool
    ensures { result ≡ list_any (λ c. list_any has_nested_call (exprs_in c)) conds.now }
{
    let mut found = false;
    for cond in conds {
        found |= cond_has_nested_call(cond);
    }
    found
}

/// Whether the block has GROUP BY, HAVING or a call in its items. Takes no memory.
pub(crate) fn is_grouped(block: &BlockTree) -> bool
    ensures { result ≡ groups block.now }
{
    !block.group.is_empty() || block.having.is_some() || items_have_call(block.items.as_slice())
}

fn items_have_call(items: &[ItemTree]) -> bool
    ensures { result ≡ list_any item_has_call items.now }
{
    let mut found = false;
    for item in items {
        found |= item_has_call(item);
    }
    found
}

fn item_has_call(item: &ItemTree) -> bool
    ensures { result ≡ item_has_call item.now }
{
    match item {
        ItemTree::Expr { expr, .. } => has_call(expr),
        ItemTree::Star | ItemTree::StarOf(_) => false,
    }
}

/// Whether an aggregate function is called in WHERE, in ON, or in the argument of another call. Takes no memory.
#[tactic(auto, using(crate::proofs::TypesBlocks::nested_is))]
pub(crate) fn has_nested_aggregate(block: &BlockTree) -> bool
    ensures { (scope : Scope) → result ≡ has_nested_aggregate (scoped_by scope block.now) }
{
    calls_in_rows(block) || calls_nest(block)
}

fn calls_in_rows(block: &BlockTree) -> bool
    ensures { result ≡ calls_in_rows block.now }
{
    maybe_has_call(&block.filter) || joins_have_call(block.sources.as_slice())
}

fn maybe_has_call(cond: &Option<CondTree>) -> bool
    ensures { result ≡ list_any has_call (exprs_of cond.now) }
{
    match cond {
        Some(cond) => cond_has_call(cond),
        None => false,
    }
}

fn joins_have_call(sources: &[JoinedTree]) -> bool
    ensures { result ≡ list_any (λ j. join_has_call j.join) sources.now }
{
    let mut found = false;
    for source in sources {
        found |= join_has_call(&source.join);
    }
    found
}

fn join_has_call(join: &JoinTree) -> bool
    ensures { result ≡ join_has_call join.now }
{
    match join {
        JoinTree::Comma => false,
        JoinTree::Inner(on) | JoinTree::Left(on) => cond_has_call(on),
    }
}

fn calls_nest(block: &BlockTree) -> bool
    ensures { result ≡ calls_nest block.now }
{
    items_nest(block.items.as_slice()) || maybe_nests(&block.having)
}

fn items_nest(items: &[ItemTree]) -> bool
    ensures { result ≡ list_any item_nests items.now }
{
    let mut found = false;
    for item in items {
        found |= item_nests(item);
    }
    found
}

fn item_nests(item: &ItemTree) -> bool
    ensures { result ≡ item_nests item.now }
{
    match item {
        ItemTree::Expr { expr, .. } => has_nested_call(expr),
        ItemTree::Star | ItemTree::StarOf(_) => false,
    }
}

fn maybe_nests(cond: &Option<CondTree>) -> bool
    ensures { result ≡ list_any has_nested_call (exprs_of cond.now) }
{
    match cond {
        Some(cond) => cond_has_nested_call(cond),
        None => false,
    }
}
