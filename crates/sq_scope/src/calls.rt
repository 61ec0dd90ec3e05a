//! The aggregate calls of expressions and of select lists, each call once.
ghost use Rattle.std.specs.Prelude.{◌≡◌, ◌≤◌, OnOk, length, position, unwrap_or};
ghost use Rattle.std.specs.List.{flat_map};
ghost use Rattle.sq_typed.specs.Leaves.{leaves};
ghost use Rattle.sq_typed.specs.Numbered.{is_same_call, same_argument};
ghost use Rattle.sq_scope.specs.TypesGroups.{keep_call, with_calls};
ghost use Rattle.sq_scope.specs.TypesLeaves.{cond_leaves, leaves_of_item};

use crate::numbered::typed_call;
use crate::sources_row::Row;
use sq_ast::{CondTree, ExprTree, ItemTree, TermTree};
use sq_expr::Expr;
use sq_typed::BlockCall;
use sq_value::NoMemory;
use sqlite_items::Items;
use std::alloc::Global;

/// Puts the calls of the expression that are none of those there behind them. If memory runs out, some are.
#[cycle(calls)]
#[tactic(auto, using(crate::proofs::TypesTrees::plain_forms))]
pub fn push_calls(
    alloc: Global,
    row: &Row,
    expr: &ExprTree,
    calls: &mut Items<BlockCall>,
) -> Result<(), NoMemory>
    ensures { OnOk result (calls.new ≡ with_calls row.now calls.old (leaves expr.now)) }
{
    match expr {
        ExprTree::Sum(terms) => push_term_calls(alloc, row, terms.as_slice(), calls),
        ExprTree::Product(factors) => push_factor_calls(alloc, row, factors.as_slice(), calls),
        ExprTree::Neg(operand) => push_calls(alloc, row, operand.get(), calls),
        ExprTree::Call { func, arg } => push_new(typed_call(alloc, row, *func, arg)?, calls),
        ExprTree::Number(_) | ExprTree::Text(_) | ExprTree::Column(_) => Ok(()),
    }
}

#[cycle(calls)]
fn push_term_calls(
    alloc: Global,
    row: &Row,
    terms: &[TermTree],
    calls: &mut Items<BlockCall>,
) -> Result<(), NoMemory>
    ensures { OnOk result (calls.new ≡ with_calls row.now calls.old (flat_map (λ t. leaves t.expr) terms.now)) }
{
    for term in terms {
        push_calls(alloc, row, &term.expr, calls)?;
    }
    Ok(())
}

#[cycle(calls)]
fn push_factor_calls(
    alloc: Global,
    row: &Row,
    factors: &[ExprTree],
    calls: &mut Items<BlockCall>,
) -> Result<(), NoMemory>
    ensures { OnOk result (calls.new ≡ with_calls row.now calls.old (flat_map leaves factors.now)) }
{
    for factor in factors {
        push_calls(alloc, row, factor, calls)?;
    }
    Ok(())
}

/// Puts the calls of the condition that are none of those there behind them. If memory runs out, some are.
#[cycle(cond_calls)]
#[tactic(auto, using(crate::proofs::TypesTrees::cond_leaf_forms, crate::proofs::TypesCalls::with_calls_append))]
pub fn push_cond_calls(
    alloc: Global,
    row: &Row,
    cond: &CondTree,
    calls: &mut Items<BlockCall>,
) -> Result<(), NoMemory>
    ensures { OnOk result (calls.new ≡ with_calls row.now calls.old (cond_leaves cond.now)) }
{
    match cond {
        CondTree::Any(choices) => push_all_calls(alloc, row, choices.as_slice(), calls),
        CondTree::All(members) => push_all_calls(alloc, row, members.as_slice(), calls),
        CondTree::Not(operand) => push_cond_calls(alloc, row, operand.get(), calls),
        CondTree::Compare { left, right, .. } => {
            push_calls(alloc, row, left, calls)?;
            push_calls(alloc, row, right, calls)
        }
        CondTree::Null { expr, .. } => push_calls(alloc, row, expr, calls),
    }
}

#[cycle(cond_calls)]
fn push_all_calls(
    alloc: Global,
    row: &Row,
    conds: &[CondTree],
    calls: &mut Items<BlockCall>,
) -> Result<(), NoMemory>
    ensures { OnOk result (calls.new ≡ with_calls row.now calls.old (flat_map cond_leaves conds.now)) }
{
    for cond in conds {
        push_cond_calls(alloc, row, cond, calls)?;
    }
    Ok(())
}

/// Puts the calls of the items that are none of those there behind them. If memory runs out, some are.
pub fn push_list_calls(
    alloc: Global,
    row: &Row,
    items: &[ItemTree],
    calls: &mut Items<BlockCall>,
) -> Result<(), NoMemory>
    ensures { OnOk result (calls.new ≡ with_calls row.now calls.old (flat_map leaves_of_item items.now)) }
{
    for item in items {
        push_item_calls(alloc, row, item, calls)?;
    }
    Ok(())
}

fn push_item_calls(
    alloc: Global,
    row: &Row,
    item: &ItemTree,
    calls: &mut Items<BlockCall>,
) -> Result<(), NoMemory>
    ensures { OnOk result (calls.new ≡ with_calls row.now calls.old (leaves_of_item item.now)) }
{
    match item {
        ItemTree::Expr { expr, .. } => push_calls(alloc, row, expr, calls),
        ItemTree::Star | ItemTree::StarOf(_) => Ok(()),
    }
}

// Puts the call behind the others if it is none of them.
#[tactic(auto, using(crate::proofs::TypesCalls::keep_forms))]
fn push_new(call: BlockCall, calls: &mut Items<BlockCall>) -> Result<(), NoMemory>
    ensures { OnOk result (calls.new ≡ keep_call calls.old call) }
{
    if call_place(calls.as_slice(), &call).is_none() {
        calls.push(call)?;
    }
    Ok(())
}

/// The place of the first call that is the same. Takes no memory.
pub fn call_place(calls: &[BlockCall], call: &BlockCall) -> Option<usize>
    ensures place { result ≡ position (is_same_call call.now) calls.now }
    ensures few { unwrap_or result 0 ≤ length calls.now }
{
    for (i, other) in calls.iter().enumerate() {
        if is_same_call(call, other) {
            return Some(i);
        }
    }
    None
}

// Whether the two calls are the same.
fn is_same_call(call: &BlockCall, other: &BlockCall) -> bool
    ensures { result ≡ is_same_call call.now other.now }
{
    call.func == other.func && same_argument(&call.arg, &other.arg)
}

#[tactic(auto, using(crate::proofs::TypesCalls::same_forms))]
fn same_argument(arg: &Option<Expr>, other: &Option<Expr>) -> bool
    ensures { result ≡ same_argument arg.now other.now }
{
    match (arg, other) {
        (None, None) => true,
        (Some(arg), Some(other)) => arg.is_same(other),
        _ => false,
    }
}
