//! Which references of a block find no column, and which find several.
ghost use Rattle.std.specs.Prelude.{◌≡◌, take};
ghost use Rattle.std.specs.List.{flat_map, list_any};
ghost use Rattle.sq_scope.specs.NamesReferences.{is_at_fault};
ghost use Rattle.sq_scope.specs.Scoped.{ons_from, scoped_by};
ghost use Rattle.sq_typed.specs.Faults as faults;
ghost use Rattle.sq_typed.specs.Faults.{is_unknown_star, item_exprs, references};
ghost use Rattle.sq_typed.specs.Leaves.{exprs_in, exprs_of, refs};
ghost use Rattle.sq_typed.specs.Resolved.{on_cond};

use crate::{Found, Scope};
use sq_ast::{BlockTree, ColRef, CondTree, ExprTree, ItemTree, JoinTree, JoinedTree};
use sqlite_items::Items;

// What can be wrong with a reference.
#[derive(Clone, Copy, Debug, PartialEq, Eq)]
enum ColumnFault {
    // It finds no column.
    Unknown,
    // It has no qualifier, and finds several.
    Ambiguous,
}

/// Whether the block over these sources has a reference that finds no column, or a star of a source that is not there.
/// Takes no memory.
pub fn has_unknown_column(scope: &Scope, block: &BlockTree) -> bool
    ensures { result ≡ faults.has_unknown_column (scoped_by scope.now block.now) }
{
    any_in_block(ColumnFault::Unknown, scope, block)
        || any_unknown_star(scope, block.items.as_slice())
}

/// Whether the block over these sources has a reference without a qualifier that finds several columns. Takes no memory.
pub fn has_ambiguous_column(scope: &Scope, block: &BlockTree) -> bool
    ensures { result ≡ faults.has_ambiguous_column (scoped_by scope.now block.now) }
{
    any_in_block(ColumnFault::Ambiguous, scope, block)
}

// Whether the reference has the fault among so many of the sources.
fn is_at_fault(fault: ColumnFault, scope: &Scope, sources: usize, r: &ColRef) -> bool
    ensures { result ≡ is_at_fault fault (take sources scope.now) r.now }
{
    match fault {
        ColumnFault::Unknown => scope.found(sources, r) == Found::Nothing,
        ColumnFault::Ambiguous => {
            r.qualifier.is_none() && scope.found(sources, r) == Found::Several
        }
    }
}

// Whether a reference in the expression has the fault.
fn any_in_expr(fault: ColumnFault, scope: &Scope, sources: usize, expr: &ExprTree) -> bool
    ensures { result ≡ list_any (is_at_fault fault (take sources scope.now)) (refs expr.now) }
{
    match expr {
        ExprTree::Sum(terms) => {
            let mut any = false;
            for term in terms.as_slice() {
                any |= any_in_expr(fault, scope, sources, &term.expr);
            }
            any
        }
        ExprTree::Product(factors) => {
            let mut any = false;
            for factor in factors.as_slice() {
                any |= any_in_expr(fault, scope, sources, factor);
            }
            any
        }
        ExprTree::Neg(operand) => any_in_expr(fault, scope, sources, operand.get()),
        ExprTree::Number(_) => false,
        ExprTree::Text(_) => false,
        ExprTree::Column(r) => is_at_fault(fault, scope, sources, r),
        ExprTree::Call { arg, .. } => match arg {
            None => false,
            Some(expr) => any_in_expr(fault, scope, sources, expr.get()),
        },
    }
}

// Whether a reference in the condition has the fault.
#[cycle(conds)]
fn any_in_cond(fault: ColumnFault, scope: &Scope, sources: usize, cond: &CondTree) -> bool
    ensures { result ≡ list_any (is_at_fault fault (take sources scope.now)) (flat_map refs (exprs_in cond.now)) }
{
    match cond {
        CondTree::Any(choices) => any_in_conds(fault, scope, sources, choices),
        CondTree::All(members) => any_in_conds(fault, scope, sources, members),
        CondTree::Not(operand) => any_in_cond(fault, scope, sources, operand.get()),
        CondTree::Compare { left, right, .. } => {
            any_in_expr(fault, scope, sources, left) || any_in_expr(fault, scope, sources, right)
        }
        CondTree::Null { expr, .. } => any_in_expr(fault, scope, sources, expr),
    }
}

#[cycle(conds)]
fn any_in_conds(fault: ColumnFault, scope: &Scope, sources: usize, conds: &Items<CondTree>) -> bool
    ensures { result ≡ list_any (λ c. list_any (is_at_fault fault (take sources scope.now)) (flat_map refs (exprs_in c))) conds.now }
{
    let mut any = false;
    for cond in conds.as_slice() {
        any |= any_in_cond(fault, scope, sources, cond);
    }
    any
}

// Whether a reference in the condition, if there is one, has the fault.
fn any_in_clause(fault: ColumnFault, scope: &Scope, sources: usize, cond: &Option<CondTree>) -> bool
    ensures { result ≡ list_any (is_at_fault fault (take sources scope.now)) (flat_map refs (exprs_of cond.now)) }
{
    match cond {
        None => false,
        Some(cond) => any_in_cond(fault, scope, sources, cond),
    }
}

// Whether a reference in the select list has the fault.
fn any_in_items(fault: ColumnFault, scope: &Scope, items: &[ItemTree]) -> bool
    ensures { result ≡ list_any (is_at_fault fault scope.now) (flat_map refs (flat_map item_exprs items.now)) }
{
    let mut any = false;
    for item in items {
        any |= any_in_item(fault, scope, item);
    }
    any
}

fn any_in_item(fault: ColumnFault, scope: &Scope, item: &ItemTree) -> bool
    ensures { result ≡ list_any (is_at_fault fault scope.now) (flat_map refs (item_exprs item.now)) }
{
    match item {
        ItemTree::Star => false,
        ItemTree::StarOf(_) => false,
        ItemTree::Expr { expr, .. } => any_in_expr(fault, scope, scope.len(), expr),
    }
}

// Whether a column of GROUP BY has the fault.
fn any_in_group(fault: ColumnFault, scope: &Scope, group: &[ColRef]) -> bool
    ensures { result ≡ list_any (is_at_fault fault scope.now) group.now }
{
    let mut any = false;
    for r in group {
        any |= is_at_fault(fault, scope, scope.len(), r);
    }
    any
}

// Whether a reference in a condition of ON has the fault among the sources up to its own.
fn any_in_joins(fault: ColumnFault, scope: &Scope, joins: &[JoinedTree]) -> bool
    ensures { result ≡ list_any (λ on. list_any (is_at_fault fault on.0) (flat_map refs (exprs_in on.1))) (ons_from 0 scope.now joins.now) }
{
    let mut any = false;
    for (i, joined) in joins.iter().enumerate() {
        any |= any_in_join(fault, scope, i + 1, &joined.join);
    }
    any
}

fn any_in_join(fault: ColumnFault, scope: &Scope, sources: usize, join: &JoinTree) -> bool
    ensures { result ≡ list_any (λ on. list_any (is_at_fault fault on.0) (flat_map refs (exprs_in on.1))) (on_cond (take sources scope.now) join.now) }
{
    match join {
        JoinTree::Comma => false,
        JoinTree::Inner(on) => any_in_cond(fault, scope, sources, on),
        JoinTree::Left(on) => any_in_cond(fault, scope, sources, on),
    }
}

// Whether a reference of the block has the fault.
fn any_in_block(fault: ColumnFault, scope: &Scope, block: &BlockTree) -> bool
    ensures { result ≡ list_any (λ r. is_at_fault fault r.0 r.1) (references (scoped_by scope.now block.now)) }
{
    let all = scope.len();
    let in_items = any_in_items(fault, scope, block.items.as_slice());
    let in_filter = any_in_clause(fault, scope, all, &block.filter);
    let in_having = any_in_clause(fault, scope, all, &block.having);
    let in_group = any_in_group(fault, scope, block.group.as_slice());
    let in_joins = any_in_joins(fault, scope, block.sources.as_slice());
    in_items | in_filter | in_having | in_group | in_joins
}

// Whether an item is the star of a source that is not there.
fn any_unknown_star(scope: &Scope, items: &[ItemTree]) -> bool
    ensures { result ≡ list_any (is_unknown_star scope.now) items.now }
{
    let mut any = false;
    for item in items {
        any |= is_unknown_star(scope, item);
    }
    any
}

fn is_unknown_star(scope: &Scope, item: &ItemTree) -> bool
    ensures { result ≡ is_unknown_star scope.now item.now }
{
    match item {
        ItemTree::Star => false,
        ItemTree::StarOf(name) => !scope.has_source(name),
        ItemTree::Expr { .. } => false,
    }
}
