//! The tests of types and of bounds that the expressions and conditions of a block have to pass.
ghost use Rattle.std.specs.Prelude.{◌≡◌, IfOk, is_none, map, option_to_list, slice_get};
ghost use Rattle.std.specs.List.{list_any};
ghost use Rattle.sq_expr.specs.Typing.{is_numeric};
ghost use Rattle.sq_expr.specs.declared.expr.Expr.TheVariants.{Column};
ghost use Rattle.sq_typed.specs.Faults.{has_mixed_types, has_wide_expr, sums_text};
ghost use Rattle.sq_typed.specs.Resolved.{on_cond};
ghost use Rattle.sq_typed.specs.Selected.{written_out};
ghost use Rattle.sq_typed.specs.Sizes.{HasFewGroups};
ghost use Rattle.sq_scope.specs.Scoped.{ons_from, scoped_by};
ghost use Rattle.sq_scope.specs.TypesItems.{chosen_of};
ghost use Rattle.sq_check.specs.TypesTests.{call_fails, cond_fails, conds_fail, exprs_fail, fails, having_fails, item_fails, on_fails};
ghost use Rattle.sq_check.specs.declared.type_tests.Test.TheVariants.{Bounds};

use crate::frame::Frame;
use sq_ast::{BlockTree, CondTree, ItemTree, JoinTree, JoinedTree};
use sq_expr::{Cond, Expr, Func, Kind, Sort, bound, expr_sort, is_bounded, is_typed};
use sq_scope::{ListItem, Row, Scope, chosen, each_star_once, group_cond, row_cond};
use sq_typed::BlockCall;
use sq_value::NoMemory;
use std::alloc::Global;

/// What the expressions and conditions of a block have to have.
#[derive(Clone, Copy)]
pub(crate) enum Test {
    /// A type.
    Types,
    /// A static bound that is within the limit, as have all expressions inside.
    Bounds,
}

/// Whether a comparison in the block has a number and a text, or arithmetic or SUM has a text, or a column of an expression is
/// not there. `NoMemory` if memory runs out.
pub fn has_mixed_types(alloc: Global, scope: &Scope, block: &BlockTree) -> Result<bool, NoMemory>
    requires { HasFewGroups block.now }
    ensures { IfOk result (λ found. found ≡ has_mixed_types (scoped_by scope.now block.now)) }
{
    let frame = Frame::of(alloc, scope, block)?;
    let in_exprs = exprs_fail(alloc, Test::Types, &frame, scope, block)?;
    let in_conds = conds_fail(alloc, Test::Types, &frame, scope, block)?;
    let in_sums = any_sums_text(frame.row.kinds(), frame.groups.calls.as_slice());
    Ok(in_exprs | in_conds | in_sums)
}

/// Whether the static bound of an expression of the block is above 2^127 - 1. `NoMemory` if memory runs out.
pub fn has_wide_expr(alloc: Global, scope: &Scope, block: &BlockTree) -> Result<bool, NoMemory>
    requires { HasFewGroups block.now }
    ensures { IfOk result (λ found. found ≡ has_wide_expr (scoped_by scope.now block.now)) }
{
    let frame = Frame::of(alloc, scope, block)?;
    let in_exprs = exprs_fail(alloc, Test::Bounds, &frame, scope, block)?;
    let in_conds = conds_fail(alloc, Test::Bounds, &frame, scope, block)?;
    Ok(in_exprs | in_conds)
}

// Whether an item or an argument of a call fails the test.
fn exprs_fail(
    alloc: Global,
    test: Test,
    frame: &Frame,
    scope: &Scope,
    block: &BlockTree,
) -> Result<bool, NoMemory>
    ensures { IfOk result (λ found. found ≡ exprs_fail test frame.now scope.now block.now) }
{
    let in_items = any_item_fails(alloc, test, frame, scope, block.items.as_slice())?;
    let in_calls = any_call_fails(test, frame.row.kinds(), frame.groups.calls.as_slice());
    Ok(in_items | in_calls)
}

fn any_item_fails(
    alloc: Global,
    test: Test,
    frame: &Frame,
    scope: &Scope,
    items: &[ItemTree],
) -> Result<bool, NoMemory>
    ensures { IfOk result (λ found. found ≡ list_any (λ i. list_any (item_fails test frame.now) (written_out scope.now i)) items.now) }
{
    let told_apart = each_star_once(alloc, items)?;
    let found = any_told_item_fails(alloc, test, frame, scope, told_apart.as_slice())?;
    Ok(found)
}

fn any_told_item_fails(
    alloc: Global,
    test: Test,
    frame: &Frame,
    scope: &Scope,
    items: &[&ItemTree],
) -> Result<bool, NoMemory>
    ensures { IfOk result (λ found. found ≡ list_any (λ i. list_any (item_fails test frame.now) (written_out scope.now i.now)) items.now) }
{
    let mut found = false;
    for item in items {
        let fails = item_fails(alloc, test, frame, scope, *item)?;
        found |= fails;
    }
    Ok(found)
}

fn item_fails(
    alloc: Global,
    test: Test,
    frame: &Frame,
    scope: &Scope,
    item: &ItemTree,
) -> Result<bool, NoMemory>
    ensures { IfOk result (λ found. found ≡ list_any (item_fails test frame.now) (written_out scope.now item.now)) }
{
    let items = chosen(alloc, scope, item)?;
    any_listed_fails(alloc, test, frame, items.as_slice())
}

fn any_listed_fails(
    alloc: Global,
    test: Test,
    frame: &Frame,
    items: &[ListItem],
) -> Result<bool, NoMemory>
    ensures { IfOk result (λ found. found ≡ list_any (item_fails test frame.now) (map chosen_of items.now)) }
{
    let mut found = false;
    for item in items {
        let fails = listed_fails(alloc, test, frame, item)?;
        found |= fails;
    }
    Ok(found)
}

fn listed_fails(alloc: Global, test: Test, frame: &Frame, item: &ListItem) -> Result<bool, NoMemory>
    ensures { IfOk result (λ found. found ≡ item_fails test frame.now (chosen_of item.now)) }
{
    match item {
        ListItem::Starred { number, .. } => {
            Ok(column_fails(test, frame.kinds(), frame.place_of(*number) as usize))
        }
        ListItem::Written { expr, .. } => {
            let expr = frame.expr(alloc, expr)?;
            Ok(fails(test, frame.kinds(), &expr))
        }
    }
}

// Whether the column with this number fails the test: if it is not there, it has no type. No column is too wide.
#[tactic(auto, using(crate::proofs::TypesTests::column_forms))]
fn column_fails(test: Test, kinds: &[Kind], number: usize) -> bool
    ensures { result ≡ fails test kinds.now (Column number) }
{
    match test {
        Test::Types => is_missing(kinds, number),
        Test::Bounds => false,
    }
}

fn is_missing(kinds: &[Kind], number: usize) -> bool
    ensures { result ≡ is_none (slice_get kinds.now number) }
{
    match kinds.get(number) {
        Some(_) => false,
        None => true,
    }
}

fn any_call_fails(test: Test, kinds: &[Kind], calls: &[BlockCall]) -> bool
    ensures { result ≡ list_any (call_fails test kinds.now) calls.now }
{
    let mut found = false;
    for call in calls {
        found |= call_fails(test, kinds, call);
    }
    found
}

fn call_fails(test: Test, kinds: &[Kind], call: &BlockCall) -> bool
    ensures { result ≡ call_fails test kinds.now call.now }
{
    match &call.arg {
        Some(arg) => fails(test, kinds, arg),
        None => false,
    }
}

// Whether WHERE, a condition of ON or HAVING fails the test.
fn conds_fail(
    alloc: Global,
    test: Test,
    frame: &Frame,
    scope: &Scope,
    block: &BlockTree,
) -> Result<bool, NoMemory>
    ensures { IfOk result (λ found. found ≡ conds_fail test frame.now scope.now block.now) }
{
    let in_filter = filter_fails(alloc, test, &frame.row, &block.filter)?;
    let in_joins = any_join_fails(alloc, test, scope, block.sources.as_slice())?;
    let in_having = having_fails(alloc, test, frame, &block.having)?;
    Ok(in_filter | in_joins | in_having)
}

fn filter_fails(
    alloc: Global,
    test: Test,
    row: &Row,
    filter: &Option<CondTree>,
) -> Result<bool, NoMemory>
    ensures { IfOk result (λ found. found ≡ list_any (λ c. on_fails test (row.now, c)) (option_to_list filter.now)) }
{
    match filter {
        Some(filter) => on_fails(alloc, test, row, filter),
        None => Ok(false),
    }
}

fn on_fails(alloc: Global, test: Test, row: &Row, cond: &CondTree) -> Result<bool, NoMemory>
    ensures { IfOk result (λ found. found ≡ on_fails test (row.now, cond.now)) }
{
    let cond = row_cond(alloc, row, cond)?;
    Ok(cond_fails(test, row.kinds(), &cond))
}

fn any_join_fails(
    alloc: Global,
    test: Test,
    scope: &Scope,
    sources: &[JoinedTree],
) -> Result<bool, NoMemory>
    ensures { IfOk result (λ found. found ≡ list_any (on_fails test) (ons_from 0 scope.now sources.now)) }
{
    let mut found = false;
    for (i, source) in sources.iter().enumerate() {
        let row = Row::front(&*scope, i + 1);
        let fails = join_fails(alloc, test, &row, &source.join)?;
        found |= fails;
    }
    Ok(found)
}

fn join_fails(alloc: Global, test: Test, row: &Row, join: &JoinTree) -> Result<bool, NoMemory>
    ensures { IfOk result (λ found. found ≡ list_any (on_fails test) (on_cond row.now join.now)) }
{
    match join {
        JoinTree::Comma => Ok(false),
        JoinTree::Inner(on) | JoinTree::Left(on) => on_fails(alloc, test, row, on),
    }
}

fn having_fails(
    alloc: Global,
    test: Test,
    frame: &Frame,
    having: &Option<CondTree>,
) -> Result<bool, NoMemory>
    ensures { IfOk result (λ found. found ≡ list_any (having_fails test frame.now) (option_to_list having.now)) }
{
    match having {
        Some(having) => group_cond_fails(alloc, test, frame, having),
        None => Ok(false),
    }
}

fn group_cond_fails(
    alloc: Global,
    test: Test,
    frame: &Frame,
    having: &CondTree,
) -> Result<bool, NoMemory>
    ensures { IfOk result (λ found. found ≡ having_fails test frame.now having.now) }
{
    let cond = group_cond(alloc, &frame.row, &frame.groups, having)?;
    Ok(cond_fails(test, frame.group_kinds.as_slice(), &cond))
}

// Whether the expression over columns of these kinds fails the test.
fn fails(test: Test, kinds: &[Kind], expr: &Expr) -> bool
    ensures { result ≡ fails test kinds.now expr.now }
{
    match test {
        Test::Types => expr_sort(expr, kinds).is_none(),
        Test::Bounds => has_no_bound(expr, kinds),
    }
}

fn has_no_bound(expr: &Expr, kinds: &[Kind]) -> bool
    ensures { result ≡ fails Bounds kinds.now expr.now }
{
    match bound(expr, kinds) {
        Some(_) => false,
        None => true,
    }
}

// Whether the condition over columns of these kinds fails the test.
fn cond_fails(test: Test, kinds: &[Kind], cond: &Cond) -> bool
    ensures { result ≡ cond_fails test kinds.now cond.now }
{
    match test {
        Test::Types => !is_typed(cond, kinds),
        Test::Bounds => is_not_bounded(cond, kinds),
    }
}

fn is_not_bounded(cond: &Cond, kinds: &[Kind]) -> bool
    ensures { result ≡ cond_fails Bounds kinds.now cond.now }
{
    !is_bounded(cond, kinds)
}

// Whether one of the calls is a SUM of a text.
fn any_sums_text(kinds: &[Kind], calls: &[BlockCall]) -> bool
    ensures { result ≡ list_any (λ c. sums_text kinds.now c.func c.arg) calls.now }
{
    let mut found = false;
    for call in calls {
        found |= sums_text(kinds, call.func, &call.arg);
    }
    found
}

fn sums_text(kinds: &[Kind], func: Func, arg: &Option<Expr>) -> bool
    ensures { result ≡ sums_text kinds.now func arg.now }
{
    match (func, arg) {
        (Func::Sum, Some(arg)) => !is_number(expr_sort(arg, kinds)),
        (Func::Sum, None) => false,
        (Func::CountAll | Func::Count | Func::Min | Func::Max, _) => false,
    }
}

fn is_number(sort: Option<Sort>) -> bool
    ensures { result ≡ is_numeric sort }
{
    match sort {
        Some(Sort::Numeric) => true,
        Some(Sort::Textual) | None => false,
    }
}
