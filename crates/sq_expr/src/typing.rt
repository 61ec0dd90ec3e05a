//! Which expressions and conditions have a type, and which rows are of some kinds.
ghost use Rattle.std.specs.Prelude.{◌≡◌, ◌↔◌, IsTrue, slice_get};
ghost use Rattle.std.specs.List.{AllByRecursion, list_all};
ghost use Rattle.std.specs.Option.{option_map};
ghost use Rattle.sq_value.specs.declared.value.Value.TheVariants.{Int};
ghost use Rattle.sq_expr.specs.Bounds.{IsBounded, IsBoundedCond};
ghost use Rattle.sq_expr.specs.Fits.{Suits, SuitsCond};
ghost use Rattle.sq_expr.specs.Kinds.{AreOfKinds, IsOfKind};
ghost use Rattle.sq_expr.specs.Typing.{are_alike, arithmetic, is_numeric, is_typed_cond, sort_of, sort_of_kind};

use crate::{Cond, Expr, Kind, bound};
use sq_value::{Row, Value};
use sqlite_items::Items;

/// What an expression computes.
#[derive(Clone, Copy, Debug, PartialEq, Eq)]
pub enum Sort {
    /// Whole numbers.
    Numeric,
    /// Texts.
    Textual,
}

/// What the expression computes over columns of these kinds. None if it has no type: it names a column that
/// is not there, or does arithmetic with texts. Takes no memory.
pub fn expr_sort(expr: &Expr, kinds: &[Kind]) -> Option<Sort>
    ensures { result ≡ sort_of kinds.now expr.now }
{
    match expr {
        Expr::Column(at) => column_sort(kinds, *at),
        Expr::Number(_) => Some(Sort::Numeric),
        Expr::Text(_) => Some(Sort::Textual),
        Expr::Neg(operand) => arithmetic_sort(is_number(expr_sort(operand.get(), kinds))),
        Expr::Sum(terms) => {
            let mut numbers = true;
            for term in terms.as_slice() {
                numbers &= is_number(expr_sort(&term.expr, kinds));
            }
            arithmetic_sort(numbers)
        }
        Expr::Product(factors) => {
            let mut numbers = true;
            for factor in factors.as_slice() {
                numbers &= is_number(expr_sort(factor, kinds));
            }
            arithmetic_sort(numbers)
        }
    }
}

fn column_sort(kinds: &[Kind], at: u32) -> Option<Sort>
    ensures { result ≡ option_map sort_of_kind (slice_get kinds.now at) }
{
    match kinds.get(at as usize) {
        Some(Kind::Integer | Kind::Bigint) => Some(Sort::Numeric),
        Some(Kind::Text) => Some(Sort::Textual),
        None => None,
    }
}

fn is_number(sort: Option<Sort>) -> bool
    ensures { result ≡ is_numeric sort }
{
    match sort {
        Some(Sort::Numeric) => true,
        _ => false,
    }
}

fn arithmetic_sort(numbers: bool) -> Option<Sort>
    ensures { result ≡ arithmetic numbers }
{
    if numbers { Some(Sort::Numeric) } else { None }
}

fn alike(left: Option<Sort>, right: Option<Sort>) -> bool
    ensures { result ≡ are_alike left right }
{
    match (left, right) {
        (Some(Sort::Numeric), Some(Sort::Numeric)) => true,
        (Some(Sort::Textual), Some(Sort::Textual)) => true,
        _ => false,
    }
}

/// Whether the condition has a type over columns of these kinds: its expressions have one, and each comparison
/// has two numbers or two texts.
#[cycle(typed)]
pub fn is_typed(cond: &Cond, kinds: &[Kind]) -> bool
    ensures { result ≡ is_typed_cond kinds.now cond.now }
{
    match cond {
        Cond::Compare { left, right, .. } => alike(expr_sort(left, kinds), expr_sort(right, kinds)),
        Cond::Null { expr, .. } => expr_sort(expr, kinds).is_some(),
        Cond::Not(operand) => is_typed(operand.get(), kinds),
        Cond::All(members) => are_typed(members, kinds),
        Cond::Any(choices) => are_typed(choices, kinds),
    }
}

#[cycle(typed)]
fn are_typed(conds: &Items<Cond>, kinds: &[Kind]) -> bool
    ensures { result ≡ list_all (is_typed_cond kinds.now) conds.now }
{
    let mut typed = true;
    for cond in conds.as_slice() {
        typed &= is_typed(cond, kinds);
    }
    typed
}

fn has_bound(expr: &Expr, kinds: &[Kind]) -> bool
    ensures { IsTrue result ↔ IsBounded kinds.now expr.now }
{
    bound(expr, kinds).is_some()
}

/// Whether each expression in the condition, and each in that, has a bound over columns of these kinds.
#[cycle(bounded)]
pub fn is_bounded(cond: &Cond, kinds: &[Kind]) -> bool
    ensures { IsTrue result ↔ IsBoundedCond kinds.now cond.now }
{
    match cond {
        Cond::Compare { left, right, .. } => { has_bound(left, kinds) && has_bound(right, kinds) }
        Cond::Null { expr, .. } => has_bound(expr, kinds),
        Cond::Not(operand) => is_bounded(operand.get(), kinds),
        Cond::All(members) => are_bounded(members, kinds),
        Cond::Any(choices) => are_bounded(choices, kinds),
    }
}

#[cycle(bounded)]
fn are_bounded(conds: &Items<Cond>, kinds: &[Kind]) -> bool
    ensures { IsTrue result ↔ AllByRecursion (IsBoundedCond kinds.now) conds.now }
{
    for cond in conds.as_slice() {
        if !is_bounded(cond, kinds) {
            return false;
        }
    }
    true
}

/// Whether the expression can be computed on all rows of these kinds.
pub fn suits(expr: &Expr, kinds: &[Kind]) -> bool
    ensures { IsTrue result ↔ Suits kinds.now expr.now }
{
    expr_sort(expr, kinds).is_some() && has_bound(expr, kinds)
}

/// Whether the condition can be computed on all rows of these kinds.
pub fn suits_cond(cond: &Cond, kinds: &[Kind]) -> bool
    ensures { IsTrue result ↔ SuitsCond kinds.now cond.now }
{
    is_typed(cond, kinds) && is_bounded(cond, kinds)
}

/// Whether the row has as many values as there are kinds, each of its kind. NULL is of every kind.
pub fn is_of_kinds(row: &Row, kinds: &[Kind]) -> bool
    ensures { IsTrue result ↔ AreOfKinds row.now kinds.now }
{
    if row.len() != kinds.len() {
        return false;
    }
    for (i, kind) in kinds.iter().enumerate() {
        if !is_of_kind(row.at(i), *kind) {
            return false;
        }
    }
    true
}

fn is_of_kind(value: &Value, kind: Kind) -> bool
    ensures { IsTrue result ↔ IsOfKind value.now kind }
{
    match (value, kind) {
        (Value::Null, _) => true,
        (Value::Int(number), _) => is_number_of(*number, kind),
        (Value::Text(_), Kind::Text) => true,
        (Value::Text(_), _) => false,
    }
}

fn is_number_of(number: i64, kind: Kind) -> bool
    ensures { IsTrue result ↔ IsOfKind (Int number) kind }
{
    match kind {
        Kind::Integer => i32::try_from(number).is_ok(),
        Kind::Bigint => true,
        Kind::Text => false,
    }
}
