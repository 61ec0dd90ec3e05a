//! Circuits that are drawn from a number: three tables, nodes for three views, each of which reads nodes that are drawn, and the views.
ghost use Rattle.std.specs.Prelude.{◌<◌, ◌^◌, length, OnOk};
ghost use Rattle.sq_circuit.specs.Begun.{IsBegun};
ghost use Rattle.sq_tests_ticks.specs.Making.{IsInput, pairs};

use crate::drawn::{below, next};
use crate::ended::{ended, three_tables};
use crate::nodes::{
    add_distinct, add_front, add_groups, add_join, add_keep, add_minus, add_pad, add_plus,
    add_project, add_totals,
};
use crate::parts::{are_shown, is_input, is_read, is_shown};
use sq_circuit::{Circuit, Part};
use sq_expr::{Cmp, Cond, Expr, Func, Term};
use sq_value::NoMemory;
use sqlite_items::{Boxed, Items};
use std::alloc::Global;
use std::test::Fail;

// An expression over two columns.
fn expr_of(alloc: Global, number: u64) -> Result<Expr, Fail> {
    let column = Expr::Column(below(next(number), 2));
    match below(number, 8) {
        0 => Ok(Expr::Neg(Boxed::new(alloc, column)?)),
        1 => Ok(Expr::Number(2)),
        2 => {
            let mut terms = Items::new(alloc);
            terms.push(Term {
                minus: false,
                expr: column,
            })?;
            terms.push(Term {
                minus: true,
                expr: Expr::Column(1),
            })?;
            Ok(Expr::Sum(terms))
        }
        3 => {
            let mut factors = Items::new(alloc);
            factors.push(column)?;
            factors.push(Expr::Number(1 << (56 + below(next(next(number)), 7))))?;
            Ok(Expr::Product(factors))
        }
        _ => Ok(column),
    }
}

// A condition on so many columns.
fn cond_of(alloc: Global, columns: u32, number: u64) -> Cond
    requires { 0 < columns }
{
    let left = Expr::Column(below(next(number), columns));
    let right = Expr::Column(below(next(next(number)), columns));
    match below(number, 6) {
        0 => Cond::Null {
            expr: left,
            negated: false,
        },
        1 => Cond::Null {
            expr: left,
            negated: true,
        },
        2 => Cond::Compare {
            cmp: Cmp::Le,
            left,
            right,
        },
        3 => Cond::Compare {
            cmp: Cmp::Ne,
            left,
            right: Expr::Number(1),
        },
        _ => Cond::All(Items::new(alloc)),
    }
}

fn func_of(number: u64) -> Func {
    match below(number, 5) {
        0 => Func::CountAll,
        1 => Func::Count,
        2 => Func::Sum,
        3 => Func::Min,
        _ => Func::Max,
    }
}

// A Pad, and behind it a Project of what it gives.
fn add_padded(
    alloc: Global,
    input: u32,
    view: u32,
    number: u64,
    parts: &mut Vec<Part>,
) -> Result<(), NoMemory>
    requires begun { IsBegun 3 view parts.old.items }
    requires view { view < 3 }
    requires input { IsInput pairs parts.old.items input }
    ensures { OnOk result (IsBegun 3 view parts.new.items) }
{
    if parts.len() > 100 {
        return Ok(());
    }
    let pad = parts.len() as u32;
    add_pad(alloc, input, number % 2 == 0, view, parts)?;
    add_front(alloc, pad, below(number, 2), number % 3 == 0, view, parts)
}

// A node with one input.
fn add_unary(
    alloc: Global,
    input: u32,
    view: u32,
    number: u64,
    parts: &mut Vec<Part>,
) -> Result<(), Fail>
    requires begun { IsBegun 3 view parts.old.items }
    requires view { view < 3 }
    requires input { IsInput pairs parts.old.items input }
    ensures { OnOk result (IsBegun 3 view parts.new.items) }
{
    let place = number % 2 == 0;
    let more = next(number);
    match below(number, 5) {
        0 => {
            let cond = cond_of(alloc, 2, more);
            Ok(add_keep(alloc, input, cond, place, view, parts)?)
        }
        1 => {
            let first = expr_of(alloc, more)?;
            let second = expr_of(alloc, next(more))?;
            Ok(add_project(alloc, input, first, second, place, view, parts)?)
        }
        2 => Ok(add_padded(alloc, input, view, more, parts)?),
        3 => {
            let column = below(next(more), 2);
            let arg = below(next(next(more)), 2);
            Ok(add_groups(alloc, input, column, func_of(more), arg, place, view, parts)?)
        }
        _ => {
            let arg = below(next(next(more)), 2);
            let other = func_of(next(more));
            Ok(add_totals(alloc, input, func_of(more), other, arg, place, view, parts)?)
        }
    }
}

// A node with two inputs.
fn add_binary(
    alloc: Global,
    left: u32,
    right: u32,
    view: u32,
    number: u64,
    parts: &mut Vec<Part>,
) -> Result<(), NoMemory>
    requires begun { IsBegun 3 view parts.old.items }
    requires view { view < 3 }
    requires left { IsInput pairs parts.old.items left }
    requires right { IsInput pairs parts.old.items right }
    ensures { OnOk result (IsBegun 3 view parts.new.items) }
{
    let one = next(number);
    let two = next(one);
    let three = next(two);
    let four = next(three);
    match below(number, 4) {
        0 => add_plus(alloc, left, right, view, parts),
        1 => add_minus(alloc, left, right, view, parts),
        _ => {
            let columns = (below(one, 2), below(two, 2));
            let items = (below(three, 4), below(four, 4));
            let keep = cond_of(alloc, 4, next(four));
            let nulls_match = number % 2 == 0;
            add_join(
                alloc,
                (left, right),
                columns,
                items,
                nulls_match,
                keep,
                view,
                parts,
            )
        }
    }
}

// Each row of a node once, if it has two columns.
fn add_once(alloc: Global, input: u32, view: u32, parts: &mut Vec<Part>) -> Result<(), NoMemory>
    requires begun { IsBegun 3 view parts.old.items }
    requires view { view < 3 }
    ensures { OnOk result (IsBegun 3 view parts.new.items) }
{
    if !is_read(parts, input) {
        return Ok(());
    }
    add_distinct(alloc, input, view, parts)
}

// A node that reads nodes that are drawn; none if they can't be read so.
fn add_node(alloc: Global, view: u32, number: u64, parts: &mut Vec<Part>) -> Result<(), Fail>
    requires begun { IsBegun 3 view parts.old.items }
    requires view { view < 3 }
    ensures { OnOk result (IsBegun 3 view parts.new.items) }
{
    if parts.is_empty() {
        return Ok(());
    }
    if parts.len() > 100 {
        return Ok(());
    }
    let count = parts.len() as u32;
    let one = next(number);
    let left = below(one, count);
    let right = below(next(one), count);
    if number >> 60 < 2 {
        return Ok(add_once(alloc, left, view, parts)?);
    }
    if !is_input(parts, left) {
        return Ok(add_once(alloc, left, view, parts)?);
    }
    if number >> 60 < 9 {
        return add_unary(alloc, left, view, next(next(one)), parts);
    }
    if !is_input(parts, right) {
        return Ok(());
    }
    Ok(add_binary(alloc, left, right, view, next(next(one)), parts)?)
}

// Up to seven nodes for a view.
fn add_nodes(alloc: Global, view: u32, number: u64, parts: &mut Vec<Part>) -> Result<(), Fail>
    requires begun { IsBegun 3 view parts.old.items }
    requires view { view < 3 }
    ensures { OnOk result (IsBegun 3 view parts.new.items) }
{
    let mut number = number;
    for _ in 0..7 {
        number = next(number);
        add_node(alloc, view, number, parts)?;
    }
    Ok(())
}

// The last node that the view may show, of those up to a place; a table where there is no other.
fn shown(parts: &[Part], view: u32) -> u32 {
    let mut found = 0;
    for i in 0..parts.len() {
        if i < 1000 && is_shown(parts, view, i as u32) {
            found = i as u32;
        }
    }
    found
}

// The circuit of these parts, each of whose views shows the last node that it may show.
fn with_views(alloc: Global, parts: Vec<Part>) -> Result<Circuit, Fail>
    requires begun { IsBegun 3 2 parts.items }
    requires few { length parts.items < 2 ^ 20 }
{
    let first = shown(&parts, 0);
    let second = shown(&parts, 1);
    let third = shown(&parts, 2);
    if !are_shown(&parts, first, second, third) {
        return Err(Fail::from("no node to show"));
    }
    Ok(ended(alloc, parts, first, second, third)?)
}

/// The circuit that is drawn from a number.
pub fn generated(alloc: Global, number: u64) -> Result<Circuit, Fail> {
    let mut parts = three_tables(alloc)?;
    let one = next(number);
    let two = next(one);
    add_nodes(alloc, 0, number, &mut parts)?;
    add_nodes(alloc, 1, one, &mut parts)?;
    add_nodes(alloc, 2, two, &mut parts)?;
    if parts.len() > 1000 {
        return Err(Fail::from("too many nodes"));
    }
    with_views(alloc, parts)
}
