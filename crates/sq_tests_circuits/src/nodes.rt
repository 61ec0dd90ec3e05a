//! Each kind of node over small tables: what it shows, and whom it blames.
ghost use Rattle.std.specs.Prelude.{◌≡◌, ◌∷◌, [], Some, IsTrue, IfOk};
ghost use Rattle.sq_expr.specs.Typing.{sort_of};
ghost use Rattle.sq_expr.specs.declared.typing.Sort.TheVariants.{Numeric as Numbers};
ghost use Rattle.sq_tests_circuits.specs.Small.{IsSample, by_number, numbers, totals};

use crate::circuits::{Answer, answer_of, blamed, check_node, small_circuit};
use sq_circuit::{Circuit, LinearOp, Node, explain};
use sq_expr::{Cmp, Cond, Expr, Func, Kind, Sort, expr_sort, suits, suits_cond};
use sq_ops::{AggSpec, Call, Keep, Pad, Pairing, Project};
use sq_value::NoMemory;
use sqlite_items::{Boxed, Items};
use std::alloc::Global;
use std::test::Fail;

// What is kept of the first table under a condition.
fn kept(alloc: Global, cond: Cond, first: &[(i64, i64)]) -> Result<Answer, Fail> {
    if !suits_cond(&cond, &[Kind::Bigint]) {
        return Ok(None);
    }
    let op = LinearOp::Keep(Keep { cond });
    let circuit = small_circuit(alloc, Node::Linear { input: 0, op }, &[Kind::Bigint], true)?;
    answer_of(alloc, &circuit, first, &[])
}

#[test]
fn rows_are_kept(rt: HostRuntime) -> Result<(), Fail> {
    let alloc = rt.alloc();
    let above_one = Cond::Compare {
        cmp: Cmp::Gt,
        left: Expr::Column(0),
        right: Expr::Number(1),
    };
    let answer = kept(alloc, above_one, &[(1, 5), (2, 3)])?;
    check_node(&rt, alloc, answer, 3, 1, &[Some(2)], 3)
}

// Whether the expression is a number.
fn is_number(expr: &Expr) -> bool
    ensures { IsTrue result → sort_of numbers expr.now ≡ Some Numbers }
{
    match expr_sort(expr, &[Kind::Bigint]) {
        Some(Sort::Numeric) => true,
        Some(Sort::Textual) => false,
        None => false,
    }
}

// One item.
fn item(alloc: Global, expr: Expr) -> Result<Items<Expr>, NoMemory>
    ensures { IfOk result (λ items. items ≡ expr ∷ []) }
{
    let mut items = Items::new(alloc);
    items.push(expr)?;
    Ok(items)
}

// The first table projected to one item.
fn projected(alloc: Global, expr: Expr, first: &[(i64, i64)]) -> Result<Answer, Fail> {
    if !suits(&expr, &[Kind::Bigint]) {
        return Ok(None);
    }
    if !is_number(&expr) {
        return Ok(None);
    }
    let items = item(alloc, expr)?;
    let op = LinearOp::Project(Project { items });
    let circuit = small_circuit(alloc, Node::Linear { input: 0, op }, &[Kind::Bigint], true)?;
    answer_of(alloc, &circuit, first, &[])
}

// The number with the other sign.
fn negated(alloc: Global) -> Result<Expr, Fail> {
    Ok(Expr::Neg(Boxed::new(alloc, Expr::Column(0))?))
}

#[test]
fn rows_are_projected(rt: HostRuntime) -> Result<(), Fail> {
    let alloc = rt.alloc();
    let answer = projected(alloc, negated(alloc)?, &[(4, 3)])?;
    check_node(&rt, alloc, answer, 3, 1, &[Some(-4)], 3)
}

#[test]
fn an_item_outside_bigint_is_a_fault(rt: HostRuntime) -> Result<(), Fail> {
    let alloc = rt.alloc();
    let answer = projected(alloc, negated(alloc)?, &[(i64::MIN, 1), (4, 1)])?;
    assert!(&rt; blamed(answer) == Some(0), "the view 0");
    Ok(())
}

// The first table with a NULL behind each row.
fn padded(alloc: Global, first: &[(i64, i64)]) -> Result<Answer, Fail> {
    let op = LinearOp::Pad(Pad { nulls: 1 });
    let kinds = [Kind::Bigint, Kind::Text];
    let circuit = small_circuit(alloc, Node::Linear { input: 0, op }, &kinds, true)?;
    answer_of(alloc, &circuit, first, &[])
}

#[test]
fn rows_are_padded(rt: HostRuntime) -> Result<(), Fail> {
    let alloc = rt.alloc();
    let answer = padded(alloc, &[(4, 3)])?;
    check_node(&rt, alloc, answer, 3, 1, &[Some(4), None], 3)
}

// The join by the number.
fn by_number(alloc: Global) -> Result<Pairing, NoMemory>
    ensures { IfOk result (λ op. op ≡ by_number) }
{
    let left = Items::from_slice(alloc, &[0])?;
    let right = Items::from_slice(alloc, &[0])?;
    let items = Items::from_slice(alloc, &[0, 1])?;
    Ok(Pairing {
        left,
        right,
        nulls_match: false,
        keep: Cond::All(Items::new(alloc)),
        items,
    })
}

fn join_circuit(alloc: Global) -> Result<Circuit, NoMemory>
    ensures { IfOk result IsSample }
{
    let op = by_number(alloc)?;
    let kinds = [Kind::Bigint, Kind::Bigint];
    let node = Node::Join {
        left: 0,
        right: 1,
        op,
    };
    small_circuit(alloc, node, &kinds, true)
}

fn joined(alloc: Global, first: &[(i64, i64)], second: &[(i64, i64)]) -> Result<Answer, Fail> {
    let circuit = join_circuit(alloc)?;
    answer_of(alloc, &circuit, first, second)
}

#[test]
fn each_node_has_a_line(rt: HostRuntime) -> Result<(), Fail> {
    let alloc = rt.alloc();
    let circuit = join_circuit(alloc)?;
    let text = explain(alloc, &circuit)?;
    let lines =
        b"{\"node\":0,\"kind\":\"table\",\"inputs\":[]}\n{\"node\":1,\"kind\":\"table\",\"inputs\":[]}\n{\"node\":2,\"kind\":\"join\",\"inputs\":[0,1]}\n{\"node\":3,\"kind\":\"view\",\"inputs\":[2]}\n";
    assert!(rt; text.as_slice() == lines.as_slice(), "other lines");
    Ok(())
}

#[test]
fn rows_with_the_same_number_are_joined(rt: HostRuntime) -> Result<(), Fail> {
    let alloc = rt.alloc();
    let answer = joined(alloc, &[(1, 2), (2, 3)], &[(2, 5), (3, 1)])?;
    check_node(&rt, alloc, answer, 3, 1, &[Some(2), Some(2)], 15)
}

fn distinct(alloc: Global, first: &[(i64, i64)]) -> Result<Answer, Fail> {
    let circuit = small_circuit(alloc, Node::Distinct { input: 0 }, &[Kind::Bigint], true)?;
    answer_of(alloc, &circuit, first, &[])
}

#[test]
fn distinct_rows_count_once(rt: HostRuntime) -> Result<(), Fail> {
    let alloc = rt.alloc();
    let answer = distinct(alloc, &[(1, 5), (2, 1)])?;
    check_node(&rt, alloc, answer, 3, 2, &[Some(1)], 1)
}

// How many rows there are, and the sum of their numbers.
fn totals(alloc: Global) -> Result<AggSpec, NoMemory>
    ensures { IfOk result (λ spec. spec ≡ totals) }
{
    let count = Call {
        func: Func::CountAll,
        arg: 0,
    };
    let sum = Call {
        func: Func::Sum,
        arg: 0,
    };
    let calls = Items::from_slice(alloc, &[count, sum])?;
    Ok(AggSpec {
        group: Items::new(alloc),
        calls,
        global: true,
    })
}

fn aggregated(alloc: Global, first: &[(i64, i64)]) -> Result<Answer, Fail> {
    let spec = totals(alloc)?;
    let kinds = [Kind::Bigint, Kind::Bigint];
    let circuit = small_circuit(alloc, Node::Aggregate { input: 0, spec }, &kinds, true)?;
    answer_of(alloc, &circuit, first, &[])
}

#[test]
fn rows_are_counted_and_added_up(rt: HostRuntime) -> Result<(), Fail> {
    let alloc = rt.alloc();
    let answer = aggregated(alloc, &[(2, 3), (5, 1)])?;
    check_node(&rt, alloc, answer, 3, 1, &[Some(4), Some(11)], 1)
}

#[test]
fn no_rows_have_a_row_of_totals(rt: HostRuntime) -> Result<(), Fail> {
    let alloc = rt.alloc();
    let answer = aggregated(alloc, &[])?;
    check_node(&rt, alloc, answer, 3, 1, &[Some(0), None], 1)
}

#[test]
fn a_sum_outside_bigint_is_a_fault(rt: HostRuntime) -> Result<(), Fail> {
    let alloc = rt.alloc();
    let answer = aggregated(alloc, &[(i64::MAX, 2)])?;
    assert!(&rt; blamed(answer) == Some(0), "the view 0");
    Ok(())
}

fn added(alloc: Global, first: &[(i64, i64)], second: &[(i64, i64)]) -> Result<Answer, Fail> {
    let node = Node::Plus { left: 0, right: 1 };
    let circuit = small_circuit(alloc, node, &[Kind::Bigint], true)?;
    answer_of(alloc, &circuit, first, second)
}

#[test]
fn weights_add_up(rt: HostRuntime) -> Result<(), Fail> {
    let alloc = rt.alloc();
    let answer = added(alloc, &[(1, 2), (2, 3)], &[(2, 5)])?;
    check_node(&rt, alloc, answer, 3, 2, &[Some(2)], 8)
}

fn subtracted(alloc: Global, first: &[(i64, i64)], second: &[(i64, i64)]) -> Result<Answer, Fail> {
    let node = Node::Minus { left: 0, right: 1 };
    let circuit = small_circuit(alloc, node, &[Kind::Bigint], false)?;
    answer_of(alloc, &circuit, first, second)
}

#[test]
fn a_difference_has_both_signs(rt: HostRuntime) -> Result<(), Fail> {
    let alloc = rt.alloc();
    let above = subtracted(alloc, &[(1, 2), (2, 3)], &[(1, 5), (2, 1)])?;
    check_node(&rt, alloc, above, 3, 2, &[Some(2)], 2)?;
    let below = subtracted(alloc, &[(1, 2), (2, 3)], &[(1, 5), (2, 1)])?;
    check_node(&rt, alloc, below, 3, 2, &[Some(1)], -3)
}
