//! Expressions and conditions: that calls succeed with ample memory. What they mean is computed in `specs/Meanings.antt`.

use crate::fixtures::{row_of, text_of};
use sq_expr::{
    Cmp, Cond, Expr, ItemFault, Kind, OutOfRange, Term, bound, is_of_kinds, item, suits, to_i64,
};
use sq_value::{Row, Str, Value};
use sqlite_items::{Boxed, Items};
use std::alloc::Global;
use std::process::Abort;
use std::test::Fail;

#[test]
fn numbers_end_at_64_bits(rt: HostRuntime) {
    for value in [i64::MIN, -1, 0, 1, i64::MAX] {
        assert_eq!(rt; to_i64(i128::from(value)), Ok(value));
    }
    for value in [
        i128::MIN,
        -9223372036854775809,
        9223372036854775808,
        i128::MAX,
    ] {
        assert_eq!(rt; to_i64(value), Err(OutOfRange { value }));
    }
}

#[test]
fn bounds_of_columns_are_those_of_their_kinds(rt: HostRuntime) {
    let kinds = [Kind::Integer, Kind::Bigint, Kind::Text];
    for (at, expected) in [(0, 1 << 31), (1, 1 << 63), (2, 0)] {
        assert_eq!(rt; bound(&Expr::Column(at), &kinds), Some(expected));
    }
}

#[test]
fn rows_hold_values_of_their_kinds(rt: HostRuntime) -> Result<(), Fail> {
    let alloc = rt.alloc();
    let rows = [
        (-2147483649, false),
        (-2147483648, true),
        (2147483647, true),
        (2147483648, false),
    ];
    for (number, expected) in rows {
        let row = row_of(alloc, &[None, Some(number)])?;
        assert_eq!(rt; is_of_kinds(&row, &[Kind::Text, Kind::Integer]), expected);
        assert!(rt; is_of_kinds(&row, &[Kind::Integer, Kind::Bigint]));
        assert!(rt; !is_of_kinds(&row, &[Kind::Integer, Kind::Text]));
        assert!(rt; !is_of_kinds(&row, &[Kind::Integer]));
    }
    Ok(())
}

// The item on the row, where the expression and the row are of these kinds.
#[tactic(auto, using(sq_expr::proofs::FitsLemmas::fits_of))]
fn item_on(
    alloc: Global,
    expr: &Expr,
    row: &Row,
    kinds: &[Kind],
) -> Option<Result<Value, ItemFault>> {
    if suits(expr, kinds) && is_of_kinds(row, kinds) {
        Some(item(alloc, expr, row))
    } else {
        None
    }
}

#[test]
fn texts_are_items(rt: HostRuntime) -> Result<(), Fail> {
    let alloc = rt.alloc();
    let text = text_of(alloc, "źdźbło")?;
    let row = Row::of(vec![in alloc; text_of(alloc, "źdźbło")?]?);
    assert!(rt; item_on(alloc, &Expr::Column(0), &row, &[Kind::Text]) == Some(Ok(text)));
    assert!(rt; item_on(alloc, &Expr::Column(1), &row, &[Kind::Text]).is_none());
    Ok(())
}

#[test]
fn numbers_are_items(rt: HostRuntime) -> Result<(), Fail> {
    let alloc = rt.alloc();
    let row = row_of(alloc, &[Some(5)])?;
    assert!(rt;
        item_on(alloc, &Expr::Column(0), &row, &[Kind::Integer]) == Some(Ok(Value::Int(5)))
    );
    Ok(())
}

// The first column times itself.
fn square(alloc: Global) -> Result<Expr, Fail> {
    let mut factors = Items::new(alloc);
    for _ in 0..2 {
        factors.push(Expr::Column(0))?;
    }
    Ok(Expr::Product(factors))
}

// The first column less the second, with its sign turned.
fn negative_difference(alloc: Global) -> Result<Expr, Fail> {
    let mut terms = Items::new(alloc);
    for (minus, at) in [(false, 0), (true, 1)] {
        terms.push(Term {
            minus,
            expr: Expr::Column(at),
        })?;
    }
    Ok(Expr::Neg(Boxed::new(alloc, Expr::Sum(terms))?))
}

fn comparison(alloc: Global) -> Result<Cond, Fail> {
    let left = square(alloc)?;
    Ok(Cond::Compare {
        cmp: Cmp::Ne,
        left,
        right: negative_difference(alloc)?,
    })
}

fn comparison_of_texts(alloc: Global) -> Result<Cond, Fail> {
    Ok(Cond::Compare {
        cmp: Cmp::Lt,
        left: Expr::Number(2),
        right: Expr::Text(Str::of(alloc, "x")?),
    })
}

// A condition of each form: none of two comparisons, and these once more.
fn each_form(alloc: Global) -> Result<Cond, Fail> {
    let mut choices = Items::new(alloc);
    choices.push(comparison(alloc)?)?;
    choices.push(comparison_of_texts(alloc)?)?;
    negation(alloc, Cond::Any(choices))
}

// Both that the condition does not hold, and that the first column is not NULL.
fn negation(alloc: Global, cond: Cond) -> Result<Cond, Fail> {
    let mut members = Items::new(alloc);
    members.push(Cond::Not(Boxed::new(alloc, cond)?))?;
    members.push(stands_at(0))?;
    Ok(Cond::All(members))
}

#[test]
fn copies_are_the_same(rt: HostRuntime) -> Result<(), Fail> {
    let alloc = rt.alloc();
    let cond = each_form(alloc)?;
    let copy = cond.clone_cond(alloc)?;
    assert!(rt; copy.is_same(&cond));
    assert!(rt; !copy.is_same(&stands_at(0)));
    Ok(())
}

#[test]
fn shifted_columns_stand_further_on(rt: HostRuntime) -> Result<(), Fail> {
    let alloc = rt.alloc();
    let column = Expr::Column(1);
    let shifted = column.shifted(alloc, 2)?;
    assert!(rt; shifted.is_same(&Expr::Column(3)));
    assert!(rt; !shifted.is_same(&column));
    Ok(())
}

// Whether the column is not NULL.
fn stands_at(column: u32) -> Cond {
    Cond::Null {
        expr: Expr::Column(column),
        negated: true,
    }
}

fn check_shifted(rt: &impl Abort, shifted: &Cond) {
    assert!(rt; shifted.is_same(&stands_at(3)));
    assert!(rt; !shifted.is_same(&stands_at(1)));
}

#[test]
fn shifted_conditions_test_further_on(rt: HostRuntime) -> Result<(), Fail> {
    let cond = Cond::Null {
        expr: Expr::Column(1),
        negated: true,
    };
    let shifted = cond.shifted(rt.alloc(), 2)?;
    check_shifted(&rt, &shifted);
    Ok(())
}
