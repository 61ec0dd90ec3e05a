//! Whether two expressions or two conditions are the same.
ghost use Rattle.std.specs.Prelude.{◌≡◌, ◌↔◌, IsTrue};

use crate::{Cmp, Cond, Expr, Term};
use sq_value::Str;

impl Expr {
    /// Whether another expression is the same. Takes no memory.
    #[cycle(same)]
    pub fn is_same(&self, other: &Expr) -> bool
        ensures { IsTrue result ↔ (self.now ≡ other.now) }
    {
        match (self, other) {
            (Expr::Column(at), Expr::Column(other)) => *at == *other,
            (Expr::Number(number), Expr::Number(other)) => *number == *other,
            (Expr::Text(text), Expr::Text(other)) => same_text(text, other),
            (Expr::Neg(operand), Expr::Neg(other)) => operand.get().is_same(other.get()),
            (Expr::Sum(terms), Expr::Sum(others)) => {
                same_terms(terms.as_slice(), others.as_slice())
            }
            (Expr::Product(factors), Expr::Product(others)) => {
                same_factors(factors.as_slice(), others.as_slice())
            }
            _ => false,
        }
    }
}

#[cycle(same)]
fn same_terms(terms: &[Term], others: &[Term]) -> bool
    ensures { IsTrue result ↔ (terms.now ≡ others.now) }
{
    if terms.len() != others.len() {
        return false;
    }
    for i in 0..terms.len() {
        if !same_term(&terms[i], &others[i]) {
            return false;
        }
    }
    true
}

#[cycle(same)]
fn same_term(term: &Term, other: &Term) -> bool
    ensures { IsTrue result ↔ (term.now ≡ other.now) }
{
    term.minus == other.minus && term.expr.is_same(&other.expr)
}

#[cycle(same)]
fn same_factors(factors: &[Expr], others: &[Expr]) -> bool
    ensures { IsTrue result ↔ (factors.now ≡ others.now) }
{
    if factors.len() != others.len() {
        return false;
    }
    for i in 0..factors.len() {
        if !factors[i].is_same(&others[i]) {
            return false;
        }
    }
    true
}

#[tactic(auto, using(sq_value::specs::OrderLaws::same_texts))]
fn same_text(text: &Str, other: &Str) -> bool
    ensures { IsTrue result ↔ (text.now ≡ other.now) }
{
    *text == *other
}

impl Cond {
    /// Whether another condition is the same. Takes no memory.
    #[cycle(same_cond)]
    pub fn is_same(&self, other: &Cond) -> bool
        ensures { IsTrue result ↔ (self.now ≡ other.now) }
    {
        match (self, other) {
            (
                Cond::Compare { cmp, left, right },
                Cond::Compare {
                    cmp: other_cmp,
                    left: other_left,
                    right: other_right,
                },
            ) => {
                same_cmp(*cmp, *other_cmp) && left.is_same(other_left) && right.is_same(other_right)
            }
            (
                Cond::Null { expr, negated },
                Cond::Null {
                    expr: other,
                    negated: other_negated,
                },
            ) => *negated == *other_negated && expr.is_same(other),
            (Cond::Not(operand), Cond::Not(other)) => operand.get().is_same(other.get()),
            (Cond::All(members), Cond::All(others)) => {
                same_conds(members.as_slice(), others.as_slice())
            }
            (Cond::Any(choices), Cond::Any(others)) => {
                same_conds(choices.as_slice(), others.as_slice())
            }
            _ => false,
        }
    }
}

#[cycle(same_cond)]
fn same_conds(conds: &[Cond], others: &[Cond]) -> bool
    ensures { IsTrue result ↔ (conds.now ≡ others.now) }
{
    if conds.len() != others.len() {
        return false;
    }
    for i in 0..conds.len() {
        if !conds[i].is_same(&others[i]) {
            return false;
        }
    }
    true
}

fn same_cmp(cmp: Cmp, other: Cmp) -> bool
    ensures { IsTrue result ↔ (cmp ≡ other) }
{
    cmp == other
}
