//! Copies of expressions and conditions.
ghost use Rattle.std.specs.Prelude.{◌≡◌, IfOk};

use crate::{Cond, Expr, Term};
use sq_value::NoMemory;
use sqlite_items::{Boxed, Items};
use std::alloc::Global;

impl Expr {
    /// An expression of its own that is the same, or `NoMemory` if memory runs out.
    #[cycle(copy)]
    pub fn clone_expr(&self, alloc: Global) -> Result<Expr, NoMemory>
        ensures equal { IfOk result (λ copy. copy ≡ self.now) }
    {
        Ok(match self {
            Expr::Column(at) => Expr::Column(*at),
            Expr::Number(number) => Expr::Number(*number),
            Expr::Text(text) => Expr::Text(text.clone_str(alloc)?),
            Expr::Neg(operand) => {
                Expr::Neg(Boxed::new(alloc, operand.get().clone_expr(alloc)?)?)
            }
            Expr::Sum(terms) => Expr::Sum(clone_terms(alloc, terms)?),
            Expr::Product(factors) => Expr::Product(clone_factors(alloc, factors)?),
        })
    }
}

#[cycle(copy)]
fn clone_terms(alloc: Global, terms: &Items<Term>) -> Result<Items<Term>, NoMemory>
    ensures equal { IfOk result (λ copies. copies ≡ terms.now) }
{
    let mut copies = Items::new(alloc);
    for term in terms.as_slice() {
        let expr = term.expr.clone_expr(alloc)?;
        copies.push(Term {
            minus: term.minus,
            expr,
        })?;
    }
    Ok(copies)
}

#[cycle(copy)]
fn clone_factors(alloc: Global, factors: &Items<Expr>) -> Result<Items<Expr>, NoMemory>
    ensures equal { IfOk result (λ copies. copies ≡ factors.now) }
{
    let mut copies = Items::new(alloc);
    for factor in factors.as_slice() {
        copies.push(factor.clone_expr(alloc)?)?;
    }
    Ok(copies)
}

impl Cond {
    /// A condition of its own that is the same, or `NoMemory` if memory runs out.
    #[cycle(copy_cond)]
    pub fn clone_cond(&self, alloc: Global) -> Result<Cond, NoMemory>
        ensures equal { IfOk result (λ copy. copy ≡ self.now) }
    {
        Ok(match self {
            Cond::Compare { cmp, left, right } => {
                let left = left.clone_expr(alloc)?;
                Cond::Compare {
                    cmp: *cmp,
                    left,
                    right: right.clone_expr(alloc)?,
                }
            }
            Cond::Null { expr, negated } => Cond::Null {
                expr: expr.clone_expr(alloc)?,
                negated: *negated,
            },
            Cond::Not(operand) => {
                Cond::Not(Boxed::new(alloc, operand.get().clone_cond(alloc)?)?)
            }
            Cond::All(members) => Cond::All(clone_conds(alloc, members)?),
            Cond::Any(choices) => Cond::Any(clone_conds(alloc, choices)?),
        })
    }
}

#[cycle(copy_cond)]
fn clone_conds(alloc: Global, conds: &Items<Cond>) -> Result<Items<Cond>, NoMemory>
    ensures equal { IfOk result (λ copies. copies ≡ conds.now) }
{
    let mut copies = Items::new(alloc);
    for cond in conds.as_slice() {
        copies.push(cond.clone_cond(alloc)?)?;
    }
    Ok(copies)
}
