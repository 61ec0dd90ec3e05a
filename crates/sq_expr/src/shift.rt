//! Expressions and conditions for a row that stands behind another.
ghost use Rattle.std.specs.Prelude.{◌≡◌, map, IfOk};
ghost use Rattle.std.specs.List.{AllByRecursion};
ghost use Rattle.sq_expr.specs.Columns.{columns, cond_columns};
ghost use Rattle.sq_expr.specs.Shifted.{shifted as shifted_by, shifted_term as shifted_term_by, shifted_cond as shifted_cond_by, HasRoom};

use crate::{Cond, Expr, Term};
use sq_value::NoMemory;
use sqlite_items::{Boxed, Items};
use std::alloc::Global;

impl Expr {
    /// The expression with the number of each column raised by `by`.
    ///
    /// On a row behind `by` other values it reads what this one reads on the row alone (`laws::shifts`). The
    /// raised numbers must have 32 bits. `NoMemory` if memory runs out.
    #[cycle(shift)]
    #[tactic(auto, using(crate::proofs::ShiftSteps::column_shifted, crate::proofs::ShiftSteps::neg_shifted, crate::proofs::ShiftSteps::sum_shifted, crate::proofs::ShiftSteps::product_shifted))]
    pub fn shifted(&self, alloc: Global, by: u32) -> Result<Expr, NoMemory>
        requires room { HasRoom by (columns self.now) }
        ensures shifted { IfOk result (λ e. e ≡ shifted_by by self.now) }
    {
        match self {
            Expr::Column(at) => Ok(Expr::Column(by + *at)),
            Expr::Number(number) => Ok(Expr::Number(*number)),
            Expr::Text(text) => {
                let text = text.clone_str(alloc)?;
                Ok(Expr::Text(text))
            }
            Expr::Neg(operand) => {
                let operand = operand.get().shifted(alloc, by)?;
                let operand = Boxed::new(alloc, operand)?;
                Ok(Expr::Neg(operand))
            }
            Expr::Sum(terms) => {
                let terms = shifted_terms(alloc, by, terms)?;
                Ok(Expr::Sum(terms))
            }
            Expr::Product(factors) => {
                let factors = shifted_factors(alloc, by, factors)?;
                Ok(Expr::Product(factors))
            }
        }
    }
}

#[cycle(shift)]
fn shifted_terms(alloc: Global, by: u32, terms: &Items<Term>) -> Result<Items<Term>, NoMemory>
    requires room { AllByRecursion (λ t. HasRoom by (columns t.expr)) terms.now }
    ensures shifted { IfOk result (λ ts. ts ≡ map (shifted_term_by by) terms.now) }
{
    let mut found = Items::new(alloc);
    for term in terms.as_slice() {
        let term = shifted_term(alloc, by, term)?;
        found.push(term)?;
    }
    Ok(found)
}

#[cycle(shift)]
#[tactic(auto, using(crate::proofs::ShiftSteps::term_shifted))]
fn shifted_term(alloc: Global, by: u32, term: &Term) -> Result<Term, NoMemory>
    requires room { HasRoom by (columns term.now.expr) }
    ensures shifted { IfOk result (λ t. t ≡ shifted_term_by by term.now) }
{
    let expr = term.expr.shifted(alloc, by)?;
    Ok(Term {
        minus: term.minus,
        expr,
    })
}

#[cycle(shift)]
fn shifted_factors(alloc: Global, by: u32, factors: &Items<Expr>) -> Result<Items<Expr>, NoMemory>
    requires room { AllByRecursion (λ e. HasRoom by (columns e)) factors.now }
    ensures shifted { IfOk result (λ es. es ≡ map (shifted_by by) factors.now) }
{
    let mut found = Items::new(alloc);
    for factor in factors.as_slice() {
        let factor = factor.shifted(alloc, by)?;
        found.push(factor)?;
    }
    Ok(found)
}

impl Cond {
    /// The condition with the number of each column raised by `by`.
    ///
    /// On a row behind `by` other values it reads what this one reads on the row alone (`laws::shifts`). The
    /// raised numbers must have 32 bits. `NoMemory` if memory runs out.
    #[cycle(shift_cond)]
    #[tactic(auto, using(crate::proofs::ShiftSteps::not_shifted, crate::proofs::ShiftSteps::all_shifted, crate::proofs::ShiftSteps::any_shifted))]
    pub fn shifted(&self, alloc: Global, by: u32) -> Result<Cond, NoMemory>
        requires room { HasRoom by (cond_columns self.now) }
        ensures shifted { IfOk result (λ c. c ≡ shifted_cond_by by self.now) }
    {
        match self {
            Cond::Compare { cmp, left, right } => {
                let left = left.shifted(alloc, by)?;
                let right = right.shifted(alloc, by)?;
                Ok(Cond::Compare {
                    cmp: *cmp,
                    left,
                    right,
                })
            }
            Cond::Null { expr, negated } => {
                let expr = expr.shifted(alloc, by)?;
                Ok(Cond::Null {
                    expr,
                    negated: *negated,
                })
            }
            Cond::Not(operand) => {
                let operand = operand.get().shifted(alloc, by)?;
                let operand = Boxed::new(alloc, operand)?;
                Ok(Cond::Not(operand))
            }
            Cond::All(members) => {
                let members = shifted_conds(alloc, by, members)?;
                Ok(Cond::All(members))
            }
            Cond::Any(choices) => {
                let choices = shifted_conds(alloc, by, choices)?;
                Ok(Cond::Any(choices))
            }
        }
    }
}

#[cycle(shift_cond)]
fn shifted_conds(alloc: Global, by: u32, conds: &Items<Cond>) -> Result<Items<Cond>, NoMemory>
    requires room { AllByRecursion (λ c. HasRoom by (cond_columns c)) conds.now }
    ensures shifted { IfOk result (λ cs. cs ≡ map (shifted_cond_by by) conds.now) }
{
    let mut found = Items::new(alloc);
    for cond in conds.as_slice() {
        let cond = cond.shifted(alloc, by)?;
        found.push(cond)?;
    }
    Ok(found)
}
