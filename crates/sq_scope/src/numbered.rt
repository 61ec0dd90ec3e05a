//! Expressions and conditions over the columns in scope, with numbers in the place of names.
ghost use Rattle.std.specs.Prelude.{◌≡◌, IfOk, map, option_map};
ghost use Rattle.sq_typed.specs.Numbered.{cmp_of, func_of, row_cond, row_expr, typed_call};
ghost use Rattle.sq_scope.specs.TypesNumbered.{row_term};

use crate::sources_row::Row;
use sq_ast::{CmpTree, CondTree, ExprTree, FuncTree, TermTree};
use sq_expr::{Cmp, Cond, Expr, Func, Term};
use sq_typed::BlockCall;
use sq_value::NoMemory;
use sqlite_items::{Boxed, Items};
use std::alloc::Global;

/// The expression over the columns of the row, with 0 in the place of a call, or `NoMemory` if memory runs out.
#[cycle(row)]
#[tactic(auto, using(crate::proofs::TypesTrees::replaced_forms))]
pub fn row_expr(alloc: Global, row: &Row, tree: &ExprTree) -> Result<Expr, NoMemory>
    ensures { IfOk result (λ e. e ≡ row_expr row.now tree.now) }
{
    match tree {
        ExprTree::Sum(terms) => Ok(Expr::Sum(row_terms(alloc, row, terms.as_slice())?)),
        ExprTree::Product(factors) => Ok(Expr::Product(row_factors(
            alloc,
            row,
            factors.as_slice(),
        )?)),
        ExprTree::Neg(operand) => Ok(Expr::Neg(Boxed::new(
            alloc,
            row_expr(alloc, row, operand.get())?,
        )?)),
        ExprTree::Number(number) => Ok(Expr::Number(*number)),
        ExprTree::Text(text) => Ok(Expr::Text(text.clone_str(alloc)?)),
        ExprTree::Column(r) => Ok(Expr::Column(row.number_of(r))),
        ExprTree::Call { .. } => Ok(Expr::Number(0)),
    }
}

#[cycle(row)]
fn row_terms(alloc: Global, row: &Row, terms: &[TermTree]) -> Result<Items<Term>, NoMemory>
    ensures { IfOk result (λ ts. ts ≡ map (row_term row.now) terms.now) }
{
    let mut typed = Items::new(alloc);
    for term in terms {
        let expr = row_expr(alloc, row, &term.expr)?;
        typed.push(Term {
            minus: term.minus,
            expr,
        })?;
    }
    Ok(typed)
}

#[cycle(row)]
fn row_factors(alloc: Global, row: &Row, factors: &[ExprTree]) -> Result<Items<Expr>, NoMemory>
    ensures { IfOk result (λ es. es ≡ map (row_expr row.now) factors.now) }
{
    let mut typed = Items::new(alloc);
    for factor in factors {
        typed.push(row_expr(alloc, row, factor)?)?;
    }
    Ok(typed)
}

/// The condition over the columns of the row, or `NoMemory` if memory runs out.
#[cycle(row_cond)]
#[tactic(auto, using(crate::proofs::TypesTrees::replaced_forms))]
pub fn row_cond(alloc: Global, row: &Row, tree: &CondTree) -> Result<Cond, NoMemory>
    ensures { IfOk result (λ c. c ≡ row_cond row.now tree.now) }
{
    match tree {
        CondTree::Any(choices) => Ok(Cond::Any(row_conds(alloc, row, choices.as_slice())?)),
        CondTree::All(members) => Ok(Cond::All(row_conds(alloc, row, members.as_slice())?)),
        CondTree::Not(operand) => Ok(Cond::Not(Boxed::new(
            alloc,
            row_cond(alloc, row, operand.get())?,
        )?)),
        CondTree::Compare { cmp, left, right } => {
            let left = row_expr(alloc, row, left)?;
            let right = row_expr(alloc, row, right)?;
            Ok(Cond::Compare {
                cmp: cmp_of(*cmp),
                left,
                right,
            })
        }
        CondTree::Null { expr, negated } => {
            let expr = row_expr(alloc, row, expr)?;
            Ok(Cond::Null {
                expr,
                negated: *negated,
            })
        }
    }
}

#[cycle(row_cond)]
fn row_conds(alloc: Global, row: &Row, conds: &[CondTree]) -> Result<Items<Cond>, NoMemory>
    ensures { IfOk result (λ cs. cs ≡ map (row_cond row.now) conds.now) }
{
    let mut typed = Items::new(alloc);
    for cond in conds {
        typed.push(row_cond(alloc, row, cond)?)?;
    }
    Ok(typed)
}

/// What a comparison is in a typed condition.
pub fn cmp_of(cmp: CmpTree) -> Cmp
    ensures { result ≡ cmp_of cmp }
{
    match cmp {
        CmpTree::Eq => Cmp::Eq,
        CmpTree::Ne => Cmp::Ne,
        CmpTree::Lt => Cmp::Lt,
        CmpTree::Le => Cmp::Le,
        CmpTree::Gt => Cmp::Gt,
        CmpTree::Ge => Cmp::Ge,
    }
}

/// The call with its argument over the columns of the row, or `NoMemory` if memory runs out.
pub fn typed_call(
    alloc: Global,
    row: &Row,
    func: FuncTree,
    arg: &Option<Boxed<ExprTree>>,
) -> Result<BlockCall, NoMemory>
    ensures { IfOk result (λ c. c ≡ typed_call row.now (record { func = func; arg = arg.now })) }
{
    let func = func_of(func, arg);
    let arg = row_argument(alloc, row, arg)?;
    Ok(BlockCall { func, arg })
}

fn row_argument(
    alloc: Global,
    row: &Row,
    arg: &Option<Boxed<ExprTree>>,
) -> Result<Option<Expr>, NoMemory>
    ensures { IfOk result (λ e. e ≡ option_map (row_expr row.now) arg.now) }
{
    match arg {
        Some(arg) => Ok(Some(row_expr(alloc, row, arg.get())?)),
        None => Ok(None),
    }
}

// The function that is called, with an argument or without one.
fn func_of(func: FuncTree, arg: &Option<Boxed<ExprTree>>) -> Func
    ensures { result ≡ func_of func arg.now }
{
    match func {
        FuncTree::Count => match arg {
            None => Func::CountAll,
            Some(_) => Func::Count,
        },
        FuncTree::Sum => Func::Sum,
        FuncTree::Min => Func::Min,
        FuncTree::Max => Func::Max,
    }
}
