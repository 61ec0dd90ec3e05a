//! Expressions and conditions over a group row, and the kinds of that row.
ghost use Rattle.std.specs.Prelude.{◌≡◌, ◌<◌, ◌+◌, ◌^◌, ◌++◌, IfOk, get_or, length, map};
ghost use Rattle.sq_expr.specs.declared.expr.Kind.TheVariants.{Bigint};
ghost use Rattle.sq_typed.specs.Numbered.{call_kind, kind_of};
ghost use Rattle.sq_scope.specs.TypesGroups.{call_kinds, key_kinds, over_group, over_group_cond, over_group_term, place_of_call, place_of_key};

use crate::calls::call_place;
use crate::keys::Keys;
use crate::numbered::{cmp_of, typed_call};
use crate::sources_row::Row;
use sq_ast::{CondTree, ExprTree, FuncTree, TermTree};
use sq_expr::{Cond, Expr, Func, Kind, Term};
use sq_typed::BlockCall;
use sq_value::NoMemory;
use sqlite_items::{Boxed, Items};
use std::alloc::Global;

/// The columns of GROUP BY and the calls of a block, each call once: fewer than 2^32 in all.
#[derive(Drop)]
pub struct Groups {
    pub keys: Keys,
    pub calls: Items<BlockCall>,
    ghost few: { length keys.numbers + length calls < 2 ^ 32 },
}

/// The expression over the group row, or `NoMemory` if memory runs out.
#[cycle(group)]
#[tactic(auto, using(crate::proofs::TypesTrees::replaced_forms))]
pub fn group_expr(
    alloc: Global,
    row: &Row,
    groups: &Groups,
    tree: &ExprTree,
) -> Result<Expr, NoMemory>
    ensures { IfOk result (λ e. e ≡ over_group row.now groups.now.keys.numbers groups.now.calls tree.now) }
{
    match tree {
        ExprTree::Sum(terms) => Ok(Expr::Sum(group_terms(alloc, row, groups, terms.as_slice())?)),
        ExprTree::Product(factors) => Ok(Expr::Product(group_factors(
            alloc,
            row,
            groups,
            factors.as_slice(),
        )?)),
        ExprTree::Neg(operand) => Ok(Expr::Neg(Boxed::new(
            alloc,
            group_expr(alloc, row, groups, operand.get())?,
        )?)),
        ExprTree::Number(number) => Ok(Expr::Number(*number)),
        ExprTree::Text(text) => Ok(Expr::Text(text.clone_str(alloc)?)),
        ExprTree::Column(r) => Ok(Expr::Column(groups.place_of_key(row.number_of(r)))),
        ExprTree::Call { func, arg } => Ok(Expr::Column(place_of_call(
            alloc, row, groups, *func, arg,
        )?)),
    }
}

#[cycle(group)]
fn group_terms(
    alloc: Global,
    row: &Row,
    groups: &Groups,
    terms: &[TermTree],
) -> Result<Items<Term>, NoMemory>
    ensures { IfOk result (λ ts. ts ≡ map (over_group_term row.now groups.now.keys.numbers groups.now.calls) terms.now) }
{
    let mut typed = Items::new(alloc);
    for term in terms {
        let expr = group_expr(alloc, row, groups, &term.expr)?;
        typed.push(Term {
            minus: term.minus,
            expr,
        })?;
    }
    Ok(typed)
}

#[cycle(group)]
fn group_factors(
    alloc: Global,
    row: &Row,
    groups: &Groups,
    factors: &[ExprTree],
) -> Result<Items<Expr>, NoMemory>
    ensures { IfOk result (λ es. es ≡ map (over_group row.now groups.now.keys.numbers groups.now.calls) factors.now) }
{
    let mut typed = Items::new(alloc);
    for factor in factors {
        typed.push(group_expr(alloc, row, groups, factor)?)?;
    }
    Ok(typed)
}

/// The condition over the group row, or `NoMemory` if memory runs out.
#[cycle(group_cond)]
#[tactic(auto, using(crate::proofs::TypesTrees::replaced_forms))]
pub fn group_cond(
    alloc: Global,
    row: &Row,
    groups: &Groups,
    tree: &CondTree,
) -> Result<Cond, NoMemory>
    ensures { IfOk result (λ c. c ≡ over_group_cond row.now groups.now.keys.numbers groups.now.calls tree.now) }
{
    match tree {
        CondTree::Any(choices) => Ok(Cond::Any(group_conds(
            alloc,
            row,
            groups,
            choices.as_slice(),
        )?)),
        CondTree::All(members) => Ok(Cond::All(group_conds(
            alloc,
            row,
            groups,
            members.as_slice(),
        )?)),
        CondTree::Not(operand) => Ok(Cond::Not(Boxed::new(
            alloc,
            group_cond(alloc, row, groups, operand.get())?,
        )?)),
        CondTree::Compare { cmp, left, right } => {
            let left = group_expr(alloc, row, groups, left)?;
            let right = group_expr(alloc, row, groups, right)?;
            Ok(Cond::Compare {
                cmp: cmp_of(*cmp),
                left,
                right,
            })
        }
        CondTree::Null { expr, negated } => {
            let expr = group_expr(alloc, row, groups, expr)?;
            Ok(Cond::Null {
                expr,
                negated: *negated,
            })
        }
    }
}

#[cycle(group_cond)]
fn group_conds(
    alloc: Global,
    row: &Row,
    groups: &Groups,
    conds: &[CondTree],
) -> Result<Items<Cond>, NoMemory>
    ensures { IfOk result (λ cs. cs ≡ map (over_group_cond row.now groups.now.keys.numbers groups.now.calls) conds.now) }
{
    let mut typed = Items::new(alloc);
    for cond in conds {
        typed.push(group_cond(alloc, row, groups, cond)?)?;
    }
    Ok(typed)
}

impl Groups {
    /// The place in the group row of the column with this number, 0 if it is none of GROUP BY. Takes no memory.
    pub fn place_of_key(&self, number: u32) -> u32
        ensures { result ≡ place_of_key self.now.keys.numbers number }
    {
        self.keys.place_of(number).unwrap_or(0)
    }
}

// The place of a call in the group row.
fn place_of_call(
    alloc: Global,
    row: &Row,
    groups: &Groups,
    func: FuncTree,
    arg: &Option<Boxed<ExprTree>>,
) -> Result<u32, NoMemory>
    ensures { IfOk result (λ n. n ≡ place_of_call row.now groups.now.keys.numbers groups.now.calls (record { func = func; arg = arg.now })) }
{
    let call = typed_call(alloc, row, func, arg)?;
    let place = call_place(groups.calls.as_slice(), &call).unwrap_or(0);
    Ok((groups.keys.numbers.len() + place) as u32)
}

/// The kinds of the group row, over columns of some kinds, or `NoMemory` if memory runs out.
pub fn group_kinds(alloc: Global, kinds: &[Kind], groups: &Groups) -> Result<Items<Kind>, NoMemory>
    ensures { IfOk result (λ ks. ks ≡ key_kinds kinds.now groups.now.keys.numbers ++ call_kinds kinds.now groups.now.calls) }
{
    let mut typed = key_kinds(alloc, kinds, groups.keys.numbers.as_slice())?;
    let calls = call_kinds(alloc, kinds, groups.calls.as_slice())?;
    typed.append(calls)?;
    Ok(typed)
}

fn key_kinds(alloc: Global, kinds: &[Kind], numbers: &[u32]) -> Result<Items<Kind>, NoMemory>
    ensures { IfOk result (λ ks. ks ≡ key_kinds kinds.now numbers.now) }
{
    let mut typed = Items::new(alloc);
    for number in numbers {
        typed.push(kind_at(kinds, *number as usize))?;
    }
    Ok(typed)
}

fn call_kinds(alloc: Global, kinds: &[Kind], calls: &[BlockCall]) -> Result<Items<Kind>, NoMemory>
    ensures { IfOk result (λ ks. ks ≡ call_kinds kinds.now calls.now) }
{
    let mut typed = Items::new(alloc);
    for call in calls {
        typed.push(call_kind(kinds, call))?;
    }
    Ok(typed)
}

// MIN and MAX have the kind of their argument, COUNT and SUM are BIGINT.
fn call_kind(kinds: &[Kind], call: &BlockCall) -> Kind
    ensures { result ≡ call_kind kinds.now call.now.func call.now.arg }
{
    match (call.func, &call.arg) {
        (Func::Min | Func::Max, Some(arg)) => kind_of(kinds, arg),
        (Func::Min | Func::Max, None) => Kind::Bigint,
        (Func::CountAll | Func::Count | Func::Sum, _) => Kind::Bigint,
    }
}

/// A plain column keeps its kind, a text is Text, all else is BIGINT. Takes no memory.
#[tactic(auto, using(crate::proofs::TypesTrees::kind_forms))]
pub fn kind_of(kinds: &[Kind], expr: &Expr) -> Kind
    ensures { result ≡ kind_of kinds.now expr.now }
{
    match expr {
        Expr::Column(at) => kind_at(kinds, *at as usize),
        Expr::Text(_) => Kind::Text,
        Expr::Number(_) | Expr::Neg(_) | Expr::Sum(_) | Expr::Product(_) => Kind::Bigint,
    }
}

/// The kind of the column with this number, BIGINT if there is none. Takes no memory.
pub fn kind_at(kinds: &[Kind], number: usize) -> Kind
    ensures { result ≡ get_or kinds.now number Bigint }
{
    match kinds.get(number) {
        Some(kind) => *kind,
        None => Kind::Bigint,
    }
}
