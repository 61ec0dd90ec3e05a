//! Lists of columns: their numbers, the expressions that they are, and their kinds.
ghost use Rattle.std.specs.Prelude.{◌≡◌, ◌++◌, IfOk, get_or, map};
ghost use Rattle.sq_algebra.specs.Keyed.{numbers_below};
ghost use Rattle.sq_bridge.specs.Joins.{first_columns};
ghost use Rattle.sq_expr.specs.declared.expr.Kind.TheVariants as known;
ghost use Rattle.sq_typed.specs.Numbered.{kind_of};

use sq_expr::{Expr, Kind};
use sq_value::NoMemory;
use sqlite_items::Items;
use std::alloc::Global;

// The numbers below n.
pub(crate) fn numbers_below(alloc: Global, n: u32) -> Result<Items<u32>, NoMemory>
    ensures { IfOk result (λ numbers. numbers ≡ numbers_below n) }
{
    let mut numbers = Items::new(alloc);
    for i in 0..n {
        numbers.push(i)?;
    }
    Ok(numbers)
}

// The first columns, as expressions.
pub(crate) fn first_columns(alloc: Global, n: u32) -> Result<Items<Expr>, NoMemory>
    ensures { IfOk result (λ columns. columns ≡ first_columns n) }
{
    let mut columns = Items::new(alloc);
    for i in 0..n {
        columns.push(Expr::Column(i))?;
    }
    Ok(columns)
}

// Kinds with others behind them.
pub(crate) fn joined_kinds(
    alloc: Global,
    left: &[Kind],
    right: &[Kind],
) -> Result<Items<Kind>, NoMemory>
    ensures { IfOk result (λ kinds. kinds ≡ left.now ++ right.now) }
{
    let mut kinds = Items::from_slice(alloc, left)?;
    for kind in right {
        kinds.push(*kind)?;
    }
    Ok(kinds)
}

// The kind of the column with this number, and BIGINT if there is none.
pub(crate) fn kind_at(kinds: &[Kind], column: u32) -> Kind
    ensures { result ≡ get_or kinds.now column known.Bigint }
{
    match kinds.get(column as usize) {
        Some(kind) => *kind,
        None => Kind::Bigint,
    }
}

// The kind of what an expression computes.
pub(crate) fn kind_of(kinds: &[Kind], expr: &Expr) -> Kind
    ensures { result ≡ kind_of kinds.now expr.now }
{
    match expr {
        Expr::Column(column) => kind_at(kinds, *column),
        Expr::Number(_) => Kind::Bigint,
        Expr::Text(_) => Kind::Text,
        Expr::Neg(_) => Kind::Bigint,
        Expr::Sum(_) => Kind::Bigint,
        Expr::Product(_) => Kind::Bigint,
    }
}

// The kinds of what expressions compute.
pub(crate) fn kinds_of(
    alloc: Global,
    kinds: &[Kind],
    exprs: &[Expr],
) -> Result<Items<Kind>, NoMemory>
    ensures { IfOk result (λ own. own ≡ map (kind_of kinds.now) exprs.now) }
{
    let mut own = Items::new(alloc);
    for expr in exprs {
        own.push(kind_of(kinds, expr))?;
    }
    Ok(own)
}

// Expressions of one's own that are these.
pub(crate) fn copies(alloc: Global, exprs: &[Expr]) -> Result<Items<Expr>, NoMemory>
    ensures { IfOk result (λ copies. copies ≡ exprs.now) }
{
    let mut copies = Items::new(alloc);
    for expr in exprs {
        copies.push(expr.clone_expr(alloc)?)?;
    }
    Ok(copies)
}
