//! Copies of items and columns of operators, and whether they are the same.
ghost use Rattle.std.specs.Prelude.{◌≡◌, ◌↔◌, IsTrue, IfOk};

use sq_expr::Expr;
use sq_value::NoMemory;
use sqlite_items::Items;
use std::alloc::Global;

/// Expressions of their own that are the same, or `NoMemory` when memory runs out.
pub fn clone_items(alloc: Global, items: &Items<Expr>) -> Result<Items<Expr>, NoMemory>
    ensures equal { IfOk result (λ copies. copies ≡ items.now) }
{
    let mut copies = Items::new(alloc);
    for item in items.as_slice() {
        copies.push(item.clone_expr(alloc)?)?;
    }
    Ok(copies)
}

/// Whether two lists of expressions are the same.
pub fn same_items(items: &[Expr], others: &[Expr]) -> bool
    ensures { IsTrue result ↔ (items.now ≡ others.now) }
{
    if items.len() != others.len() {
        return false;
    }
    for i in 0..items.len() {
        if !items[i].is_same(&others[i]) {
            return false;
        }
    }
    true
}

/// Columns of their own that are the same, or `NoMemory` when memory runs out.
pub fn clone_columns(alloc: Global, columns: &Items<u32>) -> Result<Items<u32>, NoMemory>
    ensures equal { IfOk result (λ copies. copies ≡ columns.now) }
{
    Ok(Items::from_slice(alloc, columns.as_slice())?)
}

/// Whether two lists of columns are the same.
pub fn same_columns(columns: &Items<u32>, others: &Items<u32>) -> bool
    ensures { IsTrue result ↔ (columns.now ≡ others.now) }
{
    *columns.as_slice() == *others.as_slice()
}
