//! Lists without repeats, and set operations.
ghost use Rattle.std.specs.Prelude.{◌≡◌, ◌++◌, ◌∷◌, [], ◌==◌, if◌then◌else◌, IfOk, OnOk};
ghost use Rattle.sq_algebra.specs.Listed.{among, first_of_each, without};
ghost use Rattle.sq_typed.specs.Blocks.{without_repeats};
ghost use Rattle.sq_typed.specs.Queries.{intersect_rows, set_rows};
ghost use Rattle.sq_value.specs.Count.{count};
ghost use Rattle.sq_value.specs.Order.{row_cmp};

use sq_ast::SetOp;
use sq_value::{NoMemory, Row};
use std::alloc::Global;

// How many of the rows are the same as the row.
fn count_of(row: &Row, rows: &[Row]) -> usize
    ensures { result ≡ count row.now rows.now }
{
    let mut found = 0;
    for other in rows {
        found += usize::from(row == other);
    }
    found
}

// Appends a copy of the row, if the list does not have it yet.
fn push_new(alloc: Global, row: &Row, to: &mut Vec<Row>) -> Result<(), NoMemory>
    ensures { OnOk result (to.new.items ≡ to.old.items ++ (if count row.now to.old.items == 0 then row.now ∷ [] else [])) }
{
    if count_of(row, to) == 0 {
        to.push(row.clone_row(alloc)?)?;
    }
    Ok(())
}

/// The rows, each once, in the order in which they first appear.
pub(crate) fn first_of_each(alloc: Global, rows: &[Row]) -> Result<Vec<Row>, NoMemory>
    ensures { IfOk result (λ firsts. firsts.items ≡ first_of_each row_cmp rows.now) }
{
    let mut firsts = Vec::new(alloc);
    for row in rows {
        push_new(alloc, row, &mut firsts)?;
    }
    Ok(firsts)
}

// Appends a copy of the row, if the other list has it.
fn push_if_there(
    alloc: Global,
    others: &[Row],
    row: &Row,
    to: &mut Vec<Row>,
) -> Result<(), NoMemory>
    ensures { OnOk result (to.new.items ≡ to.old.items ++ among row_cmp (row.now ∷ []) others.now) }
{
    if count_of(row, others) != 0 {
        to.push(row.clone_row(alloc)?)?;
    }
    Ok(())
}

// Appends a copy of the row, if the other list does not have it.
fn push_if_missing(
    alloc: Global,
    others: &[Row],
    row: &Row,
    to: &mut Vec<Row>,
) -> Result<(), NoMemory>
    ensures { OnOk result (to.new.items ≡ to.old.items ++ without row_cmp (row.now ∷ []) others.now) }
{
    if count_of(row, others) == 0 {
        to.push(row.clone_row(alloc)?)?;
    }
    Ok(())
}

// The rows that the other list has too.
fn among(alloc: Global, rows: &[Row], others: &[Row]) -> Result<Vec<Row>, NoMemory>
    ensures { IfOk result (λ kept. kept.items ≡ among row_cmp rows.now others.now) }
{
    let mut kept = Vec::new(alloc);
    for row in rows {
        push_if_there(alloc, others, row, &mut kept)?;
    }
    Ok(kept)
}

// The rows that the other list does not have.
fn without(alloc: Global, rows: &[Row], others: &[Row]) -> Result<Vec<Row>, NoMemory>
    ensures { IfOk result (λ kept. kept.items ≡ without row_cmp rows.now others.now) }
{
    let mut kept = Vec::new(alloc);
    for row in rows {
        push_if_missing(alloc, others, row, &mut kept)?;
    }
    Ok(kept)
}

// Appends copies of the rows.
pub(crate) fn push_rows(alloc: Global, rows: &[Row], to: &mut Vec<Row>) -> Result<(), NoMemory>
    ensures { OnOk result (to.new.items ≡ to.old.items ++ rows.now) }
{
    for row in rows {
        to.push(row.clone_row(alloc)?)?;
    }
    Ok(())
}

/// Copies of the rows.
pub(crate) fn copies(alloc: Global, rows: &[Row]) -> Result<Vec<Row>, NoMemory>
    ensures { IfOk result (λ copies. copies.items ≡ rows.now) }
{
    let mut copies = Vec::with_capacity(alloc, rows.len())?;
    push_rows(alloc, rows, &mut copies)?;
    Ok(copies)
}

/// The rows of a chain so far with those of its next member.
pub(crate) fn set_rows(
    alloc: Global,
    op: SetOp,
    rows: Vec<Row>,
    more: &[Row],
) -> Result<Vec<Row>, NoMemory>
    ensures { IfOk result (λ now. now.items ≡ set_rows op rows.items more.now) }
{
    match op {
        SetOp::UnionAll => {
            let mut rows = rows;
            push_rows(alloc, more, &mut rows)?;
            Ok(rows)
        }
        SetOp::Union => {
            let mut rows = rows;
            push_rows(alloc, more, &mut rows)?;
            first_of_each(alloc, &rows)
        }
        SetOp::Except => {
            let firsts = first_of_each(alloc, &rows)?;
            without(alloc, &firsts, more)
        }
    }
}

/// The rows, each once, that the other list has too.
pub(crate) fn intersect_rows(
    alloc: Global,
    rows: &[Row],
    more: &[Row],
) -> Result<Vec<Row>, NoMemory>
    ensures { IfOk result (λ now. now.items ≡ intersect_rows rows.now more.now) }
{
    let firsts = first_of_each(alloc, rows)?;
    among(alloc, &firsts, more)
}

/// The rows, each once if repeats are to go.
pub(crate) fn without_repeats(
    alloc: Global,
    distinct: bool,
    rows: Vec<Row>,
) -> Result<Vec<Row>, NoMemory>
    ensures { IfOk result (λ now. now.items ≡ without_repeats distinct rows.items) }
{
    if distinct {
        first_of_each(alloc, &rows)
    } else {
        Ok(rows)
    }
}
