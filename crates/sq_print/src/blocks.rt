//! The block of an accepted tick.
ghost use Rattle.std.specs.Prelude.{◌≡◌, ◌++◌, IfOk, OnOk, option_map};
ghost use Rattle.std.specs.List.{flat_map};
ghost use Rattle.sq_algebra.specs.ZSet.{entries};
ghost use Rattle.sq_print.specs.Texts.{accepted_text, change_line_text, front_text, rise_text, text_of, told_block, view_text, views_text};

use crate::json_text::{push_number, push_quoted, push_row};
use sq_catalog::{Catalog, Relation};
use sq_circuit::Changes;
use sq_value::{NoMemory, Row};
use sq_zset::ZSet;
use std::alloc::Global;

/// The block of an accepted tick: a line for each row of which a printed view has more or fewer copies, by view in order of
/// creation and then by row, and the line that closes the tick.
pub fn block_text(
    alloc: Global,
    catalog: &Catalog,
    tick: u64,
    changes: &Changes,
) -> Result<Vec<u8>, NoMemory>
    ensures { IfOk result (λ text. text.items ≡ told_block catalog.now tick changes.now.views.items) }
{
    let mut out = Vec::new(alloc);
    push_views(alloc, &mut out, catalog, &changes.views)?;
    push_accepted(&mut out, tick)?;
    Ok(out)
}

// Appends the changes of the views.
fn push_views(
    alloc: Global,
    out: &mut Vec<u8>,
    catalog: &Catalog,
    changes: &[ZSet],
) -> Result<(), NoMemory>
    ensures { OnOk result (out.new.items ≡ out.old.items ++ views_text catalog.now changes.now) }
{
    let mut view = 0usize;
    for i in 0..catalog.len() {
        let relation = catalog.at(i);
        if relation.kind.is_view() {
            push_change_of(alloc, out, relation, changes.get(view))?;
            view += 1;
        }
    }
    Ok(())
}

// Appends the change of a view, if there is one.
fn push_change_of(
    alloc: Global,
    out: &mut Vec<u8>,
    view: &Relation,
    change: Option<&ZSet>,
) -> Result<(), NoMemory>
    ensures { OnOk result (out.new.items ≡ out.old.items ++ text_of view.now (option_map (λ z. z.now) change.entry)) }
{
    match change {
        Some(change) => push_view(alloc, out, view, change),
        None => Ok(()),
    }
}

// Appends the change of a view, if it is printed.
fn push_view(
    alloc: Global,
    out: &mut Vec<u8>,
    view: &Relation,
    change: &ZSet,
) -> Result<(), NoMemory>
    ensures { OnOk result (out.new.items ≡ out.old.items ++ view_text view.now change.now) }
{
    if !view.kind.is_printed() {
        return Ok(());
    }
    push_changes(alloc, out, view, change)
}

// Appends a line for each row of a change, in row order.
fn push_changes(
    alloc: Global,
    out: &mut Vec<u8>,
    view: &Relation,
    change: &ZSet,
) -> Result<(), NoMemory>
    ensures { OnOk result (out.new.items ≡ out.old.items ++ flat_map (λ e. rise_text view.now e.0 e.1) (entries change.now)) }
{
    for i in 0..change.len() {
        let (row, weight) = change.at(i);
        push_rise(alloc, out, view, row, weight)?;
    }
    Ok(())
}

// Appends the line of a row whose count rises by `weight`, which is below 0 if it falls.
fn push_rise(
    alloc: Global,
    out: &mut Vec<u8>,
    view: &Relation,
    row: &Row,
    weight: i64,
) -> Result<(), NoMemory>
    ensures { OnOk result (out.new.items ≡ out.old.items ++ rise_text view.now row.now weight) }
{
    if weight >= 0 {
        push_change(alloc, out, b"insert", view, row, weight.unsigned_abs())
    } else {
        push_change(alloc, out, b"delete", view, row, weight.unsigned_abs())
    }
}

// Appends the line of a row that is in the view `times` times more, or less.
fn push_change(
    alloc: Global,
    out: &mut Vec<u8>,
    operation: &[u8],
    view: &Relation,
    row: &Row,
    times: u64,
) -> Result<(), NoMemory>
    ensures { OnOk result (out.new.items ≡ out.old.items ++ change_line_text operation.now view.now row.now times) }
{
    push_front(alloc, out, operation, view)?;
    push_row(alloc, out, view.columns.as_slice(), row)?;
    out.extend_from_slice(b",\"times\":")?;
    push_number(out, times)?;
    out.extend_from_slice(b"}\n")?;
    Ok(())
}

// Appends the front of such a line.
fn push_front(
    alloc: Global,
    out: &mut Vec<u8>,
    operation: &[u8],
    view: &Relation,
) -> Result<(), NoMemory>
    ensures { OnOk result (out.new.items ≡ out.old.items ++ front_text operation.now view.now) }
{
    out.extend_from_slice(b"{\"view\":")?;
    push_quoted(alloc, out, view.name.as_str())?;
    out.extend_from_slice(b",\"")?;
    out.extend_from_slice(operation)?;
    out.extend_from_slice(b"\":")?;
    Ok(())
}

// Appends the line that closes the block of an accepted tick.
fn push_accepted(out: &mut Vec<u8>, tick: u64) -> Result<(), NoMemory>
    ensures { OnOk result (out.new.items ≡ out.old.items ++ accepted_text tick) }
{
    out.extend_from_slice(b"{\"tick\":")?;
    push_number(out, tick)?;
    out.extend_from_slice(b",\"accepted\":true}\n")?;
    Ok(())
}
