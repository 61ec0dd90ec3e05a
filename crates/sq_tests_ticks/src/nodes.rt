//! Nodes of each kind, with rows of two BIGINTs, put behind the parts so far.
ghost use Rattle.std.specs.Prelude.{◌≡◌, ◌<◌, ◌∷◌, [], length, Some, IsTrue, IfOk, OnOk};
ghost use Rattle.sq_circuit.specs.Begun.{IsBegun};
ghost use Rattle.sq_expr.specs.Typing.{sort_of};
ghost use Rattle.sq_expr.specs.declared.typing.Sort.TheVariants.{Numeric as Numbers};
ghost use Rattle.sq_tests_ticks.specs.Making.{IsInput, IsRead, grouped, joined, pairs, totalled, triples};

use crate::parts::push;
use sq_circuit::{LinearOp, Node, Part};
use sq_expr::{Cond, Expr, Func, Kind, Sort, expr_sort, suits, suits_cond};
use sq_ops::{AggSpec, Call, Keep, Pad, Pairing, Project};
use sq_value::NoMemory;
use sqlite_items::Items;
use std::alloc::Global;

/// The rows on which a condition is True.
pub fn add_keep(
    alloc: Global,
    input: u32,
    cond: Cond,
    place: bool,
    view: u32,
    parts: &mut Vec<Part>,
) -> Result<(), NoMemory>
    requires begun { IsBegun 3 view parts.old.items }
    requires view { view < 3 }
    requires input { IsInput pairs parts.old.items input }
    ensures { OnOk result (IsBegun 3 view parts.new.items) }
{
    if !suits_cond(&cond, &[Kind::Bigint, Kind::Bigint]) {
        return Ok(());
    }
    let op = LinearOp::Keep(Keep { cond });
    push(
        alloc,
        Node::Linear { input, op },
        &[Kind::Bigint, Kind::Bigint],
        place,
        view,
        parts,
    )
}

// Whether the expression is a number over columns of these kinds.
fn is_number(expr: &Expr, kinds: &[Kind]) -> bool
    ensures { IsTrue result → sort_of kinds.now expr.now ≡ Some Numbers }
{
    match expr_sort(expr, kinds) {
        Some(Sort::Numeric) => true,
        Some(Sort::Textual) => false,
        None => false,
    }
}

// Two items.
fn both(alloc: Global, first: Expr, second: Expr) -> Result<Items<Expr>, NoMemory>
    ensures { IfOk result (λ items. items ≡ first ∷ second ∷ []) }
{
    let mut items = Items::new(alloc);
    items.push(first)?;
    items.push(second)?;
    Ok(items)
}

/// The values of two items on each row.
pub fn add_project(
    alloc: Global,
    input: u32,
    first: Expr,
    second: Expr,
    place: bool,
    view: u32,
    parts: &mut Vec<Part>,
) -> Result<(), NoMemory>
    requires begun { IsBegun 3 view parts.old.items }
    requires view { view < 3 }
    requires input { IsInput pairs parts.old.items input }
    ensures { OnOk result (IsBegun 3 view parts.new.items) }
{
    let kinds = [Kind::Bigint, Kind::Bigint];
    if !suits(&first, &kinds) {
        return Ok(());
    }
    if !suits(&second, &kinds) {
        return Ok(());
    }
    if !is_number(&first, &kinds) {
        return Ok(());
    }
    if !is_number(&second, &kinds) {
        return Ok(());
    }
    let items = both(alloc, first, second)?;
    let op = LinearOp::Project(Project { items });
    push(
        alloc,
        Node::Linear { input, op },
        &[Kind::Bigint, Kind::Bigint],
        place,
        view,
        parts,
    )
}

/// Each row with a NULL behind it.
pub fn add_pad(
    alloc: Global,
    input: u32,
    place: bool,
    view: u32,
    parts: &mut Vec<Part>,
) -> Result<(), NoMemory>
    requires begun { IsBegun 3 view parts.old.items }
    requires view { view < 3 }
    requires input { IsInput pairs parts.old.items input }
    ensures begun { OnOk result (IsBegun 3 view parts.new.items) }
    ensures last { OnOk result (IsInput triples parts.new.items (length parts.old.items)) }
{
    let op = LinearOp::Pad(Pad { nulls: 1 });
    push(
        alloc,
        Node::Linear { input, op },
        &[Kind::Bigint, Kind::Bigint, Kind::Bigint],
        place,
        view,
        parts,
    )?;
    Ok(())
}

/// Two columns of three, the last of which is shown.
pub fn add_front(
    alloc: Global,
    input: u32,
    column: u32,
    place: bool,
    view: u32,
    parts: &mut Vec<Part>,
) -> Result<(), NoMemory>
    requires begun { IsBegun 3 view parts.old.items }
    requires view { view < 3 }
    requires input { IsInput triples parts.old.items input }
    ensures { OnOk result (IsBegun 3 view parts.new.items) }
{
    let kinds = [Kind::Bigint, Kind::Bigint, Kind::Bigint];
    let first = Expr::Column(column);
    let second = Expr::Column(2);
    if !suits(&first, &kinds) {
        return Ok(());
    }
    if !suits(&second, &kinds) {
        return Ok(());
    }
    if !is_number(&first, &kinds) {
        return Ok(());
    }
    if !is_number(&second, &kinds) {
        return Ok(());
    }
    let items = both(alloc, first, second)?;
    let op = LinearOp::Project(Project { items });
    push(
        alloc,
        Node::Linear { input, op },
        &[Kind::Bigint, Kind::Bigint],
        place,
        view,
        parts,
    )
}

// The rows of both sides with the same value in one column of each, of which two columns are given.
fn pairing(
    alloc: Global,
    columns: (u32, u32),
    items: (u32, u32),
    nulls_match: bool,
    keep: Cond,
) -> Result<Pairing, NoMemory>
    ensures { IfOk result (λ op. op ≡ joined columns.0 columns.1 items.0 items.1 nulls_match keep) }
{
    let left = Items::from_slice(alloc, &[columns.0])?;
    let right = Items::from_slice(alloc, &[columns.1])?;
    let items = Items::from_slice(alloc, &[items.0, items.1])?;
    Ok(Pairing {
        left,
        right,
        nulls_match,
        keep,
        items,
    })
}

/// The pairs with the same value in one column of each side, on which a condition is True.
pub fn add_join(
    alloc: Global,
    inputs: (u32, u32),
    columns: (u32, u32),
    items: (u32, u32),
    nulls_match: bool,
    keep: Cond,
    view: u32,
    parts: &mut Vec<Part>,
) -> Result<(), NoMemory>
    requires begun { IsBegun 3 view parts.old.items }
    requires view { view < 3 }
    requires left { IsInput pairs parts.old.items inputs.0 }
    requires right { IsInput pairs parts.old.items inputs.1 }
    requires columns { (columns.0 < 2) × (columns.1 < 2) }
    requires items { (items.0 < 4) × (items.1 < 4) }
    ensures { OnOk result (IsBegun 3 view parts.new.items) }
{
    if !suits_cond(
        &keep,
        &[Kind::Bigint, Kind::Bigint, Kind::Bigint, Kind::Bigint],
    ) {
        return Ok(());
    }
    let op = pairing(alloc, columns, items, nulls_match, keep)?;
    let node = Node::Join {
        left: inputs.0,
        right: inputs.1,
        op,
    };
    push(
        alloc,
        node,
        &[Kind::Bigint, Kind::Bigint],
        true,
        view,
        parts,
    )
}

/// Each row once, also of rows that are no list.
pub fn add_distinct(
    alloc: Global,
    input: u32,
    view: u32,
    parts: &mut Vec<Part>,
) -> Result<(), NoMemory>
    requires begun { IsBegun 3 view parts.old.items }
    requires view { view < 3 }
    requires input { IsRead parts.old.items input }
    ensures { OnOk result (IsBegun 3 view parts.new.items) }
{
    push(
        alloc,
        Node::Distinct { input },
        &[Kind::Bigint, Kind::Bigint],
        true,
        view,
        parts,
    )
}

// Groups by one column, with one call.
fn group_spec(alloc: Global, column: u32, func: Func, arg: u32) -> Result<AggSpec, NoMemory>
    ensures { IfOk result (λ spec. spec ≡ grouped column func arg) }
{
    let group = Items::from_slice(alloc, &[column])?;
    let calls = Items::from_slice(alloc, &[Call { func, arg }])?;
    Ok(AggSpec {
        group,
        calls,
        global: false,
    })
}

/// The groups by one column, with one call.
pub fn add_groups(
    alloc: Global,
    input: u32,
    column: u32,
    func: Func,
    arg: u32,
    place: bool,
    view: u32,
    parts: &mut Vec<Part>,
) -> Result<(), NoMemory>
    requires begun { IsBegun 3 view parts.old.items }
    requires view { view < 3 }
    requires input { IsInput pairs parts.old.items input }
    requires columns { (column < 2) × (arg < 2) }
    ensures { OnOk result (IsBegun 3 view parts.new.items) }
{
    let spec = group_spec(alloc, column, func, arg)?;
    if !spec.suits(&[Kind::Bigint, Kind::Bigint]) {
        return Ok(());
    }
    push(
        alloc,
        Node::Aggregate { input, spec },
        &[Kind::Bigint, Kind::Bigint],
        place,
        view,
        parts,
    )
}

// All rows, with two calls.
fn total_spec(alloc: Global, func: Func, other: Func, arg: u32) -> Result<AggSpec, NoMemory>
    ensures { IfOk result (λ spec. spec ≡ totalled func other arg) }
{
    let one = Call { func, arg };
    let two = Call { func: other, arg };
    let calls = Items::from_slice(alloc, &[one, two])?;
    Ok(AggSpec {
        group: Items::new(alloc),
        calls,
        global: true,
    })
}

/// Two calls over all rows.
pub fn add_totals(
    alloc: Global,
    input: u32,
    func: Func,
    other: Func,
    arg: u32,
    place: bool,
    view: u32,
    parts: &mut Vec<Part>,
) -> Result<(), NoMemory>
    requires begun { IsBegun 3 view parts.old.items }
    requires view { view < 3 }
    requires input { IsInput pairs parts.old.items input }
    requires column { arg < 2 }
    ensures { OnOk result (IsBegun 3 view parts.new.items) }
{
    let spec = total_spec(alloc, func, other, arg)?;
    if !spec.suits(&[Kind::Bigint, Kind::Bigint]) {
        return Ok(());
    }
    push(
        alloc,
        Node::Aggregate { input, spec },
        &[Kind::Bigint, Kind::Bigint],
        place,
        view,
        parts,
    )
}

/// The sum of two nodes.
pub fn add_plus(
    alloc: Global,
    left: u32,
    right: u32,
    view: u32,
    parts: &mut Vec<Part>,
) -> Result<(), NoMemory>
    requires begun { IsBegun 3 view parts.old.items }
    requires view { view < 3 }
    requires left { IsInput pairs parts.old.items left }
    requires right { IsInput pairs parts.old.items right }
    ensures { OnOk result (IsBegun 3 view parts.new.items) }
{
    push(
        alloc,
        Node::Plus { left, right },
        &[Kind::Bigint, Kind::Bigint],
        true,
        view,
        parts,
    )
}

/// The difference of two nodes, which need be no list.
pub fn add_minus(
    alloc: Global,
    left: u32,
    right: u32,
    view: u32,
    parts: &mut Vec<Part>,
) -> Result<(), NoMemory>
    requires begun { IsBegun 3 view parts.old.items }
    requires view { view < 3 }
    requires left { IsInput pairs parts.old.items left }
    requires right { IsInput pairs parts.old.items right }
    ensures { OnOk result (IsBegun 3 view parts.new.items) }
{
    push(
        alloc,
        Node::Minus { left, right },
        &[Kind::Bigint, Kind::Bigint],
        false,
        view,
        parts,
    )
}
