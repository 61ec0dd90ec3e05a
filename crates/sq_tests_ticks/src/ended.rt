//! The tables that a circuit begins with, and the views that end it.
ghost use Rattle.std.specs.Prelude.{◌≡◌, ◌<◌, ◌^◌, ◌++◌, ◌∷◌, [], length, IfOk};
ghost use Rattle.sq_circuit.specs.Begun.{IsBegun};
ghost use Rattle.sq_tests_ticks.specs.Making.{AreShown, table_part, view_part};

use sq_circuit::{Circuit, Node, Part};
use sq_expr::Kind;
use sq_value::NoMemory;
use sqlite_items::Items;
use std::alloc::Global;

// A table of two BIGINTs.
fn table_part(alloc: Global, table: u32) -> Result<Part, NoMemory>
    ensures { IfOk result (λ part. part ≡ table_part table) }
{
    let kinds = Items::from_slice(alloc, &[Kind::Bigint, Kind::Bigint])?;
    Ok(Part {
        node: Node::Table { table },
        kinds,
        place: false,
        owner: None,
    })
}

// Three of them.
fn table_parts(alloc: Global) -> Result<Vec<Part>, NoMemory>
    ensures { IfOk result (λ parts. parts.items ≡ table_part 0 ∷ table_part 1 ∷ table_part 2 ∷ []) }
{
    let mut parts = Vec::new(alloc);
    parts.push(table_part(alloc, 0)?)?;
    parts.push(table_part(alloc, 1)?)?;
    parts.push(table_part(alloc, 2)?)?;
    Ok(parts)
}

/// Three tables of two BIGINTs.
pub fn three_tables(alloc: Global) -> Result<Vec<Part>, NoMemory>
    ensures { IfOk result (λ parts. IsBegun 3 0 parts.items) }
{
    let parts = table_parts(alloc)?;
    Ok(parts)
}

// The view that shows a node.
fn shown_part(alloc: Global, parts: &[Part], view: u32, input: u32) -> Result<Part, NoMemory>
    requires { input < length parts.now }
    ensures { IfOk result (λ part. part ≡ view_part parts.now view input) }
{
    let kinds = Items::from_slice(alloc, parts[input as usize].kinds.as_slice())?;
    Ok(Part {
        node: Node::View { input, view },
        kinds,
        place: false,
        owner: Some(view),
    })
}

// Three views.
fn three_views(
    alloc: Global,
    parts: &[Part],
    first: u32,
    second: u32,
    third: u32,
) -> Result<(Part, Part, Part), NoMemory>
    requires { AreShown parts.now first second third }
    ensures { IfOk result (λ views. (views.0 ≡ view_part parts.now 0 first) × (views.1 ≡ view_part parts.now 1 second) × (views.2 ≡ view_part parts.now 2 third)) }
{
    let one = shown_part(alloc, parts, 0, first)?;
    let two = shown_part(alloc, parts, 1, second)?;
    let three = shown_part(alloc, parts, 2, third)?;
    Ok((one, two, three))
}

// The parts, and three others behind them.
fn with_three(parts: Vec<Part>, one: Part, two: Part, three: Part) -> Result<Vec<Part>, NoMemory>
    ensures { IfOk result (λ all. all.items ≡ parts.items ++ one ∷ two ∷ three ∷ []) }
{
    let mut parts = parts;
    parts.push(one)?;
    parts.push(two)?;
    parts.push(three)?;
    Ok(parts)
}

/// The circuit of these parts, with three views of these nodes.
pub fn ended(
    alloc: Global,
    parts: Vec<Part>,
    first: u32,
    second: u32,
    third: u32,
) -> Result<Circuit, NoMemory>
    requires begun { IsBegun 3 2 parts.items }
    requires few { length parts.items < 2 ^ 20 }
    requires shown { AreShown parts.items first second third }
{
    let (one, two, three) = three_views(alloc, &parts, first, second, third)?;
    let parts = with_three(parts, one, two, three)?;
    Ok(Circuit::of(parts))
}
