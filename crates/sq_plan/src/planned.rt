//! A whole program as a circuit: its tables, the nodes of its queries, and its views.
ghost use Rattle.std.specs.Prelude.{◌≡◌, ◌<◌, ◌≤◌, ◌+◌, ◌^◌, ◌++◌, IfOk, length};
ghost use Rattle.std.specs.List.{AllByRecursion};
ghost use Rattle.sq_plan.specs.Program.{IsPlanOf, view_part, views_from};
ghost use Rattle.sq_typed.specs.Sources.{sources_in};

use crate::relations::walk;
use sq_circuit::{Circuit, Node, Part};
use sq_typed::Program;
use sq_value::NoMemory;
use sqlite_items::Items;
use std::alloc::Global;

// The node of a view that shows a node of these parts.
fn shown_part(alloc: Global, parts: &[Part], view: u32, input: u32) -> Result<Part, NoMemory>
    requires { input < length parts.now }
    ensures { IfOk result (λ part. part ≡ view_part parts.now view input) }
{
    let kinds = Items::from_slice(alloc, parts[input as usize].kinds.as_slice())?;
    Ok(Part {
        node: Node::View { input, view },
        kinds,
        place: false,
        owner: Some(view),
    })
}

// The parts, and behind them the views that show these nodes.
fn with_views(alloc: Global, parts: Vec<Part>, shown: &[u32]) -> Result<Vec<Part>, NoMemory>
    requires low { AllByRecursion (λ i. i < length parts.items) shown.now }
    requires few { length shown.now < 2 ^ 32 }
    ensures { IfOk result (λ all. all.items ≡ parts.items ++ views_from parts.items 0 shown.now) }
{
    let mut parts = parts;
    for view in 0..shown.len() {
        let part = shown_part(alloc, parts.as_slice(), view as u32, shown[view])?;
        parts.push(part)?;
    }
    Ok(parts)
}

/// The circuit of a program with at most 2^20 sources. Its tables are the program's, in order, with the kinds of their columns; over tables
/// that hold rows of these kinds its view nodes hold the rows of the views, and its verdict is the first view that is out of range. It has
/// at most 40 nodes for each source, and one more for each table and view. The join of a source has as keys all equalities of two plain
/// columns, one on each side, among its conditions; every other join has all columns of its right input as keys.
///
/// `NoMemory` comes only from a refused allocation.
pub fn plan(alloc: Global, program: &Program) -> Result<Circuit, NoMemory>
    requires { sources_in program.now ≤ 2 ^ 20 }
    ensures { IfOk result (λ circuit. IsPlanOf program.now circuit) }
{
    let walked = walk(alloc, program)?;
    let parts = with_views(alloc, walked.draft.parts, walked.shown.as_slice())?;
    Ok(Circuit::of(parts))
}
