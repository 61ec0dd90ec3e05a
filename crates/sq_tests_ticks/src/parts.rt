//! Parts of a circuit in the making, and tests of them as a test runs.
ghost use Rattle.std.specs.Prelude.{◌≡◌, ◌≤◌, ◌++◌, ◌∷◌, ℕ, [], Some, IsTrue, OnOk};
ghost use Rattle.sq_circuit.specs.Begun.{IsBegun, IsNext};
ghost use Rattle.sq_circuit.specs.Listed.{is_loose};
ghost use Rattle.sq_tests_ticks.specs.Making.{AreShown, IsInput, IsRead, IsShown, pairs, part_of};

use sq_circuit::{Node, Part};
use sq_expr::Kind;
use sq_value::NoMemory;
use sqlite_items::Items;
use std::alloc::Global;

/// Puts a node for a view behind the parts.
pub fn push(
    alloc: Global,
    node: Node,
    kinds: &[Kind],
    place: bool,
    view: u32,
    parts: &mut Vec<Part>,
) -> Result<(), NoMemory>
    requires begun { IsBegun 3 view parts.old.items }
    requires next { IsNext 3 view parts.old.items (part_of node kinds.now place view) }
    ensures is { OnOk result (parts.new.items ≡ parts.old.items ++ part_of node kinds.now place view ∷ []) }
    ensures begun { OnOk result (IsBegun 3 view parts.new.items) }
{
    let kinds = Items::from_slice(alloc, kinds)?;
    parts.push(Part {
        node,
        kinds,
        place,
        owner: Some(view),
    })?;
    Ok(())
}

// Whether these are the kinds of two BIGINTs.
fn are_pairs(kinds: &[Kind]) -> bool
    ensures { IsTrue result → kinds.now ≡ pairs }
{
    match kinds {
        [Kind::Bigint, Kind::Bigint] => true,
        _ => false,
    }
}

// Whether the rows of a node need be no list.
fn is_loose(node: &Node, place: bool) -> bool
    ensures { result ≡ is_loose node.now place }
{
    match node {
        Node::Table { .. } => false,
        Node::Linear { .. } => false,
        Node::Join { .. } => false,
        Node::Distinct { .. } => false,
        Node::Aggregate { .. } => false,
        Node::Plus { .. } => !place,
        Node::Minus { .. } => !place,
        Node::View { .. } => !place,
    }
}

/// Whether the node has rows of two BIGINTs.
pub fn is_read(parts: &[Part], i: u32) -> bool
    ensures { IsTrue result → IsRead parts.now i }
{
    let at = i as usize;
    if at >= parts.len() {
        return false;
    }
    are_pairs(parts[at].kinds.as_slice())
}

/// Whether it has such rows, and they are a list where it is sound.
pub fn is_input(parts: &[Part], i: u32) -> bool
    ensures { IsTrue result → IsInput pairs parts.now i }
{
    let at = i as usize;
    if at >= parts.len() {
        return false;
    }
    let part = &parts[at];
    if !are_pairs(part.kinds.as_slice()) {
        return false;
    }
    if is_loose(&part.node, part.place) {
        return false;
    }
    true
}

// Whether an owner is not above the view.
fn is_not_later(owner: Option<u32>, view: u32) -> bool
    ensures { IsTrue result → (w : ℕ) → owner ≡ Some w → w ≤ view }
{
    match owner {
        None => true,
        Some(w) => w <= view,
    }
}

/// Whether the view may show the node.
pub fn is_shown(parts: &[Part], view: u32, i: u32) -> bool
    ensures { IsTrue result → IsShown parts.now view i }
{
    let at = i as usize;
    if at >= parts.len() {
        return false;
    }
    is_not_later(parts[at].owner, view)
}

/// Whether the views 0, 1 and 2 may show these nodes.
pub fn are_shown(parts: &[Part], first: u32, second: u32, third: u32) -> bool
    ensures { IsTrue result → AreShown parts.now first second third }
{
    if !is_shown(parts, 0, first) {
        return false;
    }
    if !is_shown(parts, 1, second) {
        return false;
    }
    is_shown(parts, 2, third)
}
