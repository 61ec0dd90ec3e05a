//! A circuit as text.
ghost use Rattle.std.specs.Prelude.{◌≡◌, ◌++◌, OnOk, IfOk, decimal};
ghost use Rattle.sq_circuit.specs.Explained.{explained, inputs_text, kind_text, node_text, pair_text};

use crate::{Circuit, Node};
use itoa::Buffer;
use sq_value::NoMemory;
use std::alloc::Global;

/// The nodes of a circuit, a line for each in order, as `{"node":2,"kind":"join","inputs":[0,1]}`; or `NoMemory` when memory runs
/// out. Nodes count from 0. The kinds are `table`, `linear`, `join`, `distinct`, `aggregate`, `plus`, `minus` and `view`.
pub fn explain(alloc: Global, circuit: &Circuit) -> Result<Vec<u8>, NoMemory>
    ensures { IfOk result (λ text. text.items ≡ explained circuit.now) }
{
    let mut text = Vec::new(alloc);
    for i in 0..circuit.len() {
        push_line(&mut text, i, circuit.node(i))?;
    }
    Ok(text)
}

// Appends the line of a node.
fn push_line(out: &mut Vec<u8>, number: u32, node: &Node) -> Result<(), NoMemory>
    ensures { OnOk result (out.new.items ≡ out.old.items ++ node_text number node.now) }
{
    out.extend_from_slice(b"{\"node\":")?;
    push_number(out, number)?;
    out.extend_from_slice(b",\"kind\":\"")?;
    out.extend_from_slice(kind_of(node))?;
    out.extend_from_slice(b"\",\"inputs\":[")?;
    push_inputs(out, node)?;
    out.extend_from_slice(b"]}\n")?;
    Ok(())
}

fn kind_of(node: &Node) -> &'static [u8]
    ensures { result.now ≡ kind_text node.now }
{
    match node {
        Node::Table { .. } => b"table",
        Node::Linear { .. } => b"linear",
        Node::Join { .. } => b"join",
        Node::Distinct { .. } => b"distinct",
        Node::Aggregate { .. } => b"aggregate",
        Node::Plus { .. } => b"plus",
        Node::Minus { .. } => b"minus",
        Node::View { .. } => b"view",
    }
}

// Appends the numbers of the nodes that a node reads.
fn push_inputs(out: &mut Vec<u8>, node: &Node) -> Result<(), NoMemory>
    ensures { OnOk result (out.new.items ≡ out.old.items ++ inputs_text node.now) }
{
    match node {
        Node::Table { .. } => Ok(()),
        Node::Linear { input, .. }
        | Node::Distinct { input }
        | Node::Aggregate { input, .. }
        | Node::View { input, .. } => push_number(out, *input),
        Node::Join { left, right, .. } | Node::Plus { left, right } | Node::Minus { left, right } =>
            push_pair(out, *left, *right),
    }
}

fn push_pair(out: &mut Vec<u8>, left: u32, right: u32) -> Result<(), NoMemory>
    ensures { OnOk result (out.new.items ≡ out.old.items ++ pair_text left right) }
{
    push_number(out, left)?;
    out.extend_from_slice(b",")?;
    push_number(out, right)
}

fn push_number(out: &mut Vec<u8>, number: u32) -> Result<(), NoMemory>
    ensures { OnOk result (out.new.items ≡ out.old.items ++ decimal number) }
{
    let mut buffer = Buffer::new();
    out.extend_from_slice(buffer.format(number).as_bytes())?;
    Ok(())
}
