//! Which kinds of nodes read which in the circuits that are drawn.
ghost use Rattle.std.specs.Prelude.{◌<◌};

use crate::drawn::next;
use crate::generated::generated;
use sq_circuit::{Circuit, Node};
use std::alloc::Global;
use std::test::Fail;

// The number of the kind of a node.
fn kind_of(node: &Node) -> u32
    ensures { result < 8 }
{
    match node {
        Node::Table { .. } => 0,
        Node::Linear { .. } => 1,
        Node::Join { .. } => 2,
        Node::Distinct { .. } => 3,
        Node::Aggregate { .. } => 4,
        Node::Plus { .. } => 5,
        Node::Minus { .. } => 6,
        Node::View { .. } => 7,
    }
}

// A bit for the kind of a node and the kind of one that it reads.
fn bit_of(circuit: &Circuit, reader: u32, read: u32) -> u64 {
    if reader >= circuit.len() {
        return 0;
    }
    if read >= circuit.len() {
        return 0;
    }
    1 << (kind_of(circuit.node(reader)) * 8 + kind_of(circuit.node(read)))
}

// The bits of a node and what it reads.
fn bits_at(circuit: &Circuit, i: u32) -> u64 {
    if i >= circuit.len() {
        return 0;
    }
    match circuit.node(i) {
        Node::Table { .. } => 0,
        Node::Linear { input, .. } => bit_of(circuit, i, *input),
        Node::Join { left, right, .. } => bit_of(circuit, i, *left) | bit_of(circuit, i, *right),
        Node::Distinct { input } => bit_of(circuit, i, *input),
        Node::Aggregate { input, .. } => bit_of(circuit, i, *input),
        Node::Plus { left, right } => bit_of(circuit, i, *left) | bit_of(circuit, i, *right),
        Node::Minus { left, right } => bit_of(circuit, i, *left) | bit_of(circuit, i, *right),
        Node::View { input, .. } => bit_of(circuit, i, *input),
    }
}

// The bits of all nodes of a circuit.
fn bits_of(circuit: &Circuit) -> u64 {
    let mut bits = 0;
    for i in 0..circuit.len() {
        bits |= bits_at(circuit, i);
    }
    bits
}

// The bits of the first circuits that are drawn.
fn bits_of_first(alloc: Global, circuits: u64) -> Result<u64, Fail> {
    let mut bits = 0;
    for seed in 0..circuits {
        let circuit = generated(alloc, next(next(seed)))?;
        bits |= bits_of(&circuit);
    }
    Ok(bits)
}

// Of 44 pairs of kinds, of a node and one that it reads, 38 are there. A Minus is read by a Distinct and a View alone, since its rows need be
// no list.
#[test]
fn kinds_read_kinds(rt: HostRuntime) -> Result<(), Fail> {
    let bits = bits_of_first(rt.alloc(), 8)?;
    assert_eq!(&rt; bits.count_ones(), 38);
    Ok(())
}
