//! `Circuit`: nodes in an order in which each reads earlier ones alone, with what is known of them.
ghost use Rattle.std.specs.Prelude.{◌≡◌, ◌<◌, length, Some};
ghost use Rattle.sq_circuit.specs.Circuits.{kinds_at, node_at, owner_at, place_at};
ghost use Rattle.sq_circuit.specs.Invariant.{IsCircuit};

use crate::Node;
use sq_expr::Kind;
use sqlite_items::Items;
use std::marker::Model;

/// A node of a circuit with what is known of it.
#[derive(Debug, Drop)]
pub struct Part {
    pub node: Node,
    /// The kinds of the node's columns.
    pub kinds: Items<Kind>,
    /// Whether the number of its rows is tested: at most 2^61 may be listed there.
    pub place: bool,
    /// The least view that the node belongs to; a table belongs to none.
    pub owner: Option<u32>,
}

/// A circuit of operators. Contracts see it as the list of its parts, by the numbers of their nodes.
///
/// Each node reads earlier nodes alone, tables come first and views last, both in order, and each operator takes the rows
/// that it reads. Over tables without negative weights and with totals of at most 2^61, a node that neither has a number
/// out of range nor needs one that has holds rows of its kinds, with weights in range.
#[derive(Debug, Drop)]
pub struct Circuit {
    parts: Vec<Part>,
}

impl Model for Circuit {
    ghost use Rattle.std.specs.Prelude.{List};
    ghost use Rattle.std.specs.Coded.{coded_list};
    ghost use Rattle.sq_circuit.specs.contracts.circuit.Part as part;
    ghost use Rattle.sq_circuit.specs.declared.circuit.Part.{Part as Known};
    ghost use Rattle.sq_circuit.specs.Invariant.{IsCircuit};

    ghost Value = { List Known };

    ghost coded = { coded_list (part.the_row).coded };

    ghost view = { λ c. c.parts.items };

    ghost invariant = { λ c. IsCircuit c.parts.items };
}

impl Circuit {
    /// The circuit of these parts in order. Takes no memory.
    pub fn of(parts: Vec<Part>) -> Circuit
        requires { IsCircuit parts.items }
        ensures { result ≡ parts.items }
    {
        Circuit { parts }
    }

    /// The number of nodes. Takes no memory.
    pub fn len(&self) -> u32
        ensures len { result ≡ length self.now }
        ensures sound { IsCircuit self.now }
    {
        self.parts.len() as u32
    }

    /// The node with this number. Takes no memory.
    pub fn node(&self, i: u32) -> &Node
        requires { i < length self.now }
        ensures node { node_at self.now i ≡ Some result.now }
        ensures sound { IsCircuit self.now }
    {
        &self.parts[i as usize].node
    }

    /// The kinds of the node's columns. Takes no memory.
    pub fn kinds(&self, i: u32) -> &[Kind]
        requires { i < length self.now }
        ensures kinds { result.now ≡ kinds_at self.now i }
        ensures sound { IsCircuit self.now }
    {
        self.parts[i as usize].kinds.as_slice()
    }

    /// Whether the number of the node's rows is tested. Takes no memory.
    pub fn place(&self, i: u32) -> bool
        requires { i < length self.now }
        ensures place { result ≡ place_at self.now i }
        ensures sound { IsCircuit self.now }
    {
        self.parts[i as usize].place
    }

    /// The least view that the node belongs to, and none for a table. Takes no memory.
    pub fn owner(&self, i: u32) -> Option<u32>
        requires { i < length self.now }
        ensures owner { result ≡ owner_at self.now i }
        ensures sound { IsCircuit self.now }
    {
        self.parts[i as usize].owner
    }
}
