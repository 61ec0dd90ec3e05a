//! How many tables and views a circuit has.
ghost use Rattle.std.specs.Prelude.{◌≡◌};
ghost use Rattle.sq_circuit.specs.Invariant.{IsCircuit, is_table, is_view, table_count, view_count};

use crate::{Circuit, Node};

fn is_table(node: &Node) -> bool
    ensures { result ≡ is_table node.now }
{
    match node {
        Node::Table { .. } => true,
        Node::Linear { .. } => false,
        Node::Join { .. } => false,
        Node::Distinct { .. } => false,
        Node::Aggregate { .. } => false,
        Node::Plus { .. } => false,
        Node::Minus { .. } => false,
        Node::View { .. } => false,
    }
}

fn is_view(node: &Node) -> bool
    ensures { result ≡ is_view node.now }
{
    match node {
        Node::Table { .. } => false,
        Node::Linear { .. } => false,
        Node::Join { .. } => false,
        Node::Distinct { .. } => false,
        Node::Aggregate { .. } => false,
        Node::Plus { .. } => false,
        Node::Minus { .. } => false,
        Node::View { .. } => true,
    }
}

impl Circuit {
    /// The number of tables, which are the first nodes. Takes no memory.
    pub fn table_count(&self) -> u32
        ensures count { result ≡ table_count self.now }
        ensures sound { IsCircuit self.now }
    {
        let mut count = 0;
        for i in 0..self.len() {
            if is_table(self.node(i)) {
                count += 1;
            }
        }
        count
    }

    /// The number of views, which are the last nodes. Takes no memory.
    pub fn view_count(&self) -> u32
        ensures count { result ≡ view_count self.now }
        ensures sound { IsCircuit self.now }
    {
        let mut count = 0;
        for i in 0..self.len() {
            if is_view(self.node(i)) {
                count += 1;
            }
        }
        count
    }
}
