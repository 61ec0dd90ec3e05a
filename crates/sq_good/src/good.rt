//! Whether tables are good for a circuit, which is tested when a test runs.
ghost use Rattle.std.specs.Prelude.{◌≡◌, ◌<◌, IsTrue, length};
ghost use Rattle.sq_circuit.specs.Circuits.{table_at};
ghost use Rattle.sq_circuit.specs.Invariant.{HasKinds, IsGood, IsListed};
ghost use Rattle.sq_good.specs.Tables.{AreListed, FitsNode, table_of};

use sq_circuit::{Circuit, Node};
use sq_expr::{Kind, is_of_kinds};
use sq_zset::ZSet;

// Whether all rows are of these kinds.
fn has_kinds(z: &ZSet, kinds: &[Kind]) -> bool
    ensures { IsTrue result → HasKinds kinds.now z.now }
{
    for i in 0..z.len() {
        let (row, _) = z.at(i);
        if !is_of_kinds(row, kinds) {
            return false;
        }
    }
    true
}

// Whether no weight is below 0, and there are at most 2^61 rows.
fn is_listed(z: &ZSet) -> bool
    ensures { IsTrue result → IsListed z.now }
{
    for i in 0..z.len() {
        let (_, weight) = z.at(i);
        if weight < 0 {
            return false;
        }
    }
    z.total() <= 1 << 61
}

fn are_listed(tables: &[ZSet]) -> bool
    ensures { IsTrue result → AreListed tables.now }
{
    for i in 0..tables.len() {
        if !is_listed(&tables[i]) {
            return false;
        }
    }
    true
}

// The table of a node, if it is a table's.
fn table_of(node: &Node) -> Option<u32>
    ensures { result ≡ table_of node.now }
{
    match node {
        Node::Table { table } => Some(*table),
        Node::Linear { .. } => None,
        Node::Join { .. } => None,
        Node::Distinct { .. } => None,
        Node::Aggregate { .. } => None,
        Node::Plus { .. } => None,
        Node::Minus { .. } => None,
        Node::View { .. } => None,
    }
}

// Whether the table with this number has rows of these kinds alone.
fn has_kinds_at(tables: &[ZSet], table: usize, kinds: &[Kind]) -> bool
    ensures { IsTrue result → HasKinds kinds.now (table_at tables.now table) }
{
    if table >= tables.len() {
        return false;
    }
    has_kinds(&tables[table], kinds)
}

// Whether the node is no table's, or this table has rows of the node's kinds alone.
fn fits_node(circuit: &Circuit, tables: &[ZSet], i: u32) -> bool
    requires { i < length circuit.now }
    ensures { IsTrue result → FitsNode circuit.now tables.now i }
{
    match table_of(circuit.node(i)) {
        Some(table) => has_kinds_at(tables, table as usize, circuit.kinds(i)),
        None => true,
    }
}

/// Whether the tables are as many as the circuit's, each with rows of its kinds alone, no weight below 0 and at most 2^61 rows.
pub fn are_good(circuit: &Circuit, tables: &[ZSet]) -> bool
    ensures { IsTrue result → IsGood circuit.now tables.now }
{
    if tables.len() != circuit.table_count() as usize {
        return false;
    }
    if !are_listed(tables) {
        return false;
    }
    for i in 0..circuit.len() {
        if !fits_node(circuit, tables, i) {
            return false;
        }
    }
    true
}
