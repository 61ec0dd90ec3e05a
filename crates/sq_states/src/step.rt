//! The step of one node in one shard.
ghost use Rattle.std.specs.Prelude.{◌≡◌, ◌<◌, length, IfOk};
ghost use Rattle.sq_states.specs.Keeps.{OnNode};
ghost use Rattle.sq_states.specs.Steps.{IsStepped, NodeStep};

use crate::aggregate::aggregate_node;
use crate::join::join_node;
use crate::linear::{linear_step, minus_step, plus_step, view_step};
use crate::rows::{distinct_node, table_step};
use crate::{NodeState, Piece, States, StepRefusal};
use sq_base::Steps;
use sq_circuit::{Circuit, Node};
use sq_zset::ZSet;
use std::alloc::Global;

/// What a node of the circuit has more in one shard than before, and by which its traces there change.
///
/// `left` and `right` are the parts, in the shard, of the changes of what the node reads, by the node's keys; a side that the node
/// does not read is empty, and `left` is the change of a table itself. The states hold the old rows of the shard. `first` is true
/// at the start, before which nothing was shown, in the shard of the empty key alone: then a global aggregate shows its row.
///
/// The answer is `Fault` exactly if the operator has a fault over these parts, and `Memory` when memory runs out. It takes at most
/// the steps of the node's cost over them.
pub fn node_step<L>(
    alloc: Global,
    circuit: &Circuit,
    node: u32,
    states: &States,
    left: &ZSet,
    right: &ZSet,
    first: bool,
    steps: &mut Steps<L>,
) -> Result<Piece, StepRefusal>
    requires inside { node < length circuit.now }
    requires kept { node < length states.now }
    requires state { OnNode circuit.now node states.now (λ n kept. NodeStep n kept left.now right.now first) }
    ensures number { IfOk result (λ piece. piece.node ≡ node) }
    ensures stepped { OnNode circuit.now node states.now (λ n kept. IsStepped n kept left.now right.now first result steps.old.count steps.new.count) }
    ensures ledger { steps.new.ledger ≡ steps.old.ledger }
{
    step_of(
        alloc,
        node,
        circuit.node(node),
        states.state(node),
        left,
        right,
        first,
        steps,
    )
}

// The step of the node with this number and this state.
fn step_of<L>(
    alloc: Global,
    number: u32,
    node: &Node,
    kept: &NodeState,
    left: &ZSet,
    right: &ZSet,
    first: bool,
    steps: &mut Steps<L>,
) -> Result<Piece, StepRefusal>
    requires { NodeStep node.now kept.now left.now right.now first }
    ensures number { IfOk result (λ piece. piece.node ≡ number) }
    ensures stepped { IsStepped node.now kept.now left.now right.now first result steps.old.count steps.new.count }
    ensures ledger { steps.new.ledger ≡ steps.old.ledger }
{
    match node {
        Node::Table { table: _ } => table_step(alloc, number, left),
        Node::Linear { input: _, op } => linear_step(alloc, number, op, left),
        Node::Join {
            left: _,
            right: _,
            op,
        } => {
            let (a, b) = kept.sides();
            join_node(alloc, number, op, a, b, left, right, steps)
        }
        Node::Distinct { input: _ } => distinct_node(alloc, number, kept.rows(), left, steps),
        Node::Aggregate { input: _, spec } => {
            let (acc, ordered, shown) = kept.groups();
            aggregate_node(alloc, number, spec, acc, ordered, shown, left, first, steps)
        }
        Node::Plus { left: _, right: _ } => plus_step(alloc, number, left, right),
        Node::Minus { left: _, right: _ } => minus_step(alloc, number, left, right),
        Node::View { input: _, view: _ } => view_step(alloc, number, left),
    }
}
