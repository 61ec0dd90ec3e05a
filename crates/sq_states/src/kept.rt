//! What the nodes of a circuit keep in one shard.
ghost use Rattle.std.specs.Prelude.{◌≡◌, ◌<◌, length, slice_get, Some, ⊤, IfOk};
ghost use Rattle.sq_states.specs.Empty.{empty_state, empty_states};
ghost use Rattle.sq_states.specs.Keeps.{OnGroups, OnRows, OnSides};
ghost use Rattle.sq_states.specs.declared.kept.NodeState.{NodeState as Kept};
ghost use Rattle.sq_states.specs.declared.kept.NodeState.TheVariants.{Groups as GroupsOf, Rows as RowsOf, Sides as SidesOf};

use sq_agg::Acc;
use sq_circuit::{Circuit, Node};
use sq_trace::Trace;
use sq_value::NoMemory;
use std::alloc::Global;
use std::marker::Model;

/// What a node keeps in one shard.
#[derive(Debug, Drop)]
pub enum NodeState {
    /// Most nodes keep nothing.
    Nothing,
    /// A Table or a Distinct keeps the rows that it reads, each under itself.
    Rows {
        rows: Trace<i64>,
    },
    /// A Join keeps the rows that it reads on its left and on its right, each under its key.
    Sides {
        left: Trace<i64>,
        right: Trace<i64>,
    },
    /// An Aggregate keeps accumulators, arguments of MIN and MAX, and shown rows, by group.
    Groups {
        acc: Trace<Acc>,
        ordered: Trace<i64>,
        shown: Trace<i64>,
    },
}

impl NodeState {
    /// The trace of a Table or a Distinct. Takes no memory.
    pub fn rows(&self) -> &Trace<i64>
        requires { OnRows self.now (λ _. ⊤) }
        ensures { self.now ≡ RowsOf result.now }
    {
        match self {
            NodeState::Rows { rows } => rows,
            NodeState::Nothing => unreachable!(),
            NodeState::Sides { .. } => unreachable!(),
            NodeState::Groups { .. } => unreachable!(),
        }
    }

    /// The traces of a Join, of its left and of its right side. Takes no memory.
    pub fn sides(&self) -> (&Trace<i64>, &Trace<i64>)
        requires { OnSides self.now (λ _ _. ⊤) }
        ensures { self.now ≡ SidesOf result.0.now result.1.now }
    {
        match self {
            NodeState::Sides { left, right } => (left, right),
            NodeState::Nothing => unreachable!(),
            NodeState::Rows { .. } => unreachable!(),
            NodeState::Groups { .. } => unreachable!(),
        }
    }

    /// The traces of an Aggregate: accumulators, arguments, and shown rows. Takes no memory.
    pub fn groups(&self) -> (&Trace<Acc>, &Trace<i64>, &Trace<i64>)
        requires { OnGroups self.now (λ _ _ _. ⊤) }
        ensures { self.now ≡ GroupsOf result.0.now result.1.now result.2.now }
    {
        match self {
            NodeState::Groups {
                acc,
                ordered,
                shown,
            } => (acc, ordered, shown),
            NodeState::Nothing => unreachable!(),
            NodeState::Rows { .. } => unreachable!(),
            NodeState::Sides { .. } => unreachable!(),
        }
    }
}

/// What the nodes of a circuit keep in one shard. Contracts see it as the list of the nodes' states, by their numbers.
#[derive(Debug, Drop)]
pub struct States {
    pub(crate) nodes: Vec<NodeState>,
}

impl Model for States {
    ghost use Rattle.std.specs.Prelude.{List};
    ghost use Rattle.std.specs.Coded.{coded_list};
    ghost use Rattle.sq_states.specs.contracts.kept.NodeState as kept;
    ghost use Rattle.sq_states.specs.declared.kept.NodeState.{NodeState as Kept};

    ghost Value = { List Kept };

    ghost coded = { coded_list (kept.the_row).coded };

    ghost view = { λ s. s.nodes.items };
}

impl States {
    /// The states of the nodes of a circuit before anything was there, or `NoMemory` when memory runs out.
    pub fn new(alloc: Global, circuit: &Circuit) -> Result<States, NoMemory>
        ensures { IfOk result (λ states. states ≡ empty_states circuit.now) }
    {
        let mut nodes = Vec::with_capacity(alloc, circuit.len() as usize)?;
        for i in 0..circuit.len() {
            nodes.push(empty(alloc, circuit.node(i)))?;
        }
        Ok(States { nodes })
    }

    /// What the node with this number keeps. Takes no memory.
    pub fn state(&self, node: u32) -> &NodeState
        requires { node < length self.now }
        ensures { slice_get self.now node ≡ Some result.now }
    {
        &self.nodes[node as usize]
    }

    /// The trace of a table, by its number. Takes no memory.
    pub fn table(&self, table: u32) -> &Trace<i64>
        requires inside { table < length self.now }
        requires keeps_rows { (kept : Kept) → slice_get self.now table ≡ Some kept → OnRows kept (λ _. ⊤) }
        ensures { slice_get self.now table ≡ Some (RowsOf result.now) }
    {
        self.state(table).rows()
    }
}

// What a node keeps before anything was there.
fn empty(alloc: Global, node: &Node) -> NodeState
    ensures { result ≡ empty_state node.now }
{
    match node {
        Node::Table { .. } => NodeState::Rows {
            rows: Trace::new(alloc),
        },
        Node::Linear { .. } => NodeState::Nothing,
        Node::Join { .. } => NodeState::Sides {
            left: Trace::new(alloc),
            right: Trace::new(alloc),
        },
        Node::Distinct { .. } => NodeState::Rows {
            rows: Trace::new(alloc),
        },
        Node::Aggregate { .. } => NodeState::Groups {
            acc: Trace::new(alloc),
            ordered: Trace::new(alloc),
            shown: Trace::new(alloc),
        },
        Node::Plus { .. } => NodeState::Nothing,
        Node::Minus { .. } => NodeState::Nothing,
        Node::View { .. } => NodeState::Nothing,
    }
}
