//! What the nodes of a circuit keep in one shard, and the step of one node.
#![tactic(auto)]

mod aggregate;
mod commit;
mod entries;
mod join;
mod kept;
pub mod laws;
mod linear;
mod piece;
mod ready;
mod rows;
mod step;

pub use kept::{NodeState, States};
pub use piece::{NodeFault, Piece, StateChange, StepRefusal};
pub use ready::{Ready, ReadyTraces};
pub use step::node_step;
