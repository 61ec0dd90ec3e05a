//! The value of a circuit over whole tables: the Z-set of each node, or the view that is out of range.
#![tactic(auto)]

mod evaluate;
mod fault;
mod node;

pub use evaluate::whole_eval;
pub use fault::EvalFault;
