//! Circuits of operators on Z-sets (DBSP, PVLDB 16(7), 2023): their nodes, what each node is worth over whole tables, and
//! which view is to blame if a number leaves its range.
#![tactic(auto)]

mod changes;
mod circuit;
mod counts;
pub mod laws;
mod node;
mod text;

pub use changes::Changes;
pub use circuit::{Circuit, Part};
pub use node::{LinearOp, Node};
pub use text::explain;
