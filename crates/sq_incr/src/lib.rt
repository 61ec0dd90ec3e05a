//! Tasks of a circuit over shards: legal orders of them, what becomes of each, that the order does not matter, and `play`, which runs
//! them.
#![tactic(auto)]

mod inputs;
mod judge;
mod keys;
pub mod laws;
mod pieces;
mod run;
mod store;
mod task;
mod turns;
mod whole;

pub use pieces::{Pieces, PlayRefusal};
pub use task::Task;
pub use whole::play;
