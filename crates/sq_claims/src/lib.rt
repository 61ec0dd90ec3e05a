//! The board of claims: an atomic word on which the workers of a level claim its tasks, each once.
#![tactic(auto)]

mod board;
mod rule;

pub use board::{Board, Pass};

fn is_send<T: Send>() {}

fn is_sync<T: Sync>() {}

// A board is shared by all workers, and a pass is handed to one of them.
fn they_cross_threads() {
    is_sync::<Board>();
    is_send::<Board>();
    is_send::<Pass>();
}
