//! The program of Keltzumba as one call: `top` reads the words and the input, and writes the changes of the views.
//!
//! The views are those of the engine (`sq_engine`), over the circuit that the planner makes of the program (`sq_plan`).
#![tactic(auto)]

mod calls;
mod session;
mod statuses;

pub use calls::{Served, serve, top};
pub use sq_compile::{CompileFault, compile};
pub use statuses::Status;

fn is_send_and_sync<T: Send + Sync>() {}

// A status and what a run leaves may be handed to another thread, and be shared.
fn data_crosses_threads() {
    is_send_and_sync::<Status>();
    is_send_and_sync::<Served>();
}
