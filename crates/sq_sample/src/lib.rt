//! The sample: a program of its own, and the ticks that it is run with, drawn by a generator of numbers.
#![tactic(auto)]

mod calls;
mod counted;
mod generator;
pub mod laws;
mod lines;
mod run;
mod ticks;
mod written;

pub use run::sample_lines;
pub use sq_meant::PROGRAM;
pub use ticks::SampleTicks;
pub use written::{SampleStop, run_sample};

fn is_send_and_sync<T: Send + Sync>() {}

// A sample may be handed to another thread, and be shared.
fn data_crosses_threads() {
    is_send_and_sync::<SampleTicks>();
}
