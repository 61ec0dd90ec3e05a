//! From a program text to its program and a circuit that stands for it, or to the text's first fault.
#![tactic(auto)]

mod relations;
mod texts;

pub use relations::view_name;
pub use texts::{CompileFault, LONGEST_TEXT, compile};

fn is_send_and_sync<T: Send + Sync>() {}

// A fault may be handed to another thread, and be shared.
fn faults_cross_threads() {
    is_send_and_sync::<CompileFault>();
}
