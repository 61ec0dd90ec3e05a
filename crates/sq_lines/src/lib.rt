//! The lines of an input: how bytes are cut into them, and what a change line says.
#![tactic(auto)]

mod cells;
mod cutter;
pub mod laws;
mod line;
mod reading;
mod table;

pub use cutter::Cutter;
pub use line::{Line, RawLine, Why};
pub use reading::decode;

fn is_send_and_sync<T: Send + Sync>() {}

// Each type of data may be handed to another thread, and be shared.
fn data_crosses_threads() {
    is_send_and_sync::<Cutter>();
    is_send_and_sync::<RawLine>();
    is_send_and_sync::<Why>();
    is_send_and_sync::<Line>();
}
