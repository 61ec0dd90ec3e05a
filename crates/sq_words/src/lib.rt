//! The words of the command line: the mode and the numbers that they choose, or the text that says what is wrong with them.
#![tactic(auto)]

mod choice;
mod command;
mod words;

pub use choice::{Choice, Mode};
pub use words::{WordsFault, read_words};

fn is_send_and_sync<T: Send + Sync>() {}

// Each type of data may be handed to another thread, and be shared.
fn data_crosses_threads() {
    is_send_and_sync::<Mode>();
    is_send_and_sync::<Choice>();
    is_send_and_sync::<WordsFault>();
}
