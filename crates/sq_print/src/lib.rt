//! The texts that the program prints: the blocks of ticks, the lines of refused ones, the line of a program's fault, and those of its
//! relations.
#![tactic(auto)]

mod blocks;
mod fault_lines;
mod json_text;
mod program_fault;
mod refusal;
mod refusals;
mod relations;

pub use blocks::block_text;
pub use fault_lines::fault_text;
pub use program_fault::ProgramFault;
pub use refusal::Refusal;
pub use refusals::refusal_text;
pub use relations::relation_lines;

fn is_send_and_sync<T: Send + Sync>() {}

// Refusals and faults may be handed to another thread, and be shared.
fn data_crosses_threads() {
    is_send_and_sync::<Refusal>();
    is_send_and_sync::<ProgramFault>();
}
