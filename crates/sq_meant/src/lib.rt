//! The program of the sample: its text, what the text means, and that no view of it is out of range over small tables.
#![tactic(auto)]

pub mod laws;
mod program;

pub use program::PROGRAM;
