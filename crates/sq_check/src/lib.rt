//! The checker: from statements to the typed program that they mean, or the first fault that one of them has.
#![tactic(auto)]

mod bare;
mod columns;
mod findings;
mod frame;
pub mod laws;
mod leaves;
mod listed;
mod lookup;
mod program;
mod resolve;
mod statement;
mod type_tests;
mod typed;
mod typed_block;
mod widen;

pub use program::{CheckFault, check};
