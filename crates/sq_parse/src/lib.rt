//! The reader: statements as trees from the tokens that spell them.
#![tactic(auto)]

mod chain;
mod fault;
mod part;
mod program;
mod query;
mod statement;

pub use fault::ParseFault;
pub use program::statements;
