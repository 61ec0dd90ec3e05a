//! Names, expressions and conditions as trees, read from the tokens that spell them.
//!
//! Each function reads a part of a statement from a front of the tokens, and answers its tree and the tokens behind
//! it, as the reading function of that part in sq_ast does. sq_parse reads queries and statements with them.
#![tactic(auto)]

pub mod cond;
pub mod expr;
pub mod list;
pub mod name;
pub mod step;
mod stops;

pub use stops::Stop;
