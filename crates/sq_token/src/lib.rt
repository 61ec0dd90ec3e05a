//! The tokens of a program text: words, quoted names, texts, numbers and symbols, each with the place
//! where it stands.
#![tactic(auto)]

mod bytes;
mod fault;
pub mod laws;
mod lexer;
mod piece;
mod quoted;
mod symbol;
mod token;

pub use fault::LexFault;
pub use lexer::tokens;
pub use symbol::Symbol;
pub use token::{Token, TokenKind};
