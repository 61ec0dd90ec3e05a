//! Tokens and what they say.
use crate::Symbol;
use sq_value::Str;

/// A token, and the places in the text, in bytes from 0, where it begins and where it has ended.
#[derive(Debug, Drop)]
pub struct Token {
    pub start: u32,
    pub end: u32,
    pub kind: TokenKind,
}

/// What a token says.
#[derive(Debug, Drop)]
pub enum TokenKind {
    /// An unquoted word, with its letters in lower case.
    Word(Str),
    /// A quoted name as it is written, without its quotes and with each doubled quote as one. May be empty.
    Name(Str),
    /// A text as it is written, without its quotes and with each doubled quote as one. May be empty.
    Text(Str),
    /// A number, of at most 9223372036854775808.
    Number(u64),
    Symbol(Symbol),
}
