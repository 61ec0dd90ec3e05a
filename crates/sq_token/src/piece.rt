//! What stands at one place of a text: a token or a gap.
ghost use Rattle.std.specs.Prelude.{◌≡◌, ◌≢◌, ◌+◌, ◌<◌, ◌≤◌, ◌++◌, ◌^◌, List, ℕ, IsTrue, length, slice_index, codes, MatchResult, MatchOption};
ghost use Rattle.std.specs.Option.{SomeIff};
ghost use Rattle.std.specs.Str.Parse.{IsNumeral, digits_value};
ghost use Rattle.std.specs.Char.{is_ascii_digit};
ghost use Rattle.sq_token.specs.Bytes.{starts_word};
ghost use Rattle.sq_token.specs.Spelling.{greatest_number};
ghost use Rattle.sq_token.specs.Fault.{fault_of};
ghost use Rattle.sq_token.specs.Piece.{PieceAt, SymbolAt, HasNoSymbol, Fails};

use crate::bytes::{begins_word, digits_len, is_blank, starts_word, word_len};
use crate::fault::Flaw;
use crate::quoted::quoted;
use crate::symbol::{symbol_of_byte, symbol_of_two};
use crate::{LexFault, Symbol, TokenKind};
use sq_value::Str;
use std::alloc::Global;

// The greatest number that a text may have: 2^63, so that its negative is the least of BIGINT.
const GREATEST_NUMBER: u64 = 9_223_372_036_854_775_808;

/// What stands at the front of a text: how many bytes it takes, and which token it is. A gap is none.
#[derive(Drop)]
pub(crate) struct Piece {
    pub(crate) len: usize,
    pub(crate) kind: Option<TokenKind>,
}

fn word(alloc: Global, text: &str) -> Result<Piece, LexFault>
    requires full { 0 < length text.now }
    requires begins { IsTrue (starts_word (slice_index text.now 0)) }
    ensures { MatchResult result (λ piece. PieceAt text.now piece.len piece.kind) (λ fault. fault ≡ LexFault.Memory) }
{
    let len = word_len(text.as_bytes());
    let (spelled, _) = text.split_at(len);
    let mut word = String::from_str(alloc, spelled)?;
    word.make_ascii_lowercase();
    let word = Str::of(alloc, word.as_str())?;
    Ok(Piece {
        len,
        kind: Some(TokenKind::Word(word)),
    })
}

/// The number that these digits write, unless it is above the greatest that a text may have.
fn number_of(digits: &str) -> Option<u64>
    requires { IsNumeral 10 digits.now }
    ensures { SomeIff result (digits_value 10 digits.now ≤ greatest_number) (digits_value 10 digits.now) }
{
    match digits.parse::<u64>() {
        Ok(number) if number <= GREATEST_NUMBER => Some(number),
        _ => None,
    }
}

fn number(at: u32, text: &str) -> Result<Piece, Flaw>
    requires full { 0 < length text.now }
    requires begins { IsTrue (is_ascii_digit (slice_index text.now 0)) }
    requires room { at + length text.now < 2 ^ 32 }
    ensures { MatchResult result (λ piece. PieceAt text.now piece.len piece.kind) (λ flaw. Fails at text.now (fault_of flaw)) }
{
    let len = digits_len(text.as_bytes());
    let (digits, rest) = text.split_at(len);
    let Some(number) = number_of(digits) else {
        return Err(Flaw::LongNumber { at });
    };
    if begins_word(rest.as_bytes()) {
        return Err(Flaw::BadByte {
            at: at + len as u32,
        });
    }
    Ok(Piece {
        len,
        kind: Some(TokenKind::Number(number)),
    })
}

fn quoted_name(alloc: Global, at: u32, text: &str, inner: &str) -> Result<Piece, LexFault>
    requires opens { text.now ≡ codes "\"" ++ inner.now }
    ensures { MatchResult result (λ piece. PieceAt text.now piece.len piece.kind) (λ fault. Fails at text.now fault) }
{
    match quoted(alloc, '"', inner)? {
        None => Err(LexFault::OpenName { at }),
        Some((name, len)) => Ok(Piece {
            len: 1 + len,
            kind: Some(TokenKind::Name(name)),
        }),
    }
}

fn quoted_text(alloc: Global, at: u32, text: &str, inner: &str) -> Result<Piece, LexFault>
    requires opens { text.now ≡ codes "'" ++ inner.now }
    ensures { MatchResult result (λ piece. PieceAt text.now piece.len piece.kind) (λ fault. Fails at text.now fault) }
{
    match quoted(alloc, '\'', inner)? {
        None => Err(LexFault::OpenText { at }),
        Some((said, len)) => Ok(Piece {
            len: 1 + len,
            kind: Some(TokenKind::Text(said)),
        }),
    }
}

fn line_comment(text: &str, comment: &str) -> Piece
    requires opens { text.now ≡ codes "--" ++ comment.now }
    ensures { PieceAt text.now result.len result.kind }
{
    let left = match comment.split_once('\n') {
        None => 0,
        Some((_, rest)) => rest.len(),
    };
    Piece {
        len: text.len() - left,
        kind: None,
    }
}

fn block_comment(at: u32, text: &str, comment: &str) -> Result<Piece, Flaw>
    requires opens { text.now ≡ codes "/*" ++ comment.now }
    ensures { MatchResult result (λ piece. PieceAt text.now piece.len piece.kind) (λ flaw. Fails at text.now (fault_of flaw)) }
{
    match comment.split_once("*/") {
        None => Err(Flaw::OpenComment { at }),
        Some((_, rest)) => Ok(Piece {
            len: text.len() - rest.len(),
            kind: None,
        }),
    }
}

fn symbol_at(text: &[u8]) -> Option<(Symbol, usize)>
    requires full { 0 < length text.now }
    requires no_comment { (rest : List ℕ) → text.now ≢ codes "--" ++ rest }
    ensures { MatchOption result (HasNoSymbol text.now) (λ found. SymbolAt text.now found.0 found.1) }
{
    if let Some(symbol) = symbol_of_two(text) {
        return Some((symbol, 2));
    }
    let symbol = symbol_of_byte(text[0])?;
    Some((symbol, 1))
}

/// Reads the gap or token at the front of `text`, which stands at the place `at`.
pub(crate) fn piece_at(alloc: Global, at: u32, text: &str) -> Result<Piece, LexFault>
    requires full { 0 < length text.now }
    requires room { at + length text.now < 2 ^ 32 }
    ensures { MatchResult result (λ piece. PieceAt text.now piece.len piece.kind) (λ fault. Fails at text.now fault) }
{
    let first = text.as_bytes()[0];
    if is_blank(first) {
        return Ok(Piece { len: 1, kind: None });
    }
    if starts_word(first) {
        return word(alloc, text);
    }
    if first.is_ascii_digit() {
        return Ok(number(at, text)?);
    }
    if let Some(inner) = text.strip_prefix('"') {
        return quoted_name(alloc, at, text, inner);
    }
    if let Some(inner) = text.strip_prefix('\'') {
        return quoted_text(alloc, at, text, inner);
    }
    if let Some(comment) = text.strip_prefix("--") {
        return Ok(line_comment(text, comment));
    }
    if let Some(comment) = text.strip_prefix("/*") {
        return Ok(block_comment(at, text, comment)?);
    }
    match symbol_at(text.as_bytes()) {
        None => Err(LexFault::BadByte { at }),
        Some((symbol, len)) => Ok(Piece {
            len,
            kind: Some(TokenKind::Symbol(symbol)),
        }),
    }
}
