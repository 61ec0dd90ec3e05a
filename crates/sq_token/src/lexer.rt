//! The tokens of a whole text, one after the other.
ghost use Rattle.std.specs.Prelude.{◌≡◌, ◌+◌, ◌<◌, ◌≤◌, ◌^◌, ◌++◌, ◌⊎◌, List, length, All, IfOk, IfErr, OnOk, IsErrAnd, MatchResult, vec_len};
ghost use Rattle.std.specs.Str.{IsUtf8};
ghost use Rattle.sq_token.specs.declared.fault.LexFault.{LexFault as Fault};
ghost use Rattle.sq_token.specs.declared.token.Token.{Token as Lexeme};
ghost use Rattle.sq_token.specs.Reading.{Tokens, StandInTurn, IsSpelledIn};
ghost use Rattle.sq_token.specs.Fault.{FirstFault, HasCause};
ghost use Rattle.sq_token.specs.Piece.{Fails, Steps, listed};

use crate::piece::piece_at;
use crate::{LexFault, Token, TokenKind};
use std::alloc::Global;

fn put(
    found: &mut Vec<Token>,
    start: u32,
    end: u32,
    kind: Option<TokenKind>,
) -> Result<(), LexFault>
    ensures ok { OnOk result (found.new.items ≡ found.old.items ++ listed start end kind) }
    ensures memory { IfErr result (λ fault. fault ≡ LexFault.Memory) }
{
    if let Some(kind) = kind {
        found.push(Token { start, end, kind })?;
    }
    Ok(())
}

/// Steps over the gap or token at the front of `text`, which stands at the place `at`, and answers what
/// stands behind it.
fn step<'a>(
    alloc: Global,
    found: &mut Vec<Token>,
    at: u32,
    text: &'a str,
) -> Result<&'a str, LexFault>
    requires full { 0 < length text.now }
    requires room { at + length text.now < 2 ^ 32 }
    ensures ok { IfOk result (λ rest. Steps at text.now found.old.items found.new.items rest.now) }
    ensures err { IfErr result (λ fault. Fails at text.now fault) }
{
    let piece = piece_at(alloc, at, text)?;
    let (_, rest) = text.split_at(piece.len);
    put(found, at, at + piece.len as u32, piece.kind)?;
    Ok(rest)
}

// The tokens of a text, or its first fault.
fn read(alloc: Global, text: &str) -> Result<Vec<Token>, LexFault>
    requires { length text.now < 2 ^ 32 }
    ensures found { IfOk result (λ found. Tokens text.now found.items) }
    ensures refused { IfErr result (λ fault. HasCause text.now fault) }
{
    let mut found = Vec::new(alloc);
    let mut rest = text;
    while !rest.is_empty() {
        let at = (text.len() - rest.len()) as u32;
        rest = step(alloc, &mut found, at, rest)?;
    }
    Ok(found)
}

/// The tokens of a program text of at most 1,048,576 bytes, in its order.
///
/// Between tokens stand blanks and comments: `--` up to the next line feed or the end of the text, and
/// `/*` up to the first `*/` behind it. At each place the longest token is taken. A text that has no
/// tokens is refused with its first fault from the left. `LexFault::Memory` says that memory ran out.
pub fn tokens(alloc: Global, text: &[u8]) -> Result<Vec<Token>, LexFault>
    requires utf8 { IsUtf8 text.now }
    requires short { length text.now ≤ 1048576 }
    // What is answered are the tokens of the text, which has one list of them alone.
    ensures found { IfOk result (λ found. Tokens text.now found.items) }
    ensures only { (list : List Lexeme) → Tokens text.now list → MatchResult result (λ found. found.items ≡ list) (λ fault. fault ≡ LexFault.Memory) }
    ensures spans { IfOk result (λ found. StandInTurn 0 found.items (length text.now)) }
    ensures slices { IfOk result (λ found. All (IsSpelledIn text.now) found.items) }
    ensures count { IfOk result (λ found. vec_len found ≤ length text.now) }
    // A refusal is the first fault of the text, and a text with a fault is refused.
    ensures refused { IfErr result (λ fault. HasCause text.now fault) }
    ensures first { (fault : Fault) → FirstFault text.now fault → IsErrAnd result (λ given. (given ≡ LexFault.Memory) ⊎ (given ≡ fault)) }
{
    let Ok(text) = std::str::from_utf8(text) else {
        unreachable!()
    };
    read(alloc, text)
}
