//! Lists of statements.
ghost use Rattle.std.specs.Prelude.{◌≡◌, ◌<◌, ◌+◌, ◌-◌, ◌*◌, ◌^◌, ◌≤◌, ◌∷◌, ◌⊎◌, [], List, suc, if◌then◌else◌, length, Ok, MatchResult, MatchOption, IfOk, IfErr, IfSome, IsErrAnd};
ghost use Rattle.std.specs.List.{position};
ghost use Rattle.sq_token.specs.declared.token.TokenKind.TheVariants as token;
ghost use Rattle.sq_ast.specs.declared.statement.Statement.{Statement as StatementTree};
ghost use Rattle.sq_ast.specs.Sources.{program_sources};
ghost use Rattle.sq_ast.specs.Words as w;
ghost use Rattle.sq_ast.specs.Words.{is_token};
ghost use Rattle.sq_ast.specs.Spelling.{kinds, Spells};
ghost use Rattle.sq_ast.specs.Refusal.{Refusal, Refuses};
ghost use Rattle.sq_ast.specs.Reading as r;
ghost use Rattle.sq_parse.specs.declared.fault.ParseFault.TheVariants.{Memory};
ghost use Rattle.sq_parse.specs.Causes.{HasCause, fault_of, Faults, listed, adds};

use crate::fault::ParseFault;
use crate::statement::statement;
use sq_ast::Statement;
use sq_terms::Stop;
use sq_terms::step::{is_symbol, next_token};
use sq_token::{Symbol, Token, TokenKind};
use std::alloc::Global;

// How many parentheses may be open at one place.
const DEEPEST: usize = 64;

/// The count of a symbol, behind one more token.
fn count_on(count: usize, kind: &TokenKind, symbol: Symbol) -> usize
    requires { count < 2 ^ 63 }
    ensures { result ≡ (if is_token (token.Symbol symbol) kind.now then suc count else count) }
{
    if is_symbol(kind, symbol) {
        count + 1
    } else {
        count
    }
}

/// Whether at no place more than 64 parentheses are open.
fn is_shallow(tokens: &[Token]) -> bool
    requires { length tokens.now < 2 ^ 32 }
    ensures { result ≡ r.is_shallow (kinds tokens.now) }
{
    let mut left = 0;
    let mut right = 0;
    let mut rest = tokens;
    'tokens: loop {
        if left > DEEPEST + right {
            return false;
        }
        let Some((kind, behind)) = next_token(rest) else {
            return true;
        };
        left = count_on(left, kind, Symbol::LeftParen);
        right = count_on(right, kind, Symbol::RightParen);
        rest = behind;
    }
}

fn semicolon(tokens: &[Token]) -> Option<usize>
    ensures { result ≡ position (λ t. is_token w.SEMICOLON t.kind) tokens.now }
{
    tokens
        .iter()
        .position(|token| is_symbol(&token.kind, Symbol::Semicolon))
}

/// The tokens before the first semicolon, and those behind it.
fn cut(tokens: &[Token]) -> Option<(&[Token], &[Token])>
    ensures parts { MatchOption result (r.pieces (kinds tokens.now) ≡ kinds tokens.now ∷ []) (λ cut. r.pieces (kinds tokens.now) ≡ kinds cut.0.now ∷ r.pieces (kinds cut.1.now)) }
    ensures lengths { IfSome result (λ cut. length cut.0.now + length cut.1.now < length tokens.now) }
{
    let Some(at) = semicolon(tokens) else {
        return None;
    };
    Some((&tokens[..at], &tokens[at + 1..]))
}

/// The statement between two semicolons, if one stands there.
fn place(alloc: Global, number: u32, tokens: &[Token]) -> Result<Option<Statement>, ParseFault>
    requires { length tokens.now < 2 ^ 32 }
    ensures { MatchResult result (λ found. r.place number (kinds tokens.now) ≡ Ok (listed found)) (λ fault. Faults fault (r.place number (kinds tokens.now))) }
{
    if tokens.is_empty() {
        return Ok(None);
    }
    if !is_shallow(tokens) {
        return Err(ParseFault::TooDeep { number });
    }
    match statement(alloc, tokens) {
        Ok(body) => Ok(Some(Statement { number, body })),
        Err(Stop::NotGrammar) => Err(ParseFault::NotGrammar { number }),
        Err(Stop::Memory) => Err(ParseFault::Memory),
    }
}

/// Reads one place, and adds its statement to those found.
fn read_place(
    alloc: Global,
    found: &mut Vec<Statement>,
    number: u32,
    tokens: &[Token],
) -> Result<(), ParseFault>
    requires { length tokens.now < 2 ^ 32 }
    ensures { MatchResult result (λ _. adds found.old.items (r.place number (kinds tokens.now)) ≡ Ok found.new.items) (λ fault. Faults fault (r.place number (kinds tokens.now))) }
{
    if let Some(statement) = place(alloc, number, tokens)? {
        found.push(statement)?;
    }
    Ok(())
}

// The statements, or the first cause why there are none.
fn read(alloc: Global, tokens: &[Token]) -> Result<Vec<Statement>, ParseFault>
    requires { length tokens.now < 2 ^ 32 - 1 }
    ensures { MatchResult result (λ found. r.program (kinds tokens.now) ≡ Ok found.items) (λ fault. Faults fault (r.program (kinds tokens.now))) }
{
    let mut found = Vec::new(alloc);
    let mut rest = tokens;
    let mut number = 1;
    'places: while let Some((piece, behind)) = cut(rest) {
        read_place(alloc, &mut found, number, piece)?;
        number += 1;
        rest = behind;
    }
    read_place(alloc, &mut found, number, rest)?;
    Ok(found)
}

/// The statements that these tokens spell, in their order, each with its number: one more than the count of
/// semicolons before it.
///
/// Statements stand between semicolons, and a place may be empty. Tokens that spell no statements are refused
/// with the number of the first statement that is too deep or not spelled by the grammar; if one is both,
/// it is too deep. `ParseFault::Memory` says that memory ran out. The trees own their texts.
pub fn statements(alloc: Global, tokens: &[Token]) -> Result<Vec<Statement>, ParseFault>
    requires short { length tokens.now < 2 ^ 32 - 1 }
    // What is answered are the statements that the tokens spell, and there is one list of them alone.
    ensures found { IfOk result (λ found. Spells tokens.now found.items) }
    ensures only { (list : List StatementTree) → Spells tokens.now list → MatchResult result (λ found. found.items ≡ list) (λ fault. fault ≡ Memory) }
    // Their queries have at most half as many sources, at every depth, as there are tokens.
    ensures sources { IfOk result (λ found. 2 * program_sources found.items ≤ length tokens.now) }
    // A refusal names the first statement that is refused, and tokens that are refused spell nothing.
    ensures refused { IfErr result (λ fault. HasCause tokens.now fault) }
    ensures first { (why : Refusal) → Refuses tokens.now why → IsErrAnd result (λ fault. (fault ≡ Memory) ⊎ (fault ≡ fault_of why)) }
{
    read(alloc, tokens)
}
