//! The steps over single tokens.
ghost use Rattle.std.specs.Prelude.{◌≡◌, [], ◌∷◌, MatchOption};
ghost use Rattle.sq_token.specs.declared.token.TokenKind.TheVariants as token;
ghost use Rattle.sq_ast.specs.Words.{is_token};
ghost use Rattle.sq_ast.specs.Parser.{sees, after};
ghost use Rattle.sq_ast.specs.Spelling.{kinds};
ghost use Rattle.sq_terms.specs.Answers.{Eats, Expects};

use crate::stops::Stop;
use sq_token::{Symbol, Token, TokenKind};

/// What is read from a front of the tokens, and the tokens behind it.
pub type Parsed<'a, T> = Result<(T, &'a [Token]), Stop>;

/// The next token, and the tokens behind it.
pub fn next_token(tokens: &[Token]) -> Option<(&TokenKind, &[Token])>
    ensures { MatchOption result (kinds tokens.now ≡ []) (λ next. kinds tokens.now ≡ next.0.now ∷ kinds next.1.now) }
{
    let (first, rest) = tokens.split_first()?;
    Some((&first.kind, rest))
}

/// Whether the token is this word.
pub fn is_word(kind: &TokenKind, word: &str) -> bool
    ensures { result ≡ is_token (token.Word word.now) kind.now }
{
    match kind {
        TokenKind::Word(other) => other.as_str() == word,
        _ => false,
    }
}

/// Whether the token is this symbol.
#[tactic(auto, unfolding(sq_ast::specs::Words::same_symbol))]
pub fn is_symbol(kind: &TokenKind, symbol: Symbol) -> bool
    ensures { result ≡ is_token (token.Symbol symbol) kind.now }
{
    match kind {
        TokenKind::Symbol(other) => *other == symbol,
        _ => false,
    }
}

/// The tokens behind this word, if it comes next.
#[tactic(auto, unfolding(sq_ast::specs::Parser::sees, sq_ast::specs::Parser::after))]
pub fn eat_word<'a>(tokens: &'a [Token], word: &str) -> Option<&'a [Token]>
    ensures { Eats (token.Word word.now) (kinds tokens.now) result }
{
    match next_token(tokens) {
        Some((kind, rest)) if is_word(kind, word) => Some(rest),
        _ => None,
    }
}

/// The tokens behind this symbol, if it comes next.
#[tactic(auto, unfolding(sq_ast::specs::Parser::sees, sq_ast::specs::Parser::after))]
pub fn eat_symbol(tokens: &[Token], symbol: Symbol) -> Option<&[Token]>
    ensures { Eats (token.Symbol symbol) (kinds tokens.now) result }
{
    match next_token(tokens) {
        Some((kind, rest)) if is_symbol(kind, symbol) => Some(rest),
        _ => None,
    }
}

/// The tokens behind this word if it comes next, and else all.
pub fn skip_word<'a>(tokens: &'a [Token], word: &str) -> &'a [Token]
    ensures { kinds result.now ≡ after (token.Word word.now) (kinds tokens.now) }
{
    match eat_word(tokens, word) {
        Some(rest) => rest,
        None => tokens,
    }
}

/// The tokens behind this word, which has to come next.
pub fn expect_word<'a>(tokens: &'a [Token], word: &str) -> Result<&'a [Token], Stop>
    ensures { Expects (token.Word word.now) (kinds tokens.now) result }
{
    eat_word(tokens, word).ok_or(Stop::NotGrammar)
}

/// The tokens behind this symbol, which has to come next.
pub fn expect_symbol(tokens: &[Token], symbol: Symbol) -> Result<&[Token], Stop>
    ensures { Expects (token.Symbol symbol) (kinds tokens.now) result }
{
    eat_symbol(tokens, symbol).ok_or(Stop::NotGrammar)
}
