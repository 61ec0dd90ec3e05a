//! Names, aliases and columns.
ghost use Rattle.std.specs.Prelude.{◌≡◌, bytes_eq};
ghost use Rattle.std.specs.List.{list_any};
ghost use Rattle.sq_ast.specs.Words as words;
ghost use Rattle.sq_ast.specs.Spelling.{kinds};
ghost use Rattle.sq_ast.specs.Reading as r;
ghost use Rattle.sq_terms.specs.Answers.{Reads};

use crate::step::{Parsed, eat_symbol, eat_word, next_token, skip_word};
use crate::stops::Stop;
use sq_ast::ColRef;
use sq_token::{Symbol, Token, TokenKind};
use sq_value::Str;
use std::alloc::Global;

fn is_among(word: &str, list: &[&str]) -> bool
    ensures { result ≡ list_any (λ other. bytes_eq word.now other.now) list.now }
{
    list.iter().any(|other| word == *other)
}

/// Whether a word, in lower case, is no name unless it is quoted.
#[tactic(auto, unfolding(sq_ast::specs::Words::is_reserved))]
fn is_reserved(word: &str) -> bool
    ensures { result ≡ words.is_reserved word.now }
{
    let list = [
        "all",
        "and",
        "as",
        "between",
        "by",
        "case",
        "create",
        "cross",
        "distinct",
        "else",
        "end",
        "except",
        "exists",
        "from",
        "full",
        "group",
        "having",
        "in",
        "inner",
        "intersect",
        "is",
        "join",
        "lateral",
        "left",
        "like",
        "limit",
        "natural",
        "not",
        "null",
        "on",
        "or",
        "order",
        "outer",
        "primary",
        "right",
        "select",
        "table",
        "then",
        "union",
        "using",
        "view",
        "when",
        "where",
        "with",
    ];
    is_among(word, &list)
}

/// A quoted name, or a word that is not reserved.
#[tactic(auto, unfolding(sq_ast::specs::Reading::name, sq_ast::specs::Reading::name_of))]
pub fn name<'a>(alloc: Global, tokens: &'a [Token]) -> Parsed<'a, Str>
    ensures { Reads result (r.name (kinds tokens.now)) }
{
    match next_token(tokens) {
        Some((TokenKind::Name(name), rest)) => Ok((name.clone_str(alloc)?, rest)),
        Some((TokenKind::Word(word), rest)) if !is_reserved(word.as_str()) => {
            Ok((word.clone_str(alloc)?, rest))
        }
        _ => Err(Stop::NotGrammar),
    }
}

/// `[ AS ] name`
#[tactic(auto, unfolding(sq_ast::specs::Reading::alias))]
pub fn alias<'a>(alloc: Global, tokens: &'a [Token]) -> Parsed<'a, Str>
    ensures { Reads result (r.alias (kinds tokens.now)) }
{
    name(alloc, skip_word(tokens, "as"))
}

/// `[ [ AS ] name ]`
#[tactic(auto, unfolding(sq_ast::specs::Reading::maybe_alias))]
pub fn maybe_alias<'a>(alloc: Global, tokens: &'a [Token]) -> Parsed<'a, Option<Str>>
    ensures { Reads result (r.maybe_alias (kinds tokens.now)) }
{
    if let Some(tokens) = eat_word(tokens, "as") {
        let (name, rest) = name(alloc, tokens)?;
        return Ok((Some(name), rest));
    }
    match name(alloc, tokens) {
        Ok((name, rest)) => Ok((Some(name), rest)),
        Err(Stop::NotGrammar) => Ok((None, tokens)),
        Err(Stop::Memory) => Err(Stop::Memory),
    }
}

/// `name [ "." name ]`
#[tactic(auto, unfolding(sq_ast::specs::Reading::col_ref))]
pub fn col_ref<'a>(alloc: Global, tokens: &'a [Token]) -> Parsed<'a, ColRef>
    ensures { Reads result (r.col_ref (kinds tokens.now)) }
{
    let (first, rest) = name(alloc, tokens)?;
    match eat_symbol(rest, Symbol::Dot) {
        None => Ok((
            ColRef {
                qualifier: None,
                name: first,
            },
            rest,
        )),
        Some(tokens) => {
            let (second, rest) = name(alloc, tokens)?;
            Ok((
                ColRef {
                    qualifier: Some(first),
                    name: second,
                },
                rest,
            ))
        }
    }
}
