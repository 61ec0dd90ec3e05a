//! Statements.
ghost use Rattle.std.specs.Prelude.{◌≡◌, ◌<◌, Some, None, MatchResult};
ghost use Rattle.sq_ast.specs.Parser.{many};
ghost use Rattle.sq_ast.specs.Spelling.{kinds};
ghost use Rattle.sq_ast.specs.Reading as r;
ghost use Rattle.sq_terms.specs.declared.stops.Stop.TheVariants.{NotGrammar};
ghost use Rattle.sq_terms.specs.Answers.{Reads};

use crate::query::query_chain;
use sq_ast::{Body, ColumnTree, Flavour, TypeName};
use sq_terms::Stop;
use sq_terms::list::listed;
use sq_terms::name::name;
use sq_terms::step::{
    Parsed, eat_symbol, eat_word, expect_symbol, expect_word, is_word, next_token,
};
use sq_token::{Symbol, Token, TokenKind};
use sqlite_items::Items;
use std::alloc::Global;

/// The type of this name.
#[tactic(auto, unfolding(sq_ast::specs::Reading::type_of))]
fn type_of(kind: &TokenKind) -> Option<TypeName>
    ensures { result ≡ r.type_of kind.now }
{
    if is_word(kind, "int") {
        return Some(TypeName::Int);
    }
    if is_word(kind, "integer") {
        return Some(TypeName::Integer);
    }
    if is_word(kind, "bigint") {
        return Some(TypeName::Bigint);
    }
    if is_word(kind, "varchar") {
        return Some(TypeName::Varchar);
    }
    if is_word(kind, "text") {
        return Some(TypeName::Text);
    }
    None
}

fn type_name(tokens: &[Token]) -> Parsed<'_, TypeName>
    ensures { Reads result (r.by_token r.type_of (kinds tokens.now)) }
{
    let Some((kind, rest)) = next_token(tokens) else {
        return Err(Stop::NotGrammar);
    };
    match type_of(kind) {
        Some(found) => Ok((found, rest)),
        None => Err(Stop::NotGrammar),
    }
}

/// `[ NOT NULL | NULL ]`: whether it is `NOT NULL`.
#[tactic(auto, unfolding(sq_ast::specs::Reading::nullness))]
fn nullness(tokens: &[Token]) -> Parsed<'_, bool>
    ensures { Reads result (r.nullness (kinds tokens.now)) }
{
    if let Some(rest) = eat_word(tokens, "null") {
        return Ok((false, rest));
    }
    let Some(rest) = eat_word(tokens, "not") else {
        return Ok((false, tokens));
    };
    let rest = expect_word(rest, "null")?;
    Ok((true, rest))
}

/// `name type [ NOT NULL | NULL ]`
#[tactic(auto, unfolding(sq_ast::specs::Reading::column_def))]
fn column_def<'a>(alloc: Global, tokens: &'a [Token]) -> Parsed<'a, ColumnTree>
    ensures { Reads result (r.column_def (kinds tokens.now)) }
{
    let (name, rest) = name(alloc, tokens)?;
    let (kind, rest) = type_name(rest)?;
    let (not_null, rest) = nullness(rest)?;
    let column = ColumnTree {
        name,
        kind,
        not_null,
    };
    Ok((column, rest))
}

#[tactic(auto, unfolding(sq_ast::specs::Reading::next_column_def))]
fn next_column_def<'a>(alloc: Global, tokens: &'a [Token]) -> Parsed<'a, Option<ColumnTree>>
    ensures { Reads result (r.next_column_def (kinds tokens.now)) }
{
    let Some(rest) = eat_symbol(tokens, Symbol::Comma) else {
        return Ok((None, tokens));
    };
    let (column, rest) = column_def(alloc, rest)?;
    Ok((Some(column), rest))
}

fn column_defs<'a>(alloc: Global, tokens: &'a [Token]) -> Parsed<'a, Items<ColumnTree>>
    ensures { Reads result (many r.next_column_def (kinds tokens.now)) }
{
    let mut found = Items::new(alloc);
    let mut rest = tokens;
    'chain: loop {
        let (next, behind) = next_column_def(alloc, rest)?;
        let Some(column) = next else {
            return Ok((found, behind));
        };
        found.push(column)?;
        rest = behind;
    }
}

/// What stands behind `CREATE TABLE`.
#[tactic(auto, unfolding(sq_ast::specs::Reading::table))]
fn table<'a>(alloc: Global, tokens: &'a [Token]) -> Parsed<'a, Body>
    ensures { Reads result (r.table (kinds tokens.now)) }
{
    let (name, rest) = name(alloc, tokens)?;
    let rest = expect_symbol(rest, Symbol::LeftParen)?;
    let (first, rest) = column_def(alloc, rest)?;
    let (more, rest) = column_defs(alloc, rest)?;
    let rest = expect_symbol(rest, Symbol::RightParen)?;
    let columns = listed(alloc, first, more)?;
    Ok((Body::Table { name, columns }, rest))
}

/// `[ MATERIALIZED | LOCAL ]`
#[tactic(auto, unfolding(sq_ast::specs::Reading::flavour))]
fn flavour(tokens: &[Token]) -> (Option<Flavour>, &[Token])
    ensures { r.flavour (kinds tokens.now) ≡ Some (result.0, kinds result.1.now) }
{
    if let Some(rest) = eat_word(tokens, "materialized") {
        return (Some(Flavour::Materialized), rest);
    }
    match eat_word(tokens, "local") {
        Some(rest) => (Some(Flavour::Local), rest),
        None => (None, tokens),
    }
}

/// What stands behind `CREATE`, of a view.
#[tactic(auto, unfolding(sq_ast::specs::Reading::view))]
fn view<'a>(alloc: Global, depth: usize, tokens: &'a [Token]) -> Parsed<'a, Body>
    ensures { Reads result (r.view (r.level depth) (kinds tokens.now)) }
{
    let (flavour, rest) = flavour(tokens);
    let rest = expect_word(rest, "view")?;
    let (name, rest) = name(alloc, rest)?;
    let rest = expect_word(rest, "as")?;
    let (query, rest) = query_chain(alloc, depth, rest)?;
    let body = Body::View {
        name,
        flavour,
        query,
    };
    Ok((body, rest))
}

#[tactic(auto, unfolding(sq_ast::specs::Reading::create))]
fn create<'a>(alloc: Global, depth: usize, tokens: &'a [Token]) -> Parsed<'a, Body>
    ensures { Reads result (r.create (r.level depth) (kinds tokens.now)) }
{
    let rest = expect_word(tokens, "create")?;
    match eat_word(rest, "table") {
        Some(rest) => table(alloc, rest),
        None => view(alloc, depth, rest),
    }
}

/// The statement that all of the tokens spell.
#[tactic(auto, using(sq_terms::proofs::Shorter::kinds_length), unfolding(sq_ast::specs::Reading::statement))]
pub(crate) fn statement(alloc: Global, tokens: &[Token]) -> Result<Body, Stop>
    ensures { MatchResult result (λ body. r.statement (kinds tokens.now) ≡ Some body) (λ stop. stop ≡ NotGrammar → r.statement (kinds tokens.now) ≡ None) }
{
    let (body, rest) = create(alloc, tokens.len(), tokens)?;
    match next_token(rest) {
        None => Ok(body),
        Some(_) => Err(Stop::NotGrammar),
    }
}
