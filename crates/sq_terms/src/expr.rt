//! Expressions.
//!
//! `depth` is how many levels of parentheses may still be entered. It bounds the recursion; the tokens have been
//! found to be shallow before, so the stack stays small.
ghost use Rattle.std.specs.Prelude.{◌≡◌, ◌∷◌};
ghost use Rattle.sq_ast.specs.Parser.{many};
ghost use Rattle.sq_ast.specs.Spelling.{kinds};
ghost use Rattle.sq_ast.specs.Reading as r;
ghost use Rattle.sq_terms.specs.Answers.{Reads};

use crate::list::{product_of, sum_of};
use crate::name::col_ref;
use crate::step::{Parsed, eat_symbol, expect_symbol, is_word, next_token};
use crate::stops::Stop;
use sq_ast::{ExprTree, FuncTree, TermTree};
use sq_token::{Symbol, Token, TokenKind};
use sqlite_items::{Boxed, Items};
use std::alloc::Global;

/// The aggregate function of this name.
#[tactic(auto, unfolding(sq_ast::specs::Reading::function_of))]
fn function_of(kind: &TokenKind) -> Option<FuncTree>
    ensures { result ≡ r.function_of kind.now }
{
    if is_word(kind, "count") {
        return Some(FuncTree::Count);
    }
    if is_word(kind, "sum") {
        return Some(FuncTree::Sum);
    }
    if is_word(kind, "min") {
        return Some(FuncTree::Min);
    }
    if is_word(kind, "max") {
        return Some(FuncTree::Max);
    }
    None
}

/// `)` behind the star of a call, which only `COUNT` has.
#[tactic(auto, unfolding(sq_ast::specs::Reading::count_all))]
fn count_all(func: FuncTree, tokens: &[Token]) -> Parsed<'_, ExprTree>
    ensures { Reads result (r.count_all func (kinds tokens.now)) }
{
    match func {
        FuncTree::Count => {
            let rest = expect_symbol(tokens, Symbol::RightParen)?;
            Ok((ExprTree::Call { func, arg: None }, rest))
        }
        FuncTree::Sum | FuncTree::Min | FuncTree::Max => Err(Stop::NotGrammar),
    }
}

fn column<'a>(alloc: Global, tokens: &'a [Token]) -> Parsed<'a, ExprTree>
    ensures { Reads result (r.column (r.level 0) (kinds tokens.now)) }
{
    let (column, rest) = col_ref(alloc, tokens)?;
    Ok((ExprTree::Column(column), rest))
}

/// An expression and `)`, behind `(`.
#[cycle(expr)]
#[tactic(auto, using(crate::proofs::Levels::expr_end, crate::proofs::Levels::expr_deeper))]
fn nested_expr<'a>(alloc: Global, depth: usize, tokens: &'a [Token]) -> Parsed<'a, ExprTree>
    ensures { Reads result (r.nested (r.level depth).expr (kinds tokens.now)) }
{
    if depth == 0 {
        return Err(Stop::NotGrammar);
    }
    let (expr, rest) = sum(alloc, depth - 1, tokens)?;
    let rest = expect_symbol(rest, Symbol::RightParen)?;
    Ok((expr, rest))
}

/// What stands behind the `(` of a call.
#[cycle(expr)]
#[tactic(auto, unfolding(sq_ast::specs::Reading::argument))]
fn argument<'a>(
    alloc: Global,
    depth: usize,
    func: FuncTree,
    tokens: &'a [Token],
) -> Parsed<'a, ExprTree>
    ensures { Reads result (r.argument (r.level depth) func (kinds tokens.now)) }
{
    if let Some(rest) = eat_symbol(tokens, Symbol::Star) {
        return count_all(func, rest);
    }
    let (arg, rest) = nested_expr(alloc, depth, tokens)?;
    let arg = Some(Boxed::new(alloc, arg)?);
    Ok((ExprTree::Call { func, arg }, rest))
}

/// A call or a column that begins with a word.
#[cycle(expr)]
fn call_or_column<'a>(
    alloc: Global,
    depth: usize,
    kind: &'a TokenKind,
    rest: &'a [Token],
    tokens: &'a [Token],
) -> Parsed<'a, ExprTree>
    requires { kinds tokens.now ≡ kind.now ∷ kinds rest.now }
    ensures { Reads result (r.call_or_column (r.level depth) kind.now (r.function_of kind.now) (kinds rest.now)) }
{
    let Some(func) = function_of(kind) else {
        return column(alloc, tokens);
    };
    match eat_symbol(rest, Symbol::LeftParen) {
        None => column(alloc, tokens),
        Some(inside) => argument(alloc, depth, func, inside),
    }
}

/// `number | text | colref | call | "(" expr ")"`
#[cycle(expr)]
#[tactic(auto, unfolding(sq_ast::specs::Reading::prim, sq_ast::specs::Parser::sees, sq_ast::specs::Parser::after))]
fn prim<'a>(alloc: Global, depth: usize, tokens: &'a [Token]) -> Parsed<'a, ExprTree>
    ensures { Reads result (r.prim (r.level depth) (kinds tokens.now)) }
{
    let Some((kind, rest)) = next_token(tokens) else {
        return Err(Stop::NotGrammar);
    };
    match kind {
        TokenKind::Number(number) => Ok((ExprTree::Number(*number), rest)),
        TokenKind::Text(text) => Ok((ExprTree::Text(text.clone_str(alloc)?), rest)),
        TokenKind::Name(_) => column(alloc, tokens),
        TokenKind::Word(_) => call_or_column(alloc, depth, kind, rest, tokens),
        TokenKind::Symbol(_) => {
            let inside = expect_symbol(tokens, Symbol::LeftParen)?;
            nested_expr(alloc, depth, inside)
        }
    }
}

/// `[ "-" ] prim`
#[cycle(expr)]
#[tactic(auto, unfolding(sq_ast::specs::Reading::sign))]
fn sign<'a>(alloc: Global, depth: usize, tokens: &'a [Token]) -> Parsed<'a, ExprTree>
    ensures { Reads result (r.sign (r.level depth) (kinds tokens.now)) }
{
    let Some(rest) = eat_symbol(tokens, Symbol::Minus) else {
        return prim(alloc, depth, tokens);
    };
    let (expr, rest) = prim(alloc, depth, rest)?;
    Ok((ExprTree::Neg(Boxed::new(alloc, expr)?), rest))
}

#[cycle(expr)]
#[tactic(auto, unfolding(sq_ast::specs::Reading::next_factor))]
fn next_factor<'a>(alloc: Global, depth: usize, tokens: &'a [Token]) -> Parsed<'a, Option<ExprTree>>
    ensures { Reads result (r.next_factor (r.level depth) (kinds tokens.now)) }
{
    let Some(rest) = eat_symbol(tokens, Symbol::Star) else {
        return Ok((None, tokens));
    };
    let (factor, rest) = sign(alloc, depth, rest)?;
    Ok((Some(factor), rest))
}

#[cycle(expr)]
fn factors<'a>(alloc: Global, depth: usize, tokens: &'a [Token]) -> Parsed<'a, Items<ExprTree>>
    ensures { Reads result (many (r.next_factor (r.level depth)) (kinds tokens.now)) }
{
    let mut found = Items::new(alloc);
    let mut rest = tokens;
    'chain: loop {
        let (next, behind) = next_factor(alloc, depth, rest)?;
        let Some(factor) = next else {
            return Ok((found, behind));
        };
        found.push(factor)?;
        rest = behind;
    }
}

/// `sign { "*" sign }`
#[cycle(expr)]
#[tactic(auto, unfolding(sq_ast::specs::Reading::product))]
fn product<'a>(alloc: Global, depth: usize, tokens: &'a [Token]) -> Parsed<'a, ExprTree>
    ensures { Reads result (r.product (r.level depth) (kinds tokens.now)) }
{
    let (first, rest) = sign(alloc, depth, tokens)?;
    let (more, rest) = factors(alloc, depth, rest)?;
    Ok((product_of(alloc, first, more)?, rest))
}

#[cycle(expr)]
#[tactic(auto, unfolding(sq_ast::specs::Reading::next_term))]
fn next_term<'a>(alloc: Global, depth: usize, tokens: &'a [Token]) -> Parsed<'a, Option<TermTree>>
    ensures { Reads result (r.next_term (r.level depth) (kinds tokens.now)) }
{
    if let Some(rest) = eat_symbol(tokens, Symbol::Plus) {
        let (expr, rest) = product(alloc, depth, rest)?;
        return Ok((Some(TermTree { minus: false, expr }), rest));
    }
    let Some(rest) = eat_symbol(tokens, Symbol::Minus) else {
        return Ok((None, tokens));
    };
    let (expr, rest) = product(alloc, depth, rest)?;
    Ok((Some(TermTree { minus: true, expr }), rest))
}

#[cycle(expr)]
fn terms<'a>(alloc: Global, depth: usize, tokens: &'a [Token]) -> Parsed<'a, Items<TermTree>>
    ensures { Reads result (many (r.next_term (r.level depth)) (kinds tokens.now)) }
{
    let mut found = Items::new(alloc);
    let mut rest = tokens;
    'chain: loop {
        let (next, behind) = next_term(alloc, depth, rest)?;
        let Some(term) = next else {
            return Ok((found, behind));
        };
        found.push(term)?;
        rest = behind;
    }
}

/// `prod { ( "+" | "-" ) prod }`
#[cycle(expr)]
#[tactic(auto, unfolding(sq_ast::specs::Reading::sum))]
pub fn sum<'a>(alloc: Global, depth: usize, tokens: &'a [Token]) -> Parsed<'a, ExprTree>
    ensures { Reads result (r.sum (r.level depth) (kinds tokens.now)) }
{
    let (first, rest) = product(alloc, depth, tokens)?;
    let (more, rest) = terms(alloc, depth, rest)?;
    Ok((sum_of(alloc, first, more)?, rest))
}
