//! Conditions.
ghost use Rattle.std.specs.Prelude.{◌≡◌, ◌<◌, ◌-◌, ◌^◌, is_some};
ghost use Rattle.sq_token.specs.declared.token.TokenKind.TheVariants as token;
ghost use Rattle.sq_ast.specs.Parser.{many};
ghost use Rattle.sq_ast.specs.Spelling.{kinds};
ghost use Rattle.sq_ast.specs.Reading as r;
ghost use Rattle.sq_terms.specs.Answers.{Reads};
ghost use Rattle.sq_terms.specs.Lookahead as ahead;
ghost use Rattle.sq_terms.specs.Lookahead.{Tells};

use crate::expr::sum;
use crate::list::{all_of, any_of};
use crate::step::{
    Parsed, eat_symbol, eat_word, expect_symbol, expect_word, is_symbol, next_token,
};
use crate::stops::Stop;
use sq_ast::{CmpTree, CondTree, ExprTree};
use sq_token::{Symbol, Token, TokenKind};
use sqlite_items::{Boxed, Items};
use std::alloc::Global;

/// The comparison of this symbol.
#[tactic(auto, unfolding(sq_ast::specs::Reading::comparison_of))]
fn comparison_of(kind: &TokenKind) -> Option<CmpTree>
    ensures { result ≡ r.comparison_of kind.now }
{
    if is_symbol(kind, Symbol::Equal) {
        return Some(CmpTree::Eq);
    }
    if is_symbol(kind, Symbol::NotEqual) {
        return Some(CmpTree::Ne);
    }
    if is_symbol(kind, Symbol::Less) {
        return Some(CmpTree::Lt);
    }
    if is_symbol(kind, Symbol::LessEqual) {
        return Some(CmpTree::Le);
    }
    if is_symbol(kind, Symbol::Greater) {
        return Some(CmpTree::Gt);
    }
    if is_symbol(kind, Symbol::GreaterEqual) {
        return Some(CmpTree::Ge);
    }
    None
}

/// Whether this is the symbol of a comparison.
#[tactic(auto, unfolding(sq_ast::specs::Reading::comparison_of, sq_ast::specs::Words::same_symbol))]
fn is_comparison(symbol: Symbol) -> bool
    ensures { result ≡ is_some (r.comparison_of (token.Symbol symbol)) }
{
    match symbol {
        Symbol::Equal
        | Symbol::NotEqual
        | Symbol::Less
        | Symbol::LessEqual
        | Symbol::Greater
        | Symbol::GreaterEqual => true,
        _ => false,
    }
}

/// Whether this token stands behind the left operand of a test. No token of an expression does.
#[tactic(auto, unfolding(crate::specs::Lookahead::is_test, sq_ast::specs::Reading::comparison_of, sq_ast::specs::Words::same_symbol))]
fn is_test(kind: &TokenKind) -> bool
    ensures { result ≡ ahead.is_test kind.now }
{
    match kind {
        TokenKind::Symbol(symbol) => is_comparison(*symbol),
        TokenKind::Word(word) => word.as_str() == "is",
        TokenKind::Name(_) | TokenKind::Text(_) | TokenKind::Number(_) => false,
    }
}

/// How many levels further inside the next token stands. `None` if this one closes the parenthesis.
#[tactic(auto, unfolding(crate::specs::Lookahead::depth_behind))]
fn depth_behind(depth: usize, kind: &TokenKind) -> Option<usize>
    requires { depth < 2 ^ 64 - 1 }
    ensures { result ≡ ahead.depth_behind depth kind.now }
{
    if is_symbol(kind, Symbol::LeftParen) {
        return Some(depth + 1);
    }
    if is_symbol(kind, Symbol::RightParen) {
        return depth.checked_sub(1);
    }
    Some(depth)
}

/// Whether a test stands before the parenthesis closes that opened in front of these tokens.
fn holds_test(tokens: &[Token]) -> bool
    ensures { result ≡ ahead.holds_test 0 (kinds tokens.now) }
{
    let mut depth = 0;
    let mut rest = tokens;
    'tokens: loop {
        let Some((kind, behind)) = next_token(rest) else {
            return false;
        };
        if is_test(kind) {
            return true;
        }
        let Some(next) = depth_behind(depth, kind) else {
            return false;
        };
        depth = next;
        rest = behind;
    }
}

/// Whether a parenthesis that opens a condition comes next: one that holds a test. This is found out by looking
/// ahead, so that no operand is read in vain. A token is looked at once for each condition's parenthesis that it
/// stands in, up to the first test, and so at most 64 times.
#[tactic(auto, using(crate::proofs::Operands::opens, crate::proofs::Operands::opens_nothing))]
fn opens_condition(tokens: &[Token]) -> bool
    ensures { Tells result (kinds tokens.now) }
{
    match eat_symbol(tokens, Symbol::LeftParen) {
        None => false,
        Some(inside) => holds_test(inside),
    }
}

/// `IS [ NOT ] NULL` behind an operand.
#[tactic(auto, unfolding(sq_ast::specs::Reading::null_test))]
fn null_test(expr: ExprTree, tokens: &[Token]) -> Parsed<'_, CondTree>
    ensures { Reads result (r.null_test (r.level 0) expr (kinds tokens.now)) }
{
    let rest = expect_word(tokens, "is")?;
    let (negated, rest) = match eat_word(rest, "not") {
        None => (false, rest),
        Some(rest) => (true, rest),
    };
    let rest = expect_word(rest, "null")?;
    Ok((CondTree::Null { expr, negated }, rest))
}

/// What stands behind the left operand of a test.
#[tactic(auto, unfolding(sq_ast::specs::Reading::after_operand, sq_ast::specs::Reading::null_test))]
fn after_operand<'a>(
    alloc: Global,
    depth: usize,
    left: ExprTree,
    tokens: &'a [Token],
) -> Parsed<'a, CondTree>
    ensures { Reads result (r.after_operand (r.level depth) left (kinds tokens.now)) }
{
    let Some((kind, rest)) = next_token(tokens) else {
        return Err(Stop::NotGrammar);
    };
    let Some(cmp) = comparison_of(kind) else {
        return null_test(left, tokens);
    };
    let (right, rest) = sum(alloc, depth, rest)?;
    Ok((CondTree::Compare { cmp, left, right }, rest))
}

/// A condition in parentheses.
#[cycle(cond)]
#[tactic(auto, using(crate::proofs::Levels::cond_end, crate::proofs::Levels::cond_deeper), unfolding(sq_ast::specs::Reading::nested_cond))]
fn nested_cond<'a>(alloc: Global, depth: usize, tokens: &'a [Token]) -> Parsed<'a, CondTree>
    ensures { Reads result (r.nested_cond (r.level depth) (kinds tokens.now)) }
{
    let inside = expect_symbol(tokens, Symbol::LeftParen)?;
    if depth == 0 {
        return Err(Stop::NotGrammar);
    }
    let (cond, rest) = disj(alloc, depth - 1, inside)?;
    let rest = expect_symbol(rest, Symbol::RightParen)?;
    Ok((cond, rest))
}

/// `expr compare expr | expr IS [ NOT ] NULL | "(" cond ")"`
///
/// A parenthesis may open an operand or a condition, and what it holds tells which.
#[cycle(cond)]
#[tactic(auto, unfolding(sq_ast::specs::Reading::one_test))]
fn test<'a>(alloc: Global, depth: usize, tokens: &'a [Token]) -> Parsed<'a, CondTree>
    ensures { Reads result (r.one_test (r.level depth) (kinds tokens.now)) }
{
    if opens_condition(tokens) {
        return nested_cond(alloc, depth, tokens);
    }
    let (left, rest) = sum(alloc, depth, tokens)?;
    after_operand(alloc, depth, left, rest)
}

/// `[ NOT ] test`
#[cycle(cond)]
#[tactic(auto, unfolding(sq_ast::specs::Reading::neg))]
fn neg<'a>(alloc: Global, depth: usize, tokens: &'a [Token]) -> Parsed<'a, CondTree>
    ensures { Reads result (r.neg (r.level depth) (kinds tokens.now)) }
{
    let Some(rest) = eat_word(tokens, "not") else {
        return test(alloc, depth, tokens);
    };
    let (cond, rest) = test(alloc, depth, rest)?;
    Ok((CondTree::Not(Boxed::new(alloc, cond)?), rest))
}

#[cycle(cond)]
#[tactic(auto, unfolding(sq_ast::specs::Reading::next_and))]
fn next_and<'a>(alloc: Global, depth: usize, tokens: &'a [Token]) -> Parsed<'a, Option<CondTree>>
    ensures { Reads result (r.next_and (r.level depth) (kinds tokens.now)) }
{
    let Some(rest) = eat_word(tokens, "and") else {
        return Ok((None, tokens));
    };
    let (member, rest) = neg(alloc, depth, rest)?;
    Ok((Some(member), rest))
}

#[cycle(cond)]
fn ands<'a>(alloc: Global, depth: usize, tokens: &'a [Token]) -> Parsed<'a, Items<CondTree>>
    ensures { Reads result (many (r.next_and (r.level depth)) (kinds tokens.now)) }
{
    let mut found = Items::new(alloc);
    let mut rest = tokens;
    'chain: loop {
        let (next, behind) = next_and(alloc, depth, rest)?;
        let Some(member) = next else {
            return Ok((found, behind));
        };
        found.push(member)?;
        rest = behind;
    }
}

/// `neg { AND neg }`
#[cycle(cond)]
#[tactic(auto, unfolding(sq_ast::specs::Reading::conj))]
fn conj<'a>(alloc: Global, depth: usize, tokens: &'a [Token]) -> Parsed<'a, CondTree>
    ensures { Reads result (r.conj (r.level depth) (kinds tokens.now)) }
{
    let (first, rest) = neg(alloc, depth, tokens)?;
    let (more, rest) = ands(alloc, depth, rest)?;
    Ok((all_of(alloc, first, more)?, rest))
}

#[cycle(cond)]
#[tactic(auto, unfolding(sq_ast::specs::Reading::next_or))]
fn next_or<'a>(alloc: Global, depth: usize, tokens: &'a [Token]) -> Parsed<'a, Option<CondTree>>
    ensures { Reads result (r.next_or (r.level depth) (kinds tokens.now)) }
{
    let Some(rest) = eat_word(tokens, "or") else {
        return Ok((None, tokens));
    };
    let (member, rest) = conj(alloc, depth, rest)?;
    Ok((Some(member), rest))
}

#[cycle(cond)]
fn ors<'a>(alloc: Global, depth: usize, tokens: &'a [Token]) -> Parsed<'a, Items<CondTree>>
    ensures { Reads result (many (r.next_or (r.level depth)) (kinds tokens.now)) }
{
    let mut found = Items::new(alloc);
    let mut rest = tokens;
    'chain: loop {
        let (next, behind) = next_or(alloc, depth, rest)?;
        let Some(member) = next else {
            return Ok((found, behind));
        };
        found.push(member)?;
        rest = behind;
    }
}

/// `conj { OR conj }`
#[cycle(cond)]
#[tactic(auto, unfolding(sq_ast::specs::Reading::disj))]
pub fn disj<'a>(alloc: Global, depth: usize, tokens: &'a [Token]) -> Parsed<'a, CondTree>
    ensures { Reads result (r.disj (r.level depth) (kinds tokens.now)) }
{
    let (first, rest) = conj(alloc, depth, tokens)?;
    let (more, rest) = ors(alloc, depth, rest)?;
    Ok((any_of(alloc, first, more)?, rest))
}
