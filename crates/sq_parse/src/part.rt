//! The parts of queries that hold no query.
ghost use Rattle.std.specs.Prelude.{◌≡◌, Some};
ghost use Rattle.sq_ast.specs.Parser.{many, clause};
ghost use Rattle.sq_ast.specs.Words as w;
ghost use Rattle.sq_ast.specs.Spelling.{kinds};
ghost use Rattle.sq_ast.specs.Reading as r;
ghost use Rattle.sq_terms.specs.Answers.{Reads};

use sq_ast::{ColRef, CondTree, ItemTree, SetOp};
use sq_terms::Stop;
use sq_terms::cond::disj;
use sq_terms::expr::sum;
use sq_terms::list::listed;
use sq_terms::name::{col_ref, maybe_alias, name};
use sq_terms::step::{Parsed, eat_symbol, eat_word, expect_symbol, expect_word, skip_word};
use sq_token::{Symbol, Token};
use sqlite_items::Items;
use std::alloc::Global;

/// A set operation other than `INTERSECT`, if one comes next, and the tokens behind it.
#[tactic(auto, unfolding(sq_ast::specs::Reading::set_op))]
pub(crate) fn set_op(tokens: &[Token]) -> (Option<SetOp>, &[Token])
    ensures { r.set_op (kinds tokens.now) ≡ Some (result.0, kinds result.1.now) }
{
    if let Some(rest) = eat_word(tokens, "union") {
        return match eat_word(rest, "all") {
            Some(rest) => (Some(SetOp::UnionAll), rest),
            None => (Some(SetOp::Union), skip_word(rest, "distinct")),
        };
    }
    match eat_word(tokens, "except") {
        Some(rest) => (Some(SetOp::Except), skip_word(rest, "distinct")),
        None => (None, tokens),
    }
}

/// `SELECT [ DISTINCT | ALL ]`: whether it is distinct.
#[tactic(auto, unfolding(sq_ast::specs::Reading::select))]
pub(crate) fn select(tokens: &[Token]) -> Parsed<'_, bool>
    ensures { Reads result (r.select (kinds tokens.now)) }
{
    let rest = expect_word(tokens, "select")?;
    match eat_word(rest, "distinct") {
        Some(rest) => Ok((true, rest)),
        None => Ok((false, skip_word(rest, "all"))),
    }
}

/// `name "." "*"`
#[tactic(auto, unfolding(sq_ast::specs::Reading::star_of))]
fn star_of<'a>(alloc: Global, tokens: &'a [Token]) -> Parsed<'a, ItemTree>
    ensures { Reads result (r.star_of (kinds tokens.now)) }
{
    let (name, rest) = name(alloc, tokens)?;
    let rest = expect_symbol(rest, Symbol::Dot)?;
    let rest = expect_symbol(rest, Symbol::Star)?;
    Ok((ItemTree::StarOf(name), rest))
}

/// `expr [ [ AS ] name ]`
#[tactic(auto, unfolding(sq_ast::specs::Reading::computed_item))]
fn computed_item<'a>(alloc: Global, depth: usize, tokens: &'a [Token]) -> Parsed<'a, ItemTree>
    ensures { Reads result (r.computed_item (r.level depth) (kinds tokens.now)) }
{
    let (expr, rest) = sum(alloc, depth, tokens)?;
    let (alias, rest) = maybe_alias(alloc, rest)?;
    Ok((ItemTree::Expr { expr, alias }, rest))
}

/// `"*" | name "." "*" | expr [ [ AS ] name ]`
#[tactic(auto, unfolding(sq_ast::specs::Reading::select_item))]
pub(crate) fn select_item<'a>(
    alloc: Global,
    depth: usize,
    tokens: &'a [Token],
) -> Parsed<'a, ItemTree>
    ensures { Reads result (r.select_item (r.level depth) (kinds tokens.now)) }
{
    if let Some(rest) = eat_symbol(tokens, Symbol::Star) {
        return Ok((ItemTree::Star, rest));
    }
    match star_of(alloc, tokens) {
        Ok(found) => Ok(found),
        Err(Stop::NotGrammar) => computed_item(alloc, depth, tokens),
        Err(Stop::Memory) => Err(Stop::Memory),
    }
}

#[tactic(auto, unfolding(sq_ast::specs::Reading::next_item))]
fn next_item<'a>(alloc: Global, depth: usize, tokens: &'a [Token]) -> Parsed<'a, Option<ItemTree>>
    ensures { Reads result (r.next_item (r.level depth) (kinds tokens.now)) }
{
    let Some(rest) = eat_symbol(tokens, Symbol::Comma) else {
        return Ok((None, tokens));
    };
    let (item, rest) = select_item(alloc, depth, rest)?;
    Ok((Some(item), rest))
}

pub(crate) fn items<'a>(
    alloc: Global,
    depth: usize,
    tokens: &'a [Token],
) -> Parsed<'a, Items<ItemTree>>
    ensures { Reads result (many (r.next_item (r.level depth)) (kinds tokens.now)) }
{
    let mut found = Items::new(alloc);
    let mut rest = tokens;
    'chain: loop {
        let (next, behind) = next_item(alloc, depth, rest)?;
        let Some(item) = next else {
            return Ok((found, behind));
        };
        found.push(item)?;
        rest = behind;
    }
}

#[tactic(auto, unfolding(sq_ast::specs::Reading::next_col_ref))]
fn next_col_ref<'a>(alloc: Global, tokens: &'a [Token]) -> Parsed<'a, Option<ColRef>>
    ensures { Reads result (r.next_col_ref (kinds tokens.now)) }
{
    let Some(rest) = eat_symbol(tokens, Symbol::Comma) else {
        return Ok((None, tokens));
    };
    let (column, rest) = col_ref(alloc, rest)?;
    Ok((Some(column), rest))
}

fn col_refs<'a>(alloc: Global, tokens: &'a [Token]) -> Parsed<'a, Items<ColRef>>
    ensures { Reads result (many r.next_col_ref (kinds tokens.now)) }
{
    let mut found = Items::new(alloc);
    let mut rest = tokens;
    'chain: loop {
        let (next, behind) = next_col_ref(alloc, rest)?;
        let Some(column) = next else {
            return Ok((found, behind));
        };
        found.push(column)?;
        rest = behind;
    }
}

/// `[ GROUP BY colref { "," colref } ]`
#[tactic(auto, unfolding(sq_ast::specs::Reading::group_by))]
pub(crate) fn group_by<'a>(alloc: Global, tokens: &'a [Token]) -> Parsed<'a, Items<ColRef>>
    ensures { Reads result (r.group_by (kinds tokens.now)) }
{
    let Some(rest) = eat_word(tokens, "group") else {
        return Ok((Items::new(alloc), tokens));
    };
    let rest = expect_word(rest, "by")?;
    let (first, rest) = col_ref(alloc, rest)?;
    let (more, rest) = col_refs(alloc, rest)?;
    Ok((listed(alloc, first, more)?, rest))
}

/// `[ WHERE cond ]`
pub(crate) fn filter<'a>(
    alloc: Global,
    depth: usize,
    tokens: &'a [Token],
) -> Parsed<'a, Option<CondTree>>
    ensures { Reads result (clause w.WHERE (r.disj (r.level depth)) (kinds tokens.now)) }
{
    let Some(rest) = eat_word(tokens, "where") else {
        return Ok((None, tokens));
    };
    let (cond, rest) = disj(alloc, depth, rest)?;
    Ok((Some(cond), rest))
}

/// `[ HAVING cond ]`
pub(crate) fn having<'a>(
    alloc: Global,
    depth: usize,
    tokens: &'a [Token],
) -> Parsed<'a, Option<CondTree>>
    ensures { Reads result (clause w.HAVING (r.disj (r.level depth)) (kinds tokens.now)) }
{
    let Some(rest) = eat_word(tokens, "having") else {
        return Ok((None, tokens));
    };
    let (cond, rest) = disj(alloc, depth, rest)?;
    Ok((Some(cond), rest))
}
