//! Queries.
ghost use Rattle.std.specs.Prelude.{◌≡◌};
ghost use Rattle.sq_ast.specs.Parser.{many};
ghost use Rattle.sq_ast.specs.Spelling.{kinds};
ghost use Rattle.sq_ast.specs.Reading as r;
ghost use Rattle.sq_terms.specs.Answers.{Reads};
ghost use Rattle.sq_parse.specs.Parts.{relation, how};

use crate::chain::{chain_of, intersect_of};
use crate::part::{filter, group_by, having, items, select, select_item, set_op};
use sq_ast::{BlockTree, CondTree, JoinTree, JoinedTree, QueryTree, SourceTree, StepTree};
use sq_terms::Stop;
use sq_terms::cond::disj;
use sq_terms::list::listed;
use sq_terms::name::{alias, maybe_alias, name};
use sq_terms::step::{Parsed, eat_symbol, eat_word, expect_symbol, expect_word, skip_word};
use sq_token::{Symbol, Token};
use sqlite_items::{Boxed, Items};
use std::alloc::Global;

/// A query and `)`, behind `(`.
#[cycle(query)]
#[tactic(auto, using(crate::proofs::Levels::query_end, crate::proofs::Levels::query_deeper))]
fn nested_query<'a>(alloc: Global, depth: usize, tokens: &'a [Token]) -> Parsed<'a, QueryTree>
    ensures { Reads result (r.nested (r.level depth).query (kinds tokens.now)) }
{
    if depth == 0 {
        return Err(Stop::NotGrammar);
    }
    let (query, rest) = query_chain(alloc, depth - 1, tokens)?;
    let rest = expect_symbol(rest, Symbol::RightParen)?;
    Ok((query, rest))
}

/// `name [ [ AS ] name ]`
fn relation<'a>(alloc: Global, tokens: &'a [Token]) -> Parsed<'a, SourceTree>
    ensures { Reads result (relation (kinds tokens.now)) }
{
    let (name, rest) = name(alloc, tokens)?;
    let (alias, rest) = maybe_alias(alloc, rest)?;
    Ok((SourceTree::Relation { name, alias }, rest))
}

/// `name [ [ AS ] name ] | "(" query ")" [ AS ] name`
#[cycle(query)]
#[tactic(auto, unfolding(sq_ast::specs::Reading::from_item))]
fn from_item<'a>(alloc: Global, depth: usize, tokens: &'a [Token]) -> Parsed<'a, SourceTree>
    ensures { Reads result (r.from_item (r.level depth) (kinds tokens.now)) }
{
    let Some(inside) = eat_symbol(tokens, Symbol::LeftParen) else {
        return relation(alloc, tokens);
    };
    let (query, rest) = nested_query(alloc, depth, inside)?;
    let (alias, rest) = alias(alloc, rest)?;
    let query = Boxed::new(alloc, query)?;
    Ok((SourceTree::Query { query, alias }, rest))
}

/// A source behind a comma or `CROSS JOIN`.
#[cycle(query)]
fn every_pair<'a>(
    alloc: Global,
    depth: usize,
    tokens: &'a [Token],
) -> Parsed<'a, Option<JoinedTree>>
    ensures { Reads result (r.every_pair (r.level depth) (kinds tokens.now)) }
{
    let (source, rest) = from_item(alloc, depth, tokens)?;
    let join = JoinTree::Comma;
    Ok((Some(JoinedTree { join, source }), rest))
}

/// The join of a condition.
fn join_on(left: bool, cond: CondTree) -> JoinTree
    ensures { result ≡ how left cond }
{
    if left {
        JoinTree::Left(cond)
    } else {
        JoinTree::Inner(cond)
    }
}

/// A source behind `JOIN`, and its condition.
#[cycle(query)]
fn joined_on<'a>(
    alloc: Global,
    depth: usize,
    left: bool,
    tokens: &'a [Token],
) -> Parsed<'a, Option<JoinedTree>>
    ensures { Reads result (r.joined_on (r.level depth) (how left) (kinds tokens.now)) }
{
    let (source, rest) = from_item(alloc, depth, tokens)?;
    let rest = expect_word(rest, "on")?;
    let (cond, rest) = disj(alloc, depth, rest)?;
    let join = join_on(left, cond);
    Ok((Some(JoinedTree { join, source }), rest))
}

/// A further source, if one comes next.
#[cycle(query)]
#[tactic(auto, unfolding(sq_ast::specs::Reading::next_joined))]
fn next_joined<'a>(
    alloc: Global,
    depth: usize,
    tokens: &'a [Token],
) -> Parsed<'a, Option<JoinedTree>>
    ensures { Reads result (r.next_joined (r.level depth) (kinds tokens.now)) }
{
    if let Some(rest) = eat_symbol(tokens, Symbol::Comma) {
        return every_pair(alloc, depth, rest);
    }
    if let Some(rest) = eat_word(tokens, "cross") {
        let rest = expect_word(rest, "join")?;
        return every_pair(alloc, depth, rest);
    }
    if let Some(rest) = eat_word(tokens, "join") {
        return joined_on(alloc, depth, false, rest);
    }
    if let Some(rest) = eat_word(tokens, "inner") {
        let rest = expect_word(rest, "join")?;
        return joined_on(alloc, depth, false, rest);
    }
    let Some(rest) = eat_word(tokens, "left") else {
        return Ok((None, tokens));
    };
    let rest = expect_word(skip_word(rest, "outer"), "join")?;
    joined_on(alloc, depth, true, rest)
}

#[cycle(query)]
fn sources<'a>(alloc: Global, depth: usize, tokens: &'a [Token]) -> Parsed<'a, Items<JoinedTree>>
    ensures { Reads result (many (r.next_joined (r.level depth)) (kinds tokens.now)) }
{
    let mut found = Items::new(alloc);
    let mut rest = tokens;
    'chain: loop {
        let (next, behind) = next_joined(alloc, depth, rest)?;
        let Some(source) = next else {
            return Ok((found, behind));
        };
        found.push(source)?;
        rest = behind;
    }
}

/// `SELECT .. FROM ..` with its clauses.
#[cycle(query)]
#[tactic(auto, unfolding(sq_ast::specs::Reading::block))]
fn block<'a>(alloc: Global, depth: usize, tokens: &'a [Token]) -> Parsed<'a, QueryTree>
    ensures { Reads result (r.block (r.level depth) (kinds tokens.now)) }
{
    let (distinct, rest) = select(tokens)?;
    let (item, rest) = select_item(alloc, depth, rest)?;
    let (more_items, rest) = items(alloc, depth, rest)?;
    let rest = expect_word(rest, "from")?;
    let (source, rest) = from_item(alloc, depth, rest)?;
    let (more_sources, rest) = sources(alloc, depth, rest)?;
    let (filter, rest) = filter(alloc, depth, rest)?;
    let (group, rest) = group_by(alloc, rest)?;
    let (having, rest) = having(alloc, depth, rest)?;
    let join = JoinTree::Comma;
    let block = BlockTree {
        distinct,
        items: listed(alloc, item, more_items)?,
        sources: listed(alloc, JoinedTree { join, source }, more_sources)?,
        filter,
        group,
        having,
    };
    Ok((QueryTree::Block(Boxed::new(alloc, block)?), rest))
}

/// A block, or a query in parentheses.
#[cycle(query)]
#[tactic(auto, unfolding(sq_ast::specs::Reading::operand))]
fn operand<'a>(alloc: Global, depth: usize, tokens: &'a [Token]) -> Parsed<'a, QueryTree>
    ensures { Reads result (r.operand (r.level depth) (kinds tokens.now)) }
{
    match eat_symbol(tokens, Symbol::LeftParen) {
        Some(inside) => nested_query(alloc, depth, inside),
        None => block(alloc, depth, tokens),
    }
}

#[cycle(query)]
#[tactic(auto, unfolding(sq_ast::specs::Reading::next_operand))]
fn next_operand<'a>(
    alloc: Global,
    depth: usize,
    tokens: &'a [Token],
) -> Parsed<'a, Option<QueryTree>>
    ensures { Reads result (r.next_operand (r.level depth) (kinds tokens.now)) }
{
    let Some(rest) = eat_word(tokens, "intersect") else {
        return Ok((None, tokens));
    };
    let (query, rest) = operand(alloc, depth, skip_word(rest, "distinct"))?;
    Ok((Some(query), rest))
}

#[cycle(query)]
fn operands<'a>(alloc: Global, depth: usize, tokens: &'a [Token]) -> Parsed<'a, Items<QueryTree>>
    ensures { Reads result (many (r.next_operand (r.level depth)) (kinds tokens.now)) }
{
    let mut found = Items::new(alloc);
    let mut rest = tokens;
    'chain: loop {
        let (next, behind) = next_operand(alloc, depth, rest)?;
        let Some(query) = next else {
            return Ok((found, behind));
        };
        found.push(query)?;
        rest = behind;
    }
}

/// `operand { INTERSECT [ DISTINCT ] operand }`
#[cycle(query)]
#[tactic(auto, unfolding(sq_ast::specs::Reading::intersection))]
fn intersection<'a>(alloc: Global, depth: usize, tokens: &'a [Token]) -> Parsed<'a, QueryTree>
    ensures { Reads result (r.intersection (r.level depth) (kinds tokens.now)) }
{
    let (first, rest) = operand(alloc, depth, tokens)?;
    let (more, rest) = operands(alloc, depth, rest)?;
    Ok((intersect_of(alloc, first, more)?, rest))
}

#[cycle(query)]
#[tactic(auto, unfolding(sq_ast::specs::Reading::next_step))]
fn next_step<'a>(alloc: Global, depth: usize, tokens: &'a [Token]) -> Parsed<'a, Option<StepTree>>
    ensures { Reads result (r.next_step (r.level depth) (kinds tokens.now)) }
{
    let (op, rest) = set_op(tokens);
    let Some(op) = op else {
        return Ok((None, rest));
    };
    let (query, rest) = intersection(alloc, depth, rest)?;
    Ok((Some(StepTree { op, query }), rest))
}

#[cycle(query)]
fn steps<'a>(alloc: Global, depth: usize, tokens: &'a [Token]) -> Parsed<'a, Items<StepTree>>
    ensures { Reads result (many (r.next_step (r.level depth)) (kinds tokens.now)) }
{
    let mut found = Items::new(alloc);
    let mut rest = tokens;
    'chain: loop {
        let (next, behind) = next_step(alloc, depth, rest)?;
        let Some(step) = next else {
            return Ok((found, behind));
        };
        found.push(step)?;
        rest = behind;
    }
}

/// `term { ( UNION [ ALL | DISTINCT ] | EXCEPT [ DISTINCT ] ) term }`
#[cycle(query)]
#[tactic(auto, unfolding(sq_ast::specs::Reading::query_chain))]
pub(crate) fn query_chain<'a>(
    alloc: Global,
    depth: usize,
    tokens: &'a [Token],
) -> Parsed<'a, QueryTree>
    ensures { Reads result (r.query_chain (r.level depth) (kinds tokens.now)) }
{
    let (first, rest) = intersection(alloc, depth, tokens)?;
    let (more, rest) = steps(alloc, depth, rest)?;
    Ok((chain_of(alloc, first, more)?, rest))
}
