//! What holds of the trees and of the tokens that spell them, as the contracts of functions that do nothing.
ghost use Rattle.std.specs.Prelude.{◌≡◌, ◌≤◌, ◌*◌, ◌⊎◌, List, length};
ghost use Rattle.sq_token.specs.declared.token.Token.{Token};
ghost use Rattle.sq_ast.specs.declared.statement.Statement.{Statement as StatementTree};
ghost use Rattle.sq_ast.specs.Examples as examples;
ghost use Rattle.sq_ast.specs.Examples.{IsSpelled, IsUnspelled};
ghost use Rattle.sq_ast.specs.Refusal.{Refusal, Refuses};
ghost use Rattle.sq_ast.specs.Sources.{program_sources};
ghost use Rattle.sq_ast.specs.Spelling.{Spells};

use crate::{
    BlockTree, Body, CmpTree, ColRef, ColumnTree, CondTree, ExprTree, Flavour, FuncTree, ItemTree,
    JoinTree, JoinedTree, QueryTree, SetOp, SourceTree, Statement, StepTree, TermTree, TypeName,
};

/// Nothing is ambiguous: a list of tokens spells at most one list of statements.
#[tactic(auto, using(crate::proofs::Programs::one_program))]
pub fn one_meaning()
    ensures { (tokens : List Token) (a b : List StatementTree) → Spells tokens a → Spells tokens b → a ≡ b }
{}

/// A list of tokens spells statements or is refused, and not both; a refusal has one cause, which is the first
/// statement that is too deep or that no tree spells.
#[tactic(auto, using(crate::proofs::Programs::refusals))]
pub fn one_verdict()
    ensures either { (tokens : List Token) → ((a : List StatementTree) × Spells tokens a) ⊎ ((why : Refusal) × Refuses tokens why) }
    ensures not_both { (tokens : List Token) (a : List StatementTree) (why : Refusal) → Spells tokens a → Refuses tokens why → ⊥ }
    ensures one_cause { (tokens : List Token) (why other : Refusal) → Refuses tokens why → Refuses tokens other → why ≡ other }
{}

/// A source costs two tokens or more: a program has at most half as many sources behind `FROM`, at every depth, as tokens.
#[tactic(auto, using(crate::proofs::SourceLemmas::few_sources))]
pub fn few_sources()
    ensures { (tokens : List Token) (a : List StatementTree) → Spells tokens a → 2 * program_sources a ≤ length tokens }
{}

/// Small programs and what they spell, as `specs/Examples.antt` writes them.
#[tactic(auto, using(crate::proofs::ExampleLemmas::examples))]
pub fn spelled_examples()
    ensures nothing { IsSpelled examples.nothing }
    ensures third_statement { IsSpelled examples.third_statement }
    ensures words_as_names { IsSpelled examples.words_as_names }
    ensures quoted_word { IsSpelled examples.quoted_word }
    ensures chain { IsSpelled examples.chain }
    ensures chain_in_chain { IsSpelled examples.chain_in_chain }
    ensures signs { IsSpelled examples.signs }
    ensures precedence { IsSpelled examples.precedence }
    ensures either_parenthesis { IsSpelled examples.either_parenthesis }
    ensures joins { IsSpelled examples.joins }
    ensures groups { IsSpelled examples.groups }
    ensures set_operations { IsSpelled examples.set_operations }
    ensures as_deep_as_it_goes { IsSpelled examples.as_deep_as_it_goes }
{}

/// Texts that spell nothing, as `specs/Examples.antt` writes them.
#[tactic(auto, using(crate::proofs::ExampleLemmas::examples))]
pub fn unspelled_examples()
    ensures too_deep { IsUnspelled examples.too_deep }
    ensures reserved_name { IsUnspelled examples.reserved_name }
    ensures right_join { IsUnspelled examples.right_join }
    ensures join_without_on { IsUnspelled examples.join_without_on }
    ensures expression_as_condition { IsUnspelled examples.expression_as_condition }
    ensures not_twice { IsUnspelled examples.not_twice }
    ensures sum_of_star { IsUnspelled examples.sum_of_star }
    ensures intersect_all { IsUnspelled examples.intersect_all }
    ensures no_semicolon { IsUnspelled examples.no_semicolon }
{}

fn is_send_and_sync<T: Send + Sync>() {}

// Each type of data may be handed to another thread, and be shared.
fn data_crosses_threads() {
    is_send_and_sync::<Statement>();
    is_send_and_sync::<Body>();
    is_send_and_sync::<Flavour>();
    is_send_and_sync::<ColumnTree>();
    is_send_and_sync::<TypeName>();
    is_send_and_sync::<QueryTree>();
    is_send_and_sync::<SetOp>();
    is_send_and_sync::<StepTree>();
    is_send_and_sync::<BlockTree>();
    is_send_and_sync::<ItemTree>();
    is_send_and_sync::<JoinedTree>();
    is_send_and_sync::<JoinTree>();
    is_send_and_sync::<SourceTree>();
    is_send_and_sync::<CondTree>();
    is_send_and_sync::<CmpTree>();
    is_send_and_sync::<ExprTree>();
    is_send_and_sync::<TermTree>();
    is_send_and_sync::<FuncTree>();
    is_send_and_sync::<ColRef>();
}
