//! What holds of statements that are to be checked, as the contract of a function that does nothing.
ghost use Rattle.std.specs.Prelude.{◌<◌, ◌^◌, List, length};
ghost use Rattle.std.specs.List.{AllByRecursion};
ghost use Rattle.sq_ast.specs.Spelling.{Spells};
ghost use Rattle.sq_ast.specs.declared.statement.Statement.{Statement as StatementTree};
ghost use Rattle.sq_token.specs.declared.token.Token.{Token as SpelledToken};
ghost use Rattle.sq_typed.specs.Checked.{Spelling};

use crate::CheckFault;

/// Each of the statements that fewer than 2^27 tokens spell is spelled by some of them: so what a reader gives can be checked.
#[tactic(auto, using(crate::proofs::QueriesSpelled::each_spelled))]
pub fn read_statements_are_spelled()
    ensures { (tokens : List SpelledToken) (statements : List StatementTree) → length tokens < 2 ^ 27 → Spells tokens statements → AllByRecursion Spelling statements }
{}

fn is_send_and_sync<T: Send + Sync>() {}

// A fault may be handed to another thread, and be shared.
fn faults_cross_threads() {
    is_send_and_sync::<CheckFault>();
}
