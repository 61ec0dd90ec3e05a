//! The statements of SQL as trees, and the relation that says which tokens spell them.
//!
//! A tree keeps what a statement means and drops how it is written: parentheses, `SELECT ALL`, `DISTINCT`
//! after a set operation, `AS`, `INNER`, `OUTER`, `CROSS JOIN` against a comma, and `NULL` against nothing in
//! a column leave no trace. A chain, as `a + b + c`, is the list of its members, and a chain of one member is
//! that member; a chain in parentheses stays one member of the chain around it.
//!
//! `specs/Spelling.antt` says which tokens spell which statements, one case for each line of the grammar, and
//! `specs/Refusal.antt` why tokens spell none. `specs/Reading.antt` has a function that reads the one list of
//! statements from the tokens, for a reader to be held against; `laws` says that nothing is ambiguous.
//! Contracts see a list of trees as the list, and a boxed tree as the tree.
#![tactic(auto)]

mod cond;
mod expr;
pub mod laws;
mod query;
mod statement;

pub use cond::{CmpTree, CondTree};
pub use expr::{ColRef, ExprTree, FuncTree, TermTree};
pub use query::{
    BlockTree, ItemTree, JoinTree, JoinedTree, QueryTree, SetOp, SourceTree, StepTree,
};
pub use statement::{Body, ColumnTree, Flavour, Statement, TypeName};
