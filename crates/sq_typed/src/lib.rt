//! Queries in which names are replaced by numbers, what they mean over lists of rows, and the faults of statements.
#![tactic(auto)]

mod check_kind;
pub mod examples;
pub mod fault_examples;
pub mod fault_laws;
pub mod fit_laws;
pub mod laws;
mod limits;
mod program;
mod query;
pub mod sort_laws;
mod update;

pub use check_kind::CheckKind;
pub use limits::{MOST_COLUMNS, MOST_SOURCES, MOST_STATEMENTS};
pub use program::Program;
pub use query::{Block, BlockCall, FromItem, FromJoin, Grouping, Origin, Query, SetStep};
pub use update::Update;
