//! The members of conditions: copies of them, and which of them belong to a source.
#![tactic(auto)]

mod split;

pub use split::{members, members_at, members_of, push_copies};
