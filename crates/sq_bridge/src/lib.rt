//! What a typed program means over lists of rows, in operators over Z-sets: the laws that join the two.
//!
//! No code here runs. Each function has an empty body, and its contract is a law.
#![tactic(auto)]

pub mod group_laws;
pub mod join_laws;
pub mod part_laws;
pub mod query_laws;
pub mod range_laws;
pub mod set_laws;
pub mod stage_laws;
pub mod suit_laws;
pub mod view_laws;

pub use sq_typed::sort_laws;
