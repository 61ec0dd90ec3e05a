//! DISTINCT on Z-sets of rows (DBSP, PVLDB 16(7), 2023): of all rows, and of a change of them.
#![tactic(auto)]

mod step;
mod whole;

pub use step::distinct_step;
pub use whole::distinct_whole;
