//! GROUP BY and aggregates on Z-sets of rows (DBSP, PVLDB 16(7), 2023).
#![tactic(auto)]

mod acc;
mod argument;
mod change;
mod entries;
mod follow;
mod group;
mod group_row;
pub mod laws;
mod step;
mod tally;
mod value;
mod whole;

pub use acc::Acc;
pub use step::{AggChange, agg_step};
pub use whole::agg_whole;
