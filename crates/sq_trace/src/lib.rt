//! Traces: payloads by key and row, kept in sorted runs (DBSP, PVLDB 16(7), 2023, on indexed state).
#![tactic(auto)]

mod entry;
mod extremes;
mod kept;
mod keyed;
mod merge;
mod merged;
mod next;
mod rows;
mod search;
mod side;
mod sorting;
mod totals;
mod trace;

pub use entry::Entry;
pub use keyed::Keyed;
pub use trace::{Prepared, Trace};
