//! Linear operators on Z-sets (DBSP, PVLDB 16(7), 2023): each row is replaced by its images.
#![tactic(auto)]

mod apply;
mod fault;

pub use apply::apply_linear;
pub use fault::LinearFault;
