//! Operators on Z-sets of rows (DBSP, PVLDB 16(7), 2023), each given by what it makes of single rows.
//!
//! One trait for each way in which an operator extends from rows to Z-sets: `Linear` gives images of a row, `Bilinear` joins
//! rows, and `Whole` works key by key.
#![tactic(auto)]

mod aggregate;
mod bilinear;
mod columns;
mod copy;
mod extreme;
pub mod extreme_laws;
mod fault;
mod index;
mod items;
pub mod laws;
mod linear;
pub mod list_laws;
mod measure;
pub mod range_laws;
pub mod row_laws;
mod whole;
pub mod whole_laws;

pub use aggregate::{AggSpec, Call};
pub use bilinear::{Bilinear, Pairing};
pub use fault::OpFault;
pub use index::Index;
pub use linear::{Keep, Linear, Pad, Project};
pub use measure::{count_of, count_of_row, sum_of, sum_of_row, total_of};
pub use whole::{Distinct, Whole, WholeFault};
