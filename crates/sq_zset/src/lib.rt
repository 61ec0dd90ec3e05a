//! Z-sets of rows (DBSP, PVLDB 16(7), 2023): finite maps from rows to whole numbers other than 0.
//!
//! A weight lies from -2^62 to 2^62. A change of a table or a view is a Z-set, and so is a table itself.
#![tactic(auto)]

mod collect;
mod group;
pub mod laws;
mod merge;
mod pair;
mod zset;

pub use group::Group;
pub use merge::weight_from;
pub use pair::{OutsideRange, Pair, ZFault};
pub use zset::ZSet;
