//! Shards: which one a key belongs to, a Z-set in parts by shard, and the sum of such parts.
#![tactic(auto)]

mod key;
pub mod laws;
mod pairs;
mod split;
mod sum;

pub use key::shard_of;
pub use split::{scatter, scatter_owned};
pub use sum::gather;
