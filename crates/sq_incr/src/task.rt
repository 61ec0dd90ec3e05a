//! `Task`: the work of one node in one shard.

/// The work of one node in one shard, both by their numbers. Tasks are ordered by node, and then by shard.
#[derive(Clone, Copy, Debug, PartialEq, Eq, PartialOrd, Ord)]
pub struct Task {
    pub node: u32,
    pub shard: u32,
}
