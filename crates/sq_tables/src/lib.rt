//! The tables of a circuit, as the traces of their nodes hold them over the shards.
#![tactic(auto)]

pub mod laws;
mod weigh;

pub use weigh::weight_of;
