//! From a checked program to a circuit: a node for each step of each query.
#![tactic(auto)]

mod block;
mod columns;
mod draft;
mod from;
mod groups;
mod keys;
mod left;
mod planned;
mod query;
mod relations;
mod sets;
mod steps;

pub use planned::plan;
