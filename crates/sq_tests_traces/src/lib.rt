//! Tests of traces and of shards: what no clause says, that calls succeed with ample memory, and that the answers and the steps are the
//! intended ones. Nothing else stands here.
#![tactic(auto)]

#[cfg(test)]
mod ends;
#[cfg(test)]
mod random;
#[cfg(test)]
mod rows;
#[cfg(test)]
mod shards;
#[cfg(test)]
mod traces;
