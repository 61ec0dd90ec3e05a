//! Tests of operators step by step: what no clause says, that calls succeed with ample memory, and that the answers and the
//! steps are the intended ones. Nothing else stands here.
#![tactic(auto)]

#[cfg(test)]
mod aggregates;
#[cfg(test)]
mod distincts;
#[cfg(test)]
mod drawn;
pub mod followed;
#[cfg(test)]
mod joins;
#[cfg(test)]
mod rows;
#[cfg(test)]
mod traces;
