//! Tests of Z-sets, of streams and of the operators on them: what no clause says, that calls succeed with ample memory,
//! and that the answers are the intended ones. Nothing else stands here.
#![tactic(auto)]

#[cfg(test)]
mod accumulators;
#[cfg(test)]
mod aggregates;
#[cfg(test)]
mod copies;
#[cfg(test)]
mod distincts;
#[cfg(test)]
mod joins;
#[cfg(test)]
mod linears;
#[cfg(test)]
mod parts;
#[cfg(test)]
mod rows;
#[cfg(test)]
mod streams;
#[cfg(test)]
mod weights;
