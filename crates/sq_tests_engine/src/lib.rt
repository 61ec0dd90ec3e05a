//! Tests of the engine over several ticks: what no clause says. Nothing else stands here.
#![tactic(auto)]

#[cfg(test)]
mod bench;
#[cfg(test)]
mod circuit;
#[cfg(test)]
mod ticks;
