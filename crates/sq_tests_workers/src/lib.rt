//! Tests of what workers run on, and of their levels.
#![tactic(auto)]

#[cfg(test)]
mod boards;
#[cfg(test)]
mod levels;
