//! Tests of circuits and of their value over whole tables: what no clause says. Nothing else stands here.
#![tactic(auto)]

#[cfg(test)]
mod circuits;
#[cfg(test)]
mod nodes;
#[cfg(test)]
mod verdicts;
#[cfg(test)]
mod view;
