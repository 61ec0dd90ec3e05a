//! Tests of what a run is made of: what change lines say over three relations, which no printed line tells, and which lines pieces are cut into.
#![tactic(auto)]

#[cfg(test)]
mod change_lines;
#[cfg(test)]
mod cuttings;
#[cfg(test)]
mod relations;
