//! Tests of the words of the command line, and of the sample.
#![tactic(auto)]

#[cfg(test)]
mod command_lines;
#[cfg(test)]
mod sample_ticks;
