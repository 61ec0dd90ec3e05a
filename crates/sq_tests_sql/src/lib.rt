//! Tests of the tokens and the statements of program texts: what no clause says of them.
#![tactic(auto)]

#[cfg(test)]
mod lexemes;
#[cfg(test)]
mod programs;
