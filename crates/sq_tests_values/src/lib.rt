//! Tests of values, expressions, catalogues, members of conditions, sources and sinks: what no clause says of them.
#![tactic(auto)]

#[cfg(test)]
mod catalogs;
#[cfg(test)]
mod expressions;
#[cfg(test)]
mod fixtures;
pub mod meanings;
#[cfg(test)]
mod members;
#[cfg(test)]
mod streams;
#[cfg(test)]
mod values;
