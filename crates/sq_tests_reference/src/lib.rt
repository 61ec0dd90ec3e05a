//! Tests of whole runs against a reference that lists every view anew over lists of rows. Nothing else stands here.
#![tactic(auto)]

#[cfg(test)]
mod generate;
#[cfg(test)]
mod inputs;
#[cfg(test)]
mod listed;
#[cfg(test)]
mod program;
#[cfg(test)]
mod same;
#[cfg(test)]
mod tables;
#[cfg(test)]
mod tick;
#[cfg(test)]
mod words;
#[cfg(test)]
mod worked;
