//! Tests of whole programs: each is read, checked and planned, and its circuit evaluated. Nothing else stands here.
#![tactic(auto)]

#[cfg(test)]
mod answers;
#[cfg(test)]
mod ranges;
#[cfg(test)]
mod shop;
#[cfg(test)]
mod texts;
#[cfg(test)]
mod worked;
