//! The workers of a level: each claims tasks and runs them, until all are claimed.
#![tactic(auto)]

mod crew;
mod job;
mod level;
mod placed;
mod worker;

pub use job::Job;
pub use level::{Level, run_level};
