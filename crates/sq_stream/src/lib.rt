//! Streams of Z-sets (DBSP, PVLDB 16(7), 2023): delay, integration and differentiation, one Z-set a step.
//!
//! A stream is a finite list of Z-sets here. The module `laws` holds what is proved of whole streams.
#![tactic(auto)]

mod delay;
mod differentiator;
mod integrator;
pub mod laws;

pub use delay::Delay;
pub use differentiator::Differentiator;
pub use integrator::Integrator;
