//! The engine: a circuit over tables that change tick by tick, and what its views then have more or less.
#![tactic(auto)]

mod admit;
mod engine;
mod fresh;
pub mod laws;
mod order;
mod ready;
mod refusal;
mod tables;
mod tick;
mod totals;
mod views;

pub use engine::{Delta, Engine};
pub use refusal::{AdmitRefusal, TickRefusal};
