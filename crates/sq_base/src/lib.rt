//! The outside of the program: where bytes come from and go to, a gate at which workers call, and a
//! counter of steps.
//!
//! A source and a sink are traits, so that a contract above can name their bytes and can tie each
//! fault to a count of theirs that rose. The real ones stand over std's streams, and others in
//! memory give and take whatever pieces a test names, and fail at the calls that it names.
#![tactic(auto)]

mod gates;
mod memory_sink;
mod memory_source;
mod sinks;
mod sources;
mod standard_sink;
mod standard_source;
mod steps;

pub use gates::{FreeGate, Gate};
pub use memory_sink::MemSink;
pub use memory_source::MemSource;
pub use sinks::{Sink, put_all};
pub use sources::{Failed, Source};
pub use standard_sink::StdSink;
pub use standard_source::StdSource;
pub use steps::Steps;

fn is_send<T: Send>() {}

fn is_sync<T: Sync>() {}

// Each type of data may be handed to another thread, and be shared.
fn data_crosses_threads() {
    is_send::<Failed>();
    is_sync::<Failed>();
    is_send::<FreeGate>();
    is_sync::<FreeGate>();
    is_send::<MemSource>();
    is_sync::<MemSource>();
    is_send::<MemSink>();
    is_sync::<MemSink>();
}

// So may one over a stream or a ledger, if that may be handed over.
fn wrappers_are_sent<T: Send>() {
    is_send::<StdSource<T>>();
    is_send::<StdSink<T>>();
    is_send::<Steps<T>>();
}

// And it may be shared, if that may.
fn wrappers_are_shared<T: Sync>() {
    is_sync::<StdSource<T>>();
    is_sync::<StdSink<T>>();
    is_sync::<Steps<T>>();
}
