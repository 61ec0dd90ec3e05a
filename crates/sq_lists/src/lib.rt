//! The views of a program over its tables, computed from scratch over lists of rows.
//!
//! Each source, block and set operation is listed as the meaning of queries says. This needs memory for each listed row,
//! and time in proportion to the product of the sources.
#![tactic(auto)]

mod aggregate;
mod block;
mod group;
mod join;
mod kept;
mod listing;
mod query;
mod refusal;
mod sets;
mod stage;
mod stop;
mod views;

pub(crate) use listing::Listing;
pub use refusal::ViewsFault;
pub(crate) use stop::Stop;
pub use views::list_views;

fn is_send_and_sync<T: Send + Sync>() {}

// A refusal may be handed to another thread, and be shared.
fn data_crosses_threads() {
    is_send_and_sync::<ViewsFault>();
}
