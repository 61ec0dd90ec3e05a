//! The relations of a program: its tables and views, with their names and columns, in order of creation.
#![tactic(auto)]

mod catalog;
mod fault;
mod relation;

pub use catalog::Catalog;
pub use fault::CatalogFault;
pub use relation::{Column, Relation, RelationKind};

fn is_send_and_sync<T: Send + Sync>() {}

// Each type of data may be handed to another thread, and be shared.
fn data_crosses_threads() {
    is_send_and_sync::<Column>();
    is_send_and_sync::<RelationKind>();
    is_send_and_sync::<Relation>();
    is_send_and_sync::<Catalog>();
    is_send_and_sync::<CatalogFault>();
}
