//! Values, texts, rows and truth values: the data that every other crate of Keltzumba speaks of.
#![tactic(auto)]

mod keys;
pub mod laws;
mod memory;
mod row;
mod text;
mod tri;
mod value;

pub use keys::key_bytes;
pub use memory::NoMemory;
pub use row::Row;
pub use text::Str;
pub use tri::Tri;
pub use value::Value;
