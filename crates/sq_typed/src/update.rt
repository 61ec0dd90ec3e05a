//! Changes of a table: rows that are inserted or deleted.
use sq_value::Row;

/// A change of one row of a table.
#[derive(Debug, Drop)]
pub struct Update {
    /// The number of its line, counted from 1.
    pub line: u64,
    /// The number of the table among the tables, counted from 0 in order of creation.
    pub table: u32,
    /// Whether the row is put in; else one row that is the same is taken away.
    pub insert: bool,
    pub row: Row,
}
