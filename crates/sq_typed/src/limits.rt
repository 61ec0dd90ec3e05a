//! How much a program may have. The definition of faults names these limits, and the checker tests them.

/// The most statements that a program may have.
pub const MOST_STATEMENTS: usize = 256;

/// The most columns that a table, a view or a select list may have, once its stars are written out.
pub const MOST_COLUMNS: usize = 64;

/// The most sources that a `FROM` may have.
pub const MOST_SOURCES: usize = 16;
