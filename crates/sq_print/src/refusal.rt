//! Why a tick is refused.
use sq_value::Str;

/// Why a tick is refused. Lines are counted from 1 after the line that ends the program text.
#[derive(Debug, Drop)]
pub enum Refusal {
    /// This line of the tick is bad.
    Malformed { line: u64 },
    /// This line of the tick deletes a row that is not there.
    Absent { line: u64 },
    /// The view of this name is the first that is out of range over the tables after the tick.
    Range { view: Str },
    /// The input ended before the tick's commit line.
    Unfinished,
}
