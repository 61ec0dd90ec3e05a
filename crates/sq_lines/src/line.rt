//! A change line as it was read, and what it says.
ghost use Rattle.std.specs.Prelude.{◌≡◌};
ghost use Rattle.sq_lines.specs.Lines.{is_commit as is_commit_line, is_blank as is_blank_line};

use sq_typed::Update;
use sqlite_items::Items;

/// A line as it was read, without its line end.
#[derive(Debug, Drop)]
pub struct RawLine {
    /// Its number, counted from 1.
    pub number: u64,
    pub bytes: Items<u8>,
}

/// Why a line is bad: the first of these that fits it.
#[derive(Clone, Copy, Debug, PartialEq, Eq)]
pub enum Why {
    /// It has more than 1,048,576 bytes.
    TooLong,
    /// It is no JSON in UTF-8, or nests more than 127 deep.
    NotJson,
    /// It is JSON, but no object.
    NotObject,
    /// It names no table of the catalogue.
    NoTable,
    /// Not exactly one of `insert` and `delete` is there, or its value is no object.
    NotOneOp,
    /// A NOT NULL column has no value.
    MissingColumn,
    /// The value of a column is not a whole number, or not a text, as the column's type asks.
    WrongType,
    /// A whole number is outside the column's type.
    OutOfRange,
}

/// What a change line says.
#[derive(Debug, Drop)]
pub enum Line {
    /// A row is put into a table, or taken away once.
    Update(Update),
    /// The tick ends here.
    Commit,
    /// Nothing.
    Blank,
    /// Nothing that can be done; its tick is refused.
    Bad { number: u64, why: Why },
}

impl Line {
    /// Whether the line ends a tick. Takes no memory.
    pub fn is_commit(&self) -> bool
        ensures { result ≡ is_commit_line self.now }
    {
        matches!(self, Line::Commit)
    }

    /// Whether the line says nothing. Takes no memory.
    pub fn is_blank(&self) -> bool
        ensures { result ≡ is_blank_line self.now }
    {
        matches!(self, Line::Blank)
    }
}
