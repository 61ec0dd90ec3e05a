//! The trees of statements.
use crate::QueryTree;
use sq_value::Str;
use sqlite_items::Items;

/// A statement and its number: one more than the count of semicolons before it.
#[derive(Debug, Drop)]
pub struct Statement {
    pub number: u32,
    pub body: Body,
}

/// What a statement creates.
#[derive(Debug, Drop)]
pub enum Body {
    /// A table. It has one or more columns.
    Table {
        name: Str,
        columns: Items<ColumnTree>,
    },
    View {
        name: Str,
        flavour: Option<Flavour>,
        query: QueryTree,
    },
}

/// The word between `CREATE` and `VIEW`.
#[derive(Clone, Copy, Debug, PartialEq, Eq)]
pub enum Flavour {
    Materialized,
    Local,
}

/// A column of a table.
#[derive(Debug, Drop)]
pub struct ColumnTree {
    pub name: Str,
    pub kind: TypeName,
    pub not_null: bool,
}

/// The type of a column, as it is written.
#[derive(Clone, Copy, Debug, PartialEq, Eq)]
pub enum TypeName {
    Int,
    Integer,
    Bigint,
    Varchar,
    Text,
}
