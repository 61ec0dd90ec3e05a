//! Expressions, the types of columns and the aggregate functions.
use sq_value::Str;
use sqlite_items::{Boxed, Items};

/// The type of a column.
#[derive(Clone, Copy, Debug, PartialEq, Eq)]
pub enum Kind {
    /// A whole number from -2^31 to 2^31 - 1.
    Integer,
    /// A whole number from -2^63 to 2^63 - 1.
    Bigint,
    /// A text in UTF-8.
    Text,
}

/// An expression over the columns of a row.
#[cycle(tree)]
#[derive(Debug, Drop)]
pub enum Expr {
    /// The column with this number, counted from 0.
    Column(u32),
    Number(u64),
    Text(Str),
    /// The operand of a minus sign.
    Neg(Boxed<Expr>),
    /// The sum of the terms.
    Sum(Items<Term>),
    /// The product of the factors.
    Product(Items<Expr>),
}

/// A term of a sum, and whether it is subtracted.
#[cycle(tree)]
#[derive(Debug, Drop)]
pub struct Term {
    pub minus: bool,
    pub expr: Expr,
}

/// An aggregate function.
#[derive(Clone, Copy, Debug, PartialEq, Eq)]
pub enum Func {
    /// The number of rows.
    CountAll,
    /// The number of values other than NULL.
    Count,
    /// The sum of the values other than NULL.
    Sum,
    /// The least value.
    Min,
    /// The greatest value.
    Max,
}
