//! Conditions and comparisons.
use crate::Expr;
use sqlite_items::{Boxed, Items};

/// A condition on a row.
#[derive(Debug, Drop)]
pub enum Cond {
    Compare { cmp: Cmp, left: Expr, right: Expr },
    /// `IS NULL`, or `IS NOT NULL` if it is negated.
    Null { expr: Expr, negated: bool },
    Not(Boxed<Cond>),
    /// All of these hold.
    All(Items<Cond>),
    /// One of these holds.
    Any(Items<Cond>),
}

/// A comparison.
#[derive(Clone, Copy, Debug, PartialEq, Eq)]
pub enum Cmp {
    /// Equal.
    Eq,
    /// Not equal.
    Ne,
    /// Less.
    Lt,
    /// Less or equal.
    Le,
    /// Greater.
    Gt,
    /// Greater or equal.
    Ge,
}
