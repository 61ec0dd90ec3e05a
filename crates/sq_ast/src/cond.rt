//! The trees of conditions.
use crate::ExprTree;
use sqlite_items::{Boxed, Items};

/// A condition.
#[derive(Debug, Drop)]
pub enum CondTree {
    /// Two or more conditions joined by `OR`, from left to right.
    Any(Items<CondTree>),
    /// Two or more conditions joined by `AND`, from left to right.
    All(Items<CondTree>),
    Not(Boxed<CondTree>),
    Compare {
        cmp: CmpTree,
        left: ExprTree,
        right: ExprTree,
    },
    /// `IS NULL`, or `IS NOT NULL` if it is negated.
    Null {
        expr: ExprTree,
        negated: bool,
    },
}

/// A comparison.
#[derive(Clone, Copy, Debug, PartialEq, Eq)]
pub enum CmpTree {
    Eq,
    Ne,
    Lt,
    Le,
    Gt,
    Ge,
}
