//! The trees of expressions.
use sq_value::Str;
use sqlite_items::{Boxed, Items};

/// An expression.
#[cycle(tree)]
#[derive(Debug, Drop)]
pub enum ExprTree {
    /// Two or more terms joined by `+` and `-`, from left to right. The first has no minus.
    Sum(Items<TermTree>),
    /// Two or more factors joined by `*`, from left to right.
    Product(Items<ExprTree>),
    /// The operand of a minus sign.
    Neg(Boxed<ExprTree>),
    /// A number, of at most 9223372036854775808.
    Number(u64),
    Text(Str),
    Column(ColRef),
    /// A call of an aggregate function. The argument is None exactly for `COUNT(*)`.
    Call {
        func: FuncTree,
        arg: Option<Boxed<ExprTree>>,
    },
}

/// A term of a sum, and whether it is subtracted.
#[cycle(tree)]
#[derive(Debug, Drop)]
pub struct TermTree {
    pub minus: bool,
    pub expr: ExprTree,
}

/// An aggregate function.
#[derive(Clone, Copy, Debug, PartialEq, Eq)]
pub enum FuncTree {
    Count,
    Sum,
    Min,
    Max,
}

/// A column, by its name and maybe the name of its source.
#[derive(Debug, Drop)]
pub struct ColRef {
    pub qualifier: Option<Str>,
    pub name: Str,
}
