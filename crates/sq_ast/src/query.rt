//! The trees of queries.
use crate::{ColRef, CondTree, ExprTree};
use sq_value::Str;
use sqlite_items::{Boxed, Items};

/// A query: one block, or a chain of queries joined by set operations.
#[cycle(query)]
#[derive(Debug, Drop)]
pub enum QueryTree {
    Block(Boxed<BlockTree>),
    /// Two or more queries joined by `UNION` and `EXCEPT`, from left to right.
    Chain {
        first: Boxed<QueryTree>,
        rest: Items<StepTree>,
    },
    /// Two or more queries joined by `INTERSECT`, from left to right.
    Intersect(Items<QueryTree>),
}

/// A set operation of a chain.
#[derive(Clone, Copy, Debug, PartialEq, Eq)]
pub enum SetOp {
    UnionAll,
    Union,
    Except,
}

/// A further member of a chain, and the operation that joins it to those before it.
#[cycle(query)]
#[derive(Debug, Drop)]
pub struct StepTree {
    pub op: SetOp,
    pub query: QueryTree,
}

/// `SELECT .. FROM ..` with its clauses.
#[cycle(query)]
#[derive(Debug, Drop)]
pub struct BlockTree {
    pub distinct: bool,
    /// One or more.
    pub items: Items<ItemTree>,
    /// One or more. The first has `JoinTree::Comma`.
    pub sources: Items<JoinedTree>,
    /// The condition of `WHERE`.
    pub filter: Option<CondTree>,
    /// The columns of `GROUP BY`. Empty exactly if the block has none.
    pub group: Items<ColRef>,
    pub having: Option<CondTree>,
}

/// An item of a select list.
#[derive(Debug, Drop)]
pub enum ItemTree {
    /// `*`
    Star,
    /// `name.*`
    StarOf(Str),
    Expr { expr: ExprTree, alias: Option<Str> },
}

/// A source, and how it is joined to those before it.
#[cycle(query)]
#[derive(Debug, Drop)]
pub struct JoinedTree {
    pub join: JoinTree,
    pub source: SourceTree,
}

/// How a source is joined to those before it.
#[derive(Debug, Drop)]
pub enum JoinTree {
    /// By a comma or `CROSS JOIN`.
    Comma,
    /// By `JOIN`, with the condition of `ON`.
    Inner(CondTree),
    /// By `LEFT JOIN`, with the condition of `ON`.
    Left(CondTree),
}

/// What stands behind `FROM`.
#[cycle(query)]
#[derive(Debug, Drop)]
pub enum SourceTree {
    /// A table or a view.
    Relation { name: Str, alias: Option<Str> },
    Query { query: Boxed<QueryTree>, alias: Str },
}
