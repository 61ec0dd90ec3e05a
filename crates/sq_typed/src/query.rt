//! Queries in which names are replaced by numbers.
use sq_ast::SetOp;
use sq_expr::{Cond, Expr, Func};
use sqlite_items::{Boxed, Items};

/// A query in which names are replaced by numbers.
#[cycle(query)]
#[derive(Debug, Drop)]
pub enum Query {
    Block(Boxed<Block>),
    /// Queries joined by `UNION` and `EXCEPT`, from left to right.
    Chain {
        first: Boxed<Query>,
        rest: Items<SetStep>,
    },
    /// Queries joined by `INTERSECT`, from left to right.
    Intersect(Items<Query>),
}

/// A further member of a chain, and the operation that joins it to those before it.
#[cycle(query)]
#[derive(Debug, Drop)]
pub struct SetStep {
    pub op: SetOp,
    pub query: Query,
}

/// `SELECT .. FROM ..` with its clauses.
///
/// The columns of a block's rows are those of its sources in order, counted from 0. The items and the condition of
/// `HAVING` of a grouped block are over the group row instead.
#[cycle(query)]
#[derive(Debug, Drop)]
pub struct Block {
    pub distinct: bool,
    /// One or more. The first has `FromJoin::Comma`.
    pub sources: Items<FromItem>,
    /// The condition of `WHERE`.
    pub filter: Option<Cond>,
    /// There exactly if the block is grouped.
    pub grouping: Option<Grouping>,
    pub items: Items<Expr>,
}

/// A source, and how it is joined to those before it.
#[cycle(query)]
#[derive(Debug, Drop)]
pub struct FromItem {
    pub join: FromJoin,
    pub source: Origin,
}

/// How a source is joined to those before it.
#[derive(Debug, Drop)]
pub enum FromJoin {
    /// By a comma or `CROSS JOIN`.
    Comma,
    /// By `JOIN`, with the condition of `ON`.
    Inner(Cond),
    /// By `LEFT JOIN`, with the condition of `ON`.
    Left(Cond),
}

/// What stands behind `FROM`.
#[cycle(query)]
#[derive(Debug, Drop)]
pub enum Origin {
    /// The relation with this number in the catalogue.
    Relation(u32),
    Query(Query),
}

/// How a block groups its rows.
///
/// A group row is the group columns, and then the values of the calls.
#[derive(Debug, Drop)]
pub struct Grouping {
    /// The columns of `GROUP BY`. Empty exactly if the block is global: then all its rows are one group.
    pub columns: Items<u32>,
    /// The aggregate calls, in order of first appearance.
    pub calls: Items<BlockCall>,
    /// The condition of `HAVING`, over the group row.
    pub having: Option<Cond>,
}

/// A call of an aggregate function. The argument is None exactly for `Func::CountAll`.
#[derive(Debug, Drop)]
pub struct BlockCall {
    pub func: Func,
    pub arg: Option<Expr>,
}
