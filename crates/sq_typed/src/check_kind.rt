//! The kinds of faults for which a statement is refused.
/// Why a statement is refused, in the order in which the kinds are looked for.
///
/// Each is told of a statement that has none of the kinds before it.
#[derive(Clone, Copy, Debug, PartialEq, Eq)]
pub enum CheckKind {
    /// It creates a name that an earlier statement created, or two sources of one `FROM` have the same name.
    DuplicateName,
    /// A source names no relation that was created before.
    UnknownRelation,
    /// An item of the leftmost block of a view's query, or of a query in `FROM`, is no star and no plain column and
    /// has no alias.
    UnnamedColumn,
    /// Two columns of a table, or two of such a leftmost block once its stars are written out, have the same name.
    DuplicateColumn,
    /// A column or the source of a star is not in scope.
    UnknownColumn,
    /// A column without a qualifier is in two or more sources.
    AmbiguousColumn,
    /// An aggregate function is called in `WHERE`, in `ON`, or in the argument of another call.
    NestedAggregate,
    /// In a grouped block, a column outside calls in an item or in `HAVING` is none of `GROUP BY`.
    NotGrouped,
    /// Two operands of a set operation have different numbers of columns.
    ColumnCount,
    /// A comparison or a column of a set operation has a number and a text; or arithmetic or `SUM` has a text.
    TypeMismatch,
    /// The static bound of an expression is above 2^127 - 1.
    TooWide,
    /// It stands behind `MOST_STATEMENTS` others; or a table, a select list or a view of it has more than `MOST_COLUMNS`
    /// columns, or a `FROM` more than `MOST_SOURCES` sources.
    Limit,
}
