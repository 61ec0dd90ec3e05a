//! Tables and views, with their columns.
ghost use Rattle.std.specs.Prelude.{◌≡◌};
ghost use Rattle.sq_catalog.specs.Sorts.{is_table, is_view, is_printed};

use sq_expr::Kind;
use sq_value::Str;
use sqlite_items::Items;

/// A column of a table or a view.
#[derive(Debug, Drop)]
pub struct Column {
    pub name: Str,
    pub kind: Kind,
    /// Whether a value may be NULL. In each column of a view it may.
    pub nullable: bool,
}

/// Whether a relation is a table or a view.
#[derive(Clone, Copy, Debug, Drop, PartialEq, Eq)]
pub enum RelationKind {
    Table,
    /// A view, and whether its changes are printed.
    View { printed: bool },
}

impl RelationKind {
    /// Whether it is a table.
    pub fn is_table(self) -> bool
        ensures { result ≡ is_table self }
    {
        match self {
            RelationKind::Table => true,
            RelationKind::View { .. } => false,
        }
    }

    /// Whether it is a view.
    pub fn is_view(self) -> bool
        ensures { result ≡ is_view self }
    {
        match self {
            RelationKind::Table => false,
            RelationKind::View { .. } => true,
        }
    }

    /// Whether its changes are printed: those of a view that is not local.
    pub fn is_printed(self) -> bool
        ensures { result ≡ is_printed self }
    {
        match self {
            RelationKind::Table => false,
            RelationKind::View { printed } => printed,
        }
    }
}

/// A table or a view, with its columns in order.
#[derive(Debug, Drop)]
pub struct Relation {
    pub name: Str,
    pub kind: RelationKind,
    pub columns: Items<Column>,
}
