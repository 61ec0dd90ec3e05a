//! The rows that a relation, a source or a query lists.
ghost use Rattle.std.specs.Prelude.{◌≡◌, []};

use sq_value::Row;
use sqlite_items::Items;
use std::alloc::Global;

/// Rows, in which a row may stand several times, and the number of their columns.
#[derive(Debug, Drop)]
pub(crate) struct Listing {
    pub(crate) width: usize,
    pub(crate) rows: Items<Row>,
}

impl Listing {
    /// No rows and no columns.
    pub(crate) fn empty(alloc: Global) -> Self
        ensures { (result.width ≡ 0) × (result.rows ≡ []) }
    {
        Listing {
            width: 0,
            rows: Items::from_vec(Vec::new(alloc)),
        }
    }
}
