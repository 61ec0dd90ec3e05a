//! A key and a row with a payload.
ghost use Rattle.std.specs.Prelude.{◌≡◌};
ghost use Rattle.sq_trace.specs.Runs.{place_cmp, place_of};

use sq_value::Row;
use std::cmp::Ordering;

/// A payload at a place, that is at a key and a row.
#[derive(Debug, Drop)]
pub struct Entry<P> {
    pub key: Row,
    pub row: Row,
    pub payload: P,
}

impl<P> Entry<P> {
    /// How the place compares with that of a key and a row.
    pub(crate) fn compare_place(&self, key: &Row, row: &Row) -> Ordering
        ensures { result ≡ place_cmp (place_of self.now) (key.now, row.now) }
    {
        match self.key.cmp(key) {
            Ordering::Less => Ordering::Less,
            Ordering::Equal => self.row.cmp(row),
            Ordering::Greater => Ordering::Greater,
        }
    }
}
