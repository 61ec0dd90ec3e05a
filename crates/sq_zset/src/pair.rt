//! A row with a weight, and why a Z-set is refused.
ghost use Rattle.std.specs.Prelude.{◌≡◌};
ghost use Rattle.sq_zset.specs.declared.pair.ZFault.TheVariants.{Memory, Weight};

use sq_value::{NoMemory, Row};
use std::alloc::{AllocError, AllocFailed};

/// A row and a whole number: that many copies of the row, or, if it is negative, that many fewer.
///
/// Pairs are ordered by their rows, and then by their weights.
#[derive(Debug, Drop, PartialEq, Eq, PartialOrd, Ord)]
pub struct Pair {
    pub row: Row,
    pub weight: i128,
}

/// Why a Z-set was not made.
#[derive(Clone, Copy, Debug, PartialEq, Eq)]
pub enum ZFault {
    /// The weight of some row would lie outside -2^62 to 2^62. `sum` is the weight of the first such row in the order of rows.
    Weight { sum: i128 },
    /// Memory ran out.
    Memory,
}

/// A sum outside the range of a weight, -2^62 to 2^62.
#[derive(Clone, Copy, Debug, PartialEq, Eq)]
pub struct OutsideRange {
    pub sum: i128,
}

impl From<OutsideRange> for ZFault {
    ghost from_gives = { λ outside fault. fault ≡ Weight outside.sum };

    fn from(outside: OutsideRange) -> ZFault {
        ZFault::Weight { sum: outside.sum }
    }
}

impl From<NoMemory> for ZFault {
    ghost from_gives = { λ _ fault. fault ≡ Memory };

    fn from(_: NoMemory) -> ZFault {
        ZFault::Memory
    }
}

impl From<AllocError> for ZFault {
    ghost from_gives = { λ _ fault. fault ≡ Memory };

    fn from(_: AllocError) -> ZFault {
        ZFault::Memory
    }
}

impl<T: Drop> From<AllocFailed<T>> for ZFault {
    ghost from_gives = { λ _ fault. fault ≡ Memory };

    fn from(_: AllocFailed<T>) -> ZFault {
        ZFault::Memory
    }
}
