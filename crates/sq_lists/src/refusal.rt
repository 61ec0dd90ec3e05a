//! Why the views of a program are not listed.
ghost use Rattle.std.specs.Prelude.{◌≡◌};

use sq_value::NoMemory;
use std::alloc::{AllocError, AllocFailed};

/// Why the views of a program are not listed.
#[derive(Clone, Copy, Debug, PartialEq, Eq)]
pub enum ViewsFault {
    /// The view with this number, counted from 0 among the views, is the first that has a place of more than 2^61 rows or a
    /// tested number outside BIGINT.
    Range { view: u32 },
    /// An allocation was refused.
    Memory,
}

impl From<NoMemory> for ViewsFault {
    ghost use Rattle.sq_lists.specs.declared.refusal.ViewsFault.TheVariants.{Memory};

    ghost from_gives = { λ _ e. e ≡ Memory };

    fn from(_: NoMemory) -> ViewsFault {
        ViewsFault::Memory
    }
}

impl From<AllocError> for ViewsFault {
    ghost use Rattle.sq_lists.specs.declared.refusal.ViewsFault.TheVariants.{Memory};

    ghost from_gives = { λ _ e. e ≡ Memory };

    fn from(_: AllocError) -> ViewsFault {
        ViewsFault::Memory
    }
}

impl<T: Drop> From<AllocFailed<T>> for ViewsFault {
    ghost use Rattle.sq_lists.specs.declared.refusal.ViewsFault.TheVariants.{Memory};

    ghost from_gives = { λ _ e. e ≡ Memory };

    fn from(_: AllocFailed<T>) -> ViewsFault {
        ViewsFault::Memory
    }
}
