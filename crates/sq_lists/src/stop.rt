//! Why a query is not listed.
ghost use Rattle.std.specs.Prelude.{◌≡◌};

use sq_expr::ItemFault;
use sq_value::NoMemory;
use std::alloc::{AllocError, AllocFailed};

/// Why a query is not listed.
#[derive(Clone, Copy, Debug, PartialEq, Eq)]
pub(crate) enum Stop {
    /// A place lists more than 2^61 rows, or a tested number lies outside BIGINT.
    Range,
    /// Memory ran out.
    Memory,
}

impl From<NoMemory> for Stop {
    ghost use Rattle.sq_lists.specs.declared.stop.Stop.TheVariants.{Memory};

    ghost from_gives = { λ _ e. e ≡ Memory };

    fn from(_: NoMemory) -> Stop {
        Stop::Memory
    }
}

impl From<AllocError> for Stop {
    ghost use Rattle.sq_lists.specs.declared.stop.Stop.TheVariants.{Memory};

    ghost from_gives = { λ _ e. e ≡ Memory };

    fn from(_: AllocError) -> Stop {
        Stop::Memory
    }
}

impl<T: Drop> From<AllocFailed<T>> for Stop {
    ghost use Rattle.sq_lists.specs.declared.stop.Stop.TheVariants.{Memory};

    ghost from_gives = { λ _ e. e ≡ Memory };

    fn from(_: AllocFailed<T>) -> Stop {
        Stop::Memory
    }
}

impl From<ItemFault> for Stop {
    ghost use Rattle.sq_lists.specs.Stops.{stop_of};

    ghost from_gives = { λ fault e. e ≡ stop_of fault };

    fn from(fault: ItemFault) -> Stop {
        match fault {
            ItemFault::Value { .. } => Stop::Range,
            ItemFault::Memory => Stop::Memory,
        }
    }
}
