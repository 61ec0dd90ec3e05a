//! Why a circuit has no value over some tables.
ghost use Rattle.std.specs.Prelude.{◌≡◌};
ghost use Rattle.sq_whole.specs.declared.fault.EvalFault.TheVariants.{Memory};

use sq_value::NoMemory;
use std::alloc::{AllocError, AllocFailed};

/// Why a circuit has no value over some tables.
#[derive(Clone, Copy, Debug, PartialEq, Eq)]
pub enum EvalFault {
    /// A place of the view lists more than 2^61 rows, or a number that it computes is outside the range of BIGINT, -2^63 to
    /// 2^63 - 1. No earlier view is so.
    Range { view: u32 },
    /// Memory ran out.
    Memory,
}

impl From<NoMemory> for EvalFault {
    ghost from_gives = { λ _ fault. fault ≡ Memory };

    fn from(_: NoMemory) -> EvalFault {
        EvalFault::Memory
    }
}

impl From<AllocError> for EvalFault {
    ghost from_gives = { λ _ fault. fault ≡ Memory };

    fn from(_: AllocError) -> EvalFault {
        EvalFault::Memory
    }
}

impl<T: Drop> From<AllocFailed<T>> for EvalFault {
    ghost from_gives = { λ _ fault. fault ≡ Memory };

    fn from(_: AllocFailed<T>) -> EvalFault {
        EvalFault::Memory
    }
}

fn is_send_and_sync<T: Send + Sync>() {}

// A fault may be handed to another thread, and be shared.
fn data_crosses_threads() {
    is_send_and_sync::<EvalFault>();
}
