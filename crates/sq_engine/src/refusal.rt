//! Why an engine refuses updates, and why a tick.
ghost use Rattle.std.specs.Prelude.{◌≡◌};
ghost use Rattle.sq_engine.specs.declared.refusal.AdmitRefusal.TheVariants.{Memory as NotAdmitted};
ghost use Rattle.sq_engine.specs.declared.refusal.TickRefusal.TheVariants.{Memory};

use sq_value::NoMemory;
use std::alloc::{AllocError, AllocFailed};

/// Why a tick was refused, or the start.
#[derive(Clone, Copy, Debug, PartialEq, Eq)]
pub enum TickRefusal {
    /// Over the tables after the tick a place of the view lists more than 2^61 rows, or a number that it computes is outside the
    /// range of BIGINT, -2^63 to 2^63 - 1. No earlier view is so.
    Range { view: u32 },
    /// Memory ran out.
    Memory,
}

impl From<NoMemory> for TickRefusal {
    ghost from_gives = { λ _ refusal. refusal ≡ Memory };

    fn from(_: NoMemory) -> TickRefusal {
        TickRefusal::Memory
    }
}

impl From<AllocError> for TickRefusal {
    ghost from_gives = { λ _ refusal. refusal ≡ Memory };

    fn from(_: AllocError) -> TickRefusal {
        TickRefusal::Memory
    }
}

impl<T: Drop> From<AllocFailed<T>> for TickRefusal {
    ghost from_gives = { λ _ refusal. refusal ≡ Memory };

    fn from(_: AllocFailed<T>) -> TickRefusal {
        TickRefusal::Memory
    }
}

/// Why updates were not admitted.
#[derive(Clone, Copy, Debug, PartialEq, Eq)]
pub enum AdmitRefusal {
    /// The update with this line deletes a row of which its table has no copy left then. No earlier update does.
    Absent { line: u64 },
    /// Memory ran out.
    Memory,
}

impl From<NoMemory> for AdmitRefusal {
    ghost from_gives = { λ _ refusal. refusal ≡ NotAdmitted };

    fn from(_: NoMemory) -> AdmitRefusal {
        AdmitRefusal::Memory
    }
}
