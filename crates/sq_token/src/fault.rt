//! The faults of a text.
ghost use Rattle.std.specs.Prelude.{◌≡◌};
ghost use Rattle.sq_token.specs.declared.fault.LexFault.TheVariants.{Memory};
ghost use Rattle.sq_token.specs.Fault.{fault_of};

use sq_value::NoMemory;
use std::alloc::{AllocError, AllocFailed};

/// Why a text has no tokens: its first fault from the left, with its place in bytes from 0.
#[derive(Clone, Copy, Debug, PartialEq, Eq)]
pub enum LexFault {
    /// The byte at this place begins no token, or is a letter or `_` directly after a number.
    BadByte { at: u32 },
    /// The text in single quotes that begins at this place does not end.
    OpenText { at: u32 },
    /// The quoted name that begins at this place does not end.
    OpenName { at: u32 },
    /// The `/*` comment that begins at this place does not end.
    OpenComment { at: u32 },
    /// The number that begins at this place is above 9223372036854775808.
    LongNumber { at: u32 },
    /// Memory ran out. No place in the text is its cause.
    Memory,
}

/// A fault that is found without taking memory.
#[derive(Clone, Copy, Debug, PartialEq, Eq)]
pub(crate) enum Flaw {
    BadByte { at: u32 },
    OpenComment { at: u32 },
    LongNumber { at: u32 },
}

impl From<Flaw> for LexFault {
    ghost from_gives = { λ flaw fault. fault ≡ fault_of flaw };

    fn from(flaw: Flaw) -> Self {
        match flaw {
            Flaw::BadByte { at } => LexFault::BadByte { at },
            Flaw::OpenComment { at } => LexFault::OpenComment { at },
            Flaw::LongNumber { at } => LexFault::LongNumber { at },
        }
    }
}

impl From<AllocError> for LexFault {
    ghost from_gives = { λ _ e. e ≡ Memory };

    fn from(_: AllocError) -> Self {
        LexFault::Memory
    }
}

impl<T: Drop> From<AllocFailed<T>> for LexFault {
    ghost from_gives = { λ _ e. e ≡ Memory };

    fn from(_: AllocFailed<T>) -> Self {
        LexFault::Memory
    }
}

impl From<NoMemory> for LexFault {
    ghost from_gives = { λ _ e. e ≡ Memory };

    fn from(_: NoMemory) -> Self {
        LexFault::Memory
    }
}
