//! Why a part of a statement is not read.
ghost use Rattle.std.specs.Prelude.{◌≡◌};
ghost use Rattle.sq_terms.specs.declared.stops.Stop.TheVariants.{Memory};

use sq_value::NoMemory;
use std::alloc::{AllocError, AllocFailed};

/// Why one statement, or a part of it, was not read.
#[derive(Clone, Copy, Debug, PartialEq, Eq)]
pub enum Stop {
    /// The tokens do not spell it.
    NotGrammar,
    /// Memory ran out.
    Memory,
}

impl From<AllocError> for Stop {
    ghost from_gives = { λ _ e. e ≡ Memory };

    fn from(_: AllocError) -> Self {
        Stop::Memory
    }
}

impl<T: Drop> From<AllocFailed<T>> for Stop {
    ghost from_gives = { λ _ e. e ≡ Memory };

    fn from(_: AllocFailed<T>) -> Self {
        Stop::Memory
    }
}

impl From<NoMemory> for Stop {
    ghost from_gives = { λ _ e. e ≡ Memory };

    fn from(_: NoMemory) -> Self {
        Stop::Memory
    }
}

fn is_send_and_sync<T: Send + Sync>() {}

// It may be handed to another thread, and be shared.
fn stops_cross_threads() {
    is_send_and_sync::<Stop>();
}
