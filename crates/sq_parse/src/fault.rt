//! Why tokens spell no statements.
ghost use Rattle.std.specs.Prelude.{◌≡◌};
ghost use Rattle.sq_parse.specs.declared.fault.ParseFault.TheVariants as faults;

use std::alloc::{AllocError, AllocFailed};

/// Why tokens spell no statements: the first statement that is too deep or not spelled, by its number. In one
/// statement, too deep comes first.
#[derive(Clone, Copy, Debug, PartialEq, Eq)]
pub enum ParseFault {
    /// The statement of this number is not spelled by the grammar.
    NotGrammar { number: u32 },
    /// At some place of the statement of this number, more than 64 parentheses are open.
    TooDeep { number: u32 },
    /// Memory ran out. No statement is its cause.
    Memory,
}

impl From<AllocError> for ParseFault {
    ghost from_gives = { λ _ e. e ≡ faults.Memory };

    fn from(_: AllocError) -> Self {
        ParseFault::Memory
    }
}

impl<T: Drop> From<AllocFailed<T>> for ParseFault {
    ghost from_gives = { λ _ e. e ≡ faults.Memory };

    fn from(_: AllocFailed<T>) -> Self {
        ParseFault::Memory
    }
}

fn is_send_and_sync<T: Send + Sync>() {}

// A fault may be handed to another thread, and be shared.
fn faults_cross_threads() {
    is_send_and_sync::<ParseFault>();
}
