//! Why an operator refuses a row.
ghost use Rattle.std.specs.Prelude.{◌≡◌};
ghost use Rattle.sq_ops.specs.declared.fault.OpFault.TheVariants.{Memory, Value};
ghost use Rattle.sq_ops.specs.Faults.{fault_of};

use sq_expr::{ItemFault, OutOfRange};
use sq_value::NoMemory;
use std::alloc::{AllocError, AllocFailed};

/// Why an operator gives nothing of a row.
#[derive(Clone, Copy, Debug, PartialEq, Eq)]
pub enum OpFault {
    /// An item of the row is a number outside the range of BIGINT, -2^63 to 2^63 - 1. `value` is the first such number.
    Value { value: i128 },
    /// Memory ran out.
    Memory,
}

impl From<ItemFault> for OpFault {
    ghost from_gives = { λ item fault. fault ≡ fault_of item };

    fn from(item: ItemFault) -> OpFault {
        match item {
            ItemFault::Value { value } => OpFault::Value { value },
            ItemFault::Memory => OpFault::Memory,
        }
    }
}

impl From<OutOfRange> for OpFault {
    ghost from_gives = { λ outside fault. fault ≡ Value outside.value };

    fn from(outside: OutOfRange) -> OpFault {
        OpFault::Value {
            value: outside.value,
        }
    }
}

impl From<NoMemory> for OpFault {
    ghost from_gives = { λ _ fault. fault ≡ Memory };

    fn from(_: NoMemory) -> OpFault {
        OpFault::Memory
    }
}

impl From<AllocError> for OpFault {
    ghost from_gives = { λ _ fault. fault ≡ Memory };

    fn from(_: AllocError) -> OpFault {
        OpFault::Memory
    }
}

impl<T: Drop> From<AllocFailed<T>> for OpFault {
    ghost from_gives = { λ _ fault. fault ≡ Memory };

    fn from(_: AllocFailed<T>) -> OpFault {
        OpFault::Memory
    }
}
