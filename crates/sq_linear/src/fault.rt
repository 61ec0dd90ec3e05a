//! Why a linear operator refuses a Z-set.
ghost use Rattle.std.specs.Prelude.{◌≡◌};
ghost use Rattle.sq_linear.specs.Faults.{of_row, of_sum};

use sq_ops::OpFault;
use sq_zset::ZFault;

/// Why a linear operator gives nothing of a Z-set.
#[derive(Clone, Copy, Debug, PartialEq, Eq)]
pub enum LinearFault {
    /// An item of a row is a number outside the range of BIGINT, -2^63 to 2^63 - 1. `value` is the first such number of
    /// the first such row in the order of rows.
    Value { value: i128 },
    /// The weight of some row of the answer would lie outside -2^62 to 2^62. `sum` is the weight of the first such row in
    /// the order of rows.
    Weight { sum: i128 },
    /// Memory ran out.
    Memory,
}

impl From<OpFault> for LinearFault {
    ghost from_gives = { λ row fault. fault ≡ of_row row };

    fn from(row: OpFault) -> LinearFault {
        match row {
            OpFault::Value { value } => LinearFault::Value { value },
            OpFault::Memory => LinearFault::Memory,
        }
    }
}

impl From<ZFault> for LinearFault {
    ghost from_gives = { λ sum fault. fault ≡ of_sum sum };

    fn from(sum: ZFault) -> LinearFault {
        match sum {
            ZFault::Weight { sum } => LinearFault::Weight { sum },
            ZFault::Memory => LinearFault::Memory,
        }
    }
}

fn is_send_and_sync<T: Send + Sync>() {}

// A fault may be handed to another thread, and be shared.
fn data_crosses_threads() {
    is_send_and_sync::<LinearFault>();
}
