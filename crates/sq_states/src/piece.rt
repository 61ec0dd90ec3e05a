//! What a step of a node gives: its change in one shard, and the changes of what it keeps there; and why it gives nothing.
ghost use Rattle.std.specs.Prelude.{◌≡◌};
ghost use Rattle.sq_states.specs.Refusals.{of_linear, of_sum, of_whole};
ghost use Rattle.sq_states.specs.declared.piece.StepRefusal.TheVariants.{Memory};

use sq_agg::Acc;
use sq_linear::LinearFault;
use sq_ops::WholeFault;
use sq_trace::Keyed;
use sq_value::NoMemory;
use sq_zset::{ZFault, ZSet};

/// By which the traces of a node change.
#[derive(Debug, Drop)]
pub enum StateChange {
    /// The node keeps nothing.
    Nothing,
    /// Of a Table or a Distinct: the changed rows, each under itself.
    Rows {
        rows: Keyed<i64>,
    },
    /// Of a Join: the changed rows on the left and on the right, each under its key.
    Sides {
        left: Keyed<i64>,
        right: Keyed<i64>,
    },
    /// Of an Aggregate: accumulators, arguments of MIN and MAX, and shown rows, by group.
    Groups {
        acc: Keyed<Acc>,
        ordered: Keyed<i64>,
        shown: Keyed<i64>,
    },
}

/// What a step of a node gives in one shard.
#[derive(Debug, Drop)]
pub struct Piece {
    /// The number of the node.
    pub node: u32,
    /// What the node has more in this shard than before.
    pub change: ZSet,
    /// By which its traces in this shard change.
    pub kept: StateChange,
}

impl Piece {
    /// What the node has more in this shard than before. Takes no memory.
    pub fn change(&self) -> &ZSet
        ensures { result.now ≡ self.now.change }
    {
        &self.change
    }
}

/// A number that leaves its range in a step.
#[derive(Clone, Copy, Debug, PartialEq, Eq)]
pub enum NodeFault {
    /// The weight of a row of the piece lies outside -2^62 to 2^62. `sum` is that of the first such row in the order of rows.
    Weight { sum: i128 },
    /// An item of a changed row is outside the range of BIGINT. `value` is the first such number of the first such row.
    Value { value: i128 },
    /// A SUM of a group is outside the range of BIGINT after the change. `sum` is the first such sum of the first such group.
    Sum { sum: i128 },
}

/// Why a step gives no piece.
#[derive(Clone, Copy, Debug, PartialEq, Eq)]
pub enum StepRefusal {
    /// A number leaves its range.
    Fault(NodeFault),
    /// Memory ran out.
    Memory,
}

impl From<NoMemory> for StepRefusal {
    ghost from_gives = { λ _ refusal. refusal ≡ Memory };

    fn from(_: NoMemory) -> StepRefusal {
        StepRefusal::Memory
    }
}

impl From<ZFault> for StepRefusal {
    ghost from_gives = { λ sum refusal. refusal ≡ of_sum sum };

    fn from(sum: ZFault) -> StepRefusal {
        match sum {
            ZFault::Weight { sum } => StepRefusal::Fault(NodeFault::Weight { sum }),
            ZFault::Memory => StepRefusal::Memory,
        }
    }
}

impl From<LinearFault> for StepRefusal {
    ghost from_gives = { λ row refusal. refusal ≡ of_linear row };

    fn from(row: LinearFault) -> StepRefusal {
        match row {
            LinearFault::Value { value } => StepRefusal::Fault(NodeFault::Value { value }),
            LinearFault::Weight { sum } => StepRefusal::Fault(NodeFault::Weight { sum }),
            LinearFault::Memory => StepRefusal::Memory,
        }
    }
}

impl From<WholeFault> for StepRefusal {
    ghost from_gives = { λ group refusal. refusal ≡ of_whole group };

    fn from(group: WholeFault) -> StepRefusal {
        match group {
            WholeFault::Sum { key: _, sum } => StepRefusal::Fault(NodeFault::Sum { sum }),
            WholeFault::Memory => StepRefusal::Memory,
        }
    }
}
