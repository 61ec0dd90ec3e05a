//! The nodes of a circuit, and `LinearOp`, the linear operators that a node may have.
use sq_ops::{AggSpec, Keep, Linear, OpFault, Pad, Pairing, Project};
use sq_value::Row;
use std::alloc::Global;

/// A linear operator: each row is replaced by its images.
#[derive(Debug, Drop)]
pub enum LinearOp {
    Keep(Keep),
    Project(Project),
    Pad(Pad),
}

impl Linear for LinearOp {
    ghost use Rattle.sq_ops.specs.Extensions.{images_are_additive};
    ghost use Rattle.sq_circuit.specs.LinearOps.{SuitsOp, images_of, tested_of};

    ghost images = { λ op row. images_of op row };

    ghost suits = { λ op kinds. SuitsOp op kinds };

    ghost tested = { λ op row. tested_of op row };

    fn image(&self, alloc: Global, row: &Row, to: &mut Vec<Row>) -> Result<(), OpFault> {
        match self {
            LinearOp::Keep(op) => op.image(alloc, row, to),
            LinearOp::Project(op) => op.image(alloc, row, to),
            LinearOp::Pad(op) => op.image(alloc, row, to),
        }
    }

    ghost additive = { λ op. images_are_additive (images_of op) };
}

/// A node of a circuit: an operator, and the numbers of the nodes that it reads.
#[derive(Debug, Drop)]
pub enum Node {
    /// The rows of a table, by its number.
    Table { table: u32 },
    /// The images of the rows of a node.
    Linear { input: u32, op: LinearOp },
    /// The pairs of rows of two nodes with the same key.
    Join { left: u32, right: u32, op: Pairing },
    /// Each row of a node with a weight above 0, once.
    Distinct { input: u32 },
    /// The groups of the rows of a node.
    Aggregate { input: u32, spec: AggSpec },
    /// The sum of two nodes, row by row.
    Plus { left: u32, right: u32 },
    /// The difference of two nodes, row by row.
    Minus { left: u32, right: u32 },
    /// The rows of a view, by its number: those of a node.
    View { input: u32, view: u32 },
}
