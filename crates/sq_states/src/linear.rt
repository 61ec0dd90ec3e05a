//! The steps of nodes that keep nothing.
ghost use Rattle.std.specs.Prelude.{◌≡◌, Bool, ℕ, IfOk};
ghost use Rattle.sq_circuit.specs.LinearOps.{SuitsOp};
ghost use Rattle.sq_circuit.specs.Nodes.{Rows};
ghost use Rattle.sq_circuit.specs.declared.node.Node.TheVariants.{Linear, Minus, Plus, View};
ghost use Rattle.sq_ops.specs.Fits.{FitsRows};
ghost use Rattle.sq_zset.specs.Range.{IsInRange};
ghost use Rattle.sq_states.specs.Steps.{IsStepped};
ghost use Rattle.sq_states.specs.declared.kept.NodeState.{NodeState as Kept};

use crate::{Piece, StateChange, StepRefusal};
use sq_circuit::LinearOp;
use sq_linear::apply_linear;
use sq_value::NoMemory;
use sq_zset::{Group, ZSet};
use std::alloc::Global;

/// The images of the changed rows.
pub fn linear_step(alloc: Global, node: u32, op: &LinearOp, d: &ZSet) -> Result<Piece, StepRefusal>
    requires { FitsRows (SuitsOp op.now) d.now }
    ensures number { IfOk result (λ piece. piece.node ≡ node) }
    ensures stepped { (i count : ℕ) (state : Kept) (right : Rows) (first : Bool) → IsStepped (Linear i op.now) state d.now right first result count count }
{
    let change = apply_linear(alloc, op, d)?;
    Ok(Piece {
        node,
        change,
        kept: StateChange::Nothing,
    })
}

/// The sum of the changes on both sides.
pub fn plus_step(alloc: Global, node: u32, left: &ZSet, right: &ZSet) -> Result<Piece, StepRefusal>
    ensures number { IfOk result (λ piece. piece.node ≡ node) }
    ensures stepped { (l r count : ℕ) (state : Kept) (first : Bool) → IsStepped (Plus l r) state left.now right.now first result count count }
{
    let change = left.plus(alloc, right)?;
    Ok(Piece {
        node,
        change,
        kept: StateChange::Nothing,
    })
}

/// The difference of the changes on both sides.
pub fn minus_step(alloc: Global, node: u32, left: &ZSet, right: &ZSet) -> Result<Piece, StepRefusal>
    ensures number { IfOk result (λ piece. piece.node ≡ node) }
    ensures stepped { (l r count : ℕ) (state : Kept) (first : Bool) → IsStepped (Minus l r) state left.now right.now first result count count }
{
    let change = left.minus(alloc, right)?;
    Ok(Piece {
        node,
        change,
        kept: StateChange::Nothing,
    })
}

/// The changed rows as they are.
pub fn view_step(alloc: Global, node: u32, d: &ZSet) -> Result<Piece, StepRefusal>
    ensures number { IfOk result (λ piece. piece.node ≡ node) }
    ensures stepped { (i v count : ℕ) (state : Kept) (right : Rows) (first : Bool) → IsStepped (View i v) state d.now right first result count count }
{
    let change = copy_of(alloc, d)?;
    Ok(Piece {
        node,
        change,
        kept: StateChange::Nothing,
    })
}

/// A Z-set of its own that is the same, or `NoMemory` when memory runs out.
pub fn copy_of(alloc: Global, d: &ZSet) -> Result<ZSet, NoMemory>
    ensures ok { IfOk result (λ copy. copy ≡ d.now) }
    ensures in_range { IfOk result IsInRange }
{
    let _ = d.len();
    d.clone_group(alloc)
}
