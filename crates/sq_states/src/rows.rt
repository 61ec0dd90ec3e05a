//! The steps of nodes that keep rows: tables, and DISTINCT.
ghost use Rattle.std.specs.Prelude.{◌≡◌, Bool, ℕ, IfOk};
ghost use Rattle.sq_circuit.specs.Nodes.{Rows};
ghost use Rattle.sq_circuit.specs.declared.node.Node.TheVariants.{Distinct, Table};
ghost use Rattle.sq_states.specs.Steps.{IsStepped};
ghost use Rattle.sq_states.specs.declared.kept.NodeState.{NodeState as Kept};
ghost use Rattle.sq_states.specs.declared.kept.NodeState.TheVariants.{Rows as RowsOf};

use crate::entries::changes_of_rows;
use crate::linear::copy_of;
use crate::{Piece, StateChange, StepRefusal};
use sq_base::Steps;
use sq_distinct::distinct_step;
use sq_trace::Trace;
use sq_zset::ZSet;
use std::alloc::Global;

/// The changed rows of a table as they are.
pub fn table_step(alloc: Global, node: u32, d: &ZSet) -> Result<Piece, StepRefusal>
    ensures number { IfOk result (λ piece. piece.node ≡ node) }
    ensures stepped { (t count : ℕ) (state : Kept) (right : Rows) (first : Bool) → IsStepped (Table t) state d.now right first result count count }
{
    let change = copy_of(alloc, d)?;
    let rows = changes_of_rows(alloc, d)?;
    Ok(Piece {
        node,
        change,
        kept: StateChange::Rows { rows },
    })
}

/// The rows that come or go.
pub fn distinct_node<L>(
    alloc: Global,
    node: u32,
    old: &Trace<i64>,
    d: &ZSet,
    steps: &mut Steps<L>,
) -> Result<Piece, StepRefusal>
    ensures number { IfOk result (λ piece. piece.node ≡ node) }
    ensures stepped { (i : ℕ) (right : Rows) (first : Bool) → IsStepped (Distinct i) (RowsOf old.now) d.now right first result steps.old.count steps.new.count }
    ensures ledger { steps.new.ledger ≡ steps.old.ledger }
{
    let change = distinct_step(alloc, old, d, steps)?;
    let rows = changes_of_rows(alloc, d)?;
    Ok(Piece {
        node,
        change,
        kept: StateChange::Rows { rows },
    })
}
