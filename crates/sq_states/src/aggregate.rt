//! The step of an aggregate.
ghost use Rattle.std.specs.Prelude.{◌≡◌, ℕ, IfOk};
ghost use Rattle.sq_agg.specs.Aggregating.{AggState};
ghost use Rattle.sq_circuit.specs.Nodes.{Rows};
ghost use Rattle.sq_circuit.specs.declared.node.Node.TheVariants.{Aggregate};
ghost use Rattle.sq_states.specs.Steps.{IsStepped};
ghost use Rattle.sq_states.specs.declared.kept.NodeState.TheVariants.{Groups};

use crate::{Piece, StateChange, StepRefusal};
use sq_agg::{Acc, AggChange, agg_step};
use sq_base::Steps;
use sq_ops::AggSpec;
use sq_trace::Trace;
use sq_zset::ZSet;
use std::alloc::Global;

/// The rows of groups that come or go.
pub fn aggregate_node<L>(
    alloc: Global,
    node: u32,
    spec: &AggSpec,
    acc: &Trace<Acc>,
    ordered: &Trace<i64>,
    shown: &Trace<i64>,
    d: &ZSet,
    first: bool,
    steps: &mut Steps<L>,
) -> Result<Piece, StepRefusal>
    requires state { AggState spec.now acc.now ordered.now shown.now d.now first }
    ensures number { IfOk result (λ piece. piece.node ≡ node) }
    ensures stepped { (i : ℕ) (right : Rows) → IsStepped (Aggregate i spec.now) (Groups acc.now ordered.now shown.now) d.now right first result steps.old.count steps.new.count }
    ensures ledger { steps.new.ledger ≡ steps.old.ledger }
{
    let made = agg_step(alloc, spec, acc, ordered, shown, d, first, steps)?;
    let AggChange {
        change,
        acc,
        ordered,
        shown,
    } = made;
    Ok(Piece {
        node,
        change,
        kept: StateChange::Groups {
            acc,
            ordered,
            shown,
        },
    })
}
