//! Preparing the changes of a node's traces, and putting them in place.
ghost use Rattle.std.specs.Prelude.{◌≡◌, ◌<◌, length, slice_get, slice_set, Some, IfOk};
ghost use Rattle.sq_states.specs.Committing.{CanCommit, CanTake, IsReadyFor, IsReadyRun, StaysInRange, StaysWithin, state_after, taken};
ghost use Rattle.sq_states.specs.declared.kept.NodeState.{NodeState as Kept};

use crate::{NodeState, Piece, Ready, ReadyTraces, StateChange, States};
use sq_trace::{Keyed, Prepared, Trace};
use sq_value::NoMemory;
use sq_zset::{Group, ZFault};
use std::alloc::Global;
use std::mem;

impl States {
    /// What the piece makes of the traces of the node with this number, which stay as they are, or `NoMemory` when memory runs
    /// out: `commit` puts it in place. With the piece each trace stays within its range.
    pub fn prepare(&self, alloc: Global, node: u32, piece: &Piece) -> Result<Ready, NoMemory>
        requires inside { node < length self.now }
        requires in_range { (kept : Kept) → slice_get self.now node ≡ Some kept → StaysInRange kept piece.now.kept }
        ensures number { IfOk result (λ ready. ready.node ≡ node) }
        ensures ready { IfOk result (λ ready. (kept : Kept) → slice_get self.now node ≡ Some kept → IsReadyFor kept piece.now.kept ready.traces) }
    {
        let traces = prepare_state(alloc, self.state(node), &piece.kept)?;
        Ok(Ready { node, traces })
    }

    /// Puts in place what `prepare` made of the same state. Takes no memory, and can't be refused.
    pub fn commit(&mut self, ready: Ready)
        requires inside { ready.node < length self.old }
        requires can { (kept : Kept) → slice_get self.old ready.node ≡ Some kept → CanCommit kept ready.traces }
        ensures { (kept : Kept) → slice_get self.old ready.node ≡ Some kept → self.new ≡ slice_set self.old ready.node (state_after kept ready.traces) }
    {
        let Ready { node, traces } = ready;
        let place = node as usize;
        let kept = mem::replace(&mut self.nodes[place], NodeState::Nothing);
        self.nodes[place] = committed(kept, traces);
    }
}

// What the change makes of each trace of a state.
fn prepare_state(
    alloc: Global,
    kept: &NodeState,
    change: &StateChange,
) -> Result<ReadyTraces, NoMemory>
    requires { StaysInRange kept.now change.now }
    ensures { IfOk result (λ traces. IsReadyFor kept.now change.now traces) }
{
    match change {
        StateChange::Nothing => Ok(ReadyTraces::Nothing),
        StateChange::Rows { rows } => {
            let ready = prepare_run(alloc, kept.rows(), rows)?;
            Ok(ReadyTraces::Rows { rows: ready })
        }
        StateChange::Sides { left, right } => {
            let (a, b) = kept.sides();
            let left = prepare_run(alloc, a, left)?;
            let right = prepare_run(alloc, b, right)?;
            Ok(ReadyTraces::Sides { left, right })
        }
        StateChange::Groups {
            acc,
            ordered,
            shown,
        } => {
            let (accs, arguments, rows) = kept.groups();
            let acc = prepare_run(alloc, accs, acc)?;
            let ordered = prepare_run(alloc, arguments, ordered)?;
            let shown = prepare_run(alloc, rows, shown)?;
            Ok(ReadyTraces::Groups {
                acc,
                ordered,
                shown,
            })
        }
    }
}

// What a change makes of a trace; none if there is no change.
fn prepare_run<P: Group>(
    alloc: Global,
    trace: &Trace<P>,
    change: &Keyed<P>,
) -> Result<Option<Prepared<P>>, NoMemory>
    requires { StaysWithin P.addition P.first_outside trace.now change.now }
    ensures { IfOk result (λ ready. IsReadyRun P.addition P.first_outside trace.now change.now ready) }
{
    if change.entries().is_empty() {
        return Ok(None);
    }
    match trace.prepare(alloc, change) {
        Ok(prepared) => Ok(Some(prepared)),
        Err(ZFault::Memory) => Err(NoMemory),
        Err(ZFault::Weight { .. }) => unreachable!(),
    }
}

// The state with what was prepared in place.
fn committed(kept: NodeState, traces: ReadyTraces) -> NodeState
    requires { CanCommit kept traces }
    ensures { result ≡ state_after kept traces }
{
    match kept {
        NodeState::Nothing => NodeState::Nothing,
        NodeState::Rows { rows } => match traces {
            ReadyTraces::Rows { rows: ready } => NodeState::Rows {
                rows: take_run(rows, ready),
            },
            ReadyTraces::Nothing => unreachable!(),
            ReadyTraces::Sides { .. } => unreachable!(),
            ReadyTraces::Groups { .. } => unreachable!(),
        },
        NodeState::Sides { left: a, right: b } => match traces {
            ReadyTraces::Sides { left, right } => NodeState::Sides {
                left: take_run(a, left),
                right: take_run(b, right),
            },
            ReadyTraces::Nothing => unreachable!(),
            ReadyTraces::Rows { .. } => unreachable!(),
            ReadyTraces::Groups { .. } => unreachable!(),
        },
        NodeState::Groups {
            acc: accs,
            ordered: arguments,
            shown: rows,
        } => match traces {
            ReadyTraces::Groups {
                acc,
                ordered,
                shown,
            } => NodeState::Groups {
                acc: take_run(accs, acc),
                ordered: take_run(arguments, ordered),
                shown: take_run(rows, shown),
            },
            ReadyTraces::Nothing => unreachable!(),
            ReadyTraces::Rows { .. } => unreachable!(),
            ReadyTraces::Sides { .. } => unreachable!(),
        },
    }
}

// The trace with what was prepared in place.
fn take_run<P: Group>(trace: Trace<P>, ready: Option<Prepared<P>>) -> Trace<P>
    requires { CanTake P.addition P.first_outside trace ready }
    ensures { result ≡ taken trace ready }
{
    let mut trace = trace;
    if let Some(prepared) = ready {
        trace.commit(prepared);
    }
    trace
}
