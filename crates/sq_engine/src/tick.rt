//! A tick before anything is put in place.
ghost use Rattle.std.specs.Prelude.{◌≡◌, ◌<◌, ◌≤◌, ◌+◌, ◌^◌, ℕ, length, Some, IfOk};
ghost use Rattle.sq_circuit.specs.Circuits.{verdict};
ghost use Rattle.sq_circuit.specs.Invariant.{IsCircuit};
ghost use Rattle.sq_engine.specs.Ticking.{IsPrepared, all_of};
ghost use Rattle.sq_incr.specs.Played.{IsPlayed};
ghost use Rattle.sq_incr.specs.Ready.{IsReady};
ghost use Rattle.sq_incr.specs.TickCosts.{tick_cost};

use crate::TickRefusal;
use crate::order::all_tasks;
use crate::ready::{ReadyShard, prepare_all};
use crate::totals::raised;
use crate::views::view_changes;
use sq_base::Steps;
use sq_circuit::Circuit;
use sq_incr::{Pieces, PlayRefusal, Task, play};
use sq_states::States;
use sq_value::NoMemory;
use sq_zset::ZSet;
use std::alloc::Global;

/// What is prepared of a tick: the traces of all nodes in all shards, the totals after it, and what each view has more.
#[derive(Debug, Drop)]
pub struct Prepared {
    pub ready: Vec<ReadyShard>,
    pub totals: Vec<i128>,
    pub views: Vec<ZSet>,
}

/// Prepares a tick, and changes nothing. It takes at most the cost of the tick in steps.
///
/// The answer is `Range` exactly if a view is out of range over the new tables, and names the first; and `Memory` when memory
/// runs out.
pub fn prepare_tick<L>(
    alloc: Global,
    circuit: &Circuit,
    states: &[States],
    totals: &[i128],
    changes: &[ZSet],
    first: bool,
    steps: &mut Steps<L>,
) -> Result<Prepared, TickRefusal>
    requires nodes { length circuit.now < 2 ^ 26 }
    requires ready { IsReady circuit.now states.now totals.now changes.now first }
    ensures sound { IsCircuit circuit.now }
    ensures ok { (r : IsReady circuit.now states.now totals.now changes.now first) → IfOk result (λ p. IsPrepared r p.ready.items p.totals.items p.views.items) }
    ensures range { (r : IsReady circuit.now states.now totals.now changes.now first) (view : ℕ) → result ≡ Err (TickRefusal.Range view) → verdict circuit.now r.new ≡ Some view }
    ensures cost { (r : IsReady circuit.now states.now totals.now changes.now first) → steps.new.count ≤ steps.old.count + tick_cost r }
    ensures ledger { steps.new.ledger ≡ steps.old.ledger }
{
    let nodes = circuit.len();
    let shards = states.len() as u32;
    let order = all_tasks(alloc, nodes, shards)?;
    let pieces = played(
        alloc, circuit, states, totals, changes, first, &order, steps,
    )?;
    let ready = prepare_all(alloc, states, &pieces, nodes, shards)?;
    let totals = raised(alloc, totals, &pieces, nodes, shards)?;
    let views = view_changes(alloc, circuit, &pieces, shards)?;
    Ok(Prepared {
        ready,
        totals,
        views,
    })
}

// The pieces of all tasks.
fn played<L>(
    alloc: Global,
    circuit: &Circuit,
    states: &[States],
    totals: &[i128],
    changes: &[ZSet],
    first: bool,
    order: &[Task],
    steps: &mut Steps<L>,
) -> Result<Pieces, TickRefusal>
    requires nodes { length circuit.now < 2 ^ 26 }
    requires ready { IsReady circuit.now states.now totals.now changes.now first }
    requires order { order.now ≡ all_of (length circuit.now) (length states.now) }
    ensures ok { (r : IsReady circuit.now states.now totals.now changes.now first) → IfOk result (λ pieces. IsPlayed r order.now pieces) }
    ensures range { (r : IsReady circuit.now states.now totals.now changes.now first) (view : ℕ) → result ≡ Err (TickRefusal.Range view) → verdict circuit.now r.new ≡ Some view }
    ensures cost { (r : IsReady circuit.now states.now totals.now changes.now first) → steps.new.count ≤ steps.old.count + tick_cost r }
    ensures ledger { steps.new.ledger ≡ steps.old.ledger }
{
    let _ = circuit.len();
    match play(alloc, circuit, states, totals, changes, first, order, steps) {
        Ok(pieces) => Ok(pieces),
        Err(PlayRefusal::Range { view }) => Err(TickRefusal::Range { view }),
        Err(PlayRefusal::Memory) => Err(TickRefusal::Memory),
        Err(PlayRefusal::NotLegal { .. }) => unreachable!(),
        Err(PlayRefusal::Missing { .. }) => unreachable!(),
    }
}
