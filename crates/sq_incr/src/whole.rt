//! All tasks of a tick.
ghost use Rattle.std.specs.Prelude.{◌≡◌, ◌<◌, ◌≤◌, ◌^◌, ◌+◌, true, length};
ghost use Rattle.std.specs.List.{list_all, sum_by};
ghost use Rattle.sq_incr.specs.Played.{Answers, CanJudge};
ghost use Rattle.sq_incr.specs.Ready.{IsReady, part_cost};
ghost use Rattle.sq_incr.specs.Slots.{is_done};

use crate::judge::{first_missing, least_faulty};
use crate::store::{Line, empty_lines};
use crate::turns::play_all;
use crate::{Pieces, PlayRefusal, Task};
use sq_base::Steps;
use sq_circuit::Circuit;
use sq_states::States;
use sq_zset::ZSet;
use std::alloc::Global;

/// Plays all tasks of a tick in an order, each over the state of its shard, and answers their pieces.
///
/// `states` has the state of each shard, `totals` the total of each node, and `changes` the change of each table. At the start,
/// before which nothing was there, `first` is true.
///
/// The answer is `NotLegal` exactly if some task may not stand where it does, with the first such place; `Missing` exactly if
/// all may, but a task is missing, with the first one; `Range` exactly if the order is whole and some number leaves its range,
/// with the first view to blame; and `Memory` when memory runs out.
pub fn play<L>(
    alloc: Global,
    circuit: &Circuit,
    states: &[States],
    totals: &[i128],
    changes: &[ZSet],
    first: bool,
    order: &[Task],
    steps: &mut Steps<L>,
) -> Result<Pieces, PlayRefusal>
    requires ready { IsReady circuit.now states.now totals.now changes.now first }
    requires few { length order.now < 2 ^ 32 }
    ensures answers { (r : IsReady circuit.now states.now totals.now changes.now first) → Answers r order.now result }
    ensures count { (r : IsReady circuit.now states.now totals.now changes.now first) → steps.new.count ≤ steps.old.count + sum_by (part_cost r) order.now }
    ensures ledger { steps.new.ledger ≡ steps.old.ledger }
{
    let shards = states.len() as u32;
    let mut lines = empty_lines(alloc, circuit.len(), shards)?;
    let stop = play_all(
        alloc, circuit, states, totals, changes, first, order, &mut lines, steps,
    )?;
    match stop {
        Some(at) => Err(PlayRefusal::NotLegal { at }),
        None => judged(alloc, circuit, totals, lines, shards),
    }
}

// What they tell together.
fn judged(
    alloc: Global,
    circuit: &Circuit,
    totals: &[i128],
    lines: Vec<Line>,
    shards: u32,
) -> Result<Pieces, PlayRefusal>
    requires { CanJudge circuit.now totals.now shards lines.items }
    ensures { (b : CanJudge circuit.now totals.now shards lines.items) → Answers b.ready b.order result }
{
    let missing = first_missing(&lines, circuit.len(), shards);
    match missing {
        Some(task) => Err(PlayRefusal::Missing { task }),
        None => blamed(alloc, circuit, totals, lines, shards),
    }
}

// Which view is to blame, if none is missing.
fn blamed(
    alloc: Global,
    circuit: &Circuit,
    totals: &[i128],
    lines: Vec<Line>,
    shards: u32,
) -> Result<Pieces, PlayRefusal>
    requires judge { CanJudge circuit.now totals.now shards lines.items }
    requires done { list_all (list_all is_done) lines.items ≡ true }
    ensures { (b : CanJudge circuit.now totals.now shards lines.items) → Answers b.ready b.order result }
{
    let _ = circuit.len();
    let view = least_faulty(alloc, circuit, totals, &lines, shards)?;
    match view {
        Some(view) => Err(PlayRefusal::Range { view }),
        None => Ok(Pieces { lines }),
    }
}
