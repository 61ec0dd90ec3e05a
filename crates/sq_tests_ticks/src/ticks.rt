//! What is kept between ticks, what a tick changes, and what is kept once its pieces were put in place.
ghost use Rattle.std.specs.Prelude.{◌≡◌, ◌≤◌, length, pos, replicate, true, false, IfOk};
ghost use Rattle.sq_circuit.specs.Along.{each_below};
ghost use Rattle.sq_circuit.specs.Circuits.{whole};
ghost use Rattle.sq_circuit.specs.Invariant.{IsGood};
ghost use Rattle.sq_states.specs.Empty.{empty_states};
ghost use Rattle.sq_tests_ticks.specs.Ticks.{EachAt, IsCopyAt, IsDone, IsLive, IsTotalAt};

use crate::ready::{commit_all, prepare_all};
use sq_circuit::Circuit;
use sq_incr::{Pieces, Task};
use sq_states::States;
use sq_value::NoMemory;
use sq_zset::{Group, ZSet};
use std::alloc::Global;

/// What is kept between ticks: the states of all shards, the total of each node, the tables, and the values of the nodes.
#[derive(Drop)]
pub struct Live {
    pub states: Vec<States>,
    pub totals: Vec<i128>,
    pub tables: Vec<ZSet>,
    pub values: Vec<ZSet>,
}

/// What a tick changes of the tables, and the tables afterwards.
#[derive(Drop)]
pub struct Step {
    pub changes: Vec<ZSet>,
    pub tables: Vec<ZSet>,
}

// Empty states of so many shards.
fn states_of(alloc: Global, circuit: &Circuit, shards: u32) -> Result<Vec<States>, NoMemory>
    ensures { IfOk result (λ states. states.items ≡ replicate shards (empty_states circuit.now)) }
{
    let mut states = Vec::with_capacity(alloc, shards as usize)?;
    for _ in 0..shards {
        states.push(States::new(alloc, circuit)?)?;
    }
    Ok(states)
}

// A total of 0 for each node.
fn no_totals(alloc: Global, nodes: u32) -> Result<Vec<i128>, NoMemory>
    ensures { IfOk result (λ totals. totals.items ≡ replicate nodes (pos 0)) }
{
    let mut totals = Vec::with_capacity(alloc, nodes as usize)?;
    for _ in 0..nodes {
        totals.push(0)?;
    }
    Ok(totals)
}

// The total of each Z-set.
fn totals_of(alloc: Global, values: &[ZSet]) -> Result<Vec<i128>, NoMemory>
    ensures { IfOk result (λ totals. EachAt (IsTotalAt values.now) totals.items (length values.now)) }
{
    let mut totals = Vec::with_capacity(alloc, values.len())?;
    for i in 0..values.len() {
        totals.push(values[i].total())?;
    }
    Ok(totals)
}

/// Tables of one's own that are the same.
pub fn copies(alloc: Global, tables: &[ZSet]) -> Result<Vec<ZSet>, NoMemory>
    ensures { IfOk result (λ copies. EachAt (IsCopyAt tables.now) copies.items (length tables.now)) }
{
    let mut copies = Vec::with_capacity(alloc, tables.len())?;
    for t in 0..tables.len() {
        copies.push(tables[t].clone_group(alloc)?)?;
    }
    Ok(copies)
}

/// What is kept before the first tick. The tables are those that the tick is to leave.
pub fn begun(
    alloc: Global,
    circuit: &Circuit,
    tables: Vec<ZSet>,
    shards: u32,
) -> Result<Live, NoMemory>
    requires good { IsGood circuit.now tables.items }
    requires shards { (1 ≤ shards) × (shards ≤ 64) }
    ensures { IfOk result (λ live. IsLive true circuit.now live.tables.items live.states.items live.totals.items) }
{
    let states = states_of(alloc, circuit, shards)?;
    let totals = no_totals(alloc, circuit.len())?;
    Ok(Live {
        states,
        totals,
        tables,
        values: Vec::new(alloc),
    })
}

/// What is kept after a tick: all pieces are prepared, and then put in place. The totals are those of the values over the new tables.
pub fn settled(
    alloc: Global,
    circuit: &Circuit,
    live: Live,
    step: Step,
    first: bool,
    order: &[Task],
    pieces: &Pieces,
    values: Vec<ZSet>,
) -> Result<Live, NoMemory>
    requires done { IsDone first circuit.now live.tables.items step.changes.items step.tables.items live.states.items live.totals.items order.now pieces.now }
    requires values { values.items ≡ each_below (whole circuit.now step.tables.items) (length circuit.now) }
    ensures { IfOk result (λ live. IsLive false circuit.now live.tables.items live.states.items live.totals.items) }
{
    let mut states = live.states;
    let shards = states.len() as u32;
    let ready = prepare_all(alloc, &states, pieces, circuit.len(), shards)?;
    let totals = totals_of(alloc, &values)?;
    commit_all(&mut states, ready);
    Ok(Live {
        states,
        totals,
        tables: step.tables,
        values,
    })
}
