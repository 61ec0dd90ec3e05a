//! What an engine keeps before its start.
ghost use Rattle.std.specs.Prelude.{◌≡◌, pos, replicate, IfOk};
ghost use Rattle.sq_states.specs.Empty.{empty_states};

use sq_circuit::Circuit;
use sq_states::States;
use sq_value::NoMemory;
use std::alloc::Global;

/// The states of so many shards before anything was there.
pub fn empty_shards(alloc: Global, circuit: &Circuit, shards: u32) -> Result<Vec<States>, NoMemory>
    ensures { IfOk result (λ states. states.items ≡ replicate shards (empty_states circuit.now)) }
{
    let mut states = Vec::with_capacity(alloc, shards as usize)?;
    for _ in 0..shards {
        states.push(States::new(alloc, circuit)?)?;
    }
    Ok(states)
}

/// The total of each of so many nodes without rows.
pub fn no_totals(alloc: Global, nodes: u32) -> Result<Vec<i128>, NoMemory>
    ensures { IfOk result (λ totals. totals.items ≡ replicate nodes (pos 0)) }
{
    let mut totals = Vec::with_capacity(alloc, nodes as usize)?;
    for _ in 0..nodes {
        totals.push(0)?;
    }
    Ok(totals)
}
