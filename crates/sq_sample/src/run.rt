//! The run of the sample.
ghost use Rattle.std.specs.Prelude.{◌≡◌, ◌≤◌, ◌+◌, IfOk, OnOk};
ghost use Rattle.sq_compile.specs.Programs.{IsCircuitOf};
ghost use Rattle.sq_meant.specs.Program.{program};
ghost use Rattle.sq_sample.specs.Printed.{sample_text};
ghost use Rattle.sq_sample.specs.Running.{IsAfter};

use crate::calls::{admit, start, tick};
use crate::counted::raised;
use crate::lines::lines;
use crate::ticks::SampleTicks;
use sq_circuit::Circuit;
use sq_compile::{CompileFault, compile};
use sq_engine::Engine;
use sq_meant::PROGRAM;
use sq_value::NoMemory;
use std::alloc::Global;

// Where the run stands: the ticks that were given, the engine behind them, and how many rows each view lists.
#[derive(Drop)]
struct Run {
    ticks: SampleTicks,
    engine: Engine,
    numbers: Vec<i128>,
}

/// What the run of the sample prints for a seed. It runs one tick more than `ticks`, the first one, through an engine of one shard.
pub fn sample_lines(alloc: Global, seed: u32, ticks: u32) -> Result<Vec<u8>, NoMemory>
    requires few { ticks ≤ 1000000 }
    ensures { IfOk result (λ text. text.items ≡ sample_text seed (ticks + 1)) }
{
    let mut run = begun(alloc, seed)?;
    let mut made = 0;
    while made <= ticks {
        play_tick(alloc, &mut run)?;
        made += 1;
    }
    lines(alloc, seed, ticks + 1, &run.numbers)
}

// The run before its first tick.
fn begun(alloc: Global, seed: u32) -> Result<Run, NoMemory>
    ensures place { IfOk result (λ run. run.ticks ≡ record { seed = seed; made = 0 }) }
    ensures after { IfOk result (λ run. IsAfter seed 0 run.engine run.numbers.items) }
{
    let mut engine = Engine::new(alloc, circuit(alloc)?, 1)?;
    let changes = start(alloc, &mut engine)?;
    let numbers = raised(alloc, &[0, 0, 0, 0, 0], &changes.views)?;
    Ok(Run {
        ticks: SampleTicks::new(seed),
        engine,
        numbers,
    })
}

// The circuit of the program.
fn circuit(alloc: Global) -> Result<Circuit, NoMemory>
    ensures { IfOk result (IsCircuitOf program) }
{
    match compile(alloc, PROGRAM.as_bytes()) {
        Ok((_, circuit)) => Ok(circuit),
        Err(CompileFault::Fault(_)) => unreachable!(),
        Err(CompileFault::Memory) => Err(NoMemory),
    }
}

// Runs the next tick.
fn play_tick(alloc: Global, run: &mut Run) -> Result<(), NoMemory>
    requires few { run.old.ticks.made ≤ 1000000 }
    requires after { IsAfter run.old.ticks.seed run.old.ticks.made run.old.engine run.old.numbers.items }
    ensures place { OnOk result (run.new.ticks ≡ record run.old.ticks { made = run.old.ticks.made + 1 }) }
    ensures after { OnOk result (IsAfter run.old.ticks.seed (run.old.ticks.made + 1) run.new.engine run.new.numbers.items) }
{
    let updates = run.ticks.next_tick(alloc)?;
    let delta = admit(alloc, &run.engine, &updates)?;
    let changes = tick(alloc, &mut run.engine, delta)?;
    run.numbers = raised(alloc, &run.numbers, &changes.views)?;
    Ok(())
}
