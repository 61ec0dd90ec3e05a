//! The judgement of the program of an input: its text is compiled, and an engine starts over its circuit.
ghost use Rattle.std.specs.Prelude.{◌≡◌, ◌≤◌, None as Nothing, IfOk, IfErr};
ghost use Rattle.sq_compile.specs.Programs.{IsCircuitOf, IsProgramOf, TextStops, empty_verdict};
ghost use Rattle.sq_plan.specs.Program.{IsPlanOf};
ghost use Rattle.sq_engine.specs.Engines.{fresh};
ghost use Rattle.sq_ticks.specs.Judgements.{Starts};

use crate::counted;
use sq_circuit::{Changes, Circuit};
use sq_compile::{CompileFault, compile};
use sq_engine::{Engine, TickRefusal};
use sq_typed::Program;
use sq_value::NoMemory;
use std::alloc::Global;

/// A program that is accepted, with the engine of its circuit over empty tables, and what its views have over them.
#[derive(Drop)]
pub struct Judged {
    pub program: Program,
    pub engine: Engine,
    pub changes: Changes,
}

/// The program of a text, so of each input with this text, or the text's first fault. The engine is for so many workers.
pub fn judge_text(alloc: Global, text: &[u8], workers: u32) -> Result<Judged, CompileFault>
    requires workers { (1 ≤ workers) × (workers ≤ 64) }
    ensures accepted { IfOk result (λ j. IsProgramOf text.now j.program) }
    ensures starts { IfOk result (Starts workers) }
    ensures refused { IfErr result (TextStops text.now) }
{
    match compile(alloc, text) {
        Ok((program, circuit)) => Ok(begun(alloc, program, circuit, workers)?),
        Err(fault) => Err(fault),
    }
}

// A program with an engine of its circuit, which has started.
fn begun(
    alloc: Global,
    program: Program,
    circuit: Circuit,
    workers: u32,
) -> Result<Judged, NoMemory>
    requires workers { (1 ≤ workers) × (workers ≤ 64) }
    requires circuit { IsCircuitOf program circuit }
    requires in_range { empty_verdict program ≡ Nothing }
    ensures program { IfOk result (λ j. j.program ≡ program) }
    ensures starts { IfOk result (Starts workers) }
{
    let engine = Engine::new(alloc, circuit, workers)?;
    start(alloc, program, engine)
}

// The same of an engine over the circuit of the program, which is to start.
fn start(alloc: Global, program: Program, engine: Engine) -> Result<Judged, NoMemory>
    requires plan { IsPlanOf program engine.circuit }
    requires begins { engine ≡ fresh engine.circuit engine.shards }
    requires in_range { empty_verdict program ≡ Nothing }
    ensures program { IfOk result (λ j. j.program ≡ program) }
    ensures starts { IfOk result (Starts engine.shards) }
{
    let mut engine = engine;
    match counted::start(alloc, &mut engine) {
        Ok(changes) => Ok(Judged {
            program,
            engine,
            changes,
        }),
        Err(TickRefusal::Range { .. }) => unreachable!(),
        Err(TickRefusal::Memory) => Err(NoMemory),
    }
}
