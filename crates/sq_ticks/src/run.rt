//! The ticks of an input, one after the other.
ghost use Rattle.std.specs.Prelude.{◌≡◌, ◌≤◌, ◌<◌, ◌^◌, IfOk, IfErr, OnOk};
ghost use Rattle.std.specs.List.{list_all};
ghost use Rattle.std.specs.Io.KnownBytes.{Appends};
ghost use Rattle.sq_lines.specs.Lines.{is_blank};
ghost use Rattle.sq_typed.specs.Tables.{Tables};
ghost use Rattle.sq_ticks.specs.Fits.{Fits};
ghost use Rattle.sq_ticks.specs.Judgements.{Starts, first_text};

use crate::play::Played;
use crate::tick::play_tick;
use sq_base::{Failed, Sink, put_all};
use sq_circuit::Changes;
use sq_engine::Engine;
use sq_lines::Line;
use sq_print::{Refusal, block_text, refusal_text};
use sq_typed::Program;
use sq_value::NoMemory;
use std::alloc::{AllocFailed, Global};

/// Why a run stopped before its end.
#[derive(Clone, Copy, Debug, PartialEq, Eq)]
pub enum Stop {
    /// An allocation was refused.
    Memory,
    /// A read failed.
    Read,
    /// The input has more bytes than the limit.
    TooLong,
    /// A write of the output failed.
    Write,
}

impl From<NoMemory> for Stop {
    ghost use Rattle.sq_ticks.specs.declared.run.Stop.TheVariants.{Memory};

    ghost from_gives = { λ _ stop. stop ≡ Memory };

    fn from(_: NoMemory) -> Self {
        Stop::Memory
    }
}

impl<T: Drop> From<AllocFailed<T>> for Stop {
    ghost use Rattle.sq_ticks.specs.declared.run.Stop.TheVariants.{Memory};

    ghost from_gives = { λ _ stop. stop ≡ Memory };

    fn from(_: AllocFailed<T>) -> Self {
        Stop::Memory
    }
}

impl From<Failed> for Stop {
    ghost use Rattle.sq_ticks.specs.declared.run.Stop.TheVariants.{Write};

    ghost from_gives = { λ _ stop. stop ≡ Write };

    fn from(_: Failed) -> Self {
        Stop::Write
    }
}

/// Where a run of ticks stands.
#[derive(Drop)]
pub struct Run {
    /// The circuit of the views, and the tables after the last accepted tick.
    pub engine: Engine,
    /// The lines since the last commit line.
    pub lines: Vec<Line>,
    /// How many lines were read.
    pub read: u64,
    /// The number of the next tick.
    pub tick: u64,
    /// Whether a tick was refused.
    pub refused: bool,
}

impl Run {
    ghost use Rattle.sq_ticks.specs.Runs.{last_text, line_text, waiting_text, Goes, IsAt, IsClosed, IsEnded, IsStart, Stopped};

    /// The run over empty tables, before the first line, once block 0 is printed.
    pub fn start<K: Sink>(
        alloc: Global,
        program: &Program,
        engine: Engine,
        changes: Changes,
        out: &mut K,
    ) -> Result<Run, Stop>
        requires { Starts engine.shards (record { program = program.now; engine = engine; changes = changes }) }
        ensures start { IfOk result (IsStart program.now engine) }
        ensures told { OnOk result (Appends (K.taken out.old) (K.taken out.new) (first_text program.now)) }
        ensures stopped { IfErr result (Stopped (K.taken out.old) (K.taken out.new) (K.faults out.old) (K.faults out.new) (first_text program.now)) }
        ensures later { K.faults out.old ≤ K.faults out.new }
    {
        let text = block_text(alloc, program.catalog(), 0, &changes)?;
        put_all(out, &text)?;
        Ok(Run {
            engine,
            lines: Vec::new(alloc),
            read: 0,
            tick: 1,
            refused: false,
        })
    }

    /// Takes the next line, and prints what it brings.
    pub fn take_line<K: Sink>(
        &mut self,
        alloc: Global,
        program: &Program,
        line: Line,
        out: &mut K,
    ) -> Result<(), Stop>
        requires tick { self.old.tick < 2 ^ 60 }
        requires read { self.old.read < 2 ^ 60 }
        requires stands { (lists : Tables) × IsAt program.now lists self.old }
        requires fits { Fits program.now.catalog line }
        ensures goes { (lists : Tables) → IsAt program.now lists self.old → OnOk result ((now : Tables) × Goes program.now lists self.old line now self.new) }
        ensures told { (lists : Tables) → IsAt program.now lists self.old → OnOk result (Appends (K.taken out.old) (K.taken out.new) (line_text program.now lists self.old line)) }
        ensures stopped { (lists : Tables) → IsAt program.now lists self.old → IfErr result (Stopped (K.taken out.old) (K.taken out.new)
            (K.faults out.old) (K.faults out.new) (line_text program.now lists self.old line)) }
        ensures later { K.faults out.old ≤ K.faults out.new }
    {
        self.read += 1;
        if line.is_commit() {
            return self.close_tick(alloc, program, out);
        }
        self.lines.push(line)?;
        Ok(())
    }

    // Plays the lines since the last commit line as a tick, and prints it.
    fn close_tick<K: Sink>(
        &mut self,
        alloc: Global,
        program: &Program,
        out: &mut K,
    ) -> Result<(), Stop>
        requires tick { self.old.tick < 2 ^ 60 }
        requires read { self.old.read ≤ 2 ^ 60 }
        requires stands { (lists : Tables) × IsAt program.now lists self.old }
        ensures closed { (lists : Tables) → IsAt program.now lists self.old → OnOk result ((now : Tables) × IsClosed program.now lists self.old now self.new) }
        ensures told { (lists : Tables) → IsAt program.now lists self.old → OnOk result (Appends (K.taken out.old) (K.taken out.new) (waiting_text program.now lists self.old)) }
        ensures stopped { (lists : Tables) → IsAt program.now lists self.old → IfErr result (Stopped (K.taken out.old) (K.taken out.new)
            (K.faults out.old) (K.faults out.new) (waiting_text program.now lists self.old)) }
        ensures later { K.faults out.old ≤ K.faults out.new }
    {
        let lines = std::mem::replace(&mut self.lines, Vec::new(alloc));
        let outcome = play_tick(alloc, program, &mut self.engine, lines)?;
        let text = outcome.text(alloc, program.catalog(), self.tick)?;
        put_all(out, &text)?;
        self.tick += 1;
        self.refused = self.refused || outcome.is_refused();
        Ok(())
    }

    /// Prints that the last tick is unfinished, if a line of it is not blank. Answers whether a tick was refused, and the engine.
    pub fn finish<K: Sink>(
        self,
        alloc: Global,
        program: &Program,
        out: &mut K,
    ) -> Result<Played, Stop>
        ensures ended { (lists : Tables) → IfOk result (IsEnded program.now lists self) }
        ensures told { (lists : Tables) → OnOk result (Appends (K.taken out.old) (K.taken out.new) (last_text program.now lists self)) }
        ensures stopped { (lists : Tables) → IfErr result (Stopped (K.taken out.old) (K.taken out.new) (K.faults out.old) (K.faults out.new)
            (last_text program.now lists self)) }
        ensures later { K.faults out.old ≤ K.faults out.new }
    {
        if all_blank(&self.lines) {
            return Ok(Played {
                refused: self.refused,
                engine: self.engine,
            });
        }
        let text = refusal_text(alloc, self.tick, &Refusal::Unfinished)?;
        put_all(out, &text)?;
        Ok(Played {
            refused: true,
            engine: self.engine,
        })
    }
}

fn all_blank(lines: &[Line]) -> bool
    ensures { result ≡ list_all is_blank lines.now }
{
    lines.iter().all(|line| line.is_blank())
}
