//! All the ticks of an input, as its lines come.
ghost use Rattle.std.specs.Prelude.{◌≡◌, ◌+◌, ◌++◌, [], ◌<◌, ◌≤◌, ◌^◌, ℕ, List, length, IfOk, IfErr, OnOk};
ghost use Rattle.std.specs.List.{list_any};
ghost use Rattle.std.specs.Io.KnownBytes.{Appends};
ghost use Rattle.sq_lines.specs.Cutting.{lines_of};
ghost use Rattle.sq_lines.specs.Lines.{decoded};
ghost use Rattle.sq_lines.specs.declared.line.Line.{Line as Said};
ghost use Rattle.sq_ticks.specs.Fits.{Fits};
ghost use Rattle.sq_ticks.specs.Judgements.{Starts};
ghost use Rattle.sq_ticks.specs.Output.{reports, reports_of, texts_from};
ghost use Rattle.sq_ticks.specs.Played.{PlayHalts, PlaysOut, StopsFar, StopsFrom, WhereBehind, WhereFar, with_line};
ghost use Rattle.sq_ticks.specs.Runs.{From, IsBehind, IsFar, IsLeft, StoppedWithin, StopsWithin};
ghost use Rattle.sq_ticks.specs.Ticks.{is_refusal};

use crate::judge::Judged;
use crate::read::{PIECE, read_piece};
use crate::run::{Run, Stop};
use sq_base::{Sink, Source};
use sq_catalog::Catalog;
use sq_engine::Engine;
use sq_lines::{Cutter, Line, RawLine, decode};
use sq_typed::Program;
use sq_value::NoMemory;
use std::alloc::Global;

/// What all ticks leave.
#[derive(Debug, Drop)]
pub struct Played {
    /// Whether a tick was refused.
    pub refused: bool,
    /// The engine behind the last accepted tick.
    pub engine: Engine,
}

/// Plays change lines from empty tables on: prints block 0, and what each tick brings once its commit line has come. The first
/// bytes of the change lines are there, and the others are read. So many bytes of the input were taken before, with the first ones.
pub fn play_lines<S: Source, K: Sink>(
    alloc: Global,
    judged: Judged,
    first: &[u8],
    input: &mut S,
    taken: u64,
    limit: u64,
    out: &mut K,
) -> Result<Played, Stop>
    requires starts { Starts judged.engine.shards judged }
    requires limit { (taken ≤ limit) × (limit ≤ 2 ^ 40) × (length first.now ≤ taken) }
    ensures played { IfOk result (PlaysOut judged limit taken first.now (S.left input.old) (S.faults input.old)
        (S.left input.new) (S.faults input.new) (K.taken out.old) (K.faults out.old) (K.taken out.new) (K.faults out.new)) }
    ensures halted { IfErr result (PlayHalts judged limit taken first.now (S.left input.old) (S.faults input.old)
        (S.left input.new) (S.faults input.new) (K.taken out.old) (K.faults out.old) (K.taken out.new) (K.faults out.new)) }
{
    let Judged {
        program,
        engine,
        changes,
    } = judged;
    let mut run = Run::start(alloc, &program, engine, changes, out)?;
    let mut cutter = Cutter::new(alloc);
    take_piece(alloc, &program, &mut run, &mut cutter, first, out)?;
    let mut taken = taken;
    loop {
        let mut buffer = [0; PIECE];
        let count = read_piece(input, taken, limit, &mut buffer)?;
        if count == 0 {
            return end(alloc, &program, run, cutter, out);
        }
        take_piece(
            alloc,
            &program,
            &mut run,
            &mut cutter,
            &buffer[..count],
            out,
        )?;
        taken += count as u64;
    }
}

/// Plays no change line: prints block 0.
pub fn play_none<K: Sink>(alloc: Global, judged: Judged, out: &mut K) -> Result<Played, Stop>
    requires starts { Starts judged.engine.shards judged }
    ensures refused { IfOk result (λ played. played.refused ≡ list_any (λ r. is_refusal r.1) (reports judged.program [])) }
    ensures engine { IfOk result (λ played. IsLeft judged.program (reports judged.program []) judged.engine.shards played.engine) }
    ensures told { OnOk result (Appends (K.taken out.old) (K.taken out.new) (texts_from judged.program 0 (reports judged.program []))) }
    ensures stopped { IfErr result (StoppedWithin judged.program (K.taken out.old) (K.taken out.new) (K.faults out.old) (K.faults out.new) (reports judged.program [])) }
{
    let Judged {
        program,
        engine,
        changes,
    } = judged;
    let run = Run::start(alloc, &program, engine, changes, out)?;
    end(alloc, &program, run, Cutter::new(alloc), out)
}

// Takes the lines whose line end is in a piece, and prints what they bring.
fn take_piece<K: Sink>(
    alloc: Global,
    program: &Program,
    run: &mut Run,
    cutter: &mut Cutter,
    piece: &[u8],
    out: &mut K,
) -> Result<(), Stop>
    requires few { cutter.old.handed + length piece.now < 2 ^ 59 }
    requires stands { (bytes : List ℕ) × (from : From) × IsFar program.now bytes from (K.taken out.old) (K.faults out.old) run.old cutter.old }
    ensures far { WhereFar program.now (K.taken out.old) (K.faults out.old) run.old cutter.old
        (λ bytes from. OnOk result (IsFar program.now (bytes ++ piece.now) from (K.taken out.new) (K.faults out.new) run.new cutter.new)) }
    ensures few { OnOk result (cutter.new.handed ≤ cutter.old.handed + length piece.now) }
    ensures stopped { WhereFar program.now (K.taken out.old) (K.faults out.old) run.old cutter.old
        (λ bytes from. IfErr result (StopsFar program.now (bytes ++ piece.now) from (K.taken out.new) (K.faults out.new))) }
{
    for raw in cutter.feed(alloc, piece)? {
        take_raw(alloc, program, run, &raw, out)?;
    }
    Ok(())
}

// Takes the next line, and prints what it brings.
fn take_raw<K: Sink>(
    alloc: Global,
    program: &Program,
    run: &mut Run,
    raw: &RawLine,
    out: &mut K,
) -> Result<(), Stop>
    requires few { run.old.read < 2 ^ 59 }
    requires stands { (seen : List Said) × (from : From) × IsBehind program.now seen from (K.taken out.old) (K.faults out.old) run.old }
    ensures behind { WhereBehind program.now (K.taken out.old) (K.faults out.old) run.old
        (λ lines from. OnOk result (IsBehind program.now (with_line program.now lines raw.now) from (K.taken out.new) (K.faults out.new) run.new)) }
    ensures stopped { WhereBehind program.now (K.taken out.old) (K.faults out.old) run.old
        (λ lines from. IfErr result (StopsWithin program.now (with_line program.now lines raw.now) from (K.taken out.new) (K.faults out.new))) }
{
    let line = read_line(alloc, program.catalog(), raw)?;
    run.take_line(alloc, program, line, out)
}

// What a line says.
fn read_line(alloc: Global, catalog: &Catalog, raw: &RawLine) -> Result<Line, NoMemory>
    ensures says { IfOk result (λ line. line ≡ decoded catalog.now raw.now.number raw.now.bytes) }
    ensures fits { IfOk result (Fits catalog.now) }
{
    decode(alloc, catalog, raw)
}

// Takes what is left behind the last line end, and ends the run.
fn end<K: Sink>(
    alloc: Global,
    program: &Program,
    run: Run,
    cutter: Cutter,
    out: &mut K,
) -> Result<Played, Stop>
    requires few { cutter.handed < 2 ^ 59 }
    requires stands { (bytes : List ℕ) × (from : From) × IsFar program.now bytes from (K.taken out.old) (K.faults out.old) run cutter }
    ensures refused { WhereFar program.now (K.taken out.old) (K.faults out.old) run cutter
        (λ bytes from. IfOk result (λ played. played.refused ≡ list_any (λ r. is_refusal r.1) (reports program.now (lines_of bytes)))) }
    ensures engine { WhereFar program.now (K.taken out.old) (K.faults out.old) run cutter
        (λ bytes from. IfOk result (λ played. IsLeft program.now (reports program.now (lines_of bytes)) from.shards played.engine)) }
    ensures told { WhereFar program.now (K.taken out.old) (K.faults out.old) run cutter
        (λ bytes from. OnOk result (Appends from.taken (K.taken out.new) (texts_from program.now 0 (reports program.now (lines_of bytes))))) }
    ensures stopped { WhereFar program.now (K.taken out.old) (K.faults out.old) run cutter
        (λ bytes from. IfErr result (StopsFrom program.now from (K.taken out.new) (K.faults out.new) (reports program.now (lines_of bytes)))) }
{
    match cutter.finish() {
        Some(raw) => {
            let mut run = run;
            take_raw(alloc, program, &mut run, &raw, out)?;
            finish(alloc, program, run, out)
        }
        None => finish(alloc, program, run, out),
    }
}

// Ends the run behind the last line.
fn finish<K: Sink>(alloc: Global, program: &Program, run: Run, out: &mut K) -> Result<Played, Stop>
    ensures refused { WhereBehind program.now (K.taken out.old) (K.faults out.old) run
        (λ lines from. IfOk result (λ played. played.refused ≡ list_any (λ r. is_refusal r.1) (reports_of program.now lines))) }
    ensures engine { WhereBehind program.now (K.taken out.old) (K.faults out.old) run
        (λ lines from. IfOk result (λ played. IsLeft program.now (reports_of program.now lines) from.shards played.engine)) }
    ensures told { WhereBehind program.now (K.taken out.old) (K.faults out.old) run
        (λ lines from. OnOk result (Appends from.taken (K.taken out.new) (texts_from program.now 0 (reports_of program.now lines)))) }
    ensures stopped { WhereBehind program.now (K.taken out.old) (K.faults out.old) run
        (λ lines from. IfErr result (StopsFrom program.now from (K.taken out.new) (K.faults out.new) (reports_of program.now lines))) }
{
    run.finish(alloc, program, out)
}
