//! What a run makes of its input: it is read, its program is judged, and its change lines are played.
ghost use Rattle.std.specs.Prelude.{◌≡◌, ◌+◌, ◌++◌, ◌<◌, ◌≤◌, ◌^◌, ℕ, List, [], length, false, None, IfOk, IfErr, if◌then◌else◌};
ghost use Rattle.std.specs.Io.KnownBytes.{Appends};
ghost use Rattle.sq_base.specs.Causes.{Rose};
ghost use Rattle.sq_lines.specs.Cutting.{lines_of};
ghost use Rattle.sq_ticks.specs.Begun.{IsEnded, IsOpen};
ghost use Rattle.sq_top.specs.Found.{IsFound, IsUnfound, HasFront, front_of};
ghost use Rattle.sq_ticks.specs.Judgements.{Starts};
ghost use Rattle.sq_ticks.specs.Lines.{has_end_line};
ghost use Rattle.sq_top.specs.Prefixes.{TakesPrefix};
ghost use Rattle.sq_ticks.specs.Programs.{HasFault, IsProgram, Stops};
ghost use Rattle.sq_ticks.specs.Seen.{seen};
ghost use Rattle.sq_top.specs.Statuses.{ending_line, ending_of, engine_of, EndsAfterAll, EndsAs, EndsBehind, Refuses, status_of};

use crate::calls::Served;
use crate::statuses::{Status, put_line};
use sq_base::{Sink, Source};
use sq_compile::{CompileFault, LONGEST_TEXT};
use sq_print::{ProgramFault, fault_text};
use sq_ticks::{Judged, PIECE, Played, Stop, Text, judge_text, play_lines, play_none, read_piece};
use sq_value::NoMemory;
use std::alloc::Global;

/// How a run ends: with all its ticks played, with a status, or with the line that tells of the fault of its program.
#[derive(Debug, Drop)]
pub enum Ending {
    Finished(Played),
    Ends(Status),
    Refused(Vec<u8>),
}

impl Ending {
    /// Writes the one line that tells of this ending, if it has one, and answers its status, and its engine if it is finished. A fault
    /// of `err` is passed over, and then a prefix of the line was written.
    pub fn tell<E: Sink>(self, err: &mut E) -> Served
        ensures status { result.status ≡ status_of self }
        ensures engine { result.engine ≡ engine_of self }
        ensures told { (Rose (E.faults err.old) (E.faults err.new) → ⊥)
            → Appends (E.taken err.old) (E.taken err.new) (ending_line self) }
        ensures prefix { TakesPrefix (E.taken err.old) (E.taken err.new) (ending_line self) }
    {
        match self {
            Ending::Finished(played) => {
                put_line(err, b"");
                Served {
                    status: finished(played.refused),
                    engine: Some(played.engine),
                }
            }
            Ending::Ends(status) => {
                status.tell(err);
                unserved(status)
            }
            Ending::Refused(line) => {
                put_line(err, &line);
                unserved(Status::BadProgram)
            }
        }
    }
}

// The status of a run that is finished.
fn finished(refused: bool) -> Status
    ensures { result ≡ (if refused then Status.DoneWithRefusals else Status.Done) }
{
    if refused {
        Status::DoneWithRefusals
    } else {
        Status::Done
    }
}

// A run that ended with this status and left no engine.
fn unserved(status: Status) -> Served
    ensures status { result.status ≡ status }
    ensures engine { result.engine ≡ None }
{
    Served {
        status,
        engine: None,
    }
}

/// What the reading of a program text finds.
#[derive(Clone, Copy, Debug, PartialEq, Eq)]
pub enum Found {
    /// The end line. The change lines begin with the bytes of the buffer in this range.
    EndLine { from: usize, to: usize },
    /// The end of the input, and no line end behind an end line.
    EndOfInput,
    /// The text is surely too long.
    TooLong,
}

/// Reads the program text, judges it as soon as that can be done, and plays the change lines as they come, with an engine for so
/// many workers.
pub fn run_input<S: Source, K: Sink>(
    alloc: Global,
    input: &mut S,
    out: &mut K,
    workers: u32,
    limit: u64,
) -> Ending
    requires workers { (1 ≤ workers) × (workers ≤ 64) }
    requires limit { limit ≤ 2 ^ 40 }
    ensures { EndsAs limit workers (seen (S.left input.old) (S.faults input.old)) (seen (S.left input.new) (S.faults input.new))
        (seen (K.taken out.old) (K.faults out.old)) (seen (K.taken out.new) (K.faults out.new)) result }
{
    let mut text = Text::new(alloc);
    let mut buffer = [0; PIECE];
    match read_text(input, limit, &mut text, &mut buffer) {
        Ok(Found::EndLine { from, to }) => serve_lines(
            alloc,
            &text,
            &buffer[from..to],
            input,
            out,
            workers,
            limit,
        ),
        Ok(Found::EndOfInput) => serve_text(alloc, &text, out, workers),
        Ok(Found::TooLong) => refuse(alloc, &ProgramFault::TextTooLong),
        Err(stop) => stopped(stop),
    }
}

// Reads until the program can be judged.
fn read_text<S: Source>(
    input: &mut S,
    limit: u64,
    text: &mut Text,
    buffer: &mut [u8],
) -> Result<Found, Stop>
    requires limit { limit ≤ 2 ^ 40 }
    requires fresh { (text.old.bytes.items ≡ []) × IsOpen text.old.bytes.items text.old.line }
    requires room { 0 < length buffer.old }
    ensures found { IfOk result (IsFound limit (seen (S.left input.old) (S.faults input.old)) (seen (S.left input.new) (S.faults input.new)) text.new buffer.new) }
    ensures stopped { IfErr result (IsUnfound limit (seen (S.left input.old) (S.faults input.old)) (seen (S.left input.new) (S.faults input.new))) }
    ensures later { S.faults input.old ≤ S.faults input.new }
{
    loop {
        let count = read_piece(input, text.bytes.len() as u64, limit, buffer)?;
        if count == 0 {
            return Ok(Found::EndOfInput);
        }
        if let Some(from) = text.take(&buffer[..count])? {
            return Ok(Found::EndLine { from, to: count });
        }
        if text.surely_before() > LONGEST_TEXT {
            return Ok(Found::TooLong);
        }
    }
}

// Judges a text that its end line ended, and plays the change lines, of which the first bytes are there.
fn serve_lines<S: Source, K: Sink>(
    alloc: Global,
    text: &Text,
    first: &[u8],
    input: &mut S,
    out: &mut K,
    workers: u32,
    limit: u64,
) -> Ending
    requires workers { (1 ≤ workers) × (workers ≤ 64) }
    requires limit { (length text.now.bytes.items + 1 + length first.now ≤ limit) × (limit ≤ 2 ^ 40) }
    requires ended { IsEnded text.now.bytes.items text.now.line }
    ensures { EndsBehind limit workers (front_of text.now ++ first.now) (S.left input.old) (S.faults input.old) (S.left input.new) (S.faults input.new)
        (K.taken out.old) (K.faults out.old) (K.taken out.new) (K.faults out.new) result }
{
    let judged = match judge_front(alloc, text, workers) {
        Ok(judged) => judged,
        Err(CompileFault::Fault(fault)) => return refuse(alloc, &fault),
        Err(CompileFault::Memory) => return Ending::Ends(Status::NoMemory),
    };
    let taken = (text.bytes.len() + 1 + first.len()) as u64;
    match play_lines(alloc, judged, first, input, taken, limit, out) {
        Ok(played) => Ending::Finished(played),
        Err(stop) => stopped(stop),
    }
}

// Judges a text behind which the input has ended. Its last line may be the end line, and then there are no change lines.
fn serve_text<K: Sink>(alloc: Global, text: &Text, out: &mut K, workers: u32) -> Ending
    requires workers { (1 ≤ workers) × (workers ≤ 64) }
    requires so_far { IsOpen text.now.bytes.items text.now.line }
    ensures { EndsAfterAll workers text.now.bytes.items (seen (K.taken out.old) (K.faults out.old)) (seen (K.taken out.new) (K.faults out.new)) result }
{
    if !text.is_at_end_line() {
        return refuse(alloc, &without_end(text));
    }
    let judged = match judge_front(alloc, text, workers) {
        Ok(judged) => judged,
        Err(CompileFault::Fault(fault)) => return refuse(alloc, &fault),
        Err(CompileFault::Memory) => return Ending::Ends(Status::NoMemory),
    };
    match play_none(alloc, judged, out) {
        Ok(played) => Ending::Finished(played),
        Err(stop) => stopped(stop),
    }
}

// The fault of an input without an end line.
fn without_end(text: &Text) -> ProgramFault
    requires { has_end_line (lines_of text.now.bytes.items) ≡ false }
    ensures { HasFault text.now.bytes.items result }
{
    if text.bytes.len() > LONGEST_TEXT {
        ProgramFault::TextTooLong
    } else {
        ProgramFault::NoEnd
    }
}

// The program of each input whose text is this one before its last line, or the first fault of it.
fn judge_front(alloc: Global, text: &Text, workers: u32) -> Result<Judged, CompileFault>
    requires workers { (1 ≤ workers) × (workers ≤ 64) }
    requires so_far { IsOpen text.now.bytes.items text.now.line }
    ensures accepted { IfOk result (λ j. (input : List ℕ) → HasFront input text.now → IsProgram input j.program) }
    ensures starts { IfOk result (Starts workers) }
    ensures refused { IfErr result (λ stop. (input : List ℕ) → HasFront input text.now → Stops input stop) }
{
    judge_text(alloc, text.before_last_line(), workers)
}

// The ending of a run that stopped.
fn stopped(stop: Stop) -> Ending
    ensures { result ≡ ending_of stop }
{
    Ending::Ends(match stop {
        Stop::Memory => Status::NoMemory,
        Stop::Read => Status::ReadFault,
        Stop::TooLong => Status::TooLong,
        Stop::Write => Status::WriteFault,
    })
}

// The ending of a program with this fault.
fn refuse(alloc: Global, fault: &ProgramFault) -> Ending
    ensures { Refuses fault.now result }
{
    match fault_text(alloc, fault) {
        Ok(line) => Ending::Refused(line),
        Err(NoMemory) => Ending::Ends(Status::NoMemory),
    }
}
