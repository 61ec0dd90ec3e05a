//! The program as one call, and the run that it makes.
ghost use Rattle.std.specs.Prelude.{◌≡◌, ◌≢◌, ◌↔◌, ◌≤◌, ◌^◌, []};
ghost use Rattle.sq_ticks.specs.Seen.{seen};
ghost use Rattle.sq_top.specs.Statuses.{HandsBack, Ran, Told};

use crate::session::run_input;
use crate::statuses::Status;
use sq_base::{Gate, Sink, Source};
use sq_engine::Engine;
use sq_value::Str;
use std::alloc::Global;
use std::thread::Threads;

/// The most bytes that an input may have.
const LONGEST_INPUT: u64 = 1 << 40;

/// What a run leaves: how it ended, and its engine if it is finished.
#[derive(Debug, Drop)]
pub struct Served {
    pub status: Status,
    pub engine: Option<Engine>,
}

/// Does all that the program does, for the words of its command line after its own name. Without any it is `serve` with one
/// worker and an input of at most 2^40 bytes.
///
/// If there is a word, the answer is `Usage`, and nothing is read, written or called.
pub fn top<R: Threads + Sync, S: Source, K: Sink, E: Sink, G: Gate>(
    rt: &R,
    alloc: Global,
    words: &[Str],
    input: &mut S,
    out: &mut K,
    err: &mut E,
    gate: &G,
) -> Status
    ensures usage { (result ≡ Status.Usage) ↔ (words.now ≢ []) }
    ensures untouched { result ≡ Status.Usage
        → (input.new ≡ input.old) × (out.new ≡ out.old) × (err.new ≡ err.old) }
    ensures ran { Ran (2 ^ 40) (seen (S.left input.old) (S.faults input.old)) (seen (S.left input.new) (S.faults input.new))
        (seen (K.taken out.old) (K.faults out.old)) (seen (K.taken out.new) (K.faults out.new)) result }
    ensures told { Told (S.left input.old) (seen (E.taken err.old) (E.faults err.old)) (seen (E.taken err.new) (E.faults err.new)) result }
{
    if !words.is_empty() {
        return Status::Usage;
    }
    serve(rt, alloc, input, out, err, gate, 1, LONGEST_INPUT).status
}

/// Reads a program and its change lines from `input`, keeps the program's views current, and writes their changes after
/// each tick to `out`: at `Done` and `DoneWithRefusals` exactly `output` of the program and of the bytes that the input
/// held, however they came in pieces and whatever `workers` is.
///
/// It works as the bytes come: a tick is written once its commit line was read, before more is read. If a read fails, or the input
/// has more than `limit` bytes, `out` has exactly the output of the bytes up to the end of the last commit line; of too long an input
/// the first `limit` bytes count, exactly one more is read, and the answer is `TooLong`. If the status tells of a fault, its one line goes to `err`. If a write to `err` fails, that fault is passed over, and `err` holds a
/// prefix of the line. `NoMemory` says that memory ran out. The gate is not called yet.
///
/// At `Done` and `DoneWithRefusals`, and only then, the engine is handed back: it has started, its circuit stands for the program, it has
/// as many shards as there are workers, and its tables are those after the accepted ticks.
pub fn serve<R: Threads + Sync, S: Source, K: Sink, E: Sink, G: Gate>(
    rt: &R,
    alloc: Global,
    input: &mut S,
    out: &mut K,
    err: &mut E,
    gate: &G,
    workers: u32,
    limit: u64,
) -> Served
    requires workers { (1 ≤ workers) × (workers ≤ 64) }
    requires limit { limit ≤ 2 ^ 40 }
    ensures ran { Ran limit (seen (S.left input.old) (S.faults input.old)) (seen (S.left input.new) (S.faults input.new))
        (seen (K.taken out.old) (K.faults out.old)) (seen (K.taken out.new) (K.faults out.new)) result.status }
    ensures told { Told (S.left input.old) (seen (E.taken err.old) (E.faults err.old)) (seen (E.taken err.new) (E.faults err.new)) result.status }
    ensures engine { HandsBack workers (S.left input.old) result.status result.engine }
    ensures no_usage { result.status ≢ Status.Usage }
{
    run_input(alloc, input, out, workers, limit).tell(err)
}
