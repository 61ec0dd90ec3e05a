//! One run of a case.
use crate::case::{Case, made};
use sq_base::{FreeGate, MemSink, MemSource};
use sq_top::{Status, serve, top};
use sq_value::Str;
use std::alloc::Global;
use std::thread::Threads;

/// The greatest limit on an input's bytes.
const LONGEST_INPUT: u64 = 1 << 40;

/// What the sink for errors takes at most.
const ERROR_ROOM: usize = 1000;

/// What a run left.
#[derive(Drop)]
pub struct Outcome {
    pub status: Status,
    pub input: MemSource,
    pub out: MemSink,
    pub err: MemSink,
}

/// Runs a case on its input.
pub fn play<R: Threads + Sync>(
    rt: &R,
    alloc: Global,
    case: Case<'_>,
    input: &[u8],
) -> anyhow::Result<Outcome> {
    let failing_reads = case.failing_reads(alloc)?;
    let failing_writes = case.failing_writes(alloc)?;
    play_failing(rt, alloc, case, input, failing_reads, failing_writes)
}

/// Runs a case on its input, with these calls that fail.
pub fn play_failing<R: Threads + Sync>(
    rt: &R,
    alloc: Global,
    case: Case<'_>,
    input: &[u8],
    failing_reads: Vec<u64>,
    failing_writes: Vec<u64>,
) -> anyhow::Result<Outcome> {
    let piece = case.piece()? as usize;
    let room = case.room()? as usize;
    let failing_errors = case.failing_errors(alloc)?;
    let mut outcome = Outcome {
        status: Status::Usage,
        input: MemSource::new(Vec::from_slice(alloc, input)?, piece, failing_reads),
        out: made(MemSink::new(alloc, piece, room, failing_writes))?,
        err: made(MemSink::new(alloc, piece, ERROR_ROOM, failing_errors))?,
    };
    let words = case.words(alloc)?;
    let workers = case.workers()?;
    let limit = case.limit()?;
    outcome.status = call(rt, alloc, &words, workers, limit, &mut outcome);
    Ok(outcome)
}

// Calls `serve` if there is a number of workers, and else `top`.
fn call<R: Threads + Sync>(
    rt: &R,
    alloc: Global,
    words: &[Str],
    workers: Option<u64>,
    limit: Option<u64>,
    objects: &mut Outcome,
) -> Status {
    let input = &mut objects.input;
    let out = &mut objects.out;
    let err = &mut objects.err;
    match workers {
        Some(workers) => {
            let workers = workers.clamp(1, 64) as u32;
            let limit = limit.unwrap_or(LONGEST_INPUT).min(LONGEST_INPUT);
            serve(rt, alloc, input, out, err, &FreeGate, workers, limit).status
        }
        None => top(rt, alloc, words, input, out, err, &FreeGate),
    }
}
