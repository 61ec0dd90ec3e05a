//! The program prints on made inputs what the reference prints.
use crate::generate::input_of;
use crate::listed::{Counts, Run, run_by_lists};
use sq_base::{FreeGate, MemSink, MemSource};
use sq_top::{Status, serve};
use std::alloc::Global;
use std::process::Abort;
use std::test::Fail;
use std::thread::Threads;

/// More than any run prints.
const ROOM: usize = 10_000_000;

/// The greatest limit on an input's bytes.
const LONGEST_INPUT: u64 = 1 << 40;

// The status of a run of one worker.
fn status_of_run<R: Threads + Sync>(
    rt: &R,
    alloc: Global,
    input: &mut MemSource,
    out: &mut MemSink,
    err: &mut MemSink,
) -> Status {
    serve(rt, alloc, input, out, err, &FreeGate, 1, LONGEST_INPUT).status
}

// How the program has to end where the reference made this run.
fn status_of(counts: Counts) -> Status {
    if counts.malformed == 0 && counts.absent == 0 && counts.range == 0 && counts.unfinished == 0 {
        Status::Done
    } else {
        Status::DoneWithRefusals
    }
}

/// Whether the program prints what the reference printed for this input, and ends as it should.
pub fn agrees<R: Threads + Sync>(
    rt: &R,
    alloc: Global,
    input: &[u8],
    run: &Run,
) -> Result<bool, Fail> {
    let mut source = MemSource::new(Vec::from_slice(alloc, input)?, 4096, Vec::new(alloc));
    let mut out = MemSink::new(alloc, 4096, ROOM, Vec::new(alloc))?;
    let mut err = MemSink::new(alloc, 4096, ROOM, Vec::new(alloc))?;
    let status = status_of_run(rt, alloc, &mut source, &mut out, &mut err);
    Ok(
        status == status_of(run.counts)
            && out.taken() == run.output.as_slice()
            && err.taken().is_empty(),
    )
}

// Adds up what came about in runs.
fn both(a: Counts, b: Counts) -> Counts {
    Counts {
        accepted: a.accepted.saturating_add(b.accepted),
        malformed: a.malformed.saturating_add(b.malformed),
        absent: a.absent.saturating_add(b.absent),
        range: a.range.saturating_add(b.range),
        unfinished: a.unfinished.saturating_add(b.unfinished),
        changes: a.changes.saturating_add(b.changes),
    }
}

// Holds the program against the reference on the inputs of a hundred seeds, and adds up what came about.
fn made_agree<R: Threads + Sync + Abort>(
    rt: &R,
    alloc: Global,
    first: u64,
) -> Result<Counts, Fail> {
    let mut counts = Counts::default();
    for place in 0..100 {
        let seed = first.saturating_add(place);
        let input = input_of(alloc, seed)?;
        let run = run_by_lists(alloc, &input)?;
        assert!(rt; agrees(rt, alloc, &input, &run)?, "seed {seed}");
        counts = both(counts, run.counts);
    }
    Ok(counts)
}

// Enough came about, so that the tests are not empty.
fn are_many(counts: Counts) -> bool {
    counts.accepted >= 600
        && counts.malformed >= 100
        && counts.absent >= 100
        && counts.range >= 10
        && counts.unfinished >= 20
        && counts.changes >= 450
}

#[test]
fn first_hundred_inputs(rt: HostRuntime) -> Result<(), Fail> {
    let counts = made_agree(&rt, rt.alloc(), 0)?;
    assert!(rt; are_many(counts), "{counts:?}");
    Ok(())
}

#[test]
fn second_hundred_inputs(rt: HostRuntime) -> Result<(), Fail> {
    let counts = made_agree(&rt, rt.alloc(), 100)?;
    assert!(rt; are_many(counts), "{counts:?}");
    Ok(())
}

#[test]
fn third_hundred_inputs(rt: HostRuntime) -> Result<(), Fail> {
    let counts = made_agree(&rt, rt.alloc(), 200)?;
    assert!(rt; are_many(counts), "{counts:?}");
    Ok(())
}
