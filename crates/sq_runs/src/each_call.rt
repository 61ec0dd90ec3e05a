//! Runs of which each call of the source, or of the sink for the output, fails in turn.
use crate::case::Case;
use crate::cut::whole_ticks;
use crate::play::{Outcome, play_failing};
use crate::wanted::Wanted;
use anyhow::bail;
use sq_base::{Failed, Sink, Source};
use sq_top::Status;
use std::alloc::Global;
use std::thread::Threads;

/// More calls than any run makes.
const MOST_CALLS: u64 = 1000;

/// Lets each read fail in turn, until a run goes through. Answers how many runs ended with the fault.
///
/// Such a run has to print what an input prints that ends behind the last whole tick that was read. The call behind the failing one
/// would fail too, so it is seen that it was not made.
pub fn count_failing_reads<R: Threads + Sync>(
    rt: &R,
    alloc: Global,
    case: Case<'_>,
    input: &[u8],
    wanted: &Wanted,
) -> anyhow::Result<u64> {
    let piece = case.piece()?.max(1);
    for call in 0..MOST_CALLS {
        let failing = vec![in alloc; call, call + 1]?;
        let mut outcome = play_failing(rt, alloc, case, input, failing, Vec::new(alloc))?;
        if wanted.agrees(&outcome) {
            return Ok(call);
        }
        let front = whole_front(input, call.saturating_mul(piece));
        let none = Vec::new(alloc);
        let whole = play_failing(rt, alloc, case, front, none, Vec::new(alloc))?;
        if !is_read_fault(&mut outcome, whole.out.taken()) {
            bail!("read {call} is not told");
        }
    }
    bail!("no run goes through")
}

// The whole ticks among the first bytes of the input.
fn whole_front(input: &[u8], given: u64) -> &[u8] {
    let front = input.get(..given as usize).unwrap_or(input);
    front.get(..whole_ticks(front)).unwrap_or(b"")
}

fn is_read_fault(outcome: &mut Outcome, output: &[u8]) -> bool {
    outcome.status == Status::ReadFault
        && outcome.out.taken() == output
        && outcome.err.taken() == b"{\"status\":\"read fault\"}\n".as_slice()
        && outcome.input.read(&mut [0; 4]) == Err(Failed)
}

/// The same for the writes of the output, of which a prefix is taken.
pub fn count_failing_writes<R: Threads + Sync>(
    rt: &R,
    alloc: Global,
    case: Case<'_>,
    input: &[u8],
    wanted: &Wanted,
) -> anyhow::Result<u64> {
    for call in 0..MOST_CALLS {
        let failing = vec![in alloc; call, call + 1]?;
        let mut outcome = play_failing(rt, alloc, case, input, Vec::new(alloc), failing)?;
        if wanted.agrees(&outcome) {
            return Ok(call);
        }
        if !is_write_fault(&mut outcome, wanted) {
            bail!("write {call} is not told");
        }
    }
    bail!("no run goes through")
}

fn is_write_fault(outcome: &mut Outcome, wanted: &Wanted) -> bool {
    outcome.status == Status::WriteFault
        && wanted.output.starts_with(outcome.out.taken())
        && outcome.out.taken().len() < wanted.output.len()
        && outcome.err.taken() == b"{\"status\":\"write fault\"}\n".as_slice()
        && outcome.out.write(b"x") == Err(Failed)
}
