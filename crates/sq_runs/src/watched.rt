//! Sources that give an input in two pieces, or that look at what was printed before each byte.
ghost use Rattle.std.specs.Prelude.{Some};

use crate::case::made;
use crate::cut::whole_ticks;
use crate::wanted::Wanted;
use anyhow::bail;
use sq_base::{Failed, FreeGate, MemSink, MemSource, Sink, Source};
use sq_top::serve;
use std::alloc::Global;
use std::sync::Arc;
use std::sync::atomic::{AtomicU64, Ordering};
use std::thread::Threads;

/// The greatest limit on an input's bytes.
const LONGEST_INPUT: u64 = 1 << 40;

/// More bytes than any call moves.
const LONGEST_PIECE: usize = 1 << 20;

/// The room of each sink.
const ROOM: usize = 100_000;

/// A source that gives its first bytes in one piece, and the rest in another.
#[derive(Drop)]
struct InTwo {
    source: MemSource,
    first: usize,
}

impl Source for InTwo {
    ghost left = { λ s. Some s.source.left };

    ghost faults = { λ s. s.source.faults };

    fn read(&mut self, buf: &mut [u8]) -> Result<usize, Failed> {
        let most = if self.first == 0 {
            buf.len()
        } else {
            self.first.min(buf.len())
        };
        let count = self.source.read(&mut buf[..most])?;
        self.first = self.first.saturating_sub(count);
        Ok(count)
    }
}

/// A source of single bytes that looks, before it gives one, whether exactly so many bytes were printed as are due then.
#[derive(Drop)]
struct Watching {
    source: MemSource,
    printed: Arc<AtomicU64, Global>,
    due: Vec<u64>,
    at: usize,
    agrees: bool,
}

/// A sink that tells how many bytes it took.
#[derive(Drop)]
struct Watched {
    sink: MemSink,
    printed: Arc<AtomicU64, Global>,
}

impl Source for Watching {
    ghost left = { λ s. Some s.source.left };

    ghost faults = { λ s. s.source.faults };

    fn read(&mut self, buf: &mut [u8]) -> Result<usize, Failed> {
        let printed = self.printed.load(Ordering::SeqCst);
        if self.due.get(self.at) != Some(&printed) {
            self.agrees = false;
        }
        let count = self.source.read(buf)?;
        self.at = self.at.saturating_add(count);
        Ok(count)
    }
}

impl Sink for Watched {
    ghost taken = { λ s. Some s.sink.taken };

    ghost faults = { λ s. s.sink.faults };

    fn write(&mut self, bytes: &[u8]) -> Result<usize, Failed> {
        let count = self.sink.write(bytes)?;
        self.printed.fetch_add(count as u64, Ordering::SeqCst);
        Ok(count)
    }
}

/// Gives the input in two pieces, cut at each place in turn. Answers how many cuttings there are; each has to bring what is wanted.
pub fn count_cuttings<R: Threads + Sync>(
    rt: &R,
    alloc: Global,
    input: &[u8],
    wanted: &Wanted,
) -> anyhow::Result<u64> {
    let mut cuttings: u64 = 0;
    for first in 0..=input.len() {
        let bytes = Vec::from_slice(alloc, input)?;
        let mut source = InTwo {
            source: MemSource::new(bytes, LONGEST_PIECE, Vec::new(alloc)),
            first,
        };
        let mut out = sink(alloc)?;
        let mut err = sink(alloc)?;
        let served = serve(
            rt,
            alloc,
            &mut source,
            &mut out,
            &mut err,
            &FreeGate,
            1,
            LONGEST_INPUT,
        );
        if !wanted.is(served.status, out.taken(), err.taken()) {
            bail!("cut at {first} it differs");
        }
        cuttings = cuttings.wrapping_add(1);
    }
    Ok(cuttings)
}

/// Gives the input byte by byte. Before each byte exactly the output of the ticks that are whole by then has to be printed. Answers
/// how many bytes there are.
pub fn count_bytes_in_time<R: Threads + Sync>(
    rt: &R,
    alloc: Global,
    input: &[u8],
    wanted: &Wanted,
) -> anyhow::Result<u64> {
    let printed = Arc::new(alloc, AtomicU64::new(0))?;
    let mut source = Watching {
        source: MemSource::new(Vec::from_slice(alloc, input)?, 1, Vec::new(alloc)),
        printed: Arc::try_clone(&printed)?,
        due: due_bytes(rt, alloc, input)?,
        at: 0,
        agrees: true,
    };
    let mut out = Watched {
        sink: sink(alloc)?,
        printed,
    };
    let mut err = sink(alloc)?;
    let served = serve(
        rt,
        alloc,
        &mut source,
        &mut out,
        &mut err,
        &FreeGate,
        1,
        LONGEST_INPUT,
    );
    if !wanted.is(served.status, out.sink.taken(), err.taken()) {
        bail!("it differs");
    }
    if !source.agrees {
        bail!("a tick is not printed in time");
    }
    Ok(input.len() as u64)
}

// For each number of bytes of the input, how long the output of the ticks is that are whole by then.
fn due_bytes<R: Threads + Sync>(rt: &R, alloc: Global, input: &[u8]) -> anyhow::Result<Vec<u64>> {
    let mut due = Vec::new(alloc);
    let mut whole = 0;
    let mut length: u64 = 0;
    for given in 0..=input.len() {
        let now = whole_ticks(&input[..given]);
        if now != whole {
            whole = now;
            length = printed_bytes(rt, alloc, &input[..given])?;
        }
        due.push(length)?;
    }
    Ok(due)
}

// How long the output of an input is that ends behind a tick.
fn printed_bytes<R: Threads + Sync>(rt: &R, alloc: Global, input: &[u8]) -> anyhow::Result<u64> {
    let bytes = Vec::from_slice(alloc, input)?;
    let mut source = MemSource::new(bytes, LONGEST_PIECE, Vec::new(alloc));
    let mut out = sink(alloc)?;
    let mut err = sink(alloc)?;
    serve(
        rt,
        alloc,
        &mut source,
        &mut out,
        &mut err,
        &FreeGate,
        1,
        LONGEST_INPUT,
    );
    Ok(out.taken().len() as u64)
}

fn sink(alloc: Global) -> anyhow::Result<MemSink> {
    made(MemSink::new(alloc, LONGEST_PIECE, ROOM, Vec::new(alloc)))
}
