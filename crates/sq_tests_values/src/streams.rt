//! Sources, sinks and gates: that calls succeed with ample memory, and worked values from outside.
ghost use Rattle.std.specs.Prelude.{◌≤◌, IfOk};

use sq_base::{
    Failed, FreeGate, Gate, MemSink, MemSource, Sink, Source, StdSink, StdSource, Steps, put_all,
};
use sq_value::NoMemory;
use std::alloc::{AllocError, Global};
use std::io;
use std::io::{ErrorKind, Read, Write};
use std::process::Abort;
use std::test::Fail;

const TEXT: &[u8] = b"abcdefg";

// The outcome of one call, through the bound.
fn read_from<S: Source>(source: &mut S, buf: &mut [u8]) -> Result<usize, Failed> {
    source.read(buf)
}

fn write_to<K: Sink>(sink: &mut K, bytes: &[u8]) -> Result<usize, Failed> {
    sink.write(bytes)
}

// Makes a source of `TEXT` and reads from it, and compares what each call answers.
fn reads(
    rt: &impl Abort,
    alloc: Global,
    (piece, room): (usize, usize),
    failing: &[u64],
    outcomes: &[Result<usize, Failed>],
) -> Result<(), AllocError> {
    let bytes = Vec::from_slice(alloc, TEXT)?;
    let mut source = MemSource::new(bytes, piece, Vec::from_slice(alloc, failing)?);
    let mut buf = vec![in alloc; 0u8; room]?;
    for outcome in outcomes {
        assert_eq!(rt;
            source.read(&mut buf),
            *outcome,
            "piece {piece}, buffer {room}"
        );
    }
    Ok(())
}

#[test]
fn a_source_in_memory_gives_its_pieces(rt: HostRuntime) -> Result<(), AllocError> {
    let alloc = rt.alloc();
    reads(
        &rt,
        alloc,
        (3, 8),
        &[],
        &[Ok(3), Ok(3), Ok(1), Ok(0), Ok(0)],
    )?;
    reads(&rt, alloc, (0, 8), &[], &[Ok(1), Ok(1), Ok(1)])?;
    reads(&rt, alloc, (9, 4), &[], &[Ok(4), Ok(3), Ok(0)])?;
    reads(&rt, alloc, (9, 8), &[0], &[Err(Failed), Ok(7), Ok(0)])?;
    reads(
        &rt,
        alloc,
        (4, 8),
        &[1, 3, 9],
        &[Ok(4), Err(Failed), Ok(3), Err(Failed), Ok(0)],
    )?;
    reads(&rt, alloc, (3, 0), &[1], &[Ok(0), Err(Failed), Ok(0)])
}

// Makes a sink and hands it "abcd" at each call, and compares what each answers and what the sink has taken in the end.
fn writes(
    rt: &impl Abort,
    alloc: Global,
    (piece, room): (usize, usize),
    failing: &[u64],
    outcomes: &[Result<usize, Failed>],
    taken: &[u8],
) -> Result<(), NoMemory> {
    let mut sink = MemSink::new(alloc, piece, room, Vec::from_slice(alloc, failing)?)?;
    for outcome in outcomes {
        assert_eq!(rt; sink.write(b"abcd"), *outcome, "piece {piece}, room {room}");
    }
    assert_eq!(rt; sink.taken(), taken);
    Ok(())
}

#[test]
fn a_sink_in_memory_takes_its_pieces(rt: HostRuntime) -> Result<(), NoMemory> {
    let alloc = rt.alloc();
    let all = &[Ok(4), Ok(4), Ok(2), Err(Failed)];
    writes(&rt, alloc, (9, 10), &[], all, b"abcdabcdab")?;
    writes(&rt, alloc, (3, 100), &[], &[Ok(3), Ok(3)], b"abcabc")?;
    let single = &[Ok(1), Ok(1), Err(Failed)];
    writes(&rt, alloc, (0, 2), &[], single, b"aa")?;
    let failing = &[Ok(3), Err(Failed), Ok(1), Err(Failed)];
    writes(&rt, alloc, (3, 4), &[1], failing, b"abca")
}

// If nothing is handed over no room is needed.
#[test]
fn a_full_sink_takes_nothing(rt: HostRuntime) -> Result<(), NoMemory> {
    let alloc = rt.alloc();
    let mut sink = MemSink::new(alloc, 3, 0, Vec::new(alloc))?;
    assert_eq!(rt; sink.write(b"abcd"), Err(Failed));
    assert_eq!(rt; sink.write(b""), Ok(0));
    Ok(())
}

#[test]
fn all_is_put_in_order(rt: HostRuntime) -> Result<(), Fail> {
    let alloc = rt.alloc();
    let mut sink = MemSink::new(alloc, 3, 1_000_000, vec![in alloc; 3]?)?;
    assert_eq!(rt; put_all(&mut sink, TEXT), Ok(()));
    assert_eq!(rt; sink.taken(), TEXT);
    // No call is made for no bytes: the next one is the fourth, which fails.
    assert_eq!(rt; put_all(&mut sink, b""), Ok(()));
    assert_eq!(rt; write_to(&mut sink, b"x"), Err(Failed));
    Ok(())
}

#[test]
fn a_failed_call_is_the_last(rt: HostRuntime) -> Result<(), Fail> {
    let alloc = rt.alloc();
    let mut sink = MemSink::new(alloc, 3, 1_000_000, vec![in alloc; 2, 3]?)?;
    assert_eq!(rt; put_all(&mut sink, b"abcdefgh"), Err(Failed));
    assert_eq!(rt; sink.taken(), b"abcdef".as_slice());
    // The calls 0, 1 and 2 were made and no other: the next one is call 3, which fails too.
    assert_eq!(rt; write_to(&mut sink, b"x"), Err(Failed));
    assert_eq!(rt; write_to(&mut sink, b"x"), Ok(1));
    assert_eq!(rt; sink.taken(), b"abcdefx".as_slice());
    Ok(())
}

// A stream of std that answers what it is told, one answer a call.
#[derive(Drop)]
struct Scripted {
    answers: &'static [Option<usize>],
    calls: usize,
}

impl Scripted {
    fn answer(&mut self, most: usize) -> io::Result<usize>
        ensures { IfOk result (λ n. n ≤ most) }
    {
        let answer = self.answers.get(self.calls).copied().flatten();
        self.calls = self.calls.saturating_add(1);
        match answer {
            Some(count) => Ok(count.min(most)),
            None => Err(ErrorKind::Other.into()),
        }
    }
}

impl Read for Scripted {
    fn read(&mut self, buf: &mut [u8]) -> io::Result<usize> {
        self.answer(buf.len())
    }
}

impl Write for Scripted {
    fn write(&mut self, buf: &[u8]) -> io::Result<usize> {
        self.answer(buf.len())
    }

    fn flush(&mut self) -> io::Result<()> {
        Ok(())
    }
}

#[test]
fn standard_output_takes_all(rt: HostRuntime) {
    let text = b"Written by a test of sinks.\n";
    assert_eq!(rt; put_all(&mut StdSink::new(rt.stdout()), text), Ok(()));
}

#[test]
fn readers_of_std_are_passed_on(rt: HostRuntime) {
    let answers = &[Some(2), None, Some(0), Some(9)];
    let mut source = StdSource::new(Scripted { answers, calls: 0 });
    let mut buf = [0; 4];
    for outcome in [Ok(2), Err(Failed), Ok(0), Ok(4)] {
        assert_eq!(rt; read_from(&mut source, &mut buf), outcome);
    }
}

#[test]
fn writers_of_std_are_passed_on(rt: HostRuntime) {
    let answers = &[Some(2), Some(0), Some(0), None, Some(9)];
    let mut sink = StdSink::new(Scripted { answers, calls: 0 });
    assert_eq!(rt; write_to(&mut sink, b"abcd"), Ok(2));
    // Nothing taken of a piece is a fault, and nothing taken of nothing is none.
    assert_eq!(rt; write_to(&mut sink, b"abcd"), Err(Failed));
    assert_eq!(rt; write_to(&mut sink, b""), Ok(0));
    assert_eq!(rt; put_all(&mut sink, b"abcd"), Err(Failed));
    assert_eq!(rt; put_all(&mut sink, b"abcd"), Ok(()));
}

fn pass<G: Gate>(gate: &G) {
    gate.at(7);
}

#[test]
fn a_free_gate_lets_pass() {
    pass(&FreeGate);
}

#[test]
fn steps_are_counted(rt: HostRuntime) {
    let mut steps = Steps::begin("ledger");
    steps.tick();
    let mut part = steps.split();
    part.tick();
    part.tick();
    assert_eq!(rt; part.count(), 2);
    assert_eq!(rt; steps.count(), 1);
    steps.merge(part);
    assert_eq!(rt; steps.count(), 3);
    assert_eq!(rt; steps.end(), "ledger");
}
