//! A sink over a writer of std.
ghost use Rattle.std.specs.Prelude.{◌≡◌, ◌≤◌, ◌<◌, length, IfOk, OnOk, OnErr, IsErr, Ok, false};
ghost use Rattle.std.specs.Io.KnownBytes.{WriteAppends};
ghost use Rattle.sq_base.specs.Causes.{HasCause, raised};

use crate::{Failed, Sink};
use std::io;
use std::io::Write;
use std::marker::Model;

/// A sink over a writer of std. In `main` those over standard output and standard error are
/// `StdSink::new(rt.stdout())` and `StdSink::new(rt.stderr())`, for the `rt: HostRuntime` that `main`
/// is given.
///
/// These two writers hold no buffer: what a call took has left the program when it returns, and
/// nothing is to be flushed at the end. A writer that buffers does not belong here, since this sink
/// never flushes.
///
/// It takes what the writer takes, and tells what bytes it took if the writer does. Those two do not:
/// what a real file or terminal holds is known to no contract. Each error of the writer is a fault, an
/// interrupted call too, and so is a call that takes 0 bytes of a piece that is not empty; nothing else
/// is (`counted`). That each call is one call of the writer is tested only, since a writer of std tells
/// no count of its calls.
#[derive(Debug, Drop)]
pub struct StdSink<W> {
    writer: W,
    faults: u64,
}

impl<W> Model for StdSink<W> {
    ghost use Rattle.sq_base.specs.Standard.{Counted};

    ghost Value = { Counted W };

    ghost view = { λ s. record { stream = s.writer; faults = s.faults } };
}

impl<W> StdSink<W> {
    /// A sink over this writer that has not failed. Takes no memory.
    pub fn new(writer: W) -> StdSink<W>
        ensures { result ≡ record { stream = writer; faults = 0 } }
    {
        StdSink { writer, faults: 0 }
    }
}

impl<W: Write> Sink for StdSink<W> {
    ghost taken = { λ s. W.contents s.stream };

    ghost faults = { λ s. s.faults };

    fn write(&mut self, bytes: &[u8]) -> Result<usize, Failed>
        ensures bound { IfOk result (λ n. n ≤ length bytes.now) }
        ensures progress { IfOk result (λ n. 0 < length bytes.now → 0 < n) }
        ensures bytes { WriteAppends (W.contents self.old.stream) (W.contents self.new.stream) result bytes.now }
        ensures cause { HasCause self.old.faults self.new.faults result }
        ensures ok { OnOk result (self.new.faults ≡ self.old.faults) }
        ensures err { OnErr result (self.new.faults ≡ raised self.old.faults) }
    {
        let outcome = self.writer.write(bytes);
        counted(&mut self.faults, bytes.is_empty(), outcome)
    }
}

// What a write of std's writer took. A fault is counted exactly if that write failed, or took nothing of a
// piece that is not empty.
fn counted(faults: &mut u64, empty: bool, outcome: io::Result<usize>) -> Result<usize, Failed>
    ensures taken { IfOk result (λ n. outcome ≡ Ok n) }
    ensures progress { IfOk result (λ n. empty ≡ false → 0 < n) }
    ensures fault { IsErr result → IfOk outcome (λ n. (n ≡ 0) × (empty ≡ false)) }
    ensures cause { HasCause faults.old faults.new result }
    ensures ok { OnOk result (faults.new ≡ faults.old) }
    ensures err { OnErr result (faults.new ≡ raised faults.old) }
{
    match outcome {
        Ok(count) if count > 0 || empty => Ok(count),
        _ => {
            *faults = faults.saturating_add(1);
            Err(Failed)
        }
    }
}
