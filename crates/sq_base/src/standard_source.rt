//! A source over a reader of std.
ghost use Rattle.std.specs.Prelude.{◌≡◌, ◌≤◌, length, IfOk, OnOk, OnErr, IsErr, Ok};
ghost use Rattle.std.specs.Io.KnownBytes.{ReadConsumes};
ghost use Rattle.sq_base.specs.Causes.{HasCause, raised};

use crate::{Failed, Source};
use std::io;
use std::io::Read;
use std::marker::Model;

/// A source over a reader of std. In `main` that over standard input is `StdSource::new(rt.stdin())`,
/// for the `rt: HostRuntime` that `main` is given.
///
/// It gives what the reader gives, and tells what bytes are left if the reader does. Standard input
/// does not: what a real file or terminal holds is known to no contract. Each error of the reader is
/// a fault, an interrupted call too, and nothing else is (`counted`). That each call is one call of
/// the reader is tested only, since a reader of std tells no count of its calls.
#[derive(Debug, Drop)]
pub struct StdSource<R> {
    reader: R,
    faults: u64,
}

impl<R> Model for StdSource<R> {
    ghost use Rattle.sq_base.specs.Standard.{Counted};

    ghost Value = { Counted R };

    ghost view = { λ s. record { stream = s.reader; faults = s.faults } };
}

impl<R> StdSource<R> {
    /// A source over this reader that has not failed. Takes no memory.
    pub fn new(reader: R) -> StdSource<R>
        ensures { result ≡ record { stream = reader; faults = 0 } }
    {
        StdSource { reader, faults: 0 }
    }
}

impl<R: Read> Source for StdSource<R> {
    ghost left = { λ s. R.remaining s.stream };

    ghost faults = { λ s. s.faults };

    fn read(&mut self, buf: &mut [u8]) -> Result<usize, Failed>
        ensures bound { IfOk result (λ n. n ≤ length buf.new) }
        ensures bytes { ReadConsumes (R.remaining self.old.stream) (R.remaining self.new.stream) result buf.new }
        ensures cause { HasCause self.old.faults self.new.faults result }
        ensures ok { OnOk result (self.new.faults ≡ self.old.faults) }
        ensures err { OnErr result (self.new.faults ≡ raised self.old.faults) }
    {
        let outcome = self.reader.read(buf);
        counted(&mut self.faults, outcome)
    }
}

// What a read of std's reader gave. A fault is counted exactly if that read failed.
fn counted(faults: &mut u64, outcome: io::Result<usize>) -> Result<usize, Failed>
    ensures given { IfOk result (λ n. outcome ≡ Ok n) }
    ensures fault { IsErr result → IsErr outcome }
    ensures cause { HasCause faults.old faults.new result }
    ensures ok { OnOk result (faults.new ≡ faults.old) }
    ensures err { OnErr result (faults.new ≡ raised faults.old) }
{
    match outcome {
        Ok(count) => Ok(count),
        Err(_) => {
            *faults = faults.saturating_add(1);
            Err(Failed)
        }
    }
}
