//! Sinks, and how a text is handed to one.
ghost use Rattle.std.specs.Prelude.{◌≡◌, ℕ, Option, ◌≤◌, ◌<◌, List, length, take, IfOk, OnOk, OnErr};
ghost use Rattle.std.specs.Io.KnownBytes.{Appends, WriteAppends};
ghost use Rattle.sq_base.specs.Causes.{HasCause, raised};

use crate::Failed;

/// Where bytes go to.
pub trait Sink {
    /// The bytes that it took so far, if it tells them.
    ghost taken: { Self → Option (List ℕ) };

    /// How often it has failed, in 64 bits. The count stands still at its last value.
    ghost faults: { Self → ℕ };

    /// Takes a prefix of `bytes`, and answers its length, which is at least 1 if `bytes` is not
    /// empty.
    ///
    /// `Failed` raises the count of faults by one, and then nothing was taken; any other answer
    /// leaves the count. Takes no memory.
    fn write(&mut self, bytes: &[u8]) -> Result<usize, Failed>
        ensures bound { IfOk result (λ n. n ≤ length bytes.now) }
        ensures progress { IfOk result (λ n. 0 < length bytes.now → 0 < n) }
        ensures bytes { WriteAppends (taken self.old) (taken self.new) result bytes.now }
        ensures cause { HasCause (faults self.old) (faults self.new) result }
        ensures ok { OnOk result (faults self.new ≡ faults self.old) }
        ensures err { OnErr result (faults self.new ≡ raised (faults self.old)) };
}

/// Hands all of `bytes` to a sink, in order, in as many calls as it asks for.
///
/// At `Failed` the sink took a prefix of them. Its last call failed and no other: the count of faults
/// rose by one, and when all bytes were taken it did not rise. Takes no memory.
pub fn put_all<K: Sink>(sink: &mut K, bytes: &[u8]) -> Result<(), Failed>
    ensures all { OnOk result (Appends (K.taken sink.old) (K.taken sink.new) bytes.now) }
    ensures prefix { OnErr result ((n : ℕ) × (n ≤ length bytes.now)
        × Appends (K.taken sink.old) (K.taken sink.new) (take n bytes.now)) }
    ensures cause { HasCause (K.faults sink.old) (K.faults sink.new) result }
    ensures ok { OnOk result (K.faults sink.new ≡ K.faults sink.old) }
    ensures err { OnErr result (K.faults sink.new ≡ raised (K.faults sink.old)) }
{
    let mut done = 0;
    while done < bytes.len() {
        let count = sink.write(&bytes[done..])?;
        done += count;
    }
    Ok(())
}
