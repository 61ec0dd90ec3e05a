//! Sources, and a read or a write that failed.
ghost use Rattle.std.specs.Prelude.{◌≡◌, ℕ, Option, ◌≤◌, List, length, IfOk, OnOk, OnErr};
ghost use Rattle.std.specs.Io.KnownBytes.{ReadConsumes};
ghost use Rattle.sq_base.specs.Causes.{HasCause, raised};

/// A read or a write that failed. The count of faults of its source or sink rose in that call.
#[derive(Clone, Copy, Debug, PartialEq, Eq)]
pub struct Failed;

/// Where bytes come from.
pub trait Source {
    /// The bytes that are left, if it tells them.
    ghost left: { Self → Option (List ℕ) };

    /// How often it has failed, in 64 bits. The count stands still at its last value.
    ghost faults: { Self → ℕ };

    /// Moves the next bytes into the front of `buf`, and answers how many.
    ///
    /// For a buffer that is not empty the answer 0 comes exactly if no byte is left, which is the
    /// end of the input. `Failed` raises the count of faults by one, and then no byte was taken; any
    /// other answer leaves the count. The bytes of `buf` past the answer may be anything. Takes no
    /// memory.
    fn read(&mut self, buf: &mut [u8]) -> Result<usize, Failed>
        ensures bound { IfOk result (λ n. n ≤ length buf.new) }
        ensures bytes { ReadConsumes (left self.old) (left self.new) result buf.new }
        ensures cause { HasCause (faults self.old) (faults self.new) result }
        ensures ok { OnOk result (faults self.new ≡ faults self.old) }
        ensures err { OnErr result (faults self.new ≡ raised (faults self.old)) };
}
