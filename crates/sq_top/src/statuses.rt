//! How a run ends.
ghost use Rattle.std.specs.Prelude.{◌≡◌};
ghost use Rattle.std.specs.Io.KnownBytes.{Appends};
ghost use Rattle.sq_base.specs.Causes.{Rose};
ghost use Rattle.sq_top.specs.Prefixes.{TakesPrefix};

use sq_base::{Sink, put_all};

/// How a run ends.
#[derive(Clone, Copy, Debug, PartialEq, Eq)]
pub enum Status {
    /// The whole output was written, and no tick was refused.
    Done,
    /// The words of the command line are not understood. Nothing was read or written.
    Usage,
    /// The whole output was written, and a tick was refused.
    DoneWithRefusals,
    /// The program text has a fault. Nothing was written.
    BadProgram,
    /// A read failed.
    ReadFault,
    /// A write of the output failed.
    WriteFault,
    /// An allocation was refused.
    NoMemory,
    /// The input has more bytes than the limit.
    TooLong,
}

impl Status {
    ghost use Rattle.sq_top.specs.Statuses.{code_of, status_line};

    /// The number that the program ends with. Takes no memory.
    pub fn code(self) -> u8
        ensures { result ≡ code_of self }
    {
        match self {
            Status::Done => 0,
            Status::Usage => 2,
            Status::DoneWithRefusals => 3,
            Status::BadProgram => 4,
            Status::ReadFault => 5,
            Status::WriteFault => 6,
            Status::NoMemory => 7,
            Status::TooLong => 8,
        }
    }

    /// Writes the one line that tells of this status, if it has one of its own. A fault of `err` is passed over, and then a
    /// prefix of the line was written.
    pub fn tell<E: Sink>(self, err: &mut E)
        ensures whole { (Rose (E.faults err.old) (E.faults err.new) → ⊥) → Appends (E.taken err.old) (E.taken err.new) (status_line self) }
        ensures prefix { TakesPrefix (E.taken err.old) (E.taken err.new) (status_line self) }
    {
        put_line(err, self.line());
    }

    fn line(self) -> &'static [u8]
        ensures { result.now ≡ status_line self }
    {
        match self {
            Status::Done | Status::Usage | Status::DoneWithRefusals | Status::BadProgram => b"",
            Status::ReadFault => b"{\"status\":\"read fault\"}\n",
            Status::WriteFault => b"{\"status\":\"write fault\"}\n",
            Status::NoMemory => b"{\"status\":\"no memory\"}\n",
            Status::TooLong => b"{\"status\":\"input too long\"}\n",
        }
    }
}

/// Writes a line to a sink for errors, whose fault is passed over: then it took a prefix.
pub fn put_line<E: Sink>(err: &mut E, line: &[u8])
    ensures whole { (Rose (E.faults err.old) (E.faults err.new) → ⊥) → Appends (E.taken err.old) (E.taken err.new) line.now }
    ensures prefix { TakesPrefix (E.taken err.old) (E.taken err.new) line.now }
{
    let _ = put_all(err, line);
}
