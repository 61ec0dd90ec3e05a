//! The program: `sq_main` reads a SQL program and its change lines from standard input, and writes the changes of the
//! views to standard output.
#![tactic(auto)]

use sq_base::{FreeGate, StdSink, StdSource};
use sq_top::{Status, top};
use sq_value::{NoMemory, Str};
use std::alloc::AllocFailed;
use std::process::ExitCode;
use std::rt::Env;
use std::{env, io};

/// Why the system did not hand over the words of the command line.
#[derive(Clone, Copy, Debug, PartialEq, Eq)]
enum WordsFault {
    Memory,
    Refused,
}

impl WordsFault {
    // The number that the program ends with: that of the status, or one that no status has.
    fn code(self) -> u8 {
        match self {
            WordsFault::Memory => Status::NoMemory.code(),
            WordsFault::Refused => 9,
        }
    }
}

impl From<NoMemory> for WordsFault {
    fn from(_: NoMemory) -> Self {
        WordsFault::Memory
    }
}

impl<T: Drop> From<AllocFailed<T>> for WordsFault {
    fn from(_: AllocFailed<T>) -> Self {
        WordsFault::Memory
    }
}

impl From<io::Error> for WordsFault {
    fn from(error: io::Error) -> Self {
        match error.kind() {
            io::ErrorKind::OutOfMemory => WordsFault::Memory,
            _ => WordsFault::Refused,
        }
    }
}

// The words after the program's own name.
fn words<R: Env + AllocGlobal>(rt: &R) -> Result<Vec<Str>, WordsFault> {
    let mut words = Vec::new(rt.alloc());
    for word in env::args(rt)?.skip(1) {
        words.push(Str::of(rt.alloc(), word.as_str())?)?;
    }
    Ok(words)
}

fn main(rt: HostRuntime) -> ExitCode {
    let words = match words(&rt) {
        Ok(words) => words,
        Err(fault) => return ExitCode::from(fault.code()),
    };
    let mut input = StdSource::new(rt.stdin());
    let mut out = StdSink::new(rt.stdout());
    let mut err = StdSink::new(rt.stderr());
    let status = top(
        &rt,
        rt.alloc(),
        &words,
        &mut input,
        &mut out,
        &mut err,
        &FreeGate,
    );
    ExitCode::from(status.code())
}
