//! The run of the sample, with what it prints written to a sink.
ghost use Rattle.std.specs.Prelude.{◌≡◌, ◌≤◌, ◌+◌, IfErr, OnOk};
ghost use Rattle.std.specs.Io.KnownBytes.{Appends};
ghost use Rattle.sq_sample.specs.Printed.{sample_text};
ghost use Rattle.sq_sample.specs.Stops.{Stopped};

use crate::run::sample_lines;
use sq_base::{Failed, Sink, put_all};
use sq_value::NoMemory;
use std::alloc::Global;

/// Why the run of the sample stopped before its end.
#[derive(Clone, Copy, Debug, PartialEq, Eq)]
pub enum SampleStop {
    /// A write of the output failed.
    Write,
    /// An allocation was refused.
    Memory,
}

impl From<NoMemory> for SampleStop {
    ghost use Rattle.sq_sample.specs.declared.written.SampleStop.TheVariants.{Memory};

    ghost from_gives = { λ _ stop. stop ≡ Memory };

    fn from(_: NoMemory) -> Self {
        SampleStop::Memory
    }
}

impl From<Failed> for SampleStop {
    ghost use Rattle.sq_sample.specs.declared.written.SampleStop.TheVariants.{Write};

    ghost from_gives = { λ _ stop. stop ≡ Write };

    fn from(_: Failed) -> Self {
        SampleStop::Write
    }
}

/// Runs the sample for a seed, one tick more than `ticks`, and writes the lines that `sample_lines` makes of it, once all ticks were run.
///
/// `Write` says that a write failed: `out` took a prefix of the lines, and its count of faults rose. At `Memory` nothing was written.
pub fn run_sample<K: Sink>(
    alloc: Global,
    seed: u32,
    ticks: u32,
    out: &mut K,
) -> Result<(), SampleStop>
    requires few { ticks ≤ 1000000 }
    ensures told { OnOk result (Appends (K.taken out.old) (K.taken out.new) (sample_text seed (ticks + 1))) }
    ensures stopped { IfErr result (Stopped (K.taken out.old) (K.taken out.new) (K.faults out.old) (K.faults out.new) (sample_text seed (ticks + 1))) }
    ensures later { K.faults out.old ≤ K.faults out.new }
{
    let text = sample_lines(alloc, seed, ticks)?;
    put_all(out, &text)?;
    Ok(())
}
