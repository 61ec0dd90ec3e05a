//! Runs of entries: what a trace is made of, and what changes it.
ghost use Rattle.std.specs.Prelude.{◌≡◌, IfOk};
ghost use Rattle.sq_trace.specs.Runs.{IsRun};
ghost use Rattle.sq_trace.specs.Keys.{AreDistinct, AllInRange, IsRunOf};

use crate::Entry;
use crate::sorting::{is_run, sorted};
use sq_value::NoMemory;
use sq_zset::Group;
use std::alloc::Global;
use std::marker::Model;

/// Payloads by key and row: entries whose places ascend, with no payload of zero.
///
/// Contracts see it as the list of its entries.
#[derive(Debug, Drop)]
pub struct Keyed<P: Group> {
    entries: Vec<Entry<P>>,
}

impl<P: Group> Model for Keyed<P> {
    ghost use Rattle.std.specs.Prelude.{List};
    ghost use Rattle.sq_trace.specs.declared.entry.Entry.{Entry as Placed};
    ghost use Rattle.sq_trace.specs.Runs.{IsRun};

    ghost Value = { List (Placed P) };

    ghost view = { λ k. k.entries.items };

    ghost invariant = { λ k. IsRun P.addition P.first_outside k.entries.items };
}

impl<P: Group> Keyed<P> {
    /// The run of these entries, of which no two have the same key and row, or `NoMemory` when memory runs out.
    ///
    /// Entries whose payload is zero are dropped. Entries that ascend already are taken as they are, without a copy.
    pub fn of(alloc: Global, entries: Vec<Entry<P>>) -> Result<Keyed<P>, NoMemory>
        requires distinct { AreDistinct entries.items }
        requires in_range { AllInRange P.first_outside entries.items }
        ensures { IfOk result (λ run. IsRunOf P.addition P.first_outside entries.items run) }
    {
        if is_run(&entries) {
            return Ok(Keyed { entries });
        }
        let run = sorted(alloc, &entries)?;
        Ok(Keyed { entries: run })
    }

    /// The run of these entries. Takes no memory.
    pub(crate) fn from_run(entries: Vec<Entry<P>>) -> Keyed<P>
        requires { IsRun P.addition P.first_outside entries.items }
        ensures { result ≡ entries.items }
    {
        Keyed { entries }
    }

    /// The entries, ascending. Takes no memory.
    pub fn entries(&self) -> &[Entry<P>]
        ensures entries { result.now ≡ self.now }
        ensures is_run { IsRun P.addition P.first_outside self.now }
    {
        &self.entries
    }
}
