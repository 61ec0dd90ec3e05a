//! Traces: payloads by key and row that change by what was prepared before.
ghost use Rattle.std.specs.Prelude.{◌≡◌, ◌≤◌, [], ℕ, ℤ, length, IfOk, OnErr};
ghost use Rattle.sq_base.specs.Causes.{raised};
ghost use Rattle.sq_trace.specs.Runs.{Place, IsRun, AddsUpInRange, FrontsInRange, KeepsLengths, content};
ghost use Rattle.sq_trace.specs.Looking.{stepped, AreRowsOf, AreAllRows};
ghost use Rattle.sq_trace.specs.Changes.{changed, committed, IsFirstOutside, Shows};

use crate::merged::merged_with;
use crate::rows::{all_rows, rows_at};
use crate::totals::{shown_at, test_change};
use crate::{Entry, Keyed};
use sq_base::Steps;
use sq_value::{NoMemory, Row};
use sq_zset::{Group, ZFault};
use std::alloc::Global;
use std::marker::Model;

/// Payloads by key and row, in sorted runs.
///
/// Contracts see it as the list of its parts, the runs from the oldest on. They add up to what it holds.
#[derive(Debug, Drop)]
pub struct Trace<P: Group> {
    runs: Vec<Keyed<P>>,
}

impl<P: Group> Model for Trace<P> {
    ghost use Rattle.std.specs.Prelude.{List};
    ghost use Rattle.sq_trace.specs.declared.entry.Entry.{Entry as Placed};
    ghost use Rattle.sq_trace.specs.Runs.{FrontsInRange};

    ghost Value = { List (List (Placed P)) };

    ghost view = { λ t. t.runs.items };

    ghost invariant = { λ t. FrontsInRange P.addition P.first_outside t.runs.items };
}

/// What a change makes of a trace. Contracts see it as the number of first parts that stay, and the new part behind them.
#[derive(Debug, Drop)]
pub struct Prepared<P: Group> {
    stay: usize,
    run: Keyed<P>,
    // The room for the parts after the commit.
    room: Vec<Keyed<P>>,
}

impl<P: Group> Model for Prepared<P> {
    ghost use Rattle.std.specs.Prelude.{◌≡◌, ◌<◌, [], ℕ, List, vec_capacity};
    ghost use Rattle.sq_trace.specs.declared.entry.Entry.{Entry as Placed};

    ghost Value = { ℕ × List (Placed P) };

    ghost view = { λ p. (p.stay, p.run) };

    ghost invariant = { λ p. (p.room.items ≡ []) × (p.stay < vec_capacity p.room) };
}

/// Counts so many steps.
pub(crate) fn step<L>(steps: &mut Steps<L>, n: usize)
    ensures count { steps.new.count ≡ stepped n steps.old.count }
    ensures ledger { steps.new.ledger ≡ steps.old.ledger }
{
    let mut taken = 0;
    while taken < n {
        steps.tick();
        taken += 1;
    }
}

impl<P: Group> Trace<P> {
    /// A trace that holds nothing. Takes no memory.
    pub fn new(alloc: Global) -> Trace<P>
        ensures { result ≡ [] }
    {
        Trace {
            runs: Vec::new(alloc),
        }
    }

    /// The runs, from the oldest on. Takes no memory.
    pub(crate) fn parts(&self) -> &[Keyed<P>]
        ensures parts { result.now ≡ self.now }
        ensures fronts { FrontsInRange P.addition P.first_outside self.now }
    {
        &self.runs
    }

    /// What the trace holds at a key and a row, or `NoMemory` when memory runs out. Takes one step.
    pub fn payload_of<L>(
        &self,
        alloc: Global,
        key: &Row,
        row: &Row,
        steps: &mut Steps<L>,
    ) -> Result<Option<P>, NoMemory>
        ensures ok { IfOk result (λ answer. Shows P.addition (content P.addition (key.now, row.now) self.now) answer) }
        ensures count { steps.new.count ≡ raised steps.old.count }
        ensures ledger { steps.new.ledger ≡ steps.old.ledger }
    {
        steps.tick();
        shown_at(alloc, &self.runs, key, row)
    }

    /// The rows of a key with what the trace holds there, ascending, or `NoMemory` when memory runs out.
    ///
    /// Takes one step, and one for each row that is handed out.
    pub fn rows_of<L>(
        &self,
        alloc: Global,
        key: &Row,
        steps: &mut Steps<L>,
    ) -> Result<Vec<Entry<P>>, NoMemory>
        ensures ok { IfOk result (λ rows. AreRowsOf P.addition P.first_outside key.now self.now rows.items) }
        ensures count { IfOk result (λ rows. steps.new.count ≡ stepped (length rows.items) (raised steps.old.count)) }
        ensures count_err { OnErr result (steps.new.count ≡ raised steps.old.count) }
        ensures ledger { steps.new.ledger ≡ steps.old.ledger }
    {
        steps.tick();
        let rows = rows_at(alloc, &self.runs, key)?;
        step(steps, rows.len());
        Ok(rows)
    }

    /// All that the trace holds, ascending, or `NoMemory` when memory runs out. Takes one step for each row.
    pub fn walk<L>(&self, alloc: Global, steps: &mut Steps<L>) -> Result<Vec<Entry<P>>, NoMemory>
        ensures ok { IfOk result (λ rows. AreAllRows P.addition P.first_outside self.now rows.items) }
        ensures count { IfOk result (λ rows. steps.new.count ≡ stepped (length rows.items) steps.old.count) }
        ensures count_err { OnErr result (steps.new.count ≡ steps.old.count) }
        ensures ledger { steps.new.ledger ≡ steps.old.ledger }
    {
        let rows = all_rows(alloc, &self.runs)?;
        step(steps, rows.len());
        Ok(rows)
    }

    /// What a change makes of the trace, which itself stays as it is: `commit` puts it in place.
    ///
    /// The answer is `Weight` exactly if a payload of the trace and the change together leaves its range, with the number outside
    /// at the first such key and row, and `Memory` when memory runs out.
    pub fn prepare(&self, alloc: Global, change: &Keyed<P>) -> Result<Prepared<P>, ZFault>
        ensures stays { IfOk result (λ prepared. prepared.0 ≤ length self.now) }
        ensures is_run { IfOk result (λ prepared. IsRun P.addition P.first_outside prepared.1) }
        ensures sums { IfOk result (λ prepared. (p : Place) → content P.addition p (committed self.now prepared) ≡ changed P.addition self.now change.now p) }
        ensures in_range { IfOk result (λ prepared. AddsUpInRange P.addition P.first_outside (committed self.now prepared)) }
        ensures lengths { IfOk result (λ prepared. KeepsLengths self.now → KeepsLengths (committed self.now prepared)) }
        ensures outside { (number : ℤ) → result ≡ Err (ZFault.Weight number) → IsFirstOutside P.first_outside (changed P.addition self.now change.now) number }
    {
        test_change(alloc, &self.runs, change.entries())?;
        let merged = merged_with(alloc, &self.runs, change.entries())?;
        let room = Vec::with_capacity(alloc, merged.stay + 1)?;
        Ok(Prepared {
            stay: merged.stay,
            run: Keyed::from_run(merged.run),
            room,
        })
    }

    /// Puts in place what `prepare` made: the parts behind those that stay go, and the new part comes. Takes no memory.
    pub fn commit(&mut self, prepared: Prepared<P>)
        requires stays { prepared.0 ≤ length self.old }
        requires in_range { AddsUpInRange P.addition P.first_outside (committed self.old prepared) }
        ensures { self.new ≡ committed self.old prepared }
    {
        let Prepared {
            stay,
            run,
            mut room,
        } = prepared;
        self.runs.truncate(stay);
        room.append(&mut self.runs).unwrap();
        room.push(run).unwrap();
        self.runs = room;
    }
}
