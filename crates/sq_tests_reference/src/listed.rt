//! A whole run by lists: at each tick every view is listed anew over copies of the tables.
use crate::program::{program_of, split};
use crate::tables::{clone_rows, empty_tables, rows_in};
use crate::tick::{Outcome, play_tick};
use sq_catalog::Catalog;
use sq_circuit::Changes;
use sq_lines::{Cutter, Line, RawLine, decode};
use sq_print::{Refusal, block_text, refusal_text};
use sq_typed::Program;
use sq_value::Row;
use sq_zset::ZSet;
use sqlite_items::Items;
use std::alloc::Global;
use std::test::Fail;

/// How often each thing came about in runs.
#[derive(Clone, Copy, Debug, Default)]
pub struct Counts {
    pub accepted: u64,
    pub malformed: u64,
    pub absent: u64,
    pub range: u64,
    pub unfinished: u64,
    /// Changes of views that are not empty, also of views that are not printed.
    pub changes: u64,
}

/// A run: the tables after the last accepted tick with the views over them, the lines since then, and what is printed.
#[derive(Drop)]
pub struct Run {
    tables: Vec<Items<Row>>,
    shown: Vec<Items<Row>>,
    lines: Vec<Line>,
    tick: u64,
    pub output: Vec<u8>,
    pub counts: Counts,
}

/// The run of an input. A program that is refused is an error.
pub fn run_by_lists(alloc: Global, input: &[u8]) -> Result<Run, Fail> {
    let Some((text, bytes)) = split(input) else {
        return Err(Fail::from("no end line"));
    };
    let program = program_of(alloc, text)?;
    let mut run = start(alloc, program.catalog())?;
    run.close_tick(alloc, &program)?;
    run.take_lines(alloc, &program, bytes)?;
    Ok(run)
}

// The run before the views over empty tables are printed.
fn start(alloc: Global, catalog: &Catalog) -> Result<Run, Fail> {
    Ok(Run {
        tables: empty_tables(alloc, catalog)?,
        shown: Vec::new(alloc),
        lines: Vec::new(alloc),
        tick: 0,
        output: Vec::new(alloc),
        counts: Counts::default(),
    })
}

impl Run {
    fn take_lines(&mut self, alloc: Global, program: &Program, bytes: &[u8]) -> Result<(), Fail> {
        let mut cutter = Cutter::new(alloc);
        let lines = cutter.feed(alloc, bytes)?;
        for line in &lines {
            self.take_line(alloc, program, line)?;
        }
        if let Some(line) = cutter.finish() {
            self.take_line(alloc, program, &line)?;
        }
        self.finish(alloc)
    }

    fn take_line(&mut self, alloc: Global, program: &Program, line: &RawLine) -> Result<(), Fail> {
        let line = decode(alloc, program.catalog(), line)?;
        if line.is_commit() {
            return self.close_tick(alloc, program);
        }
        self.lines.push(line)?;
        Ok(())
    }

    // Plays the lines since the last commit line as a tick.
    fn close_tick(&mut self, alloc: Global, program: &Program) -> Result<(), Fail> {
        match play_tick(alloc, program, &self.tables, &self.lines)? {
            Outcome::Accepted { tables, shown } => {
                self.accept(alloc, program.catalog(), tables, shown)?;
            }
            Outcome::Refused(refusal) => self.refuse(alloc, &refusal)?,
        }
        self.lines.clear();
        self.tick = self.tick.saturating_add(1);
        Ok(())
    }

    fn accept(
        &mut self,
        alloc: Global,
        catalog: &Catalog,
        tables: Vec<Items<Row>>,
        shown: Vec<Items<Row>>,
    ) -> Result<(), Fail> {
        let changes = changes_between(alloc, &self.shown, &shown)?;
        for change in &changes.views {
            if change.len() > 0 {
                self.counts.changes = self.counts.changes.saturating_add(1);
            }
        }
        let text = block_text(alloc, catalog, self.tick, &changes)?;
        self.output.extend_from_slice(&text)?;
        self.counts.accepted = self.counts.accepted.saturating_add(1);
        self.tables = tables;
        self.shown = shown;
        Ok(())
    }

    fn refuse(&mut self, alloc: Global, refusal: &Refusal) -> Result<(), Fail> {
        let text = refusal_text(alloc, self.tick, refusal)?;
        self.output.extend_from_slice(&text)?;
        let count = match refusal {
            Refusal::Malformed { .. } => &mut self.counts.malformed,
            Refusal::Absent { .. } => &mut self.counts.absent,
            Refusal::Range { .. } => &mut self.counts.range,
            Refusal::Unfinished => &mut self.counts.unfinished,
        };
        *count = count.saturating_add(1);
        Ok(())
    }

    // A tick that has lines and no commit line is unfinished.
    fn finish(&mut self, alloc: Global) -> Result<(), Fail> {
        if self.lines.iter().all(|line| line.is_blank()) {
            return Ok(());
        }
        self.refuse(alloc, &Refusal::Unfinished)
    }
}

// The change of each view.
fn changes_between(
    alloc: Global,
    before: &[Items<Row>],
    now: &[Items<Row>],
) -> Result<Changes, Fail> {
    let mut views = Vec::new(alloc);
    for (view, rows) in now.iter().enumerate() {
        views.push(change_between(alloc, rows_in(before, view), rows.as_slice())?)?;
    }
    Ok(Changes { views })
}

fn change_between(alloc: Global, before: &[Row], now: &[Row]) -> Result<ZSet, Fail> {
    let before = ZSet::of_rows(alloc, clone_rows(alloc, before)?)?;
    let now = ZSet::of_rows(alloc, clone_rows(alloc, now)?)?;
    Ok(now.minus(alloc, &before)?)
}
