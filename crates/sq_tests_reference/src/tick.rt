//! What the lines of a tick make of the tables, and of the views over them.
use crate::tables::{apply, are_of_kinds, clone_tables};
use sq_catalog::Catalog;
use sq_lines::Line;
use sq_lists::{ViewsFault, list_views};
use sq_print::Refusal;
use sq_typed::Program;
use sq_value::{Row, Str};
use sqlite_items::Items;
use std::alloc::Global;
use std::test::Fail;

/// What became of a tick: the tables after it and the rows of the views over them, or why it is refused.
#[derive(Drop)]
pub enum Outcome {
    Accepted {
        tables: Vec<Items<Row>>,
        shown: Vec<Items<Row>>,
    },
    Refused(Refusal),
}

/// What the lines of a tick make of the tables before it.
pub fn play_tick(
    alloc: Global,
    program: &Program,
    tables: &[Items<Row>],
    lines: &[Line],
) -> Result<Outcome, Fail> {
    let mut now = clone_tables(alloc, tables)?;
    for line in lines {
        if let Some(refusal) = take_line(alloc, &mut now, line)? {
            return Ok(Outcome::Refused(refusal));
        }
    }
    end_tick(alloc, program, now)
}

// Does what a line asks for, or says why it can't be done.
fn take_line(
    alloc: Global,
    tables: &mut Vec<Items<Row>>,
    line: &Line,
) -> Result<Option<Refusal>, Fail> {
    match line {
        Line::Update(update) => {
            if apply(alloc, tables, update)? {
                Ok(None)
            } else {
                Ok(Some(Refusal::Absent { line: update.line }))
            }
        }
        Line::Bad { number, .. } => Ok(Some(Refusal::Malformed { line: *number })),
        Line::Commit | Line::Blank => Ok(None),
    }
}

// The outcome of a tick that leaves these tables.
fn end_tick(alloc: Global, program: &Program, tables: Vec<Items<Row>>) -> Result<Outcome, Fail> {
    if !are_of_kinds(alloc, program.catalog(), &tables)? {
        return Err(Fail::from("a row is not of the kinds of its table"));
    }
    match list_views(alloc, program, &tables) {
        Ok(shown) => Ok(Outcome::Accepted { tables, shown }),
        Err(ViewsFault::Range { view }) => {
            let view = view_name(alloc, program.catalog(), view)?;
            Ok(Outcome::Refused(Refusal::Range { view }))
        }
        Err(ViewsFault::Memory) => Err(Fail::from("no memory")),
    }
}

// The name of a view, by its number among the views.
fn view_name(alloc: Global, catalog: &Catalog, view: u32) -> Result<Str, Fail> {
    let mut left = view;
    for i in 0..catalog.len() {
        let relation = catalog.at(i);
        if relation.kind.is_view() {
            if left == 0 {
                return Ok(relation.name.clone_str(alloc)?);
            }
            left -= 1;
        }
    }
    Err(Fail::from("no such view"))
}
