//! Ticks of an engine: what its view has more or less, and refused ticks that leave no trace.
ghost use Rattle.std.specs.Prelude.{◌≤◌, IfOk, OnOk};
ghost use Rattle.sq_tests_engine.specs.Totals.{IsReady};

use crate::bench::{Answer, new_engine, start, tick};
use sq_circuit::Changes;
use sq_engine::Engine;
use sq_value::{NoMemory, Row, Value};
use sq_zset::ZSet;
use std::alloc::Global;
use std::process::Abort;
use std::test::Fail;

// A row of the view: how many rows its table has, and their sum, with a weight.
type Shown = (i64, Option<i64>, i64);

fn row_of(alloc: Global, count: i64, sum: Option<i64>) -> Result<Row, NoMemory> {
    let mut values = Vec::with_capacity(alloc, 2)?;
    values.push(Value::Int(count))?;
    values.push(sum.map_or(Value::Null, Value::Int))?;
    Ok(Row::of(values))
}

// The Z-set has these rows with their weights, and no others.
fn check_rows(rt: &impl Abort, alloc: Global, z: &ZSet, rows: &[Shown]) -> Result<(), Fail> {
    assert_eq!(rt; z.len(), rows.len());
    for row in rows {
        let shown = row_of(alloc, row.0, row.1)?;
        assert_eq!(rt; z.weight_of(&shown), row.2);
    }
    Ok(())
}

// The one view has these rows more or less.
fn check_changes(
    rt: &impl Abort,
    alloc: Global,
    changes: &Changes,
    rows: &[Shown],
) -> Result<(), Fail> {
    assert_eq!(rt; changes.views.len(), 1);
    check_rows(rt, alloc, &changes.views[0], rows)
}

// A tick with these updates changes the view by these rows.
fn check_tick(
    rt: &impl Abort,
    alloc: Global,
    engine: &mut Engine,
    rows: &mut u64,
    updates: &[(bool, i64)],
    shown: &[Shown],
) -> Result<(), Fail>
    requires { IsReady rows.old engine.old }
    ensures { OnOk result (IsReady rows.new engine.new) }
{
    match tick(alloc, engine, rows, updates)? {
        Answer::Changed(changes) => check_changes(rt, alloc, &changes, shown),
        Answer::Absent(_) => fail(rt),
        Answer::Range(_) => fail(rt),
        Answer::TooMany => fail(rt),
    }
}

fn fail(rt: &impl Abort) -> Result<(), Fail> {
    assert!(rt; false, "another answer");
    Ok(())
}

// A tick with these updates is refused at this line.
fn check_absent(
    rt: &impl Abort,
    alloc: Global,
    engine: &mut Engine,
    rows: &mut u64,
    updates: &[(bool, i64)],
    line: u64,
) -> Result<(), Fail>
    requires { IsReady rows.old engine.old }
    ensures { OnOk result (IsReady rows.new engine.new) }
{
    match tick(alloc, engine, rows, updates)? {
        Answer::Absent(found) => {
            assert_eq!(rt; found, line);
            Ok(())
        }
        Answer::Changed(_) => fail(rt),
        Answer::Range(_) => fail(rt),
        Answer::TooMany => fail(rt),
    }
}

// A tick with these updates is refused, since the view is out of range.
fn check_range(
    rt: &impl Abort,
    alloc: Global,
    engine: &mut Engine,
    rows: &mut u64,
    updates: &[(bool, i64)],
) -> Result<(), Fail>
    requires { IsReady rows.old engine.old }
    ensures { OnOk result (IsReady rows.new engine.new) }
{
    match tick(alloc, engine, rows, updates)? {
        Answer::Range(view) => {
            assert_eq!(rt; view, 0);
            Ok(())
        }
        Answer::Changed(_) => fail(rt),
        Answer::Absent(_) => fail(rt),
        Answer::TooMany => fail(rt),
    }
}

// An engine behind its start, which shows that there are no rows.
fn started(rt: &impl Abort, alloc: Global, workers: u32) -> Result<Engine, Fail>
    requires some { 1 ≤ workers }
    requires few { workers ≤ 64 }
    ensures { IfOk result (λ engine. IsReady 0 engine) }
{
    let mut engine = new_engine(alloc, workers)?;
    let changes = start(alloc, &mut engine)?;
    check_changes(rt, alloc, &changes, &[(0, None, 1)])?;
    Ok(engine)
}

#[test]
fn an_engine_starts_once(rt: HostRuntime) -> Result<(), Fail> {
    let alloc = rt.alloc();
    let mut engine = new_engine(alloc, 64)?;
    assert!(&rt; !engine.started(), "not yet");
    let changes = start(alloc, &mut engine)?;
    assert!(&rt; engine.started(), "now");
    check_changes(&rt, alloc, &changes, &[(0, None, 1)])
}

#[test]
fn a_view_follows_its_table(rt: HostRuntime) -> Result<(), Fail> {
    let alloc = rt.alloc();
    let mut engine = started(&rt, alloc, 1)?;
    let mut rows = 0;
    check_tick(
        &rt,
        alloc,
        &mut engine,
        &mut rows,
        &[(true, 1), (true, 2), (true, 2)],
        &[(0, None, -1), (3, Some(5), 1)],
    )?;
    check_tick(
        &rt,
        alloc,
        &mut engine,
        &mut rows,
        &[(false, 2)],
        &[(3, Some(5), -1), (2, Some(3), 1)],
    )?;
    check_tick(&rt, alloc, &mut engine, &mut rows, &[], &[])?;
    check_tick(
        &rt,
        alloc,
        &mut engine,
        &mut rows,
        &[(false, 1), (false, 2)],
        &[(2, Some(3), -1), (0, None, 1)],
    )
}

#[test]
fn a_row_of_the_same_tick_can_be_deleted(rt: HostRuntime) -> Result<(), Fail> {
    let alloc = rt.alloc();
    let mut engine = started(&rt, alloc, 1)?;
    let mut rows = 0;
    check_tick(
        &rt,
        alloc,
        &mut engine,
        &mut rows,
        &[(true, 3), (false, 3)],
        &[],
    )?;
    check_absent(
        &rt,
        alloc,
        &mut engine,
        &mut rows,
        &[(false, 3), (true, 3)],
        1,
    )
}

#[test]
fn the_first_delete_without_its_row_is_named(rt: HostRuntime) -> Result<(), Fail> {
    let alloc = rt.alloc();
    let mut engine = started(&rt, alloc, 1)?;
    let mut rows = 0;
    let updates = [(true, 3), (false, 3), (false, 3), (false, 4)];
    check_absent(&rt, alloc, &mut engine, &mut rows, &updates, 3)
}

#[test]
fn an_absent_row_leaves_no_trace(rt: HostRuntime) -> Result<(), Fail> {
    let alloc = rt.alloc();
    let mut engine = started(&rt, alloc, 1)?;
    let mut rows = 0;
    check_absent(
        &rt,
        alloc,
        &mut engine,
        &mut rows,
        &[(true, 7), (false, 9)],
        2,
    )?;
    check_tick(
        &rt,
        alloc,
        &mut engine,
        &mut rows,
        &[(true, 7)],
        &[(0, None, -1), (1, Some(7), 1)],
    )
}

#[test]
fn a_tick_out_of_range_leaves_no_trace(rt: HostRuntime) -> Result<(), Fail> {
    let alloc = rt.alloc();
    let mut engine = started(&rt, alloc, 1)?;
    let mut rows = 0;
    check_range(
        &rt,
        alloc,
        &mut engine,
        &mut rows,
        &[(true, 7), (true, i64::MAX)],
    )?;
    check_tick(
        &rt,
        alloc,
        &mut engine,
        &mut rows,
        &[(true, 7)],
        &[(0, None, -1), (1, Some(7), 1)],
    )
}
