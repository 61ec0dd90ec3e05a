//! An engine under test: its start, and ticks of a few updates of its table.
ghost use Rattle.std.specs.Prelude.{◌≡◌, ◌+◌, ◌≤◌, ◌⊎◌, true, length, IfOk, OnOk};
ghost use Rattle.sq_circuit.specs.Invariant.{IsGood};
ghost use Rattle.sq_engine.specs.Engines.{moved, with_changes};
ghost use Rattle.sq_tests_engine.specs.Totals.{AreOfNumbers, IsNew, IsOfNumbers, IsReady};

use crate::circuit::totals_of_numbers;
use sq_base::Steps;
use sq_circuit::Changes;
use sq_engine::{AdmitRefusal, Delta, Engine, TickRefusal};
use sq_typed::Update;
use sq_value::{NoMemory, Row, Value};
use std::alloc::Global;

/// What came of a tick.
#[derive(Debug, Drop)]
pub enum Answer {
    Changed(Changes),
    Absent(u64),
    Range(u32),
    /// More updates than a test may have.
    TooMany,
}

/// An engine of the circuit that has not started.
pub fn new_engine(alloc: Global, workers: u32) -> Result<Engine, NoMemory>
    requires some { 1 ≤ workers }
    requires few { workers ≤ 64 }
    ensures { IfOk result IsNew }
{
    Engine::new(alloc, totals_of_numbers(alloc)?, workers)
}

/// What comes of the start of an engine that has not started.
pub fn start(alloc: Global, engine: &mut Engine) -> Result<Changes, TickRefusal>
    requires { IsNew engine.old }
    ensures { OnOk result (IsReady 0 engine.new) }
{
    let mut steps = Steps::begin(());
    let result = engine.start(alloc, &mut steps);
    steps.end();
    result
}

// The update that puts a row of this number in, or takes one away.
fn update_of(alloc: Global, line: u64, insert: bool, number: i64) -> Result<Update, NoMemory>
    ensures { IfOk result IsOfNumbers }
{
    let mut values = Vec::with_capacity(alloc, 1)?;
    values.push(Value::Int(number))?;
    Ok(Update {
        line,
        table: 0,
        insert,
        row: Row::of(values),
    })
}

// The updates of the lines 1, 2 and so on.
fn updates_of(alloc: Global, changes: &[(bool, i64)]) -> Result<Vec<Update>, NoMemory>
    ensures { IfOk result (λ updates. AreOfNumbers updates.items) }
{
    let mut updates = Vec::new(alloc);
    for change in changes {
        let line = updates.len() as u64 + 1;
        updates.push(update_of(alloc, line, change.0, change.1)?)?;
    }
    Ok(updates)
}

/// What comes of a tick with these updates of an engine that has started, whose table has at most so many rows: `true` puts a row
/// of the number in, `false` takes one away.
pub fn tick(
    alloc: Global,
    engine: &mut Engine,
    rows: &mut u64,
    changes: &[(bool, i64)],
) -> Result<Answer, NoMemory>
    requires { IsReady rows.old engine.old }
    ensures { OnOk result (IsReady rows.new engine.new) }
{
    let updates = updates_of(alloc, changes)?;
    let more = updates.len() as u64;
    if more > 1000 || *rows > 1000 {
        return Ok(Answer::TooMany);
    }
    let answer = play(alloc, engine, *rows, &updates)?;
    *rows += more;
    Ok(answer)
}

fn play(
    alloc: Global,
    engine: &mut Engine,
    rows: u64,
    updates: &[Update],
) -> Result<Answer, NoMemory>
    requires ready { IsReady rows engine.old }
    requires updates { AreOfNumbers updates.now }
    requires few { rows ≤ 1000 }
    requires more { length updates.now ≤ 1000 }
    ensures { OnOk result (IsReady (rows + length updates.now) engine.new) }
{
    let mut steps = Steps::begin(());
    let admitted = engine.admit(alloc, updates, &mut steps);
    steps.end();
    match admitted {
        Ok(delta) => play_delta(alloc, engine, delta),
        Err(AdmitRefusal::Absent { line }) => Ok(Answer::Absent(line)),
        Err(AdmitRefusal::Memory) => Err(NoMemory),
    }
}

fn play_delta(alloc: Global, engine: &mut Engine, delta: Delta) -> Result<Answer, NoMemory>
    requires started { engine.old.started ≡ true }
    requires good { IsGood engine.old.circuit (with_changes engine.old.tables delta) }
    ensures { (engine.new ≡ moved engine.old delta) ⊎ (engine.new ≡ engine.old) }
{
    let mut steps = Steps::begin(());
    let result = engine.tick(alloc, delta, &mut steps);
    steps.end();
    match result {
        Ok(changes) => Ok(Answer::Changed(changes)),
        Err(TickRefusal::Range { view }) => Ok(Answer::Range(view)),
        Err(TickRefusal::Memory) => Err(NoMemory),
    }
}
