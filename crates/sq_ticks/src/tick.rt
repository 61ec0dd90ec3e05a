//! What a tick does to the engine.
ghost use Rattle.std.specs.Prelude.{◌≡◌, ◌≤◌, ◌^◌, ℕ, true, IfOk};
ghost use Rattle.sq_circuit.specs.Invariant.{IsGood};
ghost use Rattle.sq_engine.specs.Engines.{with_changes};
ghost use Rattle.sq_typed.specs.Tables.{Tables};
ghost use Rattle.sq_ticks.specs.Over.{first_bad as first_bad_lem, updates_in_front as updates_in_front_lem};
ghost use Rattle.sq_ticks.specs.Runs.{IsEndedBy, IsPlayed, Stands, refuses, told_outcome};

use crate::counted::{admit, tick};
use sq_catalog::Catalog;
use sq_circuit::Changes;
use sq_compile::view_name;
use sq_engine::{AdmitRefusal, Delta, Engine, TickRefusal};
use sq_lines::Line;
use sq_print::{Refusal, block_text, refusal_text};
use sq_typed::{Program, Update};
use sq_value::NoMemory;
use std::alloc::Global;

/// What became of a tick: the changes of the views, or why it is refused.
#[derive(Debug, Drop)]
pub enum Outcome {
    Accepted(Changes),
    Refused(Refusal),
}

impl Outcome {
    pub fn is_refused(&self) -> bool
        ensures { result ≡ refuses self.now }
    {
        matches!(self, Outcome::Refused(_))
    }

    /// What is printed of the tick with this number.
    pub fn text(&self, alloc: Global, catalog: &Catalog, tick: u64) -> Result<Vec<u8>, NoMemory>
        ensures { IfOk result (λ text. text.items ≡ told_outcome catalog.now tick self.now) }
    {
        match self {
            Outcome::Accepted(changes) => block_text(alloc, catalog, tick, changes),
            Outcome::Refused(refusal) => refusal_text(alloc, tick, refusal),
        }
    }
}

/// Makes the tick of these lines, and answers what became of it. A refused tick leaves the engine as it was.
pub fn play_tick(
    alloc: Global,
    program: &Program,
    engine: &mut Engine,
    lines: Vec<Line>,
) -> Result<Outcome, NoMemory>
    requires { (lists : Tables) × (n : ℕ) × (n ≤ 2 ^ 61) × Stands program.now lists n engine.old lines.items }
    ensures { (lists : Tables) (n : ℕ) → Stands program.now lists n engine.old lines.items
        → IfOk result (λ outcome. IsPlayed program.now lists n engine.old lines.items outcome engine.new) }
{
    let (updates, bad) = updates_in_front(alloc, lines)?;
    let delta = match admit(alloc, engine, &updates) {
        Ok(delta) => delta,
        Err(AdmitRefusal::Absent { line }) => {
            return Ok(Outcome::Refused(Refusal::Absent { line }));
        }
        Err(AdmitRefusal::Memory) => return Err(NoMemory),
    };
    if let Some(line) = bad {
        return Ok(Outcome::Refused(Refusal::Malformed { line }));
    }
    end_tick(alloc, program, engine, delta)
}

// The updates in front of the first bad line, and the number of that line.
fn updates_in_front(alloc: Global, lines: Vec<Line>) -> Result<(Vec<Update>, Option<u64>), NoMemory>
    ensures updates { IfOk result (λ r. r.0.items ≡ updates_in_front_lem lines.items) }
    ensures bad { IfOk result (λ r. r.1 ≡ first_bad_lem lines.items) }
{
    let mut updates = Vec::new(alloc);
    for line in lines {
        match line {
            Line::Update(update) => updates.push(update)?,
            Line::Bad { number, .. } => return Ok((updates, Some(number))),
            Line::Commit | Line::Blank => {}
        }
    }
    Ok((updates, None))
}

// Makes the changes of a tick that was admitted, unless a view is out of range behind it.
fn end_tick(
    alloc: Global,
    program: &Program,
    engine: &mut Engine,
    delta: Delta,
) -> Result<Outcome, NoMemory>
    requires started { engine.old.started ≡ true }
    requires good { IsGood engine.old.circuit (with_changes engine.old.tables delta) }
    ensures { IfOk result (λ outcome. IsEndedBy program.now engine.old delta outcome engine.new) }
{
    match tick(alloc, engine, delta) {
        Ok(changes) => Ok(Outcome::Accepted(changes)),
        Err(TickRefusal::Range { view }) => {
            let view = view_name(alloc, program.catalog(), view)?;
            Ok(Outcome::Refused(Refusal::Range { view }))
        }
        Err(TickRefusal::Memory) => Err(NoMemory),
    }
}
