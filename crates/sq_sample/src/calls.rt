//! Calls of an engine that can't be refused, each with a counter of steps of its own.
ghost use Rattle.std.specs.Prelude.{◌≡◌, ℕ, true, false, None as Nothing, IfOk, OnOk};
ghost use Rattle.std.specs.declared.result.Result.TheVariants.{Ok as Made, Err as Lacking};
ghost use Rattle.sq_circuit.specs.Circuits.{verdict};
ghost use Rattle.sq_circuit.specs.Invariant.{IsGood};
ghost use Rattle.sq_engine.specs.Admitting.{MayAdmit, made};
ghost use Rattle.sq_engine.specs.Engines.{begun, moved, no_tables, views_between, views_over, with_changes};

use sq_base::Steps;
use sq_circuit::Changes;
use sq_engine::{AdmitRefusal, Delta, Engine, TickRefusal};
use sq_typed::Update;
use sq_value::NoMemory;
use std::alloc::Global;

/// `Engine::start`, where no view is out of range.
pub fn start(alloc: Global, engine: &mut Engine) -> Result<Changes, NoMemory>
    requires started { engine.old.started ≡ false }
    requires in_range { verdict engine.old.circuit (no_tables engine.old.circuit) ≡ Nothing }
    ensures ok { IfOk result (λ changes. changes.views.items ≡ views_over engine.old.circuit (no_tables engine.old.circuit)) }
    ensures engine { OnOk result (engine.new ≡ begun engine.old) }
{
    let mut steps = Steps::begin(());
    let started = engine.start(alloc, &mut steps);
    steps.end();
    match started {
        Ok(changes) => Ok(changes),
        Err(TickRefusal::Range { .. }) => unreachable!(),
        Err(TickRefusal::Memory) => Err(NoMemory),
    }
}

/// `Engine::admit`, where each update finds the row that it deletes.
pub fn admit(alloc: Global, engine: &Engine, updates: &[Update]) -> Result<Delta, NoMemory>
    requires started { engine.now.started ≡ true }
    requires fits { MayAdmit engine.now updates.now }
    requires there { (line : ℕ) → made engine.now.tables updates.now ≡ Lacking line → ⊥ }
    ensures made { IfOk result (λ delta. made engine.now.tables updates.now ≡ Made (with_changes engine.now.tables delta)) }
    ensures good { IfOk result (λ delta. IsGood engine.now.circuit (with_changes engine.now.tables delta)) }
{
    let mut steps = Steps::begin(());
    let admitted = engine.admit(alloc, updates, &mut steps);
    steps.end();
    match admitted {
        Ok(delta) => Ok(delta),
        Err(AdmitRefusal::Absent { .. }) => unreachable!(),
        Err(AdmitRefusal::Memory) => Err(NoMemory),
    }
}

/// `Engine::tick`, where no view is out of range.
pub fn tick(alloc: Global, engine: &mut Engine, delta: Delta) -> Result<Changes, NoMemory>
    requires started { engine.old.started ≡ true }
    requires good { IsGood engine.old.circuit (with_changes engine.old.tables delta) }
    requires in_range { verdict engine.old.circuit (with_changes engine.old.tables delta) ≡ Nothing }
    ensures ok { IfOk result (λ changes. changes.views.items ≡ views_between engine.old.circuit engine.old.tables (with_changes engine.old.tables delta)) }
    ensures engine { OnOk result (engine.new ≡ moved engine.old delta) }
{
    let mut steps = Steps::begin(());
    let ticked = engine.tick(alloc, delta, &mut steps);
    steps.end();
    match ticked {
        Ok(changes) => Ok(changes),
        Err(TickRefusal::Range { .. }) => unreachable!(),
        Err(TickRefusal::Memory) => Err(NoMemory),
    }
}
