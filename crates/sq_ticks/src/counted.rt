//! Calls of an engine, each with a counter of steps of its own.
ghost use Rattle.std.specs.Prelude.{◌≡◌, ℕ, true, false, None as Nothing, Some as Just, IfOk, OnErr, OnOk};
ghost use Rattle.std.specs.declared.result.Result.TheVariants.{Ok as Made, Err as Lacking};
ghost use Rattle.sq_circuit.specs.Circuits.{verdict};
ghost use Rattle.sq_circuit.specs.Invariant.{IsGood};
ghost use Rattle.sq_engine.specs.Admitting.{MayAdmit, made};
ghost use Rattle.sq_engine.specs.Engines.{begun, moved, no_tables, views_between, views_over, with_changes};

use sq_base::Steps;
use sq_circuit::Changes;
use sq_engine::{AdmitRefusal, Delta, Engine, TickRefusal};
use sq_typed::Update;
use std::alloc::Global;

/// `Engine::start`.
pub fn start(alloc: Global, engine: &mut Engine) -> Result<Changes, TickRefusal>
    requires { engine.old.started ≡ false }
    ensures ok { IfOk result (λ changes. changes.views.items ≡ views_over engine.old.circuit (no_tables engine.old.circuit)) }
    ensures engine { OnOk result (engine.new ≡ begun engine.old) }
    ensures in_range { OnOk result (verdict engine.old.circuit (no_tables engine.old.circuit) ≡ Nothing) }
    ensures range { (view : ℕ) → result ≡ Err (TickRefusal.Range view) → verdict engine.old.circuit (no_tables engine.old.circuit) ≡ Just view }
    ensures refused { OnErr result (engine.new ≡ engine.old) }
{
    let mut steps = Steps::begin(());
    let started = engine.start(alloc, &mut steps);
    steps.end();
    started
}

/// `Engine::admit`.
pub fn admit(alloc: Global, engine: &Engine, updates: &[Update]) -> Result<Delta, AdmitRefusal>
    requires started { engine.now.started ≡ true }
    requires fits { MayAdmit engine.now updates.now }
    ensures made { IfOk result (λ delta. made engine.now.tables updates.now ≡ Made (with_changes engine.now.tables delta)) }
    ensures good { IfOk result (λ delta. IsGood engine.now.circuit (with_changes engine.now.tables delta)) }
    ensures absent { (line : ℕ) → result ≡ Err (AdmitRefusal.Absent line) → made engine.now.tables updates.now ≡ Lacking line }
{
    let mut steps = Steps::begin(());
    let admitted = engine.admit(alloc, updates, &mut steps);
    steps.end();
    admitted
}

/// `Engine::tick`.
pub fn tick(alloc: Global, engine: &mut Engine, delta: Delta) -> Result<Changes, TickRefusal>
    requires started { engine.old.started ≡ true }
    requires good { IsGood engine.old.circuit (with_changes engine.old.tables delta) }
    ensures ok { IfOk result (λ changes. changes.views.items ≡ views_between engine.old.circuit engine.old.tables (with_changes engine.old.tables delta)) }
    ensures engine { OnOk result (engine.new ≡ moved engine.old delta) }
    ensures in_range { OnOk result (verdict engine.old.circuit (with_changes engine.old.tables delta) ≡ Nothing) }
    ensures range { (view : ℕ) → result ≡ Err (TickRefusal.Range view) → verdict engine.old.circuit (with_changes engine.old.tables delta) ≡ Just view }
    ensures refused { OnErr result (engine.new ≡ engine.old) }
{
    let mut steps = Steps::begin(());
    let ticked = engine.tick(alloc, delta, &mut steps);
    steps.end();
    ticked
}
