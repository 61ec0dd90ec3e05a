//! `Engine`: a circuit over tables that change tick by tick.
ghost use Rattle.std.specs.Prelude.{◌≡◌, ◌<◌, ◌≤◌, ◌+◌, ◌^◌, ℕ, length, true, false, None, Some, IfOk, OnOk, OnErr};
ghost use Rattle.std.specs.declared.result.Result.TheVariants.{Ok as Made, Err as Lacking};
ghost use Rattle.sq_circuit.specs.Circuits.{verdict};
ghost use Rattle.sq_circuit.specs.Costs.{cost};
ghost use Rattle.sq_circuit.specs.Invariant.{IsGood};
ghost use Rattle.sq_engine.specs.Admitting.{MayAdmit, made, netted};
ghost use Rattle.sq_engine.specs.Engines.{begun, fresh, moved, no_tables, views_between, views_over, with_changes};

use crate::admit::{first_absent, netted};
use crate::fresh::{empty_shards, no_totals};
use crate::ready::commit_all;
use crate::tables::{fitted, no_tables};
use crate::tick::{Prepared, prepare_tick};
use crate::{AdmitRefusal, TickRefusal};
use sq_base::Steps;
use sq_circuit::{Changes, Circuit};
use sq_states::States;
use sq_typed::Update;
use sq_value::NoMemory;
use sq_zset::ZSet;
use std::alloc::Global;
use std::marker::Model;

/// A change for each table. Contracts see it as the list of the changes, by the numbers of the tables.
#[derive(Debug, Drop)]
pub struct Delta {
    changes: Vec<ZSet>,
}

impl Model for Delta {
    ghost use Rattle.std.specs.Prelude.{List};
    ghost use Rattle.std.specs.Coded.{coded_list};
    ghost use Rattle.sq_circuit.specs.Nodes.{Rows};
    ghost use Rattle.sq_zset.specs.contracts.zset.ZSet as zset;

    ghost Value = { List Rows };

    ghost coded = { coded_list (zset.the_row).coded };

    ghost view = { λ d. d.changes.items };
}

/// A circuit over tables that change tick by tick.
///
/// Contracts see it as its circuit, whether it has started, its tables as Z-sets, and its number of shards. The tables are those
/// that its states hold; no list of them is kept. They are good for the circuit; before the start they have no rows, and later no
/// view is out of range over them.
#[derive(Debug, Drop)]
pub struct Engine {
    circuit: Circuit,
    started: bool,
    // What the nodes keep in each shard. Its Table nodes hold the tables.
    states: Vec<States>,
    // The total of each node.
    totals: Vec<i128>,
}

impl Model for Engine {
    ghost use Rattle.std.specs.Prelude.{length};
    ghost use Rattle.std.specs.Coded.{coded_list};
    ghost use Rattle.sq_circuit.specs.contracts.circuit.Part as part;
    ghost use Rattle.sq_engine.specs.Engines.{IsKept, State, state_code};
    ghost use Rattle.sq_tables.specs.Tables.{tables_in};
    ghost use Rattle.sq_zset.specs.contracts.zset.ZSet as zset;

    ghost Value = { State };

    ghost coded = { state_code (coded_list (part.the_row).coded) (coded_list (zset.the_row).coded) };

    ghost view = { λ e. record { circuit = e.circuit; started = e.started; tables = tables_in e.circuit e.states.items; shards = length e.states.items } };

    ghost invariant = { λ e. IsKept (record { circuit = e.circuit; started = e.started; tables = tables_in e.circuit e.states.items; shards = length e.states.items }) e.states.items e.totals.items };
}

impl Engine {
    /// An engine of this circuit that has not started, with tables without rows, for 1 to 64 workers; or `NoMemory` when
    /// memory runs out. The circuit has fewer than 2^26 nodes.
    pub fn new(alloc: Global, circuit: Circuit, workers: u32) -> Result<Engine, NoMemory>
        requires some { 1 ≤ workers }
        requires few { workers ≤ 64 }
        requires nodes { length circuit < 2 ^ 26 }
        ensures { IfOk result (λ engine. engine ≡ fresh circuit workers) }
    {
        let states = empty_shards(alloc, &circuit, workers)?;
        let totals = no_totals(alloc, circuit.len())?;
        Ok(Engine {
            circuit,
            started: false,
            states,
            totals,
        })
    }

    /// Whether the engine has started. Takes no memory.
    pub fn started(&self) -> bool
        ensures { result ≡ self.now.started }
    {
        self.started
    }

    /// Starts the engine, which has not started: the changes are what the views have over tables without rows.
    ///
    /// The answer is `Range` exactly if a view is out of range over tables without rows, and names the first; and `Memory`
    /// when memory runs out. A refused engine is as before. It takes at most the cost of the start in steps.
    pub fn start<L>(&mut self, alloc: Global, steps: &mut Steps<L>) -> Result<Changes, TickRefusal>
        requires { self.old.started ≡ false }
        ensures ok { IfOk result (λ changes. changes.views.items ≡ views_over self.old.circuit (no_tables self.old.circuit)) }
        ensures engine { OnOk result (self.new ≡ begun self.old) }
        ensures in_range { OnOk result (verdict self.old.circuit (no_tables self.old.circuit) ≡ None) }
        ensures range { (view : ℕ) → result ≡ Err (TickRefusal.Range view) → verdict self.old.circuit (no_tables self.old.circuit) ≡ Some view }
        ensures refused { OnErr result (self.new ≡ self.old) }
        ensures cost { steps.new.count ≤ steps.old.count + cost true self.old.circuit (no_tables self.old.circuit) (no_tables self.old.circuit) }
        ensures ledger { steps.new.ledger ≡ steps.old.ledger }
    {
        let changes = no_tables(alloc, &self.circuit)?;
        let prepared = prepare_tick(
            alloc,
            &self.circuit,
            &self.states,
            &self.totals,
            &changes,
            true,
            steps,
        )?;
        let Prepared {
            ready,
            totals,
            views,
        } = prepared;
        commit_all(&mut self.states, ready);
        self.totals = totals;
        self.started = true;
        Ok(Changes { views })
    }

    /// What some updates change in the tables of an engine that has started, those of one row added up.
    ///
    /// Each update speaks of a table and has a row of its kinds, and the rows of a table with all that are put into it are at most
    /// 2^61. The answer is `Absent` exactly at the first delete whose row has no copy left among the old rows and the earlier
    /// updates, with its line; and `Memory` when memory runs out. No table is copied, and at most one step is taken for each update.
    pub fn admit<L>(
        &self,
        alloc: Global,
        updates: &[Update],
        steps: &mut Steps<L>,
    ) -> Result<Delta, AdmitRefusal>
        requires started { self.now.started ≡ true }
        requires fits { MayAdmit self.now updates.now }
        ensures ok { IfOk result (λ delta. delta ≡ netted (length self.now.tables) updates.now) }
        ensures made { IfOk result (λ delta. made self.now.tables updates.now ≡ Made (with_changes self.now.tables delta)) }
        ensures good { IfOk result (λ delta. IsGood self.now.circuit (with_changes self.now.tables delta)) }
        ensures absent { (line : ℕ) → result ≡ Err (AdmitRefusal.Absent line) → made self.now.tables updates.now ≡ Lacking line }
        ensures cost { steps.new.count ≤ steps.old.count + length updates.now }
        ensures ledger { steps.new.ledger ≡ steps.old.ledger }
    {
        let _ = self.circuit.len();
        if let Some(line) = first_absent(alloc, &self.circuit, &self.states, updates, steps)? {
            return Err(AdmitRefusal::Absent { line });
        }
        let changes = netted(alloc, &self.circuit, updates)?;
        Ok(Delta { changes })
    }

    /// Makes a change of each table of an engine that has started; with their changes the tables are good for the circuit.
    ///
    /// The changes are what each view has over the new tables, less what it had over the old ones. The answer is `Range`
    /// exactly if a view is out of range over the new tables, and names the first; and `Memory` when memory runs out. A
    /// refused engine is as before: all is prepared before anything is put in place, and from then on no memory is taken. It takes
    /// at most the cost of the tick in steps, whatever the number of shards is.
    pub fn tick<L>(
        &mut self,
        alloc: Global,
        delta: Delta,
        steps: &mut Steps<L>,
    ) -> Result<Changes, TickRefusal>
        requires started { self.old.started ≡ true }
        requires good { IsGood self.old.circuit (with_changes self.old.tables delta) }
        ensures ok { IfOk result (λ changes. changes.views.items ≡ views_between self.old.circuit self.old.tables (with_changes self.old.tables delta)) }
        ensures engine { OnOk result (self.new ≡ moved self.old delta) }
        ensures in_range { OnOk result (verdict self.old.circuit (with_changes self.old.tables delta) ≡ None) }
        ensures range { (view : ℕ) → result ≡ Err (TickRefusal.Range view) → verdict self.old.circuit (with_changes self.old.tables delta) ≡ Some view }
        ensures refused { OnErr result (self.new ≡ self.old) }
        ensures cost { steps.new.count ≤ steps.old.count + cost false self.old.circuit self.old.tables delta }
        ensures ledger { steps.new.ledger ≡ steps.old.ledger }
    {
        let changes = fitted(alloc, self.circuit.table_count() as usize, delta.changes)?;
        let prepared = prepare_tick(
            alloc,
            &self.circuit,
            &self.states,
            &self.totals,
            &changes,
            false,
            steps,
        )?;
        let Prepared {
            ready,
            totals: sums,
            views,
        } = prepared;
        commit_all(&mut self.states, ready);
        self.totals = sums;
        Ok(Changes { views })
    }
}
