//! The ticks of the sample, one after the other.
ghost use Rattle.std.specs.Prelude.{◌≡◌, ◌+◌, ◌%◌, ◌++◌, ◌∷◌, [], ◌≤◌, IfOk, OnErr, OnOk, true};
ghost use Rattle.sq_sample.specs.Numbers.{d_row, row_from, state_at};
ghost use Rattle.sq_sample.specs.Ticks.{d_updates, e_updates, tick, update};

use crate::generator::Generator;
use sq_typed::Update;
use sq_value::{NoMemory, Row, Value};
use std::alloc::Global;
use std::marker::Model;

/// How many rows of the table d there are.
const D_ROWS: u32 = 1010;

/// How many rows of the table e the first tick inserts.
const E_ROWS: u32 = 100_000;

/// The ticks of the sample for a seed. Contracts see it as the seed, and how many ticks were given.
///
/// It keeps the generator at the next row to insert, and once more at the next row to delete.
#[derive(Debug, Drop)]
pub struct SampleTicks {
    seed: u32,
    made: u32,
    newest: Generator,
    oldest: Generator,
}

impl Model for SampleTicks {
    ghost use Rattle.sq_sample.specs.Ticks.{Place};
    ghost use Rattle.sq_sample.specs.Kept.{IsKept};

    ghost Value = { Place };

    ghost view = { λ s. record { seed = s.seed; made = s.made } };

    ghost invariant = { λ s. IsKept s.seed s.made s.newest.state s.newest.number s.oldest.state s.oldest.number };
}

impl SampleTicks {
    /// Before the first tick. Takes no memory.
    pub fn new(seed: u32) -> SampleTicks
        ensures { result ≡ record { seed = seed; made = 0 } }
    {
        SampleTicks {
            seed,
            made: 0,
            newest: Generator::new(seed),
            oldest: Generator::new(seed),
        }
    }

    /// The updates of the next tick; or `NoMemory` if memory runs out, and then the sample is as before. There are at most 1,000,001 ticks.
    pub fn next_tick(&mut self, alloc: Global) -> Result<Vec<Update>, NoMemory>
        requires { self.old.made ≤ 1000000 }
        ensures tick { IfOk result (λ updates. updates.items ≡ tick self.old.seed (self.old.made + 1)) }
        ensures place { OnOk result (self.new ≡ record self.old { made = self.old.made + 1 }) }
        ensures refused { OnErr result (self.new ≡ self.old) }
    {
        if self.made == 0 {
            self.first_tick(alloc)
        } else if self.made % 2 == 1 {
            self.insert_row(alloc)
        } else {
            self.delete_row(alloc)
        }
    }

    // The first tick, which inserts all rows of d and the first rows of e.
    fn first_tick(&mut self, alloc: Global) -> Result<Vec<Update>, NoMemory>
        requires { self.old.made ≡ 0 }
        ensures tick { IfOk result (λ updates. updates.items ≡ tick self.old.seed 1) }
        ensures place { OnOk result (self.new ≡ record self.old { made = 1 }) }
        ensures refused { OnErr result (self.new ≡ self.old) }
    {
        let mut updates = Vec::new(alloc);
        insert_into_d(alloc, &mut updates)?;
        let newest = insert_into_e(alloc, self.seed, &mut updates)?;
        self.newest = newest;
        self.made = 1;
        Ok(updates)
    }

    // A tick that inserts the next row.
    fn insert_row(&mut self, alloc: Global) -> Result<Vec<Update>, NoMemory>
        requires odd { self.old.made % 2 ≡ 1 }
        requires few { self.old.made ≤ 1000000 }
        ensures tick { IfOk result (λ updates. updates.items ≡ tick self.old.seed (self.old.made + 1)) }
        ensures place { OnOk result (self.new ≡ record self.old { made = self.old.made + 1 }) }
        ensures refused { OnErr result (self.new ≡ self.old) }
    {
        let updates = one_update(alloc, true, self.newest)?;
        self.newest = self.newest.advanced();
        self.made += 1;
        Ok(updates)
    }

    // A tick that deletes the oldest row.
    fn delete_row(&mut self, alloc: Global) -> Result<Vec<Update>, NoMemory>
        requires some { 1 ≤ self.old.made }
        requires even { self.old.made % 2 ≡ 0 }
        requires few { self.old.made ≤ 1000000 }
        ensures tick { IfOk result (λ updates. updates.items ≡ tick self.old.seed (self.old.made + 1)) }
        ensures place { OnOk result (self.new ≡ record self.old { made = self.old.made + 1 }) }
        ensures refused { OnErr result (self.new ≡ self.old) }
    {
        let updates = one_update(alloc, false, self.oldest)?;
        self.oldest = self.oldest.advanced();
        self.made += 1;
        Ok(updates)
    }
}

// One update of the table e, of the row at which the generator is.
fn one_update(alloc: Global, insert: bool, at: Generator) -> Result<Vec<Update>, NoMemory>
    ensures { IfOk result (λ updates. updates.items ≡ update 1 1 insert (row_from at.state at.number) ∷ []) }
{
    let mut updates = Vec::with_capacity(alloc, 1)?;
    updates.push(update(1, 1, insert, at.row(alloc)?))?;
    Ok(updates)
}

// The update of a row of a table.
fn update(line: u64, table: u32, insert: bool, row: Row) -> Update
    ensures { result ≡ update line table insert row }
{
    Update {
        line,
        table,
        insert,
        row,
    }
}

// Puts the updates that insert all rows of d behind the others.
fn insert_into_d(alloc: Global, updates: &mut Vec<Update>) -> Result<(), NoMemory>
    requires { updates.old.items ≡ [] }
    ensures { OnOk result (updates.new.items ≡ d_updates 1010) }
{
    for k in 0..D_ROWS {
        push_update(u64::from(k) + 1, 0, d_row(alloc, k)?, updates)?;
    }
    Ok(())
}

// The row of d with this number.
fn d_row(alloc: Global, number: u32) -> Result<Row, NoMemory>
    ensures { IfOk result (λ row. row ≡ d_row number) }
{
    let mut values = Vec::with_capacity(alloc, 2)?;
    values.push(Value::Int(i64::from(number)))?;
    values.push(Value::Int(i64::from(number % 10)))?;
    Ok(Row::of(values))
}

// Puts the updates that insert the first rows of e behind the others, and answers the generator at the next row.
fn insert_into_e(alloc: Global, seed: u32, updates: &mut Vec<Update>) -> Result<Generator, NoMemory>
    ensures told { OnOk result (updates.new.items ≡ updates.old.items ++ e_updates seed 100000) }
    ensures state { IfOk result (λ at. at.state ≡ state_at seed 200000) }
    ensures number { IfOk result (λ at. at.number ≡ 100000) }
{
    let mut at = Generator::new(seed);
    for i in 0..E_ROWS {
        push_update(u64::from(i) + 1011, 1, at.row(alloc)?, updates)?;
        at = at.advanced();
    }
    Ok(at)
}

// Puts the update that inserts a row behind the others.
fn push_update(line: u64, table: u32, row: Row, updates: &mut Vec<Update>) -> Result<(), NoMemory>
    ensures { OnOk result (updates.new.items ≡ updates.old.items ++ update line table true row ∷ []) }
{
    updates.push(update(line, table, true, row))?;
    Ok(())
}
