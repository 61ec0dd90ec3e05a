//! What the updates of a tick change in the tables, and the first that deletes a row which is not there.
ghost use Rattle.std.specs.Prelude.{◌≡◌, ◌<◌, ◌≤◌, ◌^◌, ◌+◌, ◌++◌, ◌∷◌, [], ◌+ℤ◌, ℕ, List, pos, length, map, unsigned_abs, if◌then◌else◌, ◌==◌, Ok, Some, None, IfOk, OnOk};
ghost use Rattle.std.specs.List.{AllByRecursion, filter};
ghost use Rattle.std.specs.Ordering.{is_eq};
ghost use Rattle.std.specs.declared.result.Result.TheVariants.{Err as Lacking};
ghost use Rattle.sq_value.specs.declared.value.Value.{Value as Datum};
ghost use Rattle.sq_value.specs.Order.{row_cmp};
ghost use Rattle.sq_algebra.specs.ZSet.{weight};
ghost use Rattle.sq_circuit.specs.Invariant.{IsCircuit, table_count};
ghost use Rattle.sq_engine.specs.Admitting.{Makes, count_at, count_of, is_gone, made, net, netted, signed, step_at};
ghost use Rattle.sq_tables.specs.Tables.{HoldTables, tables_in};
ghost use Rattle.sq_zset.specs.Pairs.{mass, weighted_rows};

use sq_base::Steps;
use sq_circuit::Circuit;
use sq_states::States;
use sq_tables::weight_of;
use sq_typed::Update;
use sq_value::{NoMemory, Row};
use sq_zset::{Pair, ZFault, ZSet};
use std::alloc::Global;
use std::collections::BTreeMap;

/// The line of the first update that deletes a row of which its table has no copy left then, if there is one. Takes one step for
/// each update at most.
///
/// The states are those of 1 to 64 shards, which hold the tables.
pub fn first_absent<L>(
    alloc: Global,
    circuit: &Circuit,
    states: &[States],
    updates: &[Update],
    steps: &mut Steps<L>,
) -> Result<Option<u64>, NoMemory>
    requires inside { AllByRecursion (λ u. u.table < table_count circuit.now) updates.now }
    requires holds { HoldTables circuit.now (tables_in circuit.now states.now) states.now }
    ensures none { result ≡ Ok None → Makes (tables_in circuit.now states.now) updates.now }
    ensures some { (line : ℕ) → result ≡ Ok (Some line) → made (tables_in circuit.now states.now) updates.now ≡ Lacking line }
    ensures cost { steps.new.count ≤ steps.old.count + length updates.now }
    ensures ledger { steps.new.ledger ≡ steps.old.ledger }
{
    let mut counts = no_counts(alloc, circuit.table_count() as usize)?;
    for update in updates {
        if is_absent(alloc, circuit, states, &counts, update, steps)? {
            return Ok(Some(update.line));
        }
        count(alloc, &mut counts, update)?;
    }
    Ok(None)
}

// Whether the update deletes a row of which its table, with what is counted, has no copy. Takes one step at most.
fn is_absent<L>(
    alloc: Global,
    circuit: &Circuit,
    states: &[States],
    counts: &[BTreeMap<Row, i64>],
    update: &Update,
    steps: &mut Steps<L>,
) -> Result<bool, NoMemory>
    requires table { update.now.table < table_count circuit.now }
    requires holds { HoldTables circuit.now (tables_in circuit.now states.now) states.now }
    requires counted { update.now.table < length counts.now }
    ensures ok { IfOk result (λ absent. absent ≡ is_gone (tables_in circuit.now states.now) counts.now update.now) }
    ensures cost { steps.new.count ≤ steps.old.count + 1 }
    ensures ledger { steps.new.ledger ≡ steps.old.ledger }
{
    if update.insert {
        return Ok(false);
    }
    let copies = weight_of(alloc, circuit, states, update.table, &update.row, steps)?;
    let counted = count_of(&counts[update.table as usize], &update.row);
    Ok(i128::from(copies) + i128::from(counted) <= 0)
}

// Counts the row of an update in the map of its table.
fn count(
    alloc: Global,
    counts: &mut Vec<BTreeMap<Row, i64>>,
    update: &Update,
) -> Result<(), NoMemory>
    requires inside { update.now.table < length counts.old.items }
    requires small { unsigned_abs (count_at counts.old.items update.now.table update.now.row) < 2 ^ 62 }
    ensures many { OnOk result (length counts.new.items ≡ length counts.old.items) }
    ensures more { OnOk result ((t : ℕ) (row : List Datum) → t < length counts.old.items → count_at counts.new.items t row ≡ count_at counts.old.items t row +ℤ step_at t row update.now) }
{
    count_more(
        alloc,
        &mut counts[update.table as usize],
        &update.row,
        step_of(update),
    )
}

// Nothing counted yet in so many tables.
fn no_counts(alloc: Global, tables: usize) -> Result<Vec<BTreeMap<Row, i64>>, NoMemory>
    ensures many { IfOk result (λ counts. length counts.items ≡ tables) }
    ensures none { IfOk result (λ counts. (t : ℕ) (row : List Datum) → count_at counts.items t row ≡ pos 0) }
{
    let mut counts = Vec::with_capacity(alloc, tables)?;
    for _table in 0..tables {
        counts.push(BTreeMap::new(alloc))?;
    }
    Ok(counts)
}

// How many copies more of the row an update makes: one, or one fewer.
fn step_of(update: &Update) -> i64
    ensures told { result ≡ (signed update.now).1 }
    ensures small { unsigned_abs result ≤ 1 }
{
    if update.insert { 1 } else { -1 }
}

// What is counted of the row.
fn count_of(counts: &BTreeMap<Row, i64>, row: &Row) -> i64
    ensures { result ≡ count_of counts.now row.now }
{
    match counts.get(row) {
        Some(count) => *count,
        None => 0,
    }
}

// Counts the row so much more.
fn count_more(
    alloc: Global,
    counts: &mut BTreeMap<Row, i64>,
    row: &Row,
    more: i64,
) -> Result<(), NoMemory>
    requires small { unsigned_abs (count_of counts.old row.now) < 2 ^ 62 }
    requires step { unsigned_abs more ≤ 1 }
    ensures { OnOk result ((r : List Datum) → count_of counts.new r ≡ count_of counts.old r +ℤ (if is_eq (row_cmp r row.now) then more else pos 0)) }
{
    let count = count_of(counts, row) + more;
    counts.insert(row.clone_row(alloc)?, count)?;
    Ok(())
}

/// The change of each table of the circuit by the updates, those of one row added up.
pub fn netted(alloc: Global, circuit: &Circuit, updates: &[Update]) -> Result<Vec<ZSet>, NoMemory>
    ensures changes { IfOk result (λ changes. changes.items ≡ netted (table_count circuit.now) updates.now) }
    ensures sound { OnOk result (IsCircuit circuit.now) }
{
    let tables = circuit.table_count();
    let mut changes = Vec::with_capacity(alloc, tables as usize)?;
    for t in 0..tables {
        changes.push(net(alloc, t, updates)?)?;
    }
    Ok(changes)
}

// What the updates change in a table.
fn net(alloc: Global, table: u32, updates: &[Update]) -> Result<ZSet, NoMemory>
    ensures { IfOk result (λ z. z ≡ net table updates.now) }
{
    match ZSet::consolidate(alloc, pairs_of(alloc, table, updates)?) {
        Ok(z) => Ok(z),
        Err(ZFault::Memory) => Err(NoMemory),
        Err(ZFault::Weight { .. }) => unreachable!(),
    }
}

// The rows of the updates of a table, each once more or once less.
fn pairs_of(alloc: Global, table: u32, updates: &[Update]) -> Result<Vec<Pair>, NoMemory>
    ensures told { IfOk result (λ pairs. weighted_rows pairs.items ≡ map signed (filter (λ u. u.table == table) updates.now)) }
    ensures few { IfOk result (λ pairs. mass pairs.items ≤ length updates.now) }
{
    let mut pairs = Vec::new(alloc);
    for update in updates {
        push_pair(alloc, table, update, &mut pairs)?;
    }
    Ok(pairs)
}

// Puts the row of an update of the table behind the pairs.
fn push_pair(
    alloc: Global,
    table: u32,
    update: &Update,
    pairs: &mut Vec<Pair>,
) -> Result<(), NoMemory>
    ensures told { OnOk result (weighted_rows pairs.new.items ≡ weighted_rows pairs.old.items ++ (if update.now.table == table then signed update.now ∷ [] else [])) }
    ensures few { OnOk result (mass pairs.new.items ≤ mass pairs.old.items + 1) }
{
    if update.table != table {
        return Ok(());
    }
    pairs.push(Pair {
        row: update.row.clone_row(alloc)?,
        weight: i128::from(step_of(update)),
    })?;
    Ok(())
}
