//! What the tests share: changes of one payload or two, and look-ups with the number of their steps.
ghost use Rattle.std.specs.Prelude.{◌≡◌, ◌∷◌, [], None, IfOk};
ghost use Rattle.sq_value.specs.declared.value.Value.TheVariants.{Int};
ghost use Rattle.sq_zset.specs.Range.{number_outside};

use sq_base::Steps;
use sq_trace::{Entry, Keyed, Trace};
use sq_value::{NoMemory, Row, Value};
use sq_zset::{ZFault, ZSet, weight_from};
use std::alloc::Global;

/// A row of this number.
pub fn row_of(alloc: Global, number: i64) -> Result<Row, NoMemory>
    ensures { IfOk result (λ row. row ≡ Int number ∷ []) }
{
    let mut values = Vec::new(alloc);
    values.push(Value::Int(number))?;
    Ok(Row::of(values))
}

/// An entry of one weight.
fn entry_of(alloc: Global, key: i64, row: i64, weight: i64) -> Result<Entry<i64>, ZFault>
    ensures { IfOk result (λ entry. (entry.row ≡ Int row ∷ []) × (number_outside entry.payload ≡ None)) }
{
    let payload = weight_from(i128::from(weight))?;
    let (key, row) = (row_of(alloc, key)?, row_of(alloc, row)?);
    Ok(Entry { key, row, payload })
}

/// The change of one weight.
pub fn change_of(alloc: Global, key: i64, row: i64, weight: i64) -> Result<Keyed<i64>, ZFault> {
    let mut entries = Vec::new(alloc);
    entries.push(entry_of(alloc, key, row, weight)?)?;
    Ok(Keyed::of(alloc, entries)?)
}

/// The change of the weights of two rows of the key 1, in this order. The rows are 5 and 7, or 7 and 5 if `descends`.
pub fn change_of_two(
    alloc: Global,
    descends: bool,
    weights: (i64, i64),
) -> Result<Keyed<i64>, ZFault> {
    let five = entry_of(alloc, 1, 5, weights.0)?;
    let seven = entry_of(alloc, 1, 7, weights.1)?;
    let mut entries = Vec::new(alloc);
    if descends {
        entries.push(seven)?;
        entries.push(five)?;
    } else {
        entries.push(five)?;
        entries.push(seven)?;
    }
    Ok(Keyed::of(alloc, entries)?)
}

/// Prepares a change and commits it.
pub fn apply(alloc: Global, trace: &mut Trace<i64>, change: &Keyed<i64>) -> Result<(), ZFault> {
    let prepared = trace.prepare(alloc, change)?;
    trace.commit(prepared);
    Ok(())
}

/// Adds a weight to a trace.
pub fn add(
    alloc: Global,
    trace: &mut Trace<i64>,
    key: i64,
    row: i64,
    weight: i64,
) -> Result<(), ZFault> {
    let change = change_of(alloc, key, row, weight)?;
    apply(alloc, trace, &change)
}

/// What a trace holds at a key and a row, and the steps that it took to look.
pub fn look(
    alloc: Global,
    trace: &Trace<i64>,
    key: i64,
    row: i64,
) -> Result<(Option<i64>, u64), NoMemory> {
    let (key, row) = (row_of(alloc, key)?, row_of(alloc, row)?);
    let mut steps = Steps::begin(());
    let answer = trace.payload_of(alloc, &key, &row, &mut steps);
    let count = steps.count();
    steps.end();
    Ok((answer?, count))
}

/// The entries of a key, and the steps that it took to find them.
pub fn look_up_key(
    alloc: Global,
    trace: &Trace<i64>,
    key: i64,
) -> Result<(Vec<Entry<i64>>, u64), NoMemory> {
    let key = row_of(alloc, key)?;
    let mut steps = Steps::begin(());
    let answer = trace.rows_of(alloc, &key, &mut steps);
    let count = steps.count();
    steps.end();
    Ok((answer?, count))
}

/// All entries, and the steps that it took to walk through them.
pub fn walk(alloc: Global, trace: &Trace<i64>) -> Result<(Vec<Entry<i64>>, u64), NoMemory> {
    let mut steps = Steps::begin(());
    let answer = trace.walk(alloc, &mut steps);
    let count = steps.count();
    steps.end();
    Ok((answer?, count))
}

/// The Z-set of rows of some numbers, less that of others.
pub fn zset_of(alloc: Global, added: &[i64], removed: &[i64]) -> Result<ZSet, ZFault> {
    let added = ZSet::of_rows(alloc, rows_of(alloc, added)?)?;
    let removed = ZSet::of_rows(alloc, rows_of(alloc, removed)?)?;
    added.minus(alloc, &removed)
}

fn rows_of(alloc: Global, numbers: &[i64]) -> Result<Vec<Row>, NoMemory> {
    let mut rows = Vec::new(alloc);
    for number in numbers {
        rows.push(row_of(alloc, *number)?)?;
    }
    Ok(rows)
}

/// The number of a row, if it has one.
fn number_of(row: Option<Row>) -> Option<i64> {
    let row = row?;
    if row.len() == 0 {
        return None;
    }
    match row.at(0) {
        Value::Int(number) => Some(*number),
        Value::Null | Value::Text(_) => None,
    }
}

/// The first row of a key under a change, and the steps that it took to find it.
pub fn least(
    alloc: Global,
    trace: &Trace<i64>,
    key: i64,
    change: &ZSet,
) -> Result<(Option<i64>, u64), NoMemory> {
    let key = row_of(alloc, key)?;
    let mut steps = Steps::begin(());
    let answer = trace.least_of(alloc, &key, change, &mut steps);
    let count = steps.count();
    steps.end();
    Ok((number_of(answer?), count))
}

/// The last row of a key under a change, and the steps that it took to find it.
pub fn greatest(
    alloc: Global,
    trace: &Trace<i64>,
    key: i64,
    change: &ZSet,
) -> Result<(Option<i64>, u64), NoMemory> {
    let key = row_of(alloc, key)?;
    let mut steps = Steps::begin(());
    let answer = trace.greatest_of(alloc, &key, change, &mut steps);
    let count = steps.count();
    steps.end();
    Ok((number_of(answer?), count))
}
