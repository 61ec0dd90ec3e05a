//! DISTINCT of a whole Z-set.
ghost use Rattle.std.specs.Prelude.{◌≡◌, ◌++◌, [], ◌∷◌, pos, int_lt, if◌then◌else◌, IfOk, OnOk};
ghost use Rattle.std.specs.List.{filter};
ghost use Rattle.sq_algebra.specs.Operators.{distinct};
ghost use Rattle.sq_algebra.specs.ZSet.{entries, keys};
ghost use Rattle.sq_zset.specs.Range.{IsInRange};

use sq_value::{NoMemory, Row};
use sq_zset::ZSet;
use std::alloc::Global;

/// Each row with a weight above 0, with the weight 1; or `NoMemory` when memory runs out.
pub fn distinct_whole(alloc: Global, z: &ZSet) -> Result<ZSet, NoMemory>
    ensures ok { IfOk result (λ answer. answer ≡ distinct z.now) }
    ensures in_range { IfOk result IsInRange }
{
    let rows = rows_above_zero(alloc, z)?;
    let answer = ZSet::of_rows(alloc, rows)?;
    Ok(answer)
}

// The rows with a weight above 0, ascending.
fn rows_above_zero(alloc: Global, z: &ZSet) -> Result<Vec<Row>, NoMemory>
    ensures { IfOk result (λ rows. rows.items ≡ keys (filter (λ e. int_lt (pos 0) e.1) (entries z.now))) }
{
    let mut rows = Vec::new(alloc);
    for i in 0..z.len() {
        let (row, weight) = z.at(i);
        push_above_zero(alloc, row, weight, &mut rows)?;
    }
    Ok(rows)
}

// Puts a copy of the row behind the rows, if its weight is above 0.
fn push_above_zero(
    alloc: Global,
    row: &Row,
    weight: i64,
    rows: &mut Vec<Row>,
) -> Result<(), NoMemory>
    ensures { OnOk result (rows.new.items ≡ rows.old.items ++ (if int_lt (pos 0) weight then row.now ∷ [] else [])) }
{
    if weight > 0 {
        rows.push(row.clone_row(alloc)?)?;
    }
    Ok(())
}
