//! Rows with their weights, as pairs.
ghost use Rattle.std.specs.Prelude.{◌≡◌, ◌++◌, ◌∷◌, [], ◌≤◌, ◌^◌, unsigned_abs, OnOk};
ghost use Rattle.sq_shard.specs.Pairs.{IsLight};
ghost use Rattle.sq_zset.specs.Pairs.{weighted_rows};

use sq_value::{NoMemory, Row};
use sq_zset::Pair;

/// Puts a row with its weight behind the pairs.
pub fn push_pair(entry: (Row, i64), pairs: &mut Vec<Pair>) -> Result<(), NoMemory>
    requires { unsigned_abs entry.1 ≤ 2 ^ 62 }
    ensures pairs { OnOk result (weighted_rows pairs.new.items ≡ weighted_rows pairs.old.items ++ entry ∷ []) }
    ensures light { IsLight pairs.old.items → OnOk result (IsLight pairs.new.items) }
{
    let (row, weight) = entry;
    pairs.push(Pair {
        row,
        weight: i128::from(weight),
    })?;
    Ok(())
}
