//! Shards: the numbers of some keys, worked out outside the program, and parts that are made and put together again.
ghost use Rattle.std.specs.Prelude.{IsTrue, ◌∷◌, []};
ghost use Rattle.std.specs.List.{All};
ghost use Rattle.sq_algebra.specs.ZSet.{entries};
ghost use Rattle.sq_shard.specs.Shards.{HasColumns};

use crate::rows::row_of;
use sq_shard::{gather, scatter, scatter_owned, shard_of};
use sq_value::{NoMemory, Row, Str, Value};
use sq_zset::{Group, ZSet};
use std::alloc::Global;
use std::process::Abort;
use std::test::Fail;

fn check_key(rt: &impl Abort, key: &Row, expected: &[(u32, u32)]) {
    for wanted in expected {
        let shards = wanted.0.clamp(1, 64);
        assert_eq!(rt; shard_of(key, shards), wanted.1);
    }
}

// A row of a number, a text and NULL.
fn mixed_row(alloc: Global) -> Result<Row, NoMemory> {
    let mut values = Vec::new(alloc);
    values.push(Value::Int(1))?;
    values.push(Value::Text(Str::of(alloc, "ab")?))?;
    values.push(Value::Null)?;
    Ok(Row::of(values))
}

#[test]
fn keys_have_these_shards(rt: HostRuntime) -> Result<(), Fail> {
    let alloc = rt.alloc();
    check_key(
        &rt,
        &Row::of(Vec::new(alloc)),
        &[(1, 0), (2, 0), (7, 0), (64, 0)],
    );
    check_key(
        &rt,
        &row_of(alloc, 1)?,
        &[(1, 0), (2, 1), (3, 2), (7, 2), (64, 19)],
    );
    check_key(&rt, &row_of(alloc, -1)?, &[(2, 0), (3, 1), (7, 2), (64, 2)]);
    check_key(&rt, &mixed_row(alloc)?, &[(2, 0), (3, 1), (7, 3), (64, 54)]);
    Ok(())
}

// A row of so many NULLs.
fn nulls(alloc: Global, count: usize) -> Result<Row, NoMemory> {
    let mut values = Vec::new(alloc);
    for _ in 0..count {
        values.push(Value::Null)?;
    }
    Ok(Row::of(values))
}

#[test]
fn nulls_have_these_shards(rt: HostRuntime) -> Result<(), Fail> {
    let alloc = rt.alloc();
    check_key(&rt, &nulls(alloc, 1)?, &[(1, 0), (2, 1)]);
    check_key(&rt, &nulls(alloc, 2)?, &[(2, 0), (3, 2), (64, 52)]);
    Ok(())
}

fn two_rows(alloc: Global) -> Result<ZSet, NoMemory> {
    let mut rows = Vec::new(alloc);
    rows.push(row_of(alloc, 5)?)?;
    rows.push(row_of(alloc, 7)?)?;
    ZSet::of_rows(alloc, rows)
}

// How many rows a Z-set has, and the weights of the rows 5 and 7.
fn told(alloc: Global, z: &ZSet) -> Result<(usize, i64, i64), NoMemory> {
    let (five, seven) = (row_of(alloc, 5)?, row_of(alloc, 7)?);
    Ok((z.len(), z.weight_of(&five), z.weight_of(&seven)))
}

#[test]
fn without_columns_all_rows_are_in_the_first_part(rt: HostRuntime) -> Result<(), Fail> {
    let alloc = rt.alloc();
    let parts = scatter(alloc, &two_rows(alloc)?, &[], 3)?;
    assert_eq!(rt; parts.len(), 3);
    assert_eq!(rt; told(alloc, &parts[0])?, (2, 1, 1));
    assert_eq!(rt; told(alloc, &parts[2])?, (0, 0, 0));
    assert_eq!(rt; told(alloc, &gather(alloc, parts)?)?, (2, 1, 1));
    Ok(())
}

#[test]
fn parts_with_the_same_rows_add_up(rt: HostRuntime) -> Result<(), Fail> {
    let alloc = rt.alloc();
    let mut parts = scatter_owned(alloc, two_rows(alloc)?, &[], 1)?;
    assert_eq!(rt; parts.len(), 1);
    parts.push(two_rows(alloc)?)?;
    assert_eq!(rt; told(alloc, &gather(alloc, parts)?)?, (2, 2, 2));
    Ok(())
}

// NULL once, 1 twice and 2 three times.
fn three_rows(alloc: Global) -> Result<ZSet, NoMemory> {
    let mut rows = Vec::new(alloc);
    rows.push(nulls(alloc, 1)?)?;
    for number in [1, 1, 2, 2, 2] {
        rows.push(row_of(alloc, number)?)?;
    }
    ZSet::of_rows(alloc, rows)
}

// How many rows a Z-set has, and the weights of NULL, 1 and 2.
fn weights(alloc: Global, z: &ZSet) -> Result<(usize, i64, i64, i64), NoMemory> {
    let null = z.weight_of(&nulls(alloc, 1)?);
    let one = z.weight_of(&row_of(alloc, 1)?);
    let two = z.weight_of(&row_of(alloc, 2)?);
    Ok((z.len(), null, one, two))
}

// Whether no row is empty.
fn have_a_column(z: &ZSet) -> bool
    ensures { IsTrue result → All (λ e. HasColumns (0 ∷ []) e.0) (entries z.now) }
{
    for i in 0..z.len() {
        let (row, _) = z.at(i);
        if row.len() == 0 {
            return false;
        }
    }
    true
}

#[test]
fn rows_are_parted_by_a_column(rt: HostRuntime) -> Result<(), Fail> {
    let alloc = rt.alloc();
    let rows = three_rows(alloc)?;
    if !have_a_column(&rows) {
        return Err(Fail::from("an empty row"));
    }
    let parts = scatter(alloc, &rows, &[0], 2)?;
    assert_eq!(rt; parts.len(), 2);
    assert_eq!(rt; weights(alloc, &parts[0])?, (1, 0, 0, 3));
    assert_eq!(rt; weights(alloc, &parts[1])?, (2, 1, 2, 0));
    assert_eq!(rt; weights(alloc, &gather(alloc, parts)?)?, (3, 1, 2, 3));
    Ok(())
}

#[test]
fn weights_of_a_row_add_up(rt: HostRuntime) -> Result<(), Fail> {
    let alloc = rt.alloc();
    let mut ones = Vec::new(alloc);
    ones.push(row_of(alloc, 1)?)?;
    let one = ZSet::of_rows(alloc, ones)?;
    let mut twos = Vec::new(alloc);
    twos.push(row_of(alloc, 2)?)?;
    let mut parts = Vec::new(alloc);
    parts.push(one.plus(alloc, &one)?)?;
    parts.push(ZSet::of_rows(alloc, twos)?.minus(alloc, &one)?)?;
    assert_eq!(rt; weights(alloc, &gather(alloc, parts)?)?, (2, 0, 1, 1));
    Ok(())
}
