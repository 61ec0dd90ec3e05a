//! Changes by a fixed sequence of numbers, beside a plain map.
use crate::rows::{add, greatest, least, look, walk, zset_of};
use sq_trace::Trace;
use std::alloc::Global;
use std::collections::BTreeMap;
use std::process::Abort;
use std::test::Fail;

/// A key, a row and a weight from -2 to 2.
fn drawn(number: u64) -> (i64, i64, i64) {
    (
        (number >> 33 & 31) as i64,
        (number >> 43 & 15) as i64,
        (number >> 53) as i64 % 5 - 2,
    )
}

fn add_to_map(
    map: &mut BTreeMap<(i64, i64), i64>,
    place: (i64, i64),
    weight: i64,
) -> Result<(), Fail> {
    let sum = map.get(&place).copied().unwrap_or(0).saturating_add(weight);
    map.insert(place, sum)?;
    Ok(())
}

fn check_map(
    rt: &impl Abort,
    alloc: Global,
    trace: &Trace<i64>,
    map: &BTreeMap<(i64, i64), i64>,
) -> Result<(), Fail> {
    let mut held = 0;
    for (place, sum) in map.iter() {
        let wanted = if *sum == 0 { None } else { Some(*sum) };
        assert_eq!(rt; look(alloc, trace, place.0, place.1)?, (wanted, 1));
        if *sum != 0 {
            held = u64::saturating_add(held, 1);
        }
    }
    let (rows, count) = walk(alloc, trace)?;
    assert_eq!(rt; count, held);
    assert_eq!(rt; rows.len() as u64, held);
    Ok(())
}

#[test]
fn a_trace_holds_what_a_map_holds(rt: HostRuntime) -> Result<(), Fail> {
    let alloc = rt.alloc();
    let mut trace = Trace::new(alloc);
    let mut map = BTreeMap::new(alloc);
    let mut number: u64 = 1;
    for _ in 0..3000 {
        number = number
            .wrapping_mul(6_364_136_223_846_793_005)
            .wrapping_add(1_442_695_040_888_963_407);
        let (key, row, weight) = drawn(number);
        add(alloc, &mut trace, key, row, weight)?;
        add_to_map(&mut map, (key, row), weight)?;
    }
    check_map(&rt, alloc, &trace, &map)
}

/// The first and the last row of a key whose weight is positive, with one more copy of a row, and one less of another.
fn ends_of(
    map: &BTreeMap<(i64, i64), i64>,
    key: i64,
    added: i64,
    removed: i64,
) -> (Option<i64>, Option<i64>) {
    let (mut first, mut last) = (None, None);
    for row in 0..16 {
        let mut sum = map.get(&(key, row)).copied().unwrap_or(0);
        if row == added {
            sum = sum.saturating_add(1);
        }
        if row == removed {
            sum = sum.saturating_sub(1);
        }
        if sum > 0 {
            first = first.or(Some(row));
            last = Some(row);
        }
    }
    (first, last)
}

#[test]
fn the_ends_of_a_key_are_those_of_a_map(rt: HostRuntime) -> Result<(), Fail> {
    let alloc = rt.alloc();
    let mut trace = Trace::new(alloc);
    let mut map = BTreeMap::new(alloc);
    let mut number: u64 = 1;
    for _ in 0..600 {
        number = number
            .wrapping_mul(6_364_136_223_846_793_005)
            .wrapping_add(1_442_695_040_888_963_407);
        let (key, row, weight) = drawn(number);
        add(alloc, &mut trace, key, row, weight)?;
        add_to_map(&mut map, (key, row), weight)?;
        let (added, removed) = ((number >> 23 & 15) as i64, (number >> 27 & 15) as i64);
        let change = zset_of(alloc, &[added], &[removed])?;
        let (first, last) = ends_of(&map, key, added, removed);
        assert_eq!(rt; least(alloc, &trace, key, &change)?.0, first);
        assert_eq!(rt; greatest(alloc, &trace, key, &change)?.0, last);
    }
    Ok(())
}
