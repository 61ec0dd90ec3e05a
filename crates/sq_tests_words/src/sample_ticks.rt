//! The ticks of the sample for some seeds, against numbers that were computed apart.
use sq_sample::SampleTicks;
use sq_typed::Update;
use sq_value::{Row, Value};
use std::alloc::Global;
use std::test::Fail;

// Whether the row has these numbers.
fn has_numbers(row: &Row, numbers: &[i64]) -> bool {
    if row.len() != numbers.len() {
        return false;
    }
    for i in 0..numbers.len().min(row.len()) {
        match row.at(i) {
            Value::Int(number) => {
                if *number != numbers[i] {
                    return false;
                }
            }
            Value::Null | Value::Text(_) => return false,
        }
    }
    true
}

// What an update of a tick has to be: its place, its line, its table, whether it inserts, and its numbers.
type Wanted<'a> = (usize, u64, u32, bool, &'a [i64]);

fn is_wanted(update: &Update, wanted: &Wanted<'_>) -> bool {
    update.line == wanted.1
        && update.table == wanted.2
        && update.insert == wanted.3
        && has_numbers(&update.row, wanted.4)
}

// Whether a tick has so many updates, and these among them.
fn has_updates(updates: &[Update], many: usize, wanted: &[Wanted<'_>]) -> bool {
    for one in wanted {
        if one.0 >= updates.len() || !is_wanted(&updates[one.0], one) {
            return false;
        }
    }
    updates.len() == many
}

#[test]
fn the_first_ticks_of_the_seed_1(rt: HostRuntime) -> Result<(), Fail> {
    let alloc: Global = rt.alloc();
    let mut ticks = SampleTicks::new(1);
    let first = ticks.next_tick(alloc)?;
    let wanted: [Wanted<'_>; 5] = [
        (0, 1, 0, true, &[0, 0]),
        (1009, 1010, 0, true, &[1009, 9]),
        (1010, 1011, 1, true, &[0, 548, 307]),
        (1012, 1013, 1, true, &[2, 68, 590]),
        (101_009, 101_010, 1, true, &[99_999, 519, 704]),
    ];
    assert!(rt; has_updates(&first, 101_010, &wanted));
    let second = ticks.next_tick(alloc)?;
    assert!(rt; has_updates(&second, 1, &[(0, 1, 1, true, &[100_000, 837, 720])]));
    let third = ticks.next_tick(alloc)?;
    assert!(rt; has_updates(&third, 1, &[(0, 1, 1, false, &[0, 548, 307])]));
    let fourth = ticks.next_tick(alloc)?;
    assert!(rt; has_updates(&fourth, 1, &[(0, 1, 1, true, &[100_001, 518, 734])]));
    let fifth = ticks.next_tick(alloc)?;
    assert!(rt; has_updates(&fifth, 1, &[(0, 1, 1, false, &[1, 393, 741])]));
    Ok(())
}

#[test]
fn the_first_rows_of_the_least_and_the_greatest_seed(rt: HostRuntime) -> Result<(), Fail> {
    let alloc: Global = rt.alloc();
    let least = SampleTicks::new(0).next_tick(alloc)?;
    assert!(rt; has_updates(&least, 101_010, &[(1010, 1011, 1, true, &[0, 614, 849])]));
    let greatest = SampleTicks::new(4_294_967_295).next_tick(alloc)?;
    assert!(rt; has_updates(&greatest, 101_010, &[(1010, 1011, 1, true, &[0, 518, 72])]));
    Ok(())
}
