//! Values, texts and rows: that calls succeed with ample memory, and that the orders are the intended ones.
ghost use Rattle.std.specs.Prelude.{◌≡◌, IfOk, length};

use crate::fixtures::{row_of, text_of};
use sq_value::{Row, Str, Tri, Value, key_bytes};
use std::alloc::Global;
use std::convert::AsStr;
use std::hash::{DefaultHasher, Hash, Hasher};
use std::process::Abort;
use std::test::Fail;

fn hash_of<T: Hash>(item: &T) -> u64 {
    let mut state = DefaultHasher::new();
    item.hash(&mut state);
    state.finish()
}

fn lent<T: AsStr>(item: &T) -> &str {
    item.as_str()
}

// Each item stands before those that follow it, and is equal to itself alone.
fn check_ascending<T: Ord + Drop>(rt: &impl Abort, items: Vec<T>) {
    for (i, a) in items.iter().enumerate() {
        for (j, b) in items.iter().enumerate() {
            let found = (a.cmp(b), a == b, a < b);
            assert_eq!(rt; found, (i.cmp(&j), i == j, i < j), "at {i} and {j}");
        }
    }
}

#[test]
fn copies_of_texts_are_equal(rt: HostRuntime) -> Result<(), Fail> {
    let alloc = rt.alloc();
    let text = Str::of(alloc, "źdźbło")?;
    let copy = text.clone_str(alloc)?;
    assert_eq!(rt; lent(&text), "źdźbło");
    assert_eq!(rt; lent(&copy), "źdźbło");
    assert_eq!(rt; hash_of(&text), hash_of(&copy));
    Ok(())
}

// NULL, -7 and the text.
fn row_with_text(alloc: Global, text: &str) -> Result<Row, Fail>
    ensures { IfOk result (λ row. length row ≡ 3) }
{
    let text = text_of(alloc, text)?;
    Ok(Row::of(vec![in alloc; Value::Null, Value::Int(-7), text]?))
}

// The row has these values, and a copy of it is the same.
fn check_copy(rt: &impl Abort, row: &Row, copy: &Row, text: &Value) {
    assert_eq!(rt; copy.len(), 3);
    assert!(rt; *copy.at(0) == Value::Null);
    assert!(rt; *copy.at(1) == Value::Int(-7));
    assert!(rt; *copy.at(2) == *text);
    assert!(rt; *row == *copy);
    assert_eq!(rt; hash_of(row), hash_of(copy));
}

#[test]
fn copies_of_rows_are_equal(rt: HostRuntime) -> Result<(), Fail> {
    let alloc = rt.alloc();
    let row = row_with_text(alloc, "źdźbło")?;
    let last = row.at(2).clone_value(alloc)?;
    let copy = row.clone_row(alloc)?;
    check_copy(&rt, &row, &copy, &last);
    check_copy(&rt, &row, &copy, &text_of(alloc, "źdźbło")?);
    Ok(())
}

// A row and a copy of it are the same as before, once the row is shared.
fn check_shared(rt: &impl Abort, alloc: Global, numbers: &[Option<i64>]) -> Result<(), Fail> {
    let before = row_of(alloc, numbers)?;
    let shared = row_of(alloc, numbers)?.share(alloc)?;
    let copy = shared.clone_row(alloc)?;
    assert!(rt; shared == before);
    assert!(rt; copy == before);
    assert_eq!(rt; hash_of(&copy), hash_of(&before));
    Ok(())
}

#[test]
fn shared_rows_are_the_same(rt: HostRuntime) -> Result<(), Fail> {
    let alloc = rt.alloc();
    let numbers = [Some(1), None, Some(-3), Some(4), None];
    for length in [0, 3, 5] {
        check_shared(&rt, alloc, &numbers[..length])?;
    }
    Ok(())
}

// The rows of these numbers and NULLs.
fn rows_of(alloc: Global, rows: &[&[Option<i64>]]) -> Result<Vec<Row>, Fail> {
    let mut list = Vec::new(alloc);
    for numbers in rows {
        list.push(row_of(alloc, numbers)?)?;
    }
    Ok(list)
}

#[test]
fn values_go_by_kind_and_size(rt: HostRuntime) -> Result<(), Fail> {
    let alloc = rt.alloc();
    let mut values = vec![in alloc; Value::Null]?;
    for number in [i64::MIN, -10, -9, 0, 9, 10, i64::MAX] {
        values.push(Value::Int(number))?;
    }
    // In UTF-16 the last two would stand the other way round.
    for text in ["", "B", "a", "aa", "b", "é", "\u{ff21}", "\u{10000}"] {
        values.push(Value::Text(Str::of(alloc, text)?))?;
    }
    check_ascending(&rt, values);
    Ok(())
}

#[test]
fn rows_go_column_by_column(rt: HostRuntime) -> Result<(), Fail> {
    let rows: [&[Option<i64>]; 7] = [
        &[],
        &[None],
        &[None, Some(5)],
        &[Some(1)],
        &[Some(1), None],
        &[Some(1), Some(2)],
        &[Some(2), Some(1)],
    ];
    check_ascending(&rt, rows_of(rt.alloc(), &rows)?);
    Ok(())
}

#[test]
fn truth_goes_from_false_to_true(rt: HostRuntime) {
    let all = [Tri::False, Tri::Unknown, Tri::True];
    for a in all {
        for b in all {
            assert_eq!(rt; a.and(b), a.min(b));
            assert_eq!(rt; a.or(b), a.max(b));
        }
    }
    assert_eq!(rt; all.map(Tri::not), [Tri::True, Tri::Unknown, Tri::False]);
    assert!(rt; Tri::False < Tri::Unknown && Tri::Unknown < Tri::True);
    assert_eq!(rt; all.map(Tri::is_true), [false, false, true]);
}

#[test]
fn keys_have_these_bytes(rt: HostRuntime) -> Result<(), Fail> {
    let alloc = rt.alloc();
    let text = text_of(alloc, "ab")?;
    let row = Row::of(vec![in alloc; Value::Int(1), Value::Null, Value::Int(-2), text]?);
    let expected: &[u8] = &[
        1, 0, 0, 0, 0, 0, 0, 0, 1, 0, 1, 255, 255, 255, 255, 255, 255, 255, 254, 2, 0, 0, 0, 0, 0,
        0, 0, 2, 97, 98,
    ];
    assert_eq!(rt; key_bytes(alloc, &row)?.as_slice(), expected);
    Ok(())
}
