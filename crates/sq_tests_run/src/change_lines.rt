//! Why lines are bad, and which rows good ones say.
use crate::relations::{NUMBER, said};
use sq_lines::{Line, Why};
use sq_value::{Row, Str, Value};
use std::alloc::Global;
use std::test::Fail;

// Why a line is bad, if it is, and tells its number.
fn cause(alloc: Global, bytes: &[u8]) -> Result<Option<Why>, Fail> {
    Ok(match said(alloc, bytes)? {
        Line::Bad { number, why } if number == NUMBER => Some(why),
        _ => None,
    })
}

#[test]
fn bad_lines_tell_the_first_cause(rt: HostRuntime) -> Result<(), Fail> {
    let lines: [(&[u8], Why); 14] = [
        (b"{\"commit\":true", Why::NotJson),
        (b"\"\xff\"", Why::NotJson),
        (b"[{\"commit\":true}]", Why::NotObject),
        (b"{\"commit\":true,\"x\":1}", Why::NoTable),
        (b"{\"commit\":false}", Why::NoTable),
        (b"{\"table\":1,\"insert\":{\"a\":1}}", Why::NoTable),
        (b"{\"table\":\"v\",\"insert\":{\"a\":1}}", Why::NoTable),
        (b"{\"table\":\"T\",\"delete\":{\"a\":1}}", Why::NoTable),
        (b"{\"table\":\"u\"}", Why::NoTable),
        (b"{\"table\":\"t\"}", Why::NotOneOp),
        (
            b"{\"table\":\"t\",\"insert\":{\"a\":1},\"delete\":{\"a\":1}}",
            Why::NotOneOp,
        ),
        (b"{\"table\":\"t\",\"insert\":[1]}", Why::NotOneOp),
        (
            b"{\"table\":\"t\",\"insert\":{\"c\":1}}",
            Why::MissingColumn,
        ),
        (
            b"{\"table\":\"t\",\"insert\":{\"a\":null,\"b\":\"x\"}}",
            Why::MissingColumn,
        ),
    ];
    for (text, why) in lines {
        assert_eq!(rt; cause(rt.alloc(), text)?, Some(why));
    }
    Ok(())
}

// Why the line that puts a row with these members into `t` is bad, if it is.
fn cause_of_members(alloc: Global, members: &str) -> Result<Option<Why>, Fail> {
    let mut bytes = Vec::from_slice(alloc, b"{\"table\":\"t\",\"insert\":{")?;
    bytes.extend_from_slice(members.as_bytes())?;
    bytes.extend_from_slice(b"}}")?;
    cause(alloc, bytes.as_slice())
}

#[test]
fn numbers_have_types_and_ranges(rt: HostRuntime) -> Result<(), Fail> {
    let rows = [
        ("\"a\":1.0", Some(Why::WrongType)),
        ("\"a\":\"1\"", Some(Why::WrongType)),
        ("\"a\":1,\"c\":1", Some(Why::WrongType)),
        ("\"a\":1,\"b\":-0", Some(Why::WrongType)),
        ("\"a\":1,\"b\":1e2", Some(Why::WrongType)),
        ("\"a\":2147483648,\"c\":[]", Some(Why::WrongType)),
        ("\"a\":1,\"b\":18446744073709551616", Some(Why::WrongType)),
        ("\"a\":1,\"b\":-9223372036854775809", Some(Why::WrongType)),
        ("\"a\":2147483648", Some(Why::OutOfRange)),
        ("\"a\":-2147483649", Some(Why::OutOfRange)),
        ("\"a\":18446744073709551615", Some(Why::OutOfRange)),
        ("\"a\":1,\"b\":9223372036854775808", Some(Why::OutOfRange)),
        ("\"a\":2147483647,\"b\":9223372036854775807", None),
        ("\"a\":-2147483648,\"b\":-9223372036854775808", None),
    ];
    for (members, why) in rows {
        assert_eq!(rt; cause_of_members(rt.alloc(), members)?, why);
    }
    Ok(())
}

// Whether a line is an update of this table with this row.
fn says(
    alloc: Global,
    bytes: &[u8],
    (table, insert): (u32, bool),
    (a, b, c): (i64, Value, &str),
) -> Result<bool, Fail> {
    let c = Value::Text(Str::of(alloc, c)?);
    let row = Row::of(vec![in alloc; Value::Int(a), b, c]?);
    Ok(match said(alloc, bytes)? {
        Line::Update(update) => {
            update.line == NUMBER
                && update.table == table
                && update.insert == insert
                && update.row == row
        }
        _ => false,
    })
}

#[test]
fn good_lines_say_rows(rt: HostRuntime) -> Result<(), Fail> {
    let inserted = says(
        rt.alloc(),
        b"{\"table\":\"t\",\"insert\":{\"c\":\"\\u00e9\\n\\\"\",\"a\":1,\"a\":-2,\"z\":{}},\"commit\":true}",
        (1, true),
        (-2, Value::Null, "é\n\""),
    )?;
    assert!(rt; inserted);
    let deleted = says(
        rt.alloc(),
        b"{\"table\":\"s\",\"delete\":{\"a\":0,\"b\":-9223372036854775808,\"c\":\"\"}}\r",
        (0, false),
        (0, Value::Int(i64::MIN), ""),
    )?;
    assert!(rt; deleted);
    Ok(())
}

// Whether a line of so many spaces is blank.
fn is_blank_of(alloc: Global, spaces: usize) -> Result<bool, Fail> {
    let bytes = vec![in alloc; b' '; spaces]?;
    Ok(said(alloc, bytes.as_slice())?.is_blank())
}

#[test]
fn commits_and_blank_lines(rt: HostRuntime) -> Result<(), Fail> {
    assert!(rt; said(rt.alloc(), b" {\"commit\" : true}\r")?.is_commit());
    assert!(rt; said(rt.alloc(), b" \t\r")?.is_blank());
    assert!(rt; is_blank_of(rt.alloc(), 0)?);
    assert!(rt; is_blank_of(rt.alloc(), 1_048_576)?);
    assert!(rt; !is_blank_of(rt.alloc(), 1_048_577)?);
    Ok(())
}
