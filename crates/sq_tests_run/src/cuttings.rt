//! Lines cut from pieces: any cutting gives the same lines.
use sq_lines::{Cutter, RawLine};
use std::alloc::Global;
use std::test::Fail;

// Appends the last digit of the line's number, and its bytes in brackets.
fn push_shown(line: &RawLine, to: &mut Vec<u8>) -> Result<(), Fail> {
    to.push(b'0'.wrapping_add((line.number % 10) as u8))?;
    to.push(b'[')?;
    to.extend_from_slice(line.bytes.as_slice())?;
    to.push(b']')?;
    Ok(())
}

fn push_all(lines: &[RawLine], to: &mut Vec<u8>) -> Result<(), Fail> {
    for line in lines {
        push_shown(line, to)?;
    }
    Ok(())
}

// The lines of two pieces, each shown, and the last one behind a bar; nothing if a piece is long.
fn cut_in_two(alloc: Global, front: &[u8], back: &[u8]) -> Result<Vec<u8>, Fail> {
    let mut shown = Vec::new(alloc);
    if front.len() > 100 || back.len() > 100 {
        return Ok(shown);
    }
    let mut cutter = Cutter::new(alloc);
    let lines = cutter.feed(alloc, front)?;
    push_all(&lines, &mut shown)?;
    let lines = cutter.feed(alloc, back)?;
    push_all(&lines, &mut shown)?;
    shown.push(b'|')?;
    if let Some(last) = cutter.finish() {
        push_shown(&last, &mut shown)?;
    }
    Ok(shown)
}

#[test]
fn a_line_goes_over_two_pieces(rt: HostRuntime) -> Result<(), Fail> {
    let shown = cut_in_two(rt.alloc(), b"{\"com", b"mit\":true}\nab")?;
    assert_eq!(rt; shown.as_slice(), b"1[{\"commit\":true}]|2[ab]".as_slice());
    Ok(())
}

const TEXT: &[u8] = b"ab\n\ncd\ne";

#[test]
fn every_cutting_gives_the_same_lines(rt: HostRuntime) -> Result<(), Fail> {
    for at in 0..=TEXT.len() {
        let shown = cut_in_two(rt.alloc(), &TEXT[..at], &TEXT[at..])?;
        assert_eq!(rt;
            shown.as_slice(),
            b"1[ab]2[]3[cd]|4[e]".as_slice(),
            "cut at {at}"
        );
    }
    Ok(())
}

#[test]
fn a_line_feed_at_the_end_leaves_nothing(rt: HostRuntime) -> Result<(), Fail> {
    let shown = cut_in_two(rt.alloc(), b"a", b"b\n")?;
    assert_eq!(rt; shown.as_slice(), b"1[ab]|".as_slice());
    Ok(())
}

// How many bytes are kept of a line of so many bytes.
fn kept(alloc: Global, bytes: usize) -> Result<usize, Fail> {
    let mut cutter = Cutter::new(alloc);
    let piece = vec![in alloc; b'x'; bytes]?;
    cutter.feed(alloc, &piece)?;
    Ok(
        cutter
            .finish()
            .map_or(0, |line| line.bytes.as_slice().len()),
    )
}

#[test]
fn a_long_line_is_kept_up_to_a_byte_more_than_the_longest(rt: HostRuntime) -> Result<(), Fail> {
    for (bytes, expected) in [(0, 0), (1_048_577, 1_048_577), (1_048_579, 1_048_577)] {
        assert_eq!(rt; kept(rt.alloc(), bytes)?, expected);
    }
    Ok(())
}
