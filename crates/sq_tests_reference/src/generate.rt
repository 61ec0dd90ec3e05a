//! Inputs made from a seed: a program, and ticks of change lines over rows of few values.
use crate::words::{bad_lines, choices, columns_of, table_name, values, view_name};
use std::alloc::Global;
use std::test::Fail;

/// Most replacements of marks in one view.
const MOST_STEPS: u64 = 400;

/// Replacements in a view after which the first choice is taken.
const FREE_STEPS: u64 = 60;

/// What is made so far: the state of the generator, the text, and how many tables and views it creates.
#[derive(Drop)]
struct Maker {
    seed: u64,
    text: Vec<u8>,
    tables: u64,
    views: u64,
}

impl Maker {
    // The next number below `count`, or 0.
    fn draw(&mut self, count: u64) -> u64 {
        self.seed = self
            .seed
            .wrapping_mul(6364136223846793005)
            .wrapping_add(1442695040888963407);
        if count == 0 {
            return 0;
        }
        (self.seed >> 33) % count
    }

    fn put(&mut self, text: &str) -> Result<(), Fail> {
        self.text.extend_from_slice(text.as_bytes())?;
        Ok(())
    }

    // One of the words.
    fn pick(&mut self, words: &'static [&'static str]) -> &'static str {
        let place = self.draw(words.len() as u64) as usize;
        match words.get(place) {
            Some(word) => *word,
            None => "",
        }
    }

    // The name of a relation that is there already.
    fn pick_relation(&mut self) -> &'static str {
        let number = self.draw(self.tables.saturating_add(self.views));
        if number < self.tables {
            table_name(number)
        } else {
            view_name(number.saturating_sub(self.tables))
        }
    }
}

/// The input of a seed.
pub fn input_of(alloc: Global, seed: u64) -> Result<Vec<u8>, Fail> {
    let mut maker = Maker {
        seed: seed.wrapping_mul(0x9E37_79B9_7F4A_7C15),
        text: Vec::new(alloc),
        tables: 0,
        views: 0,
    };
    put_tables(&mut maker)?;
    put_views(alloc, &mut maker)?;
    maker.put("---\n")?;
    put_ticks(alloc, &mut maker, seed)?;
    Ok(maker.text)
}

fn put_tables(maker: &mut Maker) -> Result<(), Fail> {
    let count = maker.draw(3).saturating_add(1);
    for number in 0..count {
        let form = maker.draw(4);
        maker.put("CREATE TABLE ")?;
        maker.put(table_name(number))?;
        maker.put(columns_of(form))?;
        maker.put(";\n")?;
    }
    maker.tables = count;
    Ok(())
}

fn put_views(alloc: Global, maker: &mut Maker) -> Result<(), Fail> {
    let count = maker.draw(4).saturating_add(1);
    for number in 0..count {
        let local = maker.draw(4) == 0;
        maker.put(if local {
            "CREATE LOCAL VIEW "
        } else {
            "CREATE VIEW "
        })?;
        maker.put(view_name(number))?;
        maker.put(" AS ")?;
        put_query(alloc, maker)?;
        maker.put(";\n")?;
        maker.views = number + 1;
    }
    Ok(())
}

// A query, whose marks are replaced from the left.
fn put_query(alloc: Global, maker: &mut Maker) -> Result<(), Fail> {
    let mut left: Vec<(&'static str, u8)> = Vec::new(alloc);
    left.push(("$q1", b'1'))?;
    for step in 0..MOST_STEPS {
        let Some((text, scope)) = left.pop() else {
            return Ok(());
        };
        put_front(maker, &mut left, text, scope, step > FREE_STEPS)?;
    }
    Ok(())
}

// The text up to its first mark; what takes the place of that mark, and the text behind it, are left to do.
fn put_front(
    maker: &mut Maker,
    left: &mut Vec<(&'static str, u8)>,
    text: &'static str,
    scope: u8,
    short: bool,
) -> Result<(), Fail> {
    let Some((front, rest)) = text.split_once('$') else {
        return maker.put(text);
    };
    maker.put(front)?;
    let letter = byte_at(rest, 0);
    let named = byte_at(rest, 1);
    let inner = if named == b'.' { scope } else { named };
    if let Some(behind) = rest.get(2..) {
        left.push((behind, scope))?;
    }
    let word = word_for(maker, letter, inner, short);
    left.push((word, inner))?;
    Ok(())
}

// What takes the place of a mark.
fn word_for(maker: &mut Maker, letter: u8, scope: u8, short: bool) -> &'static str {
    match letter {
        b'r' => maker.pick_relation(),
        b'm' => {
            let number = maker.draw(maker.tables);
            table_name(number)
        }
        _ => {
            let words = choices(letter, scope);
            match words.first() {
                Some(first) if short => *first,
                _ => maker.pick(words),
            }
        }
    }
}

fn byte_at(text: &str, place: usize) -> u8 {
    match text.as_bytes().get(place) {
        Some(byte) => *byte,
        None => 0,
    }
}

fn put_ticks(alloc: Global, maker: &mut Maker, seed: u64) -> Result<(), Fail> {
    let mut rows = Vec::new(alloc);
    let ticks = maker.draw(10).saturating_add(6);
    for tick in 0..ticks {
        let lines = maker.draw(6);
        for _line in 0..lines {
            put_line(maker, &mut rows, seed, tick > 1)?;
        }
        maker.put("{\"commit\":true}\n")?;
    }
    if maker.draw(3) == 0 {
        put_line(maker, &mut rows, seed, true)?;
    }
    Ok(())
}

fn put_line(maker: &mut Maker, rows: &mut Vec<u64>, seed: u64, later: bool) -> Result<(), Fail> {
    match maker.draw(40) {
        0 => {
            let bad = maker.pick(bad_lines());
            maker.put(bad)?;
            maker.put("\n")
        }
        1 => maker.put(" \n"),
        _ => put_update(maker, rows, seed, later),
    }
}

// An update of one of eight rows of a table. The rows that the lines so far leave stand in `rows`, each by its number, unless a
// tick is refused. Most deletes are of one of these.
fn put_update(maker: &mut Maker, rows: &mut Vec<u64>, seed: u64, later: bool) -> Result<(), Fail> {
    if later && maker.draw(5) < 2 {
        let row = deleted_row(maker, rows);
        return put_change(maker, seed, row, "\",\"delete\":");
    }
    let row = maker.draw(maker.tables.saturating_mul(8));
    rows.push(row)?;
    put_change(maker, seed, row, "\",\"insert\":")
}

fn deleted_row(maker: &mut Maker, rows: &mut Vec<u64>) -> u64 {
    let place = maker.draw(rows.len() as u64) as usize;
    if place >= rows.len() || maker.draw(8) == 0 {
        return maker.draw(maker.tables.saturating_mul(8));
    }
    rows.swap_remove(place)
}

fn put_change(maker: &mut Maker, seed: u64, row: u64, operation: &str) -> Result<(), Fail> {
    maker.put("{\"table\":\"")?;
    maker.put(table_name(row / 8))?;
    maker.put(operation)?;
    let kept = maker.seed;
    maker.seed = seed
        .wrapping_mul(31)
        .wrapping_add(row)
        .wrapping_mul(0x9E37_79B9_7F4A_7C15);
    put_row(maker)?;
    maker.seed = kept;
    maker.put("}\n")
}

fn put_row(maker: &mut Maker) -> Result<(), Fail> {
    let _ = maker.draw(2);
    let a = maker.pick(values(b'a'));
    let b = maker.pick(values(b'b'));
    let s = maker.pick(values(b's'));
    maker.put("{\"a\":")?;
    maker.put(a)?;
    maker.put(",\"b\":")?;
    maker.put(b)?;
    maker.put(",\"s\":")?;
    maker.put(s)?;
    maker.put("}")
}
