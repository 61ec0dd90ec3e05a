//! A line of the table: the names of a case and of its input, the words of the command line, and how the source and the sinks act.
use anyhow::bail;
use sq_value::{NoMemory, Str};
use std::alloc::Global;

/// A line of the table, whose fields have commas between them.
#[derive(Clone, Copy)]
pub struct Case<'a> {
    pub line: &'a str,
}

impl<'a> Case<'a> {
    fn field(self, number: usize) -> &'a str {
        self.line.split(',').nth(number).unwrap_or("")
    }

    pub fn name(self) -> &'a str {
        self.field(0)
    }

    /// The name of the input's file without its ending.
    pub fn input(self) -> &'a str {
        self.field(1)
    }

    pub fn words(self, alloc: Global) -> anyhow::Result<Vec<Str>> {
        let mut words = Vec::new(alloc);
        for word in self.field(2).split_whitespace() {
            words.push(made(Str::of(alloc, word))?)?;
        }
        Ok(words)
    }

    /// The number of workers, if the run is one of `serve`.
    pub fn workers(self) -> anyhow::Result<Option<u64>> {
        optional(self.field(3))
    }

    /// The most bytes that the input may have, if the run is one of `serve`.
    pub fn limit(self) -> anyhow::Result<Option<u64>> {
        optional(self.field(4))
    }

    /// The most bytes that a call of the source or of a sink moves.
    pub fn piece(self) -> anyhow::Result<u64> {
        Ok(self.field(5).parse::<u64>()?)
    }

    /// The most bytes that the sink for the output takes.
    pub fn room(self) -> anyhow::Result<u64> {
        Ok(self.field(6).parse::<u64>()?)
    }

    /// The numbers of the reads that fail.
    pub fn failing_reads(self, alloc: Global) -> anyhow::Result<Vec<u64>> {
        numbers(alloc, self.field(7))
    }

    /// The numbers of the writes of the output that fail.
    pub fn failing_writes(self, alloc: Global) -> anyhow::Result<Vec<u64>> {
        numbers(alloc, self.field(8))
    }

    /// The numbers of the writes of errors that fail.
    pub fn failing_errors(self, alloc: Global) -> anyhow::Result<Vec<u64>> {
        numbers(alloc, self.field(9))
    }

    /// `each read` or `each write`, if the run is to be made once for each call that can fail; `each cutting`, if once for each cutting
    /// of the input in two pieces; `each byte`, if what was printed is to be looked at before each byte.
    pub fn each(self) -> &'a str {
        self.field(10)
    }
}

fn optional(text: &str) -> anyhow::Result<Option<u64>> {
    if text.is_empty() {
        return Ok(None);
    }
    Ok(Some(text.parse::<u64>()?))
}

// Numbers with spaces between them.
fn numbers(alloc: Global, text: &str) -> anyhow::Result<Vec<u64>> {
    let mut numbers = Vec::new(alloc);
    for word in text.split_whitespace() {
        numbers.push(word.parse::<u64>()?)?;
    }
    Ok(numbers)
}

/// What was made, if memory sufficed.
pub fn made<T: Drop>(answer: Result<T, NoMemory>) -> anyhow::Result<T> {
    match answer {
        Ok(value) => Ok(value),
        Err(NoMemory) => bail!("no memory"),
    }
}
