//! A source in memory that fails when it is told to.
ghost use Rattle.std.specs.Prelude.{◌≡◌, ◌↔◌, ◌≤◌, length, take, min, Some, IsErr, IfOk, OnOk, OnErr};
ghost use Rattle.std.specs.Io.KnownBytes.{ReadConsumes};
ghost use Rattle.sq_base.specs.Causes.{HasCause, raised};
ghost use Rattle.sq_base.specs.MemSource.{new_supply, FailsNext, given_count};

use crate::{Failed, Source};
use std::marker::Model;

/// A source in memory, which gives its bytes in pieces and fails at chosen calls.
#[derive(Debug, Drop)]
pub struct MemSource {
    bytes: Vec<u8>,
    at: usize,
    piece: usize,
    failing: Vec<u64>,
    calls: u64,
    faults: u64,
}

impl Model for MemSource {
    ghost use Rattle.std.specs.Prelude.{◌≤◌, length, drop};
    ghost use Rattle.sq_base.specs.MemSource.{Supply};

    ghost Value = { Supply };

    ghost view = { λ s. record {
      left = drop s.at s.bytes.items;
      piece = s.piece;
      failing = s.failing.items;
      calls = s.calls;
      faults = s.faults;
    } };

    ghost invariant = { λ s. s.at ≤ length s.bytes.items };
}

impl MemSource {
    /// A source of these bytes. A call gives at most `piece` of them, and at least one byte if
    /// `piece` is 0. Calls are numbered from 0, in 64 bits, and exactly those whose number is in
    /// `failing` fail. Takes no memory.
    pub fn new(bytes: Vec<u8>, piece: usize, failing: Vec<u64>) -> MemSource
        ensures { result ≡ new_supply bytes.items piece failing.items }
    {
        MemSource {
            bytes,
            at: 0,
            piece,
            failing,
            calls: 0,
            faults: 0,
        }
    }
}

impl Source for MemSource {
    ghost left = { λ s. Some s.left };

    ghost faults = { λ s. s.faults };

    fn read(&mut self, buf: &mut [u8]) -> Result<usize, Failed>
        ensures bound { IfOk result (λ n. n ≤ length buf.new) }
        ensures bytes { ReadConsumes (Some self.old.left) (Some self.new.left) result buf.new }
        ensures cause { HasCause self.old.faults self.new.faults result }

        ensures refused { IsErr result ↔ FailsNext self.old }
        ensures count { IfOk result (λ n. n ≡ given_count self.old (length buf.old)) }

        ensures calls { self.new.calls ≡ raised self.old.calls }
        ensures ok { OnOk result (self.new.faults ≡ self.old.faults) }
        ensures err { OnErr result (self.new.faults ≡ raised self.old.faults) }
        ensures piece { self.new.piece ≡ self.old.piece }
        ensures failing { self.new.failing ≡ self.old.failing }
    {
        let call = self.calls;
        self.calls = self.calls.saturating_add(1);
        if self.failing.contains(&call) {
            self.faults = self.faults.saturating_add(1);
            return Err(Failed);
        }
        let count = copy_front(&self.bytes[self.at..], self.piece.max(1), buf);
        self.at += count;
        Ok(count)
    }
}

// Copies as many bytes as both have, and at most `most`.
fn copy_front(from: &[u8], most: usize, to: &mut [u8]) -> usize
    ensures count { result ≡ min most (min (length to.old) (length from.now)) }
    ensures copied { take result to.new ≡ take result from.now }
{
    let count = most.min(from.len()).min(to.len());
    to[..count].copy_from_slice(&from[..count]);
    count
}
