//! A sink in memory that fails when it is told to.
ghost use Rattle.std.specs.Prelude.{◌≡◌, ◌↔◌, ◌+◌, ◌≤◌, ◌<◌, ◌++◌, length, Some, IsErr, IfOk, OnOk, OnErr, vec_capacity, vec_len};
ghost use Rattle.std.specs.Io.KnownBytes.{WriteAppends};
ghost use Rattle.sq_base.specs.Causes.{HasCause, raised};
ghost use Rattle.sq_base.specs.MemSink.{new_store, FailsNext, taken_count};

use crate::{Failed, Sink};
use sq_value::NoMemory;
use std::alloc::Global;
use std::marker::Model;

/// A sink in memory, which takes bytes in pieces, up to its room, and fails at chosen calls.
#[derive(Debug, Drop)]
pub struct MemSink {
    bytes: Vec<u8>,
    piece: usize,
    room: usize,
    failing: Vec<u64>,
    calls: u64,
    faults: u64,
}

impl Model for MemSink {
    ghost use Rattle.std.specs.Prelude.{◌≤◌, vec_len, vec_capacity};
    ghost use Rattle.sq_base.specs.MemSink.{Store};

    ghost Value = { Store };

    ghost view = { λ s. record {
      taken = s.bytes.items;
      piece = s.piece;
      room = s.room;
      failing = s.failing.items;
      calls = s.calls;
      faults = s.faults;
    } };

    ghost invariant = { λ s. (vec_len s.bytes ≤ s.room) × (s.room ≤ vec_capacity s.bytes) };
}

impl MemSink {
    /// An empty sink with room for `room` bytes. A call takes at most `piece` bytes, and at least
    /// one if `piece` is 0. Calls are numbered from 0, in 64 bits. Exactly those whose number is
    /// in `failing` fail, and those with bytes if no room is left.
    ///
    /// All the memory that it ever takes is taken here.
    pub fn new(
        alloc: Global,
        piece: usize,
        room: usize,
        failing: Vec<u64>,
    ) -> Result<MemSink, NoMemory>
        ensures { IfOk result (λ s. s ≡ new_store piece room failing.items) }
    {
        Ok(MemSink {
            bytes: Vec::with_capacity(alloc, room)?,
            piece,
            room,
            failing,
            calls: 0,
            faults: 0,
        })
    }

    /// The bytes that it took so far. Takes no memory.
    pub fn taken(&self) -> &[u8]
        ensures { result.now ≡ self.now.taken }
    {
        &self.bytes
    }
}

impl Sink for MemSink {
    ghost taken = { λ s. Some s.taken };

    ghost faults = { λ s. s.faults };

    fn write(&mut self, bytes: &[u8]) -> Result<usize, Failed>
        ensures bound { IfOk result (λ n. n ≤ length bytes.now) }
        ensures progress { IfOk result (λ n. 0 < length bytes.now → 0 < n) }
        ensures bytes { WriteAppends (Some self.old.taken) (Some self.new.taken) result bytes.now }
        ensures cause { HasCause self.old.faults self.new.faults result }

        ensures refused { IsErr result ↔ FailsNext self.old bytes.now }
        ensures count { IfOk result (λ n. n ≡ taken_count self.old (length bytes.now)) }

        ensures calls { self.new.calls ≡ raised self.old.calls }
        ensures ok { OnOk result (self.new.faults ≡ self.old.faults) }
        ensures err { OnErr result (self.new.faults ≡ raised self.old.faults) }
        ensures piece { self.new.piece ≡ self.old.piece }
        ensures room { self.new.room ≡ self.old.room }
        ensures failing { self.new.failing ≡ self.old.failing }
    {
        let call = self.calls;
        self.calls = self.calls.saturating_add(1);
        let room = self.room - self.bytes.len();
        if self.failing.contains(&call) || (room == 0 && !bytes.is_empty()) {
            self.faults = self.faults.saturating_add(1);
            return Err(Failed);
        }
        let count = self.piece.max(1).min(bytes.len()).min(room);
        append_within(&mut self.bytes, &bytes[..count]);
        Ok(count)
    }
}

// Appends bytes for which there is capacity, which needs no memory.
fn append_within(bytes: &mut Vec<u8>, more: &[u8])
    requires { vec_len bytes.old + length more.now ≤ vec_capacity bytes.old }
    ensures items { bytes.new.items ≡ bytes.old.items ++ more.now }
    ensures len { vec_len bytes.new ≡ vec_len bytes.old + length more.now }
    ensures capacity { vec_capacity bytes.old ≤ vec_capacity bytes.new }
{
    bytes.extend_from_slice(more).unwrap();
}
