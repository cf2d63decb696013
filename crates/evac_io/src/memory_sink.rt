//! A sink in memory, and one that only counts.

ghost use Rattle.std.specs.Prelude.{◌≡◌, ◌+◌, ◌-◌, ◌^◌, ◌++◌, ◌↔◌, ◌≤◌, [], length, take, min, None, Some, Ok, IfOk, OnOk, OnErr, IsErr};
ghost use Rattle.evac_model.specs.Counts.{one_more, after_call};
ghost use Rattle.evac_io.specs.Memory.{FailsAt, fresh_sink};

use crate::{Failed, NumberList, OutOfMemory, Sink};
use evac_model::{CallCount, count_up};
use std::alloc::Global;
use std::marker::Model;

/// A sink in memory that takes bytes up to its room, with writes that fail at listed calls too.
/// The first call has the number 1. The number of calls stands still at `u64::MAX`, and a call
/// that doesn't raise it isn't listed.
#[derive(Debug, Drop)]
pub struct MemSink {
    bytes: Vec<u8>,
    room: usize,
    calls: CallCount,
    faults: u64,
}

impl Model for MemSink {
    ghost use Rattle.std.specs.Prelude.{◌+◌, ◌≤◌, vec_len, vec_capacity};
    ghost use Rattle.evac_io.specs.Memory.{SinkState};

    ghost Value = { SinkState };

    ghost view = { λ s. record { taken = s.bytes.items; room = s.room; calls = s.calls; faults = s.faults } };

    ghost invariant = { λ s. vec_len s.bytes + s.room ≤ vec_capacity s.bytes };
}

impl MemSink {
    /// A sink with room for so many bytes that fails at the listed calls too, counted from 1.
    /// Its room is reserved here, so no write takes memory.
    pub fn new(alloc: Global, room: u64, fails: NumberList) -> Result<MemSink, OutOfMemory>
        ensures { IfOk result (λ sink. sink ≡ fresh_sink room fails) }
    {
        let room = room as usize;
        let bytes = Vec::with_capacity(alloc, room)?;
        Ok(MemSink {
            bytes,
            room,
            calls: CallCount::new(fails),
            faults: 0,
        })
    }

    /// A sink with room for so many bytes, which fails only where the room is used up.
    pub fn with_room(alloc: Global, room: u64) -> Result<MemSink, OutOfMemory>
        ensures { IfOk result (λ sink. sink ≡ fresh_sink room []) }
    {
        MemSink::new(alloc, room, NumberList::from_vec(Vec::new(alloc)))
    }

    /// The bytes that were taken.
    pub fn bytes(&self) -> &[u8]
        ensures { result.now ≡ self.now.taken }
    {
        &self.bytes
    }
}

impl Sink for MemSink {
    ghost taken = { λ s. Some s.taken };

    ghost faults = { λ s. s.faults };

    /// Takes as many bytes as have room, unless the call is listed. It fails too where there are
    /// bytes and no room.
    fn write(&mut self, piece: &[u8]) -> Result<usize, Failed>
        ensures fails { IsErr result ↔ FailsAt self.old (length piece.now) }
        ensures count { IfOk result (λ n. n ≡ min (length piece.now) self.old.room) }
        ensures takes { IfOk result (λ n. self.new.taken ≡ self.old.taken ++ take n piece.now) }
        ensures room { IfOk result (λ n. self.new.room ≡ self.old.room - n) }
        ensures ok { OnOk result (self.new.faults ≡ self.old.faults) }

        ensures err { OnErr result (self.new.taken ≡ self.old.taken) }
        ensures err_room { OnErr result (self.new.room ≡ self.old.room) }
        ensures counted { OnErr result (self.new.faults ≡ one_more self.old.faults) }

        ensures counts { self.old.faults ≤ self.new.faults }
        ensures calls { self.new.calls ≡ after_call self.old.calls }
    {
        let listed = self.calls.is_next_listed();
        if listed || (!piece.is_empty() && self.room == 0) {
            self.faults = count_up(self.faults);
            return Err(Failed);
        }
        let count = piece.len().min(self.room);
        self.bytes.extend_from_slice(&piece[..count]).unwrap();
        self.room -= count;
        Ok(count)
    }
}

/// A sink that counts its bytes and keeps none. It never fails. The number of bytes stands still
/// at `u64::MAX`.
#[derive(Debug, Drop)]
pub struct SureSink {
    count: u64,
}

impl Model for SureSink {
    ghost use Rattle.std.specs.Prelude.{ℕ};

    ghost Value = { ℕ };

    ghost view = { λ s. s.count };
}

impl SureSink {
    /// A sink that has taken no byte.
    pub fn new() -> SureSink
        ensures { result ≡ 0 }
    {
        SureSink { count: 0 }
    }

    /// How many bytes were taken.
    pub fn count(&self) -> u64
        ensures { result ≡ self.now }
    {
        self.count
    }
}

impl Sink for SureSink {
    ghost taken = { λ _. None };

    ghost faults = { λ _. 0 };

    /// Takes the whole piece.
    fn write(&mut self, piece: &[u8]) -> Result<usize, Failed>
        ensures all { result ≡ Ok (length piece.now) }
        ensures count { self.new ≡ min (self.old + length piece.now) (2 ^ 64 - 1) }
    {
        self.count = self.count.saturating_add(piece.len() as u64);
        Ok(piece.len())
    }
}
