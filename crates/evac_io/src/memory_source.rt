//! Sources of bytes in memory.

ghost use Rattle.std.specs.Prelude.{◌≡◌, ◌++◌, ◌↔◌, ◌<◌, ◌≤◌, length, take, drop, min, Some, IfOk, OnOk, OnErr, IsOk, IsErr};
ghost use Rattle.evac_model.specs.Counts.{one_more, after_call, IsListed, Rose};
ghost use Rattle.evac_io.specs.Memory.{fresh_source};
ghost use Rattle.evac_io.specs.Told.{Gives, IsAtEnd};

use crate::{ByteList, Failed, NumberList, Source};
use evac_model::{CallCount, count_up};
use std::marker::Model;

/// Bytes in memory, with reads that fail at listed calls. The first call has the number 1. The
/// number of calls stands still at `u64::MAX`, and a call that doesn't raise it isn't listed.
#[derive(Debug, Drop)]
pub struct MemSource {
    bytes: ByteList,
    at: usize,
    calls: CallCount,
    faults: u64,
}

impl Model for MemSource {
    ghost use Rattle.std.specs.Prelude.{◌≤◌, length, drop};
    ghost use Rattle.evac_io.specs.Memory.{SourceState};

    ghost Value = { SourceState };

    ghost view = { λ s. record { left = drop s.at s.bytes; calls = s.calls; faults = s.faults } };

    ghost invariant = { λ s. s.at ≤ length s.bytes };
}

impl MemSource {
    /// A source of these bytes that fails at exactly the listed calls, counted from 1.
    pub fn new(bytes: ByteList, fails: NumberList) -> MemSource
        ensures { result ≡ fresh_source bytes fails }
    {
        MemSource {
            bytes,
            at: 0,
            calls: CallCount::new(fails),
            faults: 0,
        }
    }
}

impl Source for MemSource {
    ghost left = { λ s. Some s.left };

    ghost faults = { λ s. s.faults };

    /// Gives as many bytes as are left and have room, unless the call is listed.
    fn read(&mut self, into: &mut [u8]) -> Result<usize, Failed>
        ensures fails { IsErr result ↔ IsListed self.old.calls }
        ensures count { IfOk result (λ n. n ≡ min (length into.new) (length self.old.left)) }
        ensures gives { IfOk result (λ n. self.old.left ≡ take n into.new ++ self.new.left) }
        ensures rest { IfOk result (λ n. drop n into.new ≡ drop n into.old) }
        ensures ok { OnOk result (self.new.faults ≡ self.old.faults) }

        ensures err { OnErr result (self.new.left ≡ self.old.left) }
        ensures err_into { OnErr result (into.new ≡ into.old) }
        ensures counted { OnErr result (self.new.faults ≡ one_more self.old.faults) }

        ensures counts { self.old.faults ≤ self.new.faults }
        ensures calls { self.new.calls ≡ after_call self.old.calls }
    {
        if self.calls.is_next_listed() {
            self.faults = count_up(self.faults);
            return Err(Failed);
        }
        let count = copy_front(&self.bytes.as_slice()[self.at..], into);
        self.at += count;
        Ok(count)
    }
}

/// Bytes in memory, with reads that never fail.
#[derive(Debug, Drop)]
pub struct SureSource {
    bytes: ByteList,
    at: usize,
}

impl Model for SureSource {
    ghost use Rattle.std.specs.Prelude.{ℕ, List, ◌≤◌, length, drop};

    ghost Value = { List ℕ };

    ghost view = { λ s. drop s.at s.bytes };

    ghost invariant = { λ s. s.at ≤ length s.bytes };
}

impl SureSource {
    /// A source of these bytes.
    pub fn new(bytes: ByteList) -> SureSource
        ensures { result ≡ bytes }
    {
        SureSource { bytes, at: 0 }
    }
}

impl Source for SureSource {
    ghost left = { λ s. Some s };

    ghost faults = { λ _. 0 };

    /// Gives as many bytes as are left and have room.
    fn read(&mut self, into: &mut [u8]) -> Result<usize, Failed>
        ensures ok { IsOk result }
        ensures count { IfOk result (λ n. n ≡ min (length into.new) (length self.old)) }
        ensures gives { IfOk result (λ n. self.old ≡ take n into.new ++ self.new) }
        ensures rest { IfOk result (λ n. drop n into.new ≡ drop n into.old) }
    {
        let count = copy_front(&self.bytes.as_slice()[self.at..], into);
        self.at += count;
        Ok(count)
    }
}

/// Copies as many bytes as there are and have room, and says how many.
fn copy_front(from: &[u8], into: &mut [u8]) -> usize
    ensures count { result ≡ min (length into.new) (length from.now) }
    ensures front { take result into.new ≡ take result from.now }
    ensures rest { drop result into.new ≡ drop result into.old }
{
    let count = into.len().min(from.len());
    into[..count].copy_from_slice(&from[..count]);
    count
}
