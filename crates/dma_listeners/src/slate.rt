//! A backing that fails at listed calls, and one that never fails.

ghost use Rattle.std.specs.Prelude.{◌≡◌, ◌↔◌, ◌≤◌, OnOk, OnErr, IsOk, IsErr, Some, None};
ghost use Rattle.evac_model.specs.Counts.{one_more, after_call, IsListed};

use crate::{Backing, Failed};
use evac_model::{BlockNo, CallCount, NumberList, count_up};
use std::marker::Model;

/// A backing of 65,536 blocks that gives nothing back, and fails at exactly the listed calls. The first call has the
/// number 1. The number of calls stands still at `u64::MAX`, and a call that doesn't raise it isn't
/// listed. No call takes memory.
#[derive(Debug, Drop)]
pub struct Slate {
    calls: CallCount,
    faults: u64,
}

impl Model for Slate {
    ghost use Rattle.dma_listeners.specs.Slates.{SlateState};

    ghost Value = { SlateState };

    ghost view = { λ s. record { calls = s.calls; faults = s.faults } };
}

impl Slate {
    ghost use Rattle.dma_listeners.specs.Slates.{fresh_slate};

    /// A backing that fails at exactly the listed calls, counted from 1.
    pub fn new(fails: NumberList) -> Slate
        ensures { result ≡ fresh_slate fails }
    {
        Slate {
            calls: CallCount::new(fails),
            faults: 0,
        }
    }
}

impl Backing for Slate {
    ghost faults = { λ s. s.faults };

    ghost told = { λ s. Some s.calls };

    ghost asked = { λ _. None };

    ghost room = { λ _. 65536 };

    /// Fails where the call is listed.
    fn discard(&mut self, _first: BlockNo, _n: u32) -> Result<(), Failed>
        ensures exact { IsErr result ↔ IsListed self.old.calls }
        ensures ok { OnOk result (self.new.faults ≡ self.old.faults) }
        ensures counted { OnErr result (self.new.faults ≡ one_more self.old.faults) }
        ensures counts { self.old.faults ≤ self.new.faults }
        ensures calls { self.new.calls ≡ after_call self.old.calls }
    {
        if self.calls.is_next_listed() {
            self.faults = count_up(self.faults);
            return Err(Failed);
        }
        Ok(())
    }
}

/// A backing of 65,536 blocks that gives nothing back and never fails. It counts no fault, so that no caller of it
/// can answer that it failed, and it tells no calls and no ranges.
#[derive(Debug, Drop)]
pub struct SureSlate;

impl SureSlate {
    /// A backing that never fails.
    pub fn new() -> SureSlate {
        SureSlate
    }
}

impl Backing for SureSlate {
    ghost faults = { λ _. 0 };

    ghost told = { λ _. None };

    ghost asked = { λ _. None };

    ghost room = { λ _. 65536 };

    /// Never fails.
    fn discard(&mut self, _first: BlockNo, _n: u32) -> Result<(), Failed>
        ensures { IsOk result }
    {
        Ok(())
    }
}
