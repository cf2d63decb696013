//! The caches of all callers.

use crate::cache::Cache;
use crate::drain::drain_each;
use crate::drained::Drained;
use buddy::Runs;
use evac_model::{BlockNo, FrameNo, Kind};
use std::array;
use std::marker::Model;

/// The frames that callers keep at hand, after Linux's per-CPU page lists: a cache of at most 8
/// frames for the driver, caller 0, and for each of the owners, callers 1 to 16. Contracts see the
/// list of the caches, and each as its frames, the one put last standing first. No call takes
/// memory.
#[derive(Debug, Drop)]
pub struct Caches {
    caches: [Cache; 17],
}

impl Model for Caches {
    ghost use Rattle.std.specs.Prelude.{List, ℕ};
    ghost use Rattle.frame_cache.specs.Drains.{AreCaches};

    ghost Value = { List (List ℕ) };

    ghost view = { λ a. a.caches };

    ghost invariant = { λ a. AreCaches a.caches };
}

impl Caches {
    ghost use Rattle.std.specs.Prelude.{◌≡◌, ◌↔◌, ◌<◌, ◌≤◌, ◌&&◌, not, if◌then◌else◌, [], map, filter, replicate, slice_get, slice_index_or, MatchOption};
    ghost use Rattle.std.specs.List.{list_any};
    ghost use Rattle.std.specs.Option.{option_map};
    ghost use Rattle.evac_model.specs.FreeRuns.{fits};
    ghost use Rattle.evac_model.specs.Numbers.{is_in};
    ghost use Rattle.evac_model.specs.SpaceJournal.{from_cache, is_frame_of, put_back};
    ghost use Rattle.buddy.specs.FreeFrames.{with_frames};
    ghost use Rattle.frame_cache.specs.Drains.{AreCaches, IsDrainable};

    /// Caches without frames.
    pub fn new() -> Caches
        ensures { result ≡ replicate 17 [] }
    {
        Caches {
            caches: array::from_fn(|_i| Cache::new()),
        }
    }

    /// Takes the frame that was put last into a caller's cache, if there is one. The caller is a
    /// number from 0 to 16.
    pub fn take(&mut self, who: u32) -> Option<FrameNo>
        requires { who ≤ 16 }
        ensures frame { result ≡ option_map (λ l. record { 0 = l.frame }) (from_cache self.old who (slice_index_or self.old who [])) }
        ensures none { (result ≡ None) ↔ (slice_index_or self.old who [] ≡ []) }
        ensures caches { MatchOption (from_cache self.old who (slice_index_or self.old who [])) (self.new ≡ self.old) (λ l. self.new ≡ l.caches) }
        ensures kept { AreCaches self.new }
    {
        let cache = &mut self.caches[who as usize];
        cache.take()
    }

    /// Puts a frame into a caller's cache. Where 8 are there, it pushes out the one that was put
    /// first. The caller is a number from 0 to 16.
    pub fn put(&mut self, who: u32, frame: FrameNo) -> Option<FrameNo>
        requires { who ≤ 16 }
        ensures pushed_out { result ≡ option_map (λ f. record { 0 = f }) (slice_get (slice_index_or self.old who []) 7) }
        ensures caches { self.new ≡ put_back self.old who frame.0 }
        ensures kept { AreCaches self.new }
    {
        let cache = &mut self.caches[who as usize];
        cache.put(frame)
    }

    /// Gives the cached frames of a managed block to the runs. The others stay, in their order.
    /// The cached frames are the machine's and differ from one another, and none is free or kept
    /// aside in the runs. It makes at most 136 gives.
    pub fn drain_block(&mut self, b: BlockNo, runs: &mut Runs)
        requires managed { b.0 < runs.old.sizes.managed }
        requires drainable { IsDrainable self.old runs.old }
        ensures caches { self.new ≡ map (filter (λ frame. not (is_frame_of runs.old.sizes b.0 frame))) self.old }
        ensures runs { runs.new ≡ with_frames (λ frame. list_any (is_in frame) self.old && is_frame_of runs.old.sizes b.0 frame) runs.old }
    {
        drain_each(&mut self.caches, &Drained::OfBlock(b), runs);
    }

    /// Gives the cached frames of the blocks that take unmovable pages to the runs, or, unless
    /// `kernel_only`, all cached frames. The others stay, in their order. The cached frames are the
    /// machine's and differ from one another, and none is free or kept aside in the runs. It makes at
    /// most 136 gives.
    pub fn drain_all(&mut self, kernel_only: bool, runs: &mut Runs)
        requires { IsDrainable self.old runs.old }
        ensures caches { self.new ≡ map (filter (λ frame. not (fits runs.old.sizes runs.old.online (if kernel_only then Kind.Unmovable else Kind.Movable) frame))) self.old }
        ensures runs { runs.new ≡ with_frames (λ frame. list_any (is_in frame) self.old && fits runs.old.sizes runs.old.online (if kernel_only then Kind.Unmovable else Kind.Movable) frame) runs.old }
    {
        let kind = if kernel_only {
            Kind::Unmovable
        } else {
            Kind::Movable
        };
        drain_each(&mut self.caches, &Drained::OfKind(kind), runs);
    }
}
