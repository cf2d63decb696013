//! Frames that go back from caches to the runs.

ghost use Rattle.std.specs.Prelude.{◌≡◌, ◌==◌, ◌&&◌, not, map, filter};
ghost use Rattle.std.specs.List.{list_any};
ghost use Rattle.evac_model.specs.Geometry.{IsWithinLimits};
ghost use Rattle.evac_model.specs.Numbers.{is_in};
ghost use Rattle.buddy.specs.FreeFrames.{with_frames};
ghost use Rattle.frame_cache.specs.Drains.{AreRising, IsGivable, IsDrainable, IsDrainableCache};
ghost use Rattle.frame_cache.specs.Drained.{IsOfMachine, is_drained_of};

use crate::cache::Cache;
use crate::drained::{Drained, is_drained};
use buddy::Runs;
use evac_model::{FrameNo, Geometry};

// Gives a frame that is neither free nor kept aside.
#[tactic(auto, using(crate::proofs::Givings::with_one))]
fn give_frame(runs: &mut Runs, frame: FrameNo)
    requires within { IsWithinLimits runs.old.sizes }
    requires givable { IsGivable runs.old frame.0 }
    ensures { runs.new ≡ with_frames (λ f. f == frame.0) runs.old }
{
    runs.give(frame, 0);
}

// Gives the frames of a cache that are drained to the runs. The others stay, in their order.
fn drain_cache(cache: &mut Cache, drained: &Drained, geometry: Geometry, runs: &mut Runs)
    requires sizes { geometry ≡ runs.old.sizes }
    requires rising { AreRising runs.old }
    requires machine { IsOfMachine geometry drained.now }
    requires drainable { IsDrainableCache cache.old runs.old }
    ensures cache { cache.new ≡ filter (λ frame. not (is_drained_of runs.old.sizes runs.old.online drained.now frame)) cache.old }
    ensures runs { runs.new ≡ with_frames (λ frame. is_in frame cache.old && is_drained_of runs.old.sizes runs.old.online drained.now frame) runs.old }
{
    let mut kept = Cache::new();
    for number in cache.frames() {
        let frame = FrameNo(*number);
        if is_drained(drained, geometry, runs, frame) {
            give_frame(runs, frame);
        } else {
            let _ = kept.put(frame);
        }
    }
    *cache = kept;
}

/// Gives the frames of the caches that are drained to the runs. The others stay, in their order.
pub fn drain_each(caches: &mut [Cache], drained: &Drained, runs: &mut Runs)
    requires machine { IsOfMachine runs.old.sizes drained.now }
    requires drainable { IsDrainable caches.old runs.old }
    ensures caches { caches.new ≡ map (filter (λ frame. not (is_drained_of runs.old.sizes runs.old.online drained.now frame))) caches.old }
    ensures runs { runs.new ≡ with_frames (λ frame. list_any (is_in frame) caches.old && is_drained_of runs.old.sizes runs.old.online drained.now frame) runs.old }
{
    let geometry = runs.geometry();
    for cache in caches.iter_mut() {
        drain_cache(cache, drained, geometry, runs);
    }
}
