//! Which frame a lease gets.

ghost use Rattle.std.specs.Prelude.{◌≡◌, ℕ, ◌+◌, ◌-◌, ◌^◌, ◌≤◌, true, false, [], None, Some, slice_index_or, slice_set};
ghost use Rattle.std.specs.List.{range_with_len};
ghost use Rattle.std.specs.Option.{option_map};
ghost use Rattle.evac_model.specs.Geometry.{IsWithinLimits};
ghost use Rattle.evac_model.specs.FreeRuns.{is_all_free, chosen_run};
ghost use Rattle.evac_model.specs.SpaceJournal.{SpaceState, Leased, free_frames, from_run, from_runs, lease_of, after_lease};
ghost use Rattle.frame_cache.specs.Drains.{IsDrainable};
ghost use Rattle.space.specs.SpaceInside.{IsSpace, runs_of};
ghost use Rattle.space.specs.ChooseInside.{AreOfSpace, IsBehindLease};

use buddy::Runs;
use evac_model::{FrameNo, Kind};
use frame_cache::Caches;

// Puts the frames behind the first one of a run of so many into a caller's empty cache, in falling
// order.
fn cache_rest(caches: &mut Caches, who: u32, first: FrameNo, frames: u32)
    requires caller { who ≤ 16 }
    requires empty { slice_index_or caches.old who [] ≡ [] }
    requires machine { first.0 ≤ 65536 }
    requires some { 1 ≤ frames }
    requires few { frames ≤ 8 }
    ensures { caches.new ≡ slice_set caches.old who (range_with_len (first.0 + 1) (frames - 1)) }
{
    for k in (1..frames).rev() {
        let _ = caches.put(who, FrameNo(first.0 + k));
    }
}

// Takes a run of that order for a movable page: its lowest frame is the answer, the others go into
// the caller's empty cache. Where there is no run, nothing changes.
fn take_run(runs: &mut Runs, caches: &mut Caches, who: u32, order: u32) -> Option<FrameNo>
    requires caller { who ≤ 16 }
    requires limits { IsWithinLimits runs.old.sizes }
    requires empty { slice_index_or caches.old who [] ≡ [] }
    requires small { order ≤ 2 }
    ensures leased { (st : SpaceState) → AreOfSpace st runs.old caches.old →
        IsBehindLease runs.old.sizes runs.old.online st Kind.Movable (from_run st.caches who order (chosen_run runs.old.sizes runs.old.online (free_frames runs.old.sizes st) order Kind.Movable)) result runs.new caches.new }
    ensures none { result ≡ None → (runs.new ≡ runs.old) × (caches.new ≡ caches.old) }
    ensures nothing { result ≡ None → (first : ℕ) → is_all_free runs.old.sizes runs.old.free order first ≡ false }
{
    let first = runs.take(order, Kind::Movable)?;
    cache_rest(caches, who, first, 1 << order);
    Some(first)
}

// Takes a run of order 2 for a movable page, else of order 1, else of order 0.
fn take_largest_run(runs: &mut Runs, caches: &mut Caches, who: u32) -> Option<FrameNo>
    requires caller { who ≤ 16 }
    requires limits { IsWithinLimits runs.old.sizes }
    requires empty { slice_index_or caches.old who [] ≡ [] }
    ensures leased { (st : SpaceState) → AreOfSpace st runs.old caches.old →
        IsBehindLease runs.old.sizes runs.old.online st Kind.Movable (from_runs runs.old.sizes runs.old.online st who) result runs.new caches.new }
    ensures none { result ≡ None → (runs.new ≡ runs.old) × (caches.new ≡ caches.old) }
    ensures nothing { result ≡ None → (first : ℕ) → is_all_free runs.old.sizes runs.old.free 0 first ≡ false }
{
    if let Some(frame) = take_run(runs, caches, who, 2) {
        return Some(frame);
    }
    if let Some(frame) = take_run(runs, caches, who, 1) {
        return Some(frame);
    }
    take_run(runs, caches, who, 0)
}

// A frame for a movable page: from the caller's cache, else from the runs, else from the runs once
// all caches are drained.
fn choose_movable(runs: &mut Runs, caches: &mut Caches, who: u32) -> Option<FrameNo>
    requires caller { who ≤ 16 }
    requires limits { IsWithinLimits runs.old.sizes }
    requires drainable { IsDrainable caches.old runs.old }
    ensures { (st : SpaceState) → AreOfSpace st runs.old caches.old →
        IsBehindLease runs.old.sizes runs.old.online st Kind.Movable (lease_of runs.old.sizes runs.old.online st who Kind.Movable) result runs.new caches.new }
{
    if let Some(frame) = caches.take(who) {
        return Some(frame);
    }
    if let Some(frame) = take_largest_run(runs, caches, who) {
        return Some(frame);
    }
    caches.drain_all(false, runs);
    take_largest_run(runs, caches, who)
}

// A frame for an unmovable page: from the runs of blocks that take such pages, else from them once
// the frames of those blocks are drained from all caches.
fn choose_unmovable(runs: &mut Runs, caches: &mut Caches) -> Option<FrameNo>
    requires limits { IsWithinLimits runs.old.sizes }
    requires drainable { IsDrainable caches.old runs.old }
    ensures { (st : SpaceState) (who : ℕ) → AreOfSpace st runs.old caches.old →
        IsBehindLease runs.old.sizes runs.old.online st Kind.Unmovable (lease_of runs.old.sizes runs.old.online st who Kind.Unmovable) result runs.new caches.new }
{
    if let Some(frame) = runs.take(0, Kind::Unmovable) {
        return Some(frame);
    }
    caches.drain_all(true, runs);
    runs.take(0, Kind::Unmovable)
}

/// Takes the frame that a lease of that caller gets, out of its cache or the free runs. Where there is
/// none, the runs and the caches are as they were.
pub(crate) fn choose(runs: &mut Runs, caches: &mut Caches, who: u32, kind: Kind) -> Option<FrameNo>
    requires caller { who ≤ 16 }
    requires drainable { IsDrainable caches.old runs.old }
    ensures chosen { (st : SpaceState) → IsSpace runs.old.sizes runs.old.online st → runs.old ≡ runs_of runs.old.sizes runs.old.online st → caches.old ≡ st.caches →
        result ≡ option_map (λ l. record { 0 = l.frame }) (lease_of runs.old.sizes runs.old.online st who kind) }
    ensures taken { (st : SpaceState) (l : Leased) → IsSpace runs.old.sizes runs.old.online st → runs.old ≡ runs_of runs.old.sizes runs.old.online st → caches.old ≡ st.caches →
        lease_of runs.old.sizes runs.old.online st who kind ≡ Some l →
        (runs.new ≡ runs_of runs.old.sizes runs.old.online (after_lease st (Some l) 0 kind)) × (caches.new ≡ l.caches) }
    ensures none { (st : SpaceState) → IsSpace runs.old.sizes runs.old.online st → runs.old ≡ runs_of runs.old.sizes runs.old.online st → caches.old ≡ st.caches →
        lease_of runs.old.sizes runs.old.online st who kind ≡ None →
        (runs.new ≡ runs.old) × (caches.new ≡ caches.old) }
{
    // the limits of the machine, which this call ensures, bound its frames
    let _ = runs.geometry();
    match kind {
        Kind::Movable => choose_movable(runs, caches, who),
        Kind::Unmovable => choose_unmovable(runs, caches),
    }
}
