//! What a space keeps beside its journal, and what each action changes in it.

ghost use Rattle.std.specs.Prelude.{◌≡◌, ◌==◌, ◌<◌, ◌&&◌, not, true, false, map, filter};
ghost use Rattle.std.specs.List.{list_any};
ghost use Rattle.evac_model.specs.Numbers.{is_in};
ghost use Rattle.evac_model.specs.SpaceJournal.{is_frame_of, without_block};
ghost use Rattle.buddy.specs.FreeFrames.{with_frames, with_withdrawn, with_restored};
ghost use Rattle.frame_cache.specs.Drains.{IsGivable, IsDrainable};

use crate::choose::choose;
use buddy::Runs;
use evac_model::{BlockNo, FrameNo, Geometry, Kind, NotEmpty, PageNo, Unmovable};
use frame_cache::Caches;
use page_blocks::Blocks;
use std::marker::Model;

/// Free frames, frames that are out, isolated blocks, caches, and whether each managed block is
/// offline.
#[derive(Debug, Drop)]
pub(crate) struct Kept {
    pub(crate) runs: Runs,
    pub(crate) marks: Blocks,
    pub(crate) caches: Caches,
    pub(crate) offline: Vec<bool>,
}

impl Model for Kept {
    ghost use Rattle.space.specs.KeptSpace.{KeptSpace, space_of, AreOf};

    ghost Value = { KeptSpace };

    ghost view = { λ a. space_of a.runs a.marks a.caches a.offline.items };

    ghost invariant = { λ a. AreOf (space_of a.runs a.marks a.caches a.offline.items) a.runs a.marks a.caches a.offline.items };
}

/// Gives a frame that is neither free nor kept aside to the runs.
pub(crate) fn give_frame(runs: &mut Runs, frame: FrameNo)
    requires { IsGivable runs.old frame.0 }
    ensures { runs.new ≡ with_frames (λ f. f == frame.0) runs.old }
{
    // the machine's limits bound its frames
    let _ = runs.geometry();
    runs.give(frame, 0);
}

/// Withdraws a block: its cached frames and its free ones are kept aside.
fn withdraw(runs: &mut Runs, caches: &mut Caches, b: BlockNo)
    requires managed { b.0 < runs.old.sizes.managed }
    requires there { is_in b.0 runs.old.withdrawn ≡ false }
    requires drainable { IsDrainable caches.old runs.old }
    ensures caches { caches.new ≡ map (filter (λ f. not (is_frame_of runs.old.sizes b.0 f))) caches.old }
    ensures runs { runs.new ≡ with_withdrawn b.0 (with_frames (λ f. list_any (is_in f) caches.old && is_frame_of runs.old.sizes b.0 f) runs.old) }
{
    caches.drain_block(b, runs);
    runs.withdraw(b);
}

/// Ends the isolation of a block: its frames kept aside are free again.
fn restore(runs: &mut Runs, marks: &mut Blocks, b: BlockNo)
    requires managed { b.0 < marks.old.sizes.managed }
    requires withdrawn { is_in b.0 runs.old.withdrawn ≡ true }
    ensures marks { marks.new ≡ record marks.old { isolated = without_block b.0 marks.old.isolated } }
    ensures runs { runs.new ≡ with_restored b.0 runs.old }
{
    marks.undo(b);
    runs.restore(b);
}

impl Kept {
    ghost use Rattle.std.specs.Prelude.{◌≡◌, ◌≢◌, ◌<◌, ◌≤◌, false, true, filter, None, IfSome, IfNone, OnOk, OnErr};
    ghost use Rattle.evac_model.specs.Geometry.{IsWithinLimits};
    ghost use Rattle.evac_model.specs.Numbers.{is_in};
    ghost use Rattle.evac_model.specs.SpaceJournal.{out_for, lease_of, Chooses};
    ghost use Rattle.page_blocks.specs.Marks.{is_unmovable, isolation, page_and_kind};
    ghost use Rattle.space.specs.KeptSpace.{behind};
    ghost use Rattle.space.specs.SpaceInside.{IsSpace};
    ghost use Rattle.space.specs.Refusals.{frames_out_of, next_out, emptiness};
    ghost use Rattle.evac_model.specs.declared.space.SpaceAction.{SpaceAction};

    /// The sizes of the machine.
    pub(crate) fn geometry(&self) -> Geometry
        ensures sizes { result ≡ self.now.sizes }
        ensures within { IsWithinLimits self.now.sizes }
        ensures space { IsSpace self.now.sizes self.now.online self.now.state }
    {
        self.marks.geometry()
    }

    /// What a frame is out for.
    pub(crate) fn out_at(&self, frame: FrameNo) -> Option<(PageNo, Kind)>
        ensures { result ≡ page_and_kind (out_for self.now.state frame.0) }
    {
        self.marks.out_at(frame)
    }

    /// The first frame of a managed block that is out, and its page, or the first one behind a frame.
    pub(crate) fn out_after(&self, b: BlockNo, after: Option<FrameNo>) -> Option<(FrameNo, PageNo)>
        requires { b.0 < self.now.sizes.managed }
        ensures { result ≡ next_out self.now.sizes self.now.state b.0 after }
    {
        // the machine's limits bound its frames
        let g = self.marks.geometry();
        if let Some(frame) = after {
            if frame.0 >= g.frames() {
                return None;
            }
        }
        self.marks.out_after(b, after)
    }

    /// Whether a block is isolated.
    pub(crate) fn is_isolated(&self, b: BlockNo) -> bool
        ensures { result ≡ is_in b.0 self.now.state.isolated }
    {
        self.marks.isolated(b)
    }

    /// Whether a block is offline.
    pub(crate) fn is_offline(&self, b: BlockNo) -> bool
        ensures { result ≡ is_in b.0 self.now.state.offline }
    {
        let block = b.0 as usize;
        block < self.offline.len() && self.offline[block]
    }

    /// Leases a frame for a page of that kind to a caller, as the rules choose it.
    pub(crate) fn lease(&mut self, who: u32, page: PageNo, kind: &Kind) -> Option<FrameNo>
        requires { who ≤ 16 }
        ensures chosen { IfSome result (λ frame. Chooses (lease_of self.old.sizes self.old.online self.old.state who kind.now) frame.0) }
        ensures leased { IfSome result (λ frame. self.new ≡ behind (SpaceAction.Lease who frame page kind.now) self.old) }
        ensures refused { IfNone result (lease_of self.old.sizes self.old.online self.old.state who kind.now ≡ None) }
        ensures same { IfNone result (self.new ≡ self.old) }
    {
        let frame = choose(&mut self.runs, &mut self.caches, who, *kind)?;
        self.marks.set_out(frame, page, *kind);
        Some(frame)
    }

    /// Takes a frame back that is out. In an isolated block it is kept aside; else it goes into the
    /// caller's cache, and the frame that it pushes out of there goes to the runs.
    pub(crate) fn give_back(&mut self, who: u32, frame: FrameNo)
        requires caller { who ≤ 16 }
        requires out { out_for self.old.state frame.0 ≢ None }
        ensures { self.new ≡ behind (SpaceAction.Return who frame) self.old }
    {
        self.marks.clear_out(frame);
        if self.marks.is_isolated_frame(frame) {
            give_frame(&mut self.runs, frame);
        } else if let Some(pushed_out) = self.caches.put(who, frame) {
            give_frame(&mut self.runs, pushed_out);
        }
    }

    /// Isolates a block: its cached frames go to the runs, which keep its free frames aside.
    pub(crate) fn isolate(&mut self, b: BlockNo) -> Result<(), Unmovable>
        requires managed { b.0 < self.old.sizes.managed }
        requires there { is_in b.0 self.old.state.isolated ≡ false }
        ensures refused { result ≡ isolation (filter is_unmovable (frames_out_of self.old.sizes self.old.state b.0)) }
        ensures ok { OnOk result (self.new ≡ behind (SpaceAction.Isolate b) self.old) }
        ensures err { OnErr result (self.new ≡ self.old) }
    {
        self.marks.isolate(b)?;
        withdraw(&mut self.runs, &mut self.caches, b);
        Ok(())
    }

    /// Takes an isolation back: the block's frames kept aside are free again.
    pub(crate) fn undo(&mut self, b: BlockNo)
        requires isolated { is_in b.0 self.old.state.isolated ≡ true }
        requires there { is_in b.0 self.old.state.offline ≡ false }
        ensures { self.new ≡ behind (SpaceAction.Undo b) self.old }
    {
        restore(&mut self.runs, &mut self.marks, b);
    }

    /// Takes an isolated block away, unless a frame of it is out.
    pub(crate) fn take_offline(&mut self, b: BlockNo) -> Result<(), NotEmpty>
        requires isolated { is_in b.0 self.old.state.isolated ≡ true }
        requires there { is_in b.0 self.old.state.offline ≡ false }
        ensures empty { result ≡ emptiness (frames_out_of self.old.sizes self.old.state b.0) }
        ensures ok { OnOk result (self.new ≡ behind (SpaceAction.Offline b) self.old) }
        ensures err { OnErr result (self.new ≡ self.old) }
    {
        if let Some((frame, _)) = self.marks.out_after(b, None) {
            return Err(NotEmpty { frame });
        }
        self.offline[b.0 as usize] = true;
        Ok(())
    }

    /// Gives an offline block back.
    pub(crate) fn bring_online(&mut self, b: BlockNo)
        requires { is_in b.0 self.old.state.offline ≡ true }
        ensures { self.new ≡ behind (SpaceAction.Online b) self.old }
    {
        restore(&mut self.runs, &mut self.marks, b);
        self.offline[b.0 as usize] = false;
    }
}
