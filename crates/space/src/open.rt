//! What a space keeps when it is opened.

ghost use Rattle.std.specs.Prelude.{◌≡◌, map, nat_le, IfOk};
ghost use Rattle.std.specs.List.{range_with_len, AllByRecursion, count_by};
ghost use Rattle.std.specs.Option.{is_some};
ghost use Rattle.evac_model.specs.Geometry.{IsWithinLimits, IsThereAtStart};
ghost use Rattle.evac_model.specs.SpaceJournal.{space_at_start};
ghost use Rattle.buddy.specs.FreeFrames.{no_frames};
ghost use Rattle.space.specs.SpaceInside.{runs_of};
ghost use Rattle.space.specs.Opening.{marks_at_open, marks_isolated, marks_at_start, runs_at_open};

use crate::kept::{Kept, give_frame};
use buddy::Runs;
use evac_model::{BlockNo, FrameNo, Geometry, Kind, OutOfMemory, StartPage};
use frame_cache::Caches;
use page_blocks::Blocks;
use std::alloc::{AllocError, Global};

/// Whether each managed block is offline: those that aren't plugged are.
fn offline_at_start(alloc: Global, g: &Geometry) -> Result<Vec<bool>, AllocError>
    ensures bits { IfOk result (λ v. v.items ≡ map (λ b. nat_le g.now.plugged b) (range_with_len 0 g.now.managed)) }
    ensures within { IfOk result (λ v. IsWithinLimits g.now) }
{
    let plugged = g.plugged();
    (0..g.managed()).map(|b| plugged <= b).collect(alloc)
}

/// Isolates the blocks that aren't plugged, and withdraws them from the runs.
fn isolate_unplugged(runs: &mut Runs, marks: &mut Blocks, g: &Geometry)
    requires runs { runs.old ≡ no_frames g.now runs.old.online }
    requires marks { marks.old ≡ marks_at_open g.now }
    ensures runs { runs.new ≡ runs_at_open g.now runs.old.online }
    ensures marks { marks.new ≡ marks_isolated g.now }
{
    for b in g.plugged()..g.managed() {
        // no frame is out yet
        let _ = marks.isolate(BlockNo(b));
        runs.withdraw(BlockNo(b));
    }
}

/// Marks the start pages' frames as out, the last one first.
fn mark_start(marks: &mut Blocks, start: &[StartPage], g: &Geometry)
    requires there { AllByRecursion (λ p. IsThereAtStart g.now p.frame.0) start.now }
    requires marks { marks.old ≡ marks_isolated g.now }
    ensures { marks.new ≡ marks_at_start g.now start.now }
{
    let _ = g.plugged();
    let mut left = start.len();
    while left > 0 {
        left -= 1;
        let page = start[left];
        marks.set_out(page.frame, page.page, page.kind);
    }
}

/// Gives each frame that isn't out to the runs, which keep those of isolated blocks aside.
fn give_frames(runs: &mut Runs, marks: &Blocks, start: &[StartPage], g: &Geometry)
    requires runs { runs.old ≡ runs_at_open g.now runs.old.online }
    requires marks { marks.now ≡ marks_at_start g.now start.now }
    ensures { runs.new ≡ runs_of g.now runs.old.online (space_at_start g.now start.now) }
{
    for frame in 0..g.frames() {
        if marks.out_at(FrameNo(frame)).is_none() {
            give_frame(runs, FrameNo(frame));
        }
    }
}

/// How many frames are out.
fn frames_out(marks: &Blocks) -> usize
    ensures { result ≡ count_by is_some marks.now.out }
{
    let mut count = 0;
    for frame in 0..marks.geometry().frames() {
        if marks.out_at(FrameNo(frame)).is_some() {
            count += 1;
        }
    }
    count
}

impl Kept {
    ghost use Rattle.std.specs.Prelude.{◌≡◌, IfOk};
    ghost use Rattle.std.specs.List.{count_by};
    ghost use Rattle.std.specs.Option.{is_some};
    ghost use Rattle.evac_model.specs.SpaceJournal.{space_at_start};
    ghost use Rattle.space.specs.JournaledSpace.{AreStartFrames};

    /// What a space keeps when it is opened: the start pages' frames are out, and the blocks that
    /// aren't plugged are offline. It looks at each frame once.
    pub(crate) fn open(
        alloc: Global,
        g: &Geometry,
        online: Kind,
        start: &[StartPage],
    ) -> Result<Kept, OutOfMemory>
        requires { AreStartFrames g.now online start.now }
        ensures { IfOk result (λ k. k ≡ record { sizes = g.now; online = online; state = space_at_start g.now start.now }) }
    {
        let mut runs = Runs::new(alloc, *g, online)?;
        let mut marks = Blocks::new(alloc, *g)?;
        let offline = offline_at_start(alloc, g)?;
        isolate_unplugged(&mut runs, &mut marks, g);
        mark_start(&mut marks, start, g);
        give_frames(&mut runs, &marks, start, g);
        Ok(Kept {
            runs,
            marks,
            caches: Caches::new(),
            offline,
        })
    }

    /// How many frames are out. It looks at each frame once.
    pub(crate) fn count_out(&self) -> usize
        ensures { result ≡ count_by is_some self.now.state.out }
    {
        frames_out(&self.marks)
    }
}
