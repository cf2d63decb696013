//! The free runs of a machine.

ghost use Rattle.std.specs.Prelude.{◌≡◌, ◌+◌, ◌<◌, ◌≤◌, ◌^◌, ◌*◌};
ghost use Rattle.buddy.specs.Choice.{choice_of_order, tree_choice};

use crate::aside::{keep, put_aside, put_back};
use crate::tree::Tree;
use evac_model::{BlockNo, FrameNo, Geometry, Kind, OutOfMemory};
use std::alloc::Global;
use std::marker::Model;

/// The free frames of a machine, as runs: 2^k frames from a multiple of 2^k on, all of one block. Two
/// free runs that are the halves of a run are one run, as in the textbook's buddy allocator. The free
/// frames of withdrawn blocks are kept aside: they are in no run.
#[derive(Debug, Drop)]
pub struct Runs {
    geometry: Geometry,
    online: Kind,
    boot: Tree,
    managed: Tree,
    aside: Vec<bool>,
    withdrawn: Vec<bool>,
}

impl Model for Runs {
    ghost use Rattle.buddy.specs.FreeFrames.{FreeFrames};
    ghost use Rattle.buddy.specs.FreeFramesCode.{free_frames_code};

    ghost Value = { FreeFrames };

    ghost coded = { free_frames_code };

    ghost use Rattle.buddy.specs.RunsInside.{frames_of, IsKept};

    ghost view = { λ r. frames_of r.geometry r.online r.boot r.managed r.aside.items r.withdrawn.items };

    ghost invariant = { λ r. IsKept r.geometry r.boot r.managed r.aside.items r.withdrawn.items };
}

// The order of a block: it has 2^order frames.
fn block_order(g: &Geometry) -> u32
    ensures block { g.now.block ≡ 2 ^ result }
    ensures small { result ≤ 9 }
{
    g.block().ilog2()
}

// The order of the smallest run that has so many frames.
fn order_for(frames: u32) -> u32
    requires some { 0 < frames }
    requires few { frames ≤ 65536 }
    ensures small { result ≤ 16 }
    ensures room { frames ≤ 2 ^ result }
{
    frames.next_power_of_two().ilog2()
}

// The first frame of the lowest free run of exactly that order, in boot blocks before managed ones,
// which are looked at where they take the pages. Their frames begin behind the boot blocks' frames.
fn lowest(boot_frames: u32, boot: &Tree, managed: &Tree, takes: bool, wanted: u32) -> Option<u32>
    requires few { boot_frames ≤ 65536 }
    requires small { managed.now.order ≤ 16 }
    requires order { wanted ≤ 16 }
    ensures { result ≡ choice_of_order boot_frames boot.now managed.now takes wanted }
{
    if let Some(place) = boot.lowest(wanted) {
        return Some(place);
    }
    if !takes {
        return None;
    }
    let place = managed.lowest(wanted)?;
    Some(boot_frames + place)
}

// The first frame of the run to take from: the smallest that serves, and of these the lowest.
fn choose(boot_frames: u32, boot: &Tree, managed: &Tree, takes: bool, order: u32) -> Option<u32>
    requires few { boot_frames ≤ 65536 }
    requires small { managed.now.order ≤ 16 }
    requires boot { boot.now.top ≤ 9 }
    requires managed { managed.now.top ≤ 9 }
    ensures { result ≡ tree_choice boot_frames boot.now managed.now takes order }
{
    for wanted in order..10 {
        if let Some(first) = lowest(boot_frames, boot, managed, takes, wanted) {
            return Some(first);
        }
    }
    None
}

impl Runs {
    ghost use Rattle.std.specs.Prelude.{◌≡◌, ℕ, ◌↔◌, ◌+◌, ◌*◌, ◌<◌, ◌≤◌, ◌^◌, ◌||◌, not, Bool, true, false, None, IfOk, if◌then◌else◌};
    ghost use Rattle.std.specs.Option.{option_map};
    ghost use Rattle.evac_model.specs.Geometry.{IsWithinLimits, frame_count};
    ghost use Rattle.evac_model.specs.Numbers.{is_in, is_between, numbers_where};
    ghost use Rattle.evac_model.specs.Page.{is_movable};
    ghost use Rattle.evac_model.specs.SpaceJournal.{is_frame_in};
    ghost use Rattle.evac_model.specs.FreeRuns.{fits, is_run, is_all_free, chosen_run};
    ghost use Rattle.buddy.specs.FreeFrames.{no_frames, after_take, with_frames, with_withdrawn, with_restored, IsNeither, AreApart};

    /// The machine with no free frame, and no block withdrawn. `online` is the kind of pages that
    /// managed blocks are online for. It takes all memory that later calls need, at most some 200
    /// bytes for each frame, and fails where there is none.
    pub fn new(alloc: Global, g: Geometry, online: Kind) -> Result<Runs, OutOfMemory>
        ensures { IfOk result (λ r. r ≡ no_frames g online) }
    {
        let top = block_order(&g);
        let boot = Tree::new(alloc, top, order_for(g.boot() * g.block()))?;
        let managed = Tree::new(alloc, top, order_for(g.managed() * g.block()))?;
        let aside = vec![in alloc; false; g.frames() as usize]?;
        let withdrawn = vec![in alloc; false; g.managed() as usize]?;
        Ok(Runs {
            geometry: g,
            online,
            boot,
            managed,
            aside,
            withdrawn,
        })
    }

    /// The sizes of the machine.
    pub fn geometry(&self) -> Geometry
        ensures sizes { result ≡ self.now.sizes }
        ensures apart { AreApart self.now }
    {
        self.geometry
    }

    /// Whether a frame's block takes pages of a kind: unmovable ones go to boot blocks, and to
    /// managed ones where they are online for them.
    pub fn fits(&self, frame: FrameNo, kind: Kind) -> bool
        ensures { result ≡ fits self.now.sizes self.now.online kind frame.0 }
    {
        self.managed_take(kind) || frame.0 < self.boot_frames()
    }

    // The frames of boot blocks.
    fn boot_frames(&self) -> u32
        ensures frames { result ≡ self.now.sizes.boot * self.now.sizes.block }
        ensures within { IsWithinLimits self.now.sizes }
    {
        self.geometry.boot() * self.geometry.block()
    }

    // Whether managed blocks take pages of a kind.
    fn managed_take(&self, kind: Kind) -> bool
        ensures { result ≡ (is_movable kind || not (is_movable self.now.online)) }
    {
        kind == Kind::Movable || self.online != Kind::Movable
    }

    // Makes the frames of a run free, or takes them.
    fn set_run(&mut self, first: u32, order: u32, free: bool)
        requires run { is_run self.old.sizes order first ≡ true }
        requires present { free ≡ true → is_frame_in self.old.sizes self.old.withdrawn first ≡ false }
        ensures { self.new ≡ record self.old { free = numbers_where (λ frame. if is_between first (first + 2 ^ order) frame then free else is_in frame self.old.free) (frame_count self.old.sizes) } }
    {
        let boot_frames = self.boot_frames();
        if first < boot_frames {
            self.boot.set_run(first, order, free);
        } else {
            self.managed.set_run(first - boot_frames, order, free);
        }
    }

    /// Takes a run of 2^order frames for pages of a kind, and gives its first frame: the low part of
    /// the smallest free run that serves, of these the lowest. None where no block that takes the
    /// kind has such a run, free. It takes no memory.
    pub fn take(&mut self, order: u32, kind: Kind) -> Option<FrameNo>
        ensures found { result ≡ option_map (λ (f : ℕ). record { 0 = f }) (chosen_run self.old.sizes self.old.online self.old.free order kind) }
        ensures taken { self.new ≡ after_take order (chosen_run self.old.sizes self.old.online self.old.free order kind) self.old }
        ensures none { (result ≡ None) ↔ ((first : ℕ) → fits self.old.sizes self.old.online kind first ≡ true → is_all_free self.old.sizes self.old.free order first ≡ false) }
    {
        let takes = self.managed_take(kind);
        let first = choose(self.boot_frames(), &self.boot, &self.managed, takes, order)?;
        self.set_run(first, order, false);
        Some(FrameNo(first))
    }

    /// Gives a run of 2^order frames, none of them free or kept aside. In a withdrawn block its
    /// frames are kept aside, else they are free.
    pub fn give(&mut self, frame: FrameNo, order: u32)
        requires run { is_run self.old.sizes order frame.0 ≡ true }
        requires neither { (k : ℕ) → frame.0 ≤ k → k < frame.0 + 2 ^ order → IsNeither self.old k }
        ensures { self.new ≡ with_frames (is_between frame.0 (frame.0 + 2 ^ order)) self.old }
    {
        if self.is_put_aside(frame.0) {
            keep(&mut self.aside, frame.0, order);
        } else {
            self.set_run(frame.0, order, true);
        }
    }

    // Whether a frame is of a withdrawn block.
    fn is_put_aside(&self, frame: u32) -> bool
        requires { frame < frame_count self.now.sizes }
        ensures found { result ≡ is_frame_in self.now.sizes self.now.withdrawn frame }
        ensures apart { AreApart self.now }
    {
        let boot_frames = self.boot_frames();
        boot_frames <= frame
            && self.withdrawn[((frame - boot_frames) / self.geometry.block()) as usize]
    }

    /// Withdraws a managed block: its free frames are kept aside, and so are those given meanwhile.
    /// It costs the block's frames.
    pub fn withdraw(&mut self, b: BlockNo)
        requires managed { b.0 < self.old.sizes.managed }
        requires there { is_in b.0 self.old.withdrawn ≡ false }
        ensures { self.new ≡ with_withdrawn b.0 self.old }
    {
        let first = self.boot_frames();
        let place = b.0 * self.geometry.block();
        let order = block_order(&self.geometry);
        put_aside(
            &mut self.managed,
            place,
            order,
            &mut self.aside,
            first + place,
        );
        self.withdrawn[b.0 as usize] = true;
    }

    /// Takes a block's withdrawal back: the frames kept aside are free. It costs the block's frames.
    pub fn restore(&mut self, b: BlockNo)
        requires { is_in b.0 self.old.withdrawn ≡ true }
        ensures { self.new ≡ with_restored b.0 self.old }
    {
        let first = self.boot_frames();
        let place = b.0 * self.geometry.block();
        let order = block_order(&self.geometry);
        put_back(
            &mut self.managed,
            place,
            order,
            &mut self.aside,
            first + place,
        );
        self.withdrawn[b.0 as usize] = false;
    }

    // Whether a frame is free.
    fn is_free(&self, frame: FrameNo) -> bool
        requires { frame.0 < frame_count self.now.sizes }
        ensures { result ≡ is_in frame.0 self.now.free }
    {
        let boot_frames = self.boot_frames();
        let mut free = [false];
        if frame.0 < boot_frames {
            self.boot.copy_run(frame.0, 0, &mut free);
        } else {
            self.managed.copy_run(frame.0 - boot_frames, 0, &mut free);
        }
        free[0]
    }

    /// Whether a frame is free or kept aside. One that is so can't be given.
    pub fn has(&self, frame: FrameNo) -> bool
        requires { frame.0 < frame_count self.now.sizes }
        ensures { result ≡ (is_in frame.0 self.now.free || is_in frame.0 self.now.aside) }
    {
        self.is_free(frame) || self.aside[frame.0 as usize]
    }

    /// Whether a block is withdrawn. A block that isn't a managed one is not.
    pub fn is_withdrawn(&self, b: BlockNo) -> bool
        ensures { result ≡ is_in b.0 self.now.withdrawn }
    {
        b.0 < self.geometry.managed() && self.withdrawn[b.0 as usize]
    }
}
