//! The core, which keeps the words and the views as data.

use crate::allowed::is_allowed;
use crate::kept::Kept;
use crate::opening::Opening;
use crate::seen::Seen;
use crate::snapshot::Snapshot;
use crate::step::{MoveStep, ScanStep, Step};
use evac_model::{FrameNo, Geometry, OutOfMemory, StartPage};
use std::alloc::Global;
use std::marker::Model;

/// The words and the views as they are, with one owner. Each step acts on one word, and changes the
/// view of the seat that makes it. Contracts see what the run began with, the snapshot, and for how
/// many more notices of takes by the right to move there is room. All other memory that steps need is
/// taken when the core is opened.
#[derive(Drop)]
pub struct Core {
    kept: Kept,
}

impl Model for Core {
    ghost use Rattle.std.specs.Prelude.{length};
    ghost use Rattle.core_state.specs.CoreState.{CoreState};

    ghost Value = { CoreState };

    ghost view = { λ c. record { opening = c.kept.opening; snapshot = c.kept.snapshot; room = length c.kept.room.notices } };

    ghost use Rattle.core_state.specs.Room.{HasRoom};

    ghost invariant = { λ c. HasRoom c.kept.opening c.kept.snapshot.views c.kept.room };
}

impl Core {
    ghost use Rattle.std.specs.Prelude.{◌≡◌, ◌≢◌, ◌+◌, ◌^◌, ◌<◌, ◌≤◌, length, sum, IfOk, OnOk, OnErr, ◌↔◌, IsTrue};
    ghost use Rattle.evac_model.specs.State.{start_state};
    ghost use Rattle.evac_model.specs.StartPages.{AreStartPages};
    ghost use Rattle.evac_model.specs.Tables.{table_map};
    ghost use Rattle.core_state.specs.CoreOpens.{opening_of, opening_words, opening_views};
    ghost use Rattle.core_state.specs.Opens.{Opens};
    ghost use Rattle.core_state.specs.Room.{IsSmall};
    ghost use Rattle.core_state.specs.declared.keeper.Keeper.TheVariants.{OneOwner};
    ghost use Rattle.core_state.specs.declared.seen.Seen.{Seen};
    ghost use Rattle.core_state.specs.CoreState.{CoreState, IsSound, seen_by, notices_of};
    ghost use Rattle.core_state.specs.Views.{view_of};
    ghost use Rattle.core_state.specs.Steps.{Allowed};
    ghost use Rattle.core_state.specs.MoveSteps.{AllowedMove};
    ghost use Rattle.core_state.specs.ScanSteps.{AllowedScan};
    ghost use Rattle.core_state.specs.Stepped.{snapshot_after, snapshot_after_move, snapshot_after_scan, scan_found, word_found};
    ghost use Rattle.core_state.specs.HandOvers.{MayHandOver, views_after_hand_over};

    /// A core of a machine, whose start pages are mapped. `budgets` has the number of tickets of each
    /// owner, that of owner 1 first; there are at most 16 owners, with fewer than 2^33 tickets in all.
    /// The seats are, in order: 0 the driver, with the right to move every page; each owner at its
    /// number; the scanner; who keeps the free frames; and who keeps the frames of the blocks that
    /// aren't plugged. It takes all memory that steps need, but for notices of the driver: 8 bytes for
    /// each cell of the words and of the scanner's copies, 16 bytes for each cell of a frame, in hand or
    /// not, and some 50 bytes for each frame and seat, 100 more for each frame, and 250 for each ticket.
    pub fn open(
        alloc: Global,
        g: Geometry,
        start: &[StartPage],
        budgets: &[u64],
    ) -> Result<Core, OutOfMemory>
        requires start { AreStartPages g start.now }
        requires owners { length budgets.now ≤ 16 }
        requires budget { sum budgets.now < 2 ^ 33 }
        ensures opening { IfOk result (λ c. c.opening ≡ opening_of g start.now budgets.now) }
        ensures words { IfOk result (λ c. c.snapshot.words ≡ opening_words g start.now) }
        ensures views { IfOk result (λ c. c.snapshot.views ≡ opening_views g start.now budgets.now) }
        ensures room { IfOk result (λ c. c.room ≡ 0) }
        ensures opens { IfOk result (λ c. Opens c.opening c.snapshot.words c.snapshot.views) }
        ensures sound { IfOk result (λ c. IsSound c) }
        ensures plain { IfOk result (λ c. table_map c.opening.start ≡ start_state g.cells start.now) }
    {
        let kept = Kept::open(alloc, &g, start, budgets)?;
        Ok(Core { kept })
    }

    /// Makes a step of a seat, and gives the word that a take, a draw or a load found. The step is
    /// allowed; a take by the right to move the page uses the room for one notice. It takes no memory.
    /// Its time doesn't grow with frames, pages, entries or words: a take fills the places for the
    /// cells of one page, and a store or a mark looks through the frames that the seat has unmarked.
    pub fn step(&mut self, seat: u32, step: &Step) -> Seen
        requires seat { seat < length self.old.snapshot.views }
        requires sound { IsSound self.old }
        requires may { Allowed self.old.opening (view_of self.old.snapshot.views seat) step.now }
        requires room { notices_of (view_of self.old.snapshot.views seat) step.now ≤ self.old.room }
        ensures seen { result ≡ seen_by step.now (word_found self.old.opening self.old.snapshot.words (view_of self.old.snapshot.views seat) step.now) }
        ensures snapshot { self.new.snapshot ≡ snapshot_after OneOwner self.old.opening self.old.snapshot seat step.now }
        ensures sound { IsSound self.new }
        ensures opening { self.new.opening ≡ self.old.opening }
        ensures room { self.new.room + notices_of (view_of self.old.snapshot.views seat) step.now ≡ self.old.room }
    {
        self.kept.step(seat as usize, step)
    }

    /// Makes a step of a seat on the mapping of the page that it holds. The step is allowed. It takes no
    /// memory: the places for the cells of a frame are kept while it is in no hand. Its time is at most
    /// that of the cells of one page. No clause says that the words and the views stay sound: that each
    /// allowed step on a mapping keeps them so is a law of `core_moves`, the crate above.
    pub fn make_move(&mut self, seat: u32, step: MoveStep)
        requires seat { seat < length self.old.snapshot.views }
        requires sound { IsSound self.old }
        requires may { AllowedMove OneOwner self.old.opening (view_of self.old.snapshot.views seat) step }
        ensures snapshot { self.new.snapshot ≡ snapshot_after_move OneOwner self.old.snapshot seat step }
        ensures opening { self.new.opening ≡ self.old.opening }
        ensures room { self.new.room ≡ self.old.room }
    {
        self.kept.move_step(seat as usize, step);
    }

    /// Makes a step of the scanner's seat, and gives the dirty word that a sweep found, or the number that a
    /// copy found. The step is allowed. It takes no memory, and its time doesn't grow with anything. No
    /// clause says that the words and the views stay sound: that is a law of a crate above.
    pub fn make_scan(&mut self, seat: u32, step: ScanStep) -> Seen
        requires seat { seat < length self.old.snapshot.views }
        requires sound { IsSound self.old }
        requires may { AllowedScan self.old.opening (view_of self.old.snapshot.views seat) step }
        ensures seen { result ≡ Seen.Word (scan_found self.old.opening self.old.snapshot.words (view_of self.old.snapshot.views seat) step) }
        ensures snapshot { self.new.snapshot ≡ snapshot_after_scan OneOwner self.old.opening self.old.snapshot seat step }
        ensures opening { self.new.opening ≡ self.old.opening }
        ensures room { self.new.room ≡ self.old.room }
    {
        Seen::Word(self.kept.scan_step(seat as usize, step))
    }

    /// Hands `n` frames over, from the frame `first` on: they leave the hand of the seat `from` for that
    /// of the seat `to`, each with what was stored in it. Both seats hold no page and have marked what
    /// they wrote. It takes no memory, and its time is that of the frames. No clause says that the words
    /// and the views stay sound: that each hand-over keeps them so is a law of `core_moves`, the crate
    /// above.
    pub fn make_hand_over(&mut self, from: u32, to: u32, first: FrameNo, n: u32)
        requires from { from < length self.old.snapshot.views }
        requires to { to < length self.old.snapshot.views }
        requires apart { from ≢ to }
        requires may { MayHandOver self.old.opening (view_of self.old.snapshot.views from) (view_of self.old.snapshot.views to) first.0 n }
        ensures snapshot { self.new.snapshot ≡ record self.old.snapshot { views = views_after_hand_over self.old.snapshot.views from to (view_of self.old.snapshot.views from) (view_of self.old.snapshot.views to) first.0 n } }
        ensures opening { self.new.opening ≡ self.old.opening }
        ensures room { self.new.room ≡ self.old.room }
    {
        self.kept.hand_over(from as usize, to as usize, first, n);
    }

    /// Whether the step is one that the seat may make now. It takes no memory; a release looks once at
    /// each cell of a page, any other step at none.
    pub fn allows(&self, seat: u32, step: &Step) -> bool
        requires seat { seat < length self.now.snapshot.views }
        requires sound { IsSound self.now }
        ensures { IsTrue result ↔ Allowed self.now.opening (view_of self.now.snapshot.views seat) step.now }
    {
        let view = &self.kept.snapshot.views.as_slice()[seat as usize];
        is_allowed(&self.kept.opening, view, step)
    }

    /// Makes room for one more notice of a take by the right to move, as the driver's are.
    pub fn room_for_notice(&mut self) -> Result<(), OutOfMemory>
        ensures ok { OnOk result (self.new ≡ record self.old { room = self.old.room + 1 }) }
        ensures err { OnErr result (self.new ≡ self.old) }
    {
        self.kept.room.add_notice()
    }

    /// The words and the views as they are.
    pub fn snapshot(&self) -> &Snapshot
        ensures { result.now ≡ self.now.snapshot }
    {
        &self.kept.snapshot
    }

    /// What the run began with: at most 65,536 pages and frames, and at most 2^22 cells in all.
    pub fn opening(&self) -> &Opening
        ensures opening { result.now ≡ self.now.opening }
        ensures small { IsSmall self.now.opening }
    {
        &self.kept.opening
    }

    /// What the run began with, and the words and the views as they are. The core is consumed, and no
    /// memory is taken.
    pub fn into_parts(self) -> (Opening, Snapshot)
        ensures opening { result.0 ≡ self.opening }
        ensures snapshot { result.1 ≡ self.snapshot }
    {
        let Core { kept } = self;
        let Kept {
            opening,
            snapshot,
            room: _,
        } = kept;
        (opening, snapshot)
    }
}
