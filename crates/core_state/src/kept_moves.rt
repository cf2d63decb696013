//! What the steps on the mapping of a held page, and a hand-over, change in what a core keeps.

ghost use Rattle.std.specs.Prelude.{◌≡◌, ◌≢◌, ◌<◌, ◌≤◌, length};
ghost use Rattle.core_state.specs.declared.keeper.Keeper.TheVariants.{OneOwner};

use crate::hand_over::pass_frames;
use crate::kept::{Kept, write_word};
use crate::move_words::{mapped, moving, remapped, unmapped};
use crate::step::MoveStep;
use evac_model::{FrameNo, Kind};
use evac_words::entry_index;

impl Kept {
    ghost use Rattle.std.specs.Prelude.{IsSome};
    ghost use Rattle.evac_words.specs.Table.{entry_index};
    ghost use Rattle.core_state.specs.declared.step.MoveStep.{MoveStep};
    ghost use Rattle.core_state.specs.Sound.{Sound};
    ghost use Rattle.core_state.specs.Room.{HasRoom};
    ghost use Rattle.core_state.specs.Views.{view_of};
    ghost use Rattle.core_state.specs.Steps.{held_page, held_word};
    ghost use Rattle.core_state.specs.MoveSteps.{AllowedMove};
    ghost use Rattle.core_state.specs.Stepped.{snapshot_after_move};
    ghost use Rattle.core_state.specs.HandOvers.{MayHandOver, views_after_hand_over};

    /// The index of the entry word of the page that a seat holds, and the word as the seat has it.
    fn held_entry(&self, seat: usize) -> (usize, u64)
        requires seat { seat < length self.now.snapshot.views }
        requires sound { Sound self.now.opening self.now.snapshot.words self.now.snapshot.views }
        requires holds { IsSome (view_of self.now.snapshot.views seat).held }
        requires small { self.now.opening.pages ≤ 65536 }
        ensures index { result.0 ≡ entry_index (held_page (view_of self.now.snapshot.views seat).held) }
        ensures within { result.0 < length self.now.snapshot.words }
        ensures word { result.1 ≡ held_word (view_of self.now.snapshot.views seat).held }
    {
        match &self.snapshot.views.as_slice()[seat].held {
            Some(held) => (entry_index(held.page.0) as usize, held.word),
            None => unreachable!(),
        }
    }

    /// Maps the held page to a frame in hand that has zeros.
    fn map(&mut self, seat: usize, frame: FrameNo, kind: Kind)
        requires seat { seat < length self.old.snapshot.views }
        requires sound { Sound self.old.opening self.old.snapshot.words self.old.snapshot.views }
        requires room { HasRoom self.old.opening self.old.snapshot.views self.old.room }
        requires may { AllowedMove OneOwner self.old.opening (view_of self.old.snapshot.views seat) (MoveStep.Map frame kind) }
        ensures snapshot { self.new.snapshot ≡ snapshot_after_move OneOwner self.old.snapshot seat (MoveStep.Map frame kind) }
        ensures opening { self.new.opening ≡ self.old.opening }
        ensures room { HasRoom self.new.opening self.new.snapshot.views self.new.room }
        ensures notices { self.new.room.notices ≡ self.old.room.notices }
    {
        let (index, word) = self.held_entry(seat);
        write_word(&mut self.snapshot.words, index, mapped(word, frame, &kind));
        let spare = self.snapshot.views.item_mut(seat).map(frame, kind);
        self.room.keep_spare(frame, spare);
    }

    /// Unmaps the held page.
    fn unmap(&mut self, seat: usize)
        requires seat { seat < length self.old.snapshot.views }
        requires sound { Sound self.old.opening self.old.snapshot.words self.old.snapshot.views }
        requires room { HasRoom self.old.opening self.old.snapshot.views self.old.room }
        requires may { AllowedMove OneOwner self.old.opening (view_of self.old.snapshot.views seat) MoveStep.Unmap }
        ensures snapshot { self.new.snapshot ≡ snapshot_after_move OneOwner self.old.snapshot seat MoveStep.Unmap }
        ensures opening { self.new.opening ≡ self.old.opening }
        ensures room { HasRoom self.new.opening self.new.snapshot.views self.new.room }
        ensures notices { self.new.room.notices ≡ self.old.room.notices }
    {
        let (index, word) = self.held_entry(seat);
        let frame = FrameNo(self.held_frame(seat));
        write_word(&mut self.snapshot.words, index, unmapped(word));
        let spare = self.room.take_spare(frame);
        self.snapshot.views.item_mut(seat).unmap(frame, spare);
    }

    /// Passes frames from the hand of one seat to that of another, with what was stored in them.
    pub(crate) fn hand_over(&mut self, from: usize, to: usize, first: FrameNo, n: u32)
        requires from { from < length self.old.snapshot.views }
        requires to { to < length self.old.snapshot.views }
        requires apart { from ≢ to }
        requires room { HasRoom self.old.opening self.old.snapshot.views self.old.room }
        requires may { MayHandOver self.old.opening (view_of self.old.snapshot.views from) (view_of self.old.snapshot.views to) first.0 n }
        ensures snapshot { self.new.snapshot ≡ record self.old.snapshot { views = views_after_hand_over self.old.snapshot.views from to (view_of self.old.snapshot.views from) (view_of self.old.snapshot.views to) first.0 n } }
        ensures opening { self.new.opening ≡ self.old.opening }
        ensures room { HasRoom self.new.opening self.new.snapshot.views self.new.room }
        ensures notices { self.new.room.notices ≡ self.old.room.notices }
    {
        pass_frames(&mut self.snapshot.views, from, to, first, n);
    }

    /// Begins to move the held page.
    fn begin_move(&mut self, seat: usize)
        requires seat { seat < length self.old.snapshot.views }
        requires sound { Sound self.old.opening self.old.snapshot.words self.old.snapshot.views }
        requires room { HasRoom self.old.opening self.old.snapshot.views self.old.room }
        requires may { AllowedMove OneOwner self.old.opening (view_of self.old.snapshot.views seat) MoveStep.Moving }
        ensures snapshot { self.new.snapshot ≡ snapshot_after_move OneOwner self.old.snapshot seat MoveStep.Moving }
        ensures opening { self.new.opening ≡ self.old.opening }
        ensures room { HasRoom self.new.opening self.new.snapshot.views self.new.room }
        ensures notices { self.new.room.notices ≡ self.old.room.notices }
    {
        let (index, word) = self.held_entry(seat);
        write_word(&mut self.snapshot.words, index, moving(word));
        self.snapshot.views.item_mut(seat).begin_move();
    }

    /// Moves the held page to a frame in hand that has its cells.
    fn remap(&mut self, seat: usize, frame: FrameNo)
        requires seat { seat < length self.old.snapshot.views }
        requires sound { Sound self.old.opening self.old.snapshot.words self.old.snapshot.views }
        requires room { HasRoom self.old.opening self.old.snapshot.views self.old.room }
        requires may { AllowedMove OneOwner self.old.opening (view_of self.old.snapshot.views seat) (MoveStep.Remap frame) }
        ensures snapshot { self.new.snapshot ≡ snapshot_after_move OneOwner self.old.snapshot seat (MoveStep.Remap frame) }
        ensures opening { self.new.opening ≡ self.old.opening }
        ensures room { HasRoom self.new.opening self.new.snapshot.views self.new.room }
        ensures notices { self.new.room.notices ≡ self.old.room.notices }
    {
        let (index, word) = self.held_entry(seat);
        let old = FrameNo(self.held_frame(seat));
        write_word(&mut self.snapshot.words, index, remapped(word, frame));
        let old_spare = self.room.take_spare(old);
        let spare = self
            .snapshot
            .views
            .item_mut(seat)
            .remap(old, old_spare, frame);
        self.room.keep_spare(frame, spare);
    }

    /// Makes a step on the mapping of the page that a seat holds.
    pub(crate) fn move_step(&mut self, seat: usize, step: MoveStep)
        requires seat { seat < length self.old.snapshot.views }
        requires sound { Sound self.old.opening self.old.snapshot.words self.old.snapshot.views }
        requires room { HasRoom self.old.opening self.old.snapshot.views self.old.room }
        requires may { AllowedMove OneOwner self.old.opening (view_of self.old.snapshot.views seat) step }
        ensures snapshot { self.new.snapshot ≡ snapshot_after_move OneOwner self.old.snapshot seat step }
        ensures opening { self.new.opening ≡ self.old.opening }
        ensures room { HasRoom self.new.opening self.new.snapshot.views self.new.room }
        ensures notices { self.new.room.notices ≡ self.old.room.notices }
    {
        match step {
            MoveStep::Moving => self.begin_move(seat),
            MoveStep::Remap { frame } => self.remap(seat, frame),
            MoveStep::Map { frame, kind } => self.map(seat, frame, kind),
            MoveStep::Unmap => self.unmap(seat),
        }
    }
}
