//! What a step on the mapping of the held page changes in the view of the seat that makes it.

ghost use Rattle.std.specs.Prelude.{◌≡◌, ◌^◌, ◌<◌, Some, None, length, slice_set, IsSome};
ghost use Rattle.core_state.specs.declared.keeper.Keeper.TheVariants.{OneOwner};
ghost use Rattle.core_state.specs.declared.step.MoveStep.{MoveStep};
ghost use Rattle.core_state.specs.Steps.{nothing_known, held_word};

use crate::hand::HandFrame;
use crate::held::{Change, Held};
use crate::known_cells::KnownCells;
use crate::move_words::{mapped, moving, remapped, unmapped};
use crate::view::View;
use evac_model::{FrameNo, Kind};

impl Held {
    ghost use Rattle.core_state.specs.Words.{moving_word, remapped_word, mapped_word, unmapped_word};
    ghost use Rattle.core_state.specs.MoveSteps.{held_after_remap};

    /// The page is being moved. What was loaded before doesn't count for the move.
    fn begin_move(&mut self)
        ensures { self.new ≡ record self.old { word = moving_word self.old.word; loads = nothing_known (length self.old.loads) } }
    {
        self.word = moving(self.word);
        self.loads.clear();
    }

    /// The page has moved to another frame, with the same cells.
    fn remap(&mut self, frame: FrameNo)
        requires { frame.0 < 2 ^ 20 }
        ensures { Some self.new ≡ held_after_remap (Some self.old) frame.0 }
    {
        self.word = remapped(self.word, frame);
        if let Change::Kept = self.change {
            self.change = Change::Moved;
        }
    }

    /// Nothing is known of the cells.
    fn forget(&mut self)
        ensures { self.new ≡ record self.old { loads = nothing_known (length self.old.loads); stores = nothing_known (length self.old.stores) } }
    {
        self.loads.clear();
        self.stores.clear();
    }

    /// The page is mapped to a frame of zeros.
    fn map(&mut self, frame: FrameNo, kind: Kind)
        requires { frame.0 < 2 ^ 20 }
        ensures { self.new ≡ record self.old { word = mapped_word self.old.word frame.0 kind; loads = nothing_known (length self.old.loads); stores = nothing_known (length self.old.stores); change = Change.Mapped kind } }
    {
        self.word = mapped(self.word, frame, &kind);
        self.forget();
        self.change = Change::Mapped { kind };
    }

    /// The page is unmapped.
    fn unmap(&mut self)
        ensures { self.new ≡ record self.old { word = unmapped_word self.old.word; loads = nothing_known (length self.old.loads); stores = nothing_known (length self.old.stores); change = Change.Unmapped } }
    {
        self.word = unmapped(self.word);
        self.forget();
        self.change = Change::Unmapped;
    }
}

impl View {
    ghost use Rattle.std.specs.Prelude.{IsSomeAnd};
    ghost use Rattle.evac_words.specs.Word.{frame_of};
    ghost use Rattle.core_state.specs.Views.{hand_frame};
    ghost use Rattle.core_state.specs.Seats.{IsHeldRoom};
    ghost use Rattle.core_state.specs.CoreOpens.{fresh_frame};
    ghost use Rattle.core_state.specs.MoveSteps.{view_after_move};

    /// Takes what is at a frame's place out of the hand.
    pub(crate) fn take_place(&mut self, frame: FrameNo) -> Option<HandFrame>
        requires { frame.0 < length self.old.hand }
        ensures place { result ≡ hand_frame self.old frame.0 }
        ensures view { self.new ≡ record self.old { hand = slice_set self.old.hand frame.0 None } }
    {
        self.hand.item_mut(frame.0 as usize).take()
    }

    /// Puts this at a frame's place in the hand.
    pub(crate) fn put_place(&mut self, frame: FrameNo, place: Option<HandFrame>)
        requires { frame.0 < length self.old.hand }
        ensures { self.new ≡ record self.old { hand = slice_set self.old.hand frame.0 place } }
    {
        *self.hand.item_mut(frame.0 as usize) = place;
    }

    /// Takes a frame out of the hand, and gives the places for its cells.
    fn let_frame(&mut self, frame: FrameNo) -> KnownCells
        requires hand { frame.0 < length self.old.hand }
        requires in_hand { IsSome (hand_frame self.old frame.0) }
        ensures spare { IsSomeAnd (hand_frame self.old frame.0) (λ x. result ≡ x.stores) }
        ensures view { self.new ≡ record self.old { hand = slice_set self.old.hand frame.0 None } }
    {
        match self.take_place(frame) {
            Some(left) => left.stores,
            None => unreachable!(),
        }
    }

    /// A frame comes in hand, with these places for its cells, in which nothing was stored.
    fn get_frame(&mut self, frame: FrameNo, mut stores: KnownCells)
        requires hand { frame.0 < length self.old.hand }
        requires spare { length stores ≡ self.old.cells }
        ensures { self.new ≡ record self.old { hand = slice_set self.old.hand frame.0 (Some (fresh_frame self.old.cells)) } }
    {
        stores.clear();
        self.put_place(frame, Some(HandFrame { stores, aim: None }));
    }

    /// Has begun to move the held page.
    pub(crate) fn begin_move(&mut self)
        requires { IsSomeAnd self.old.held (IsHeldRoom self.old.cells) }
        ensures { self.new ≡ view_after_move OneOwner self.old MoveStep.Moving }
    {
        if let Some(held) = &mut self.held {
            held.begin_move();
        }
    }

    /// Has mapped the held page to a frame in hand. Gives the places for the frame's cells.
    pub(crate) fn map(&mut self, frame: FrameNo, kind: Kind) -> KnownCells
        requires held { IsSomeAnd self.old.held (IsHeldRoom self.old.cells) }
        requires hand { frame.0 < length self.old.hand }
        requires in_hand { IsSome (hand_frame self.old frame.0) }
        requires fits { frame.0 < 2 ^ 20 }
        ensures spare { IsSomeAnd (hand_frame self.old frame.0) (λ x. result ≡ x.stores) }
        ensures view { self.new ≡ view_after_move OneOwner self.old (MoveStep.Map frame kind) }
    {
        if let Some(held) = &mut self.held {
            held.map(frame, kind);
        }
        self.let_frame(frame)
    }

    /// Has unmapped the held page. Its frame comes in hand, with these places for its cells.
    pub(crate) fn unmap(&mut self, frame: FrameNo, spare: KnownCells)
        requires held { IsSomeAnd self.old.held (IsHeldRoom self.old.cells) }
        requires frame { frame.0 ≡ frame_of (held_word self.old.held) }
        requires hand { frame.0 < length self.old.hand }
        requires spare { length spare ≡ self.old.cells }
        ensures { self.new ≡ view_after_move OneOwner self.old MoveStep.Unmap }
    {
        if let Some(held) = &mut self.held {
            held.unmap();
        }
        self.get_frame(frame, spare);
    }

    /// Has moved the held page from its frame to one in hand. The old frame comes in hand, with these
    /// places for its cells. Gives those for the cells of the other.
    pub(crate) fn remap(&mut self, old: FrameNo, spare: KnownCells, frame: FrameNo) -> KnownCells
        requires held { IsSome self.old.held }
        requires old { old.0 ≡ frame_of (held_word self.old.held) }
        requires old_place { old.0 < length self.old.hand }
        requires spare { length spare ≡ self.old.cells }
        requires hand { frame.0 < length self.old.hand }
        requires in_hand { IsSome (hand_frame self.old frame.0) }
        requires fits { frame.0 < 2 ^ 20 }
        ensures spare { IsSomeAnd (hand_frame self.old frame.0) (λ x. result ≡ x.stores) }
        ensures view { self.new ≡ view_after_move OneOwner self.old (MoveStep.Remap frame) }
    {
        if let Some(held) = &mut self.held {
            held.remap(frame);
        }
        let stores = self.let_frame(frame);
        self.get_frame(old, spare);
        stores
    }
}
