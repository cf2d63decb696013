//! What a core keeps, and what each kind of step changes in it.

ghost use Rattle.std.specs.Prelude.{◌≡◌, ◌+◌, ◌^◌, ◌<◌, ◌≤◌, [], length, slice_index, slice_set, sum, IfOk};
ghost use Rattle.evac_model.specs.Geometry.{IsWithinLimits};
ghost use Rattle.evac_model.specs.StartPages.{AreStartPages};
ghost use Rattle.core_state.specs.CoreOpens.{opening_of, opening_words, opening_views};
ghost use Rattle.core_state.specs.declared.keeper.Keeper.TheVariants.{OneOwner};

use crate::open::{open_pages, open_words, zeros};
use crate::open_room::open_room;
use crate::open_views::open_views;
use crate::opening::Opening;
use crate::room::Room;
use crate::seen::Seen;
use crate::snapshot::{Snapshot, WordList};
use crate::step::{CallDone, Step};
use evac_model::{FrameNo, Geometry, Listed, PageNo, StartPage};
use evac_words::{TAKEN, cell_index, dirty_index, entry_index, frame_of};
use std::alloc::{AllocError, Global};

/// The opening, the words and the views, and the memory for steps to come.
#[derive(Drop)]
pub(crate) struct Kept {
    pub(crate) opening: Opening,
    pub(crate) snapshot: Snapshot,
    pub(crate) room: Room,
}

/// The word at an index.
pub(crate) fn word_at(words: &WordList, index: usize) -> u64
    requires { index < length words.now }
    ensures { result ≡ slice_index words.now index }
{
    words.as_slice()[index]
}

/// Writes the word at an index.
pub(crate) fn write_word(words: &mut WordList, index: usize, word: u64)
    requires { index < length words.old }
    ensures { words.new ≡ slice_set words.old index word }
{
    *words.item_mut(index) = word;
}

/// The tickets of all owners together.
fn all_tickets(budgets: &[u64]) -> u64
    requires { sum budgets.now < 2 ^ 33 }
    ensures { result ≡ sum budgets.now }
{
    budgets.iter().sum()
}

/// What a run begins with.
fn open_opening(
    alloc: Global,
    g: &Geometry,
    start: &[StartPage],
    budgets: &[u64],
) -> Result<Opening, AllocError>
    requires start { AreStartPages g.now start.now }
    requires budget { sum budgets.now < 2 ^ 33 }
    ensures opening { IfOk result (λ o. o ≡ opening_of g.now start.now budgets.now) }
    ensures limits { IfOk result (λ o. IsWithinLimits g.now) }
{
    let bounds = zeros(alloc, g.pages() as usize)?;
    let pages = open_pages(alloc, g, start)?;
    Ok(Opening {
        cells: g.cells(),
        frames: g.frames(),
        pages: g.pages(),
        first: 0,
        budget: all_tickets(budgets),
        bounds: Listed::from_vec(bounds),
        start: Listed::from_vec(pages),
    })
}

impl Kept {
    ghost use Rattle.std.specs.Prelude.{IsSome};
    ghost use Rattle.evac_words.specs.Word.{frame_of};
    ghost use Rattle.evac_words.specs.Table.{entry_index, dirty_index, cell_index};
    ghost use Rattle.core_state.specs.declared.step.Step.{Step};
    ghost use Rattle.core_state.specs.Sound.{Sound};
    ghost use Rattle.core_state.specs.Room.{HasRoom};
    ghost use Rattle.core_state.specs.Words.{entry_word_of, next_ticket_of};
    ghost use Rattle.core_state.specs.Views.{view_of, right_to, Owns};
    ghost use Rattle.core_state.specs.Steps.{MayTake, MayDraw, MayLoad, MayStore, MayRelease, Allowed, held_page, held_word, word_after_release};
    ghost use Rattle.core_state.specs.Stepped.{snapshot_after, word_found};
    ghost use Rattle.core_state.specs.CoreState.{notices_of, seen_by};

    /// All that a core keeps when it is opened.
    pub(crate) fn open(
        alloc: Global,
        g: &Geometry,
        start: &[StartPage],
        budgets: &[u64],
    ) -> Result<Kept, AllocError>
        requires start { AreStartPages g.now start.now }
        requires owners { length budgets.now ≤ 16 }
        requires budget { sum budgets.now < 2 ^ 33 }
        ensures limits { IfOk result (λ k. IsWithinLimits g.now) }
        ensures opening { IfOk result (λ k. k.opening ≡ opening_of g.now start.now budgets.now) }
        ensures words { IfOk result (λ k. k.snapshot.words ≡ opening_words g.now start.now) }
        ensures views { IfOk result (λ k. k.snapshot.views ≡ opening_views g.now start.now budgets.now) }
        ensures room { IfOk result (λ k. HasRoom k.opening k.snapshot.views k.room) }
        ensures notices { IfOk result (λ k. k.room.notices ≡ []) }
    {
        let opening = open_opening(alloc, g, start, budgets)?;
        let words = open_words(alloc, g, start)?;
        let views = open_views(alloc, g, start, budgets)?;
        let room = open_room(alloc, g, start, views.len(), opening.budget)?;
        Ok(Kept {
            opening,
            snapshot: Snapshot {
                words: Listed::from_vec(words),
                views: Listed::from_vec(views),
            },
            room,
        })
    }

    /// Takes a page.
    pub(crate) fn take(&mut self, seat: usize, page: PageNo) -> u64
        requires seat { seat < length self.old.snapshot.views }
        requires sound { Sound self.old.opening self.old.snapshot.words self.old.snapshot.views }
        requires room { HasRoom self.old.opening self.old.snapshot.views self.old.room }
        requires notice { right_to page.0 (view_of self.old.snapshot.views seat) ≤ length self.old.room.notices }
        requires may { MayTake self.old.opening (view_of self.old.snapshot.views seat) page.0 }
        ensures found { result ≡ word_found self.old.opening self.old.snapshot.words (view_of self.old.snapshot.views seat) (Step.Take page) }
        ensures snapshot { self.new.snapshot ≡ snapshot_after OneOwner self.old.opening self.old.snapshot seat (Step.Take page) }
        ensures opening { self.new.opening ≡ self.old.opening }
        ensures room { HasRoom self.new.opening self.new.snapshot.views self.new.room }
        ensures notices { length self.new.room.notices + right_to page.0 (view_of self.old.snapshot.views seat) ≡ length self.old.room.notices }
    {
        let index = entry_index(page.0) as usize;
        let found = word_at(&self.snapshot.words, index);
        write_word(&mut self.snapshot.words, index, found | TAKEN);
        let view = self.snapshot.views.item_mut(seat);
        let cells = self.room.cells.item_mut(seat);
        view.take(&mut self.room.notices, cells, page, found);
        found
    }

    /// Draws a ticket.
    pub(crate) fn draw(&mut self, seat: usize) -> u64
        requires seat { seat < length self.old.snapshot.views }
        requires sound { Sound self.old.opening self.old.snapshot.words self.old.snapshot.views }
        requires room { HasRoom self.old.opening self.old.snapshot.views self.old.room }
        requires may { MayDraw (view_of self.old.snapshot.views seat) }
        ensures found { result ≡ word_found self.old.opening self.old.snapshot.words (view_of self.old.snapshot.views seat) Step.Draw }
        ensures snapshot { self.new.snapshot ≡ snapshot_after OneOwner self.old.opening self.old.snapshot seat Step.Draw }
        ensures opening { self.new.opening ≡ self.old.opening }
        ensures room { HasRoom self.new.opening self.new.snapshot.views self.new.room }
        ensures notices { self.new.room.notices ≡ self.old.room.notices }
    {
        let found = word_at(&self.snapshot.words, 0);
        write_word(&mut self.snapshot.words, 0, found + 1);
        self.snapshot.views.item_mut(seat).draw(found);
        found
    }

    /// The frame of the page that a seat holds; 0 where it holds none.
    pub(crate) fn held_frame(&self, seat: usize) -> u32
        requires { seat < length self.now.snapshot.views }
        ensures { result ≡ frame_of (held_word (view_of self.now.snapshot.views seat).held) }
    {
        match &self.snapshot.views.as_slice()[seat].held {
            Some(held) => frame_of(held.word),
            None => 0,
        }
    }

    /// Loads a cell of the page that the seat holds.
    pub(crate) fn load(&mut self, seat: usize, cell: u32) -> u64
        requires seat { seat < length self.old.snapshot.views }
        requires sound { Sound self.old.opening self.old.snapshot.words self.old.snapshot.views }
        requires room { HasRoom self.old.opening self.old.snapshot.views self.old.room }
        requires may { MayLoad self.old.opening (view_of self.old.snapshot.views seat) cell }
        ensures found { result ≡ word_found self.old.opening self.old.snapshot.words (view_of self.old.snapshot.views seat) (Step.Load cell) }
        ensures snapshot { self.new.snapshot ≡ snapshot_after OneOwner self.old.opening self.old.snapshot seat (Step.Load cell) }
        ensures opening { self.new.opening ≡ self.old.opening }
        ensures room { HasRoom self.new.opening self.new.snapshot.views self.new.room }
        ensures notices { self.new.room.notices ≡ self.old.room.notices }
    {
        let frame = self.held_frame(seat);
        let Opening {
            cells,
            frames,
            pages,
            ..
        } = &self.opening;
        let index = cell_index(*pages, *frames, *cells, frame, cell) as usize;
        let found = word_at(&self.snapshot.words, index);
        self.snapshot.views.item_mut(seat).load(cell, found);
        found
    }

    /// Stores a value in a cell of a frame.
    pub(crate) fn store(&mut self, seat: usize, frame: FrameNo, cell: u32, value: u64)
        requires seat { seat < length self.old.snapshot.views }
        requires sound { Sound self.old.opening self.old.snapshot.words self.old.snapshot.views }
        requires room { HasRoom self.old.opening self.old.snapshot.views self.old.room }
        requires may { MayStore self.old.opening (view_of self.old.snapshot.views seat) frame.0 cell value }
        ensures snapshot { self.new.snapshot ≡ snapshot_after OneOwner self.old.opening self.old.snapshot seat (Step.Store frame cell value) }
        ensures opening { self.new.opening ≡ self.old.opening }
        ensures room { HasRoom self.new.opening self.new.snapshot.views self.new.room }
        ensures notices { self.new.room.notices ≡ self.old.room.notices }
    {
        let Opening {
            cells,
            frames,
            pages,
            ..
        } = &self.opening;
        let index = cell_index(*pages, *frames, *cells, frame.0, cell) as usize;
        write_word(&mut self.snapshot.words, index, value);
        let view = self.snapshot.views.item_mut(seat);
        let pool = self.room.unmarked.item_mut(frame.0 as usize);
        view.store(pool, frame, cell, value);
    }

    /// Marks a frame as dirty.
    pub(crate) fn mark(&mut self, seat: usize, frame: FrameNo)
        requires seat { seat < length self.old.snapshot.views }
        requires sound { Sound self.old.opening self.old.snapshot.words self.old.snapshot.views }
        requires room { HasRoom self.old.opening self.old.snapshot.views self.old.room }
        requires may { Owns (view_of self.old.snapshot.views seat) frame.0 }
        ensures snapshot { self.new.snapshot ≡ snapshot_after OneOwner self.old.opening self.old.snapshot seat (Step.Mark frame) }
        ensures opening { self.new.opening ≡ self.old.opening }
        ensures room { HasRoom self.new.opening self.new.snapshot.views self.new.room }
        ensures notices { self.new.room.notices ≡ self.old.room.notices }
    {
        let index = dirty_index(self.opening.pages, frame.0) as usize;
        write_word(&mut self.snapshot.words, index, 1);
        let view = self.snapshot.views.item_mut(seat);
        let pool = self.room.unmarked.item_mut(frame.0 as usize);
        view.mark(pool, frame);
    }

    /// The entry word of the page that a seat holds once it is let go, and its index.
    fn word_released(&self, seat: usize, done: &Option<CallDone>) -> (usize, u64)
        requires seat { seat < length self.now.snapshot.views }
        requires sound { Sound self.now.opening self.now.snapshot.words self.now.snapshot.views }
        requires may { MayRelease self.now.opening (view_of self.now.snapshot.views seat) done.now }
        requires small { self.now.opening.pages ≤ 65536 }
        ensures index { result.0 ≡ entry_index (held_page (view_of self.now.snapshot.views seat).held) }
        ensures word { result.1 ≡ word_after_release (view_of self.now.snapshot.views seat).held done.now }
    {
        match &self.snapshot.views.as_slice()[seat].held {
            Some(held) => {
                let index = entry_index(held.page.0) as usize;
                (index, held.word_after(done))
            }
            None => unreachable!(),
        }
    }

    /// Lets the held page go.
    pub(crate) fn release(&mut self, seat: usize, done: &Option<CallDone>)
        requires seat { seat < length self.old.snapshot.views }
        requires sound { Sound self.old.opening self.old.snapshot.words self.old.snapshot.views }
        requires room { HasRoom self.old.opening self.old.snapshot.views self.old.room }
        requires may { MayRelease self.old.opening (view_of self.old.snapshot.views seat) done.now }
        ensures snapshot { self.new.snapshot ≡ snapshot_after OneOwner self.old.opening self.old.snapshot seat (Step.Release done.now) }
        ensures opening { self.new.opening ≡ self.old.opening }
        ensures room { HasRoom self.new.opening self.new.snapshot.views self.new.room }
        ensures notices { self.new.room.notices ≡ self.old.room.notices }
    {
        let (index, word) = self.word_released(seat, done);
        write_word(&mut self.snapshot.words, index, word);
        let view = self.snapshot.views.item_mut(seat);
        let cells = self.room.cells.item_mut(seat);
        view.release(&mut self.room.entries, cells, done);
    }

    /// Makes a step of a call.
    pub(crate) fn step(&mut self, seat: usize, step: &Step) -> Seen
        requires seat { seat < length self.old.snapshot.views }
        requires sound { Sound self.old.opening self.old.snapshot.words self.old.snapshot.views }
        requires room { HasRoom self.old.opening self.old.snapshot.views self.old.room }
        requires notice { notices_of (view_of self.old.snapshot.views seat) step.now ≤ length self.old.room.notices }
        requires may { Allowed self.old.opening (view_of self.old.snapshot.views seat) step.now }
        ensures seen { result ≡ seen_by step.now (word_found self.old.opening self.old.snapshot.words (view_of self.old.snapshot.views seat) step.now) }
        ensures snapshot { self.new.snapshot ≡ snapshot_after OneOwner self.old.opening self.old.snapshot seat step.now }
        ensures opening { self.new.opening ≡ self.old.opening }
        ensures room { HasRoom self.new.opening self.new.snapshot.views self.new.room }
        ensures notices { length self.new.room.notices + notices_of (view_of self.old.snapshot.views seat) step.now ≡ length self.old.room.notices }
    {
        match step {
            Step::Take { page } => Seen::Word(self.take(seat, *page)),
            Step::Draw => Seen::Word(self.draw(seat)),
            Step::Load { cell } => Seen::Word(self.load(seat, *cell)),
            Step::Store { frame, cell, value } => {
                self.store(seat, *frame, *cell, *value);
                Seen::Nothing
            }
            Step::Mark { frame } => {
                self.mark(seat, *frame);
                Seen::Nothing
            }
            Step::Release { done } => {
                self.release(seat, done);
                Seen::Nothing
            }
        }
    }
}
