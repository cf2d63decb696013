//! What a step changes in the view of the seat that makes it.

ghost use Rattle.std.specs.Prelude.{◌≡◌, ◌+◌, ◌^◌, ◌<◌, ◌≤◌, length};
ghost use Rattle.core_state.specs.declared.keeper.Keeper.TheVariants.{OneOwner};

use crate::held::{Change, Held};
use crate::noticed::Notice;
use crate::pool::{push_from, remove_into};
use crate::room::CellRoom;
use crate::step::CallDone;
use crate::view::View;
use evac_model::{Entry, FrameNo, PageNo};
use evac_words::{TAKEN, frame_of, is_mapped, is_taken};
use std::alloc::Global;
use std::collections::LinkedList;

impl CellRoom {
    ghost use Rattle.std.specs.Prelude.{Some};
    ghost use Rattle.core_state.specs.Steps.{newly_held};
    ghost use Rattle.core_state.specs.Room.{IsCellRoom};

    /// A page that was just taken, of which nothing is known.
    fn newly_held(mut self, page: PageNo, found: u64) -> Held
        requires { length self.loads ≡ length self.stores }
        ensures { result ≡ newly_held (length self.loads) page found }
    {
        self.loads.clear();
        self.stores.clear();
        Held {
            page,
            found,
            word: found | TAKEN,
            ticket: None,
            loads: self.loads,
            stores: self.stores,
            change: Change::Kept,
        }
    }
}

impl Held {
    ghost use Rattle.std.specs.Prelude.{Some, bit_or};
    ghost use Rattle.core_state.specs.Steps.{with_load, with_store};

    /// Notes what a cell had, unless the seat stored there.
    fn load(&mut self, cell: u32, value: u64)
        ensures { Some self.new ≡ with_load (Some self.old) cell value }
    {
        if self.stores.at(cell).is_none() {
            self.loads.know(cell, value);
        }
    }

    /// Notes what was stored, where the frame is that of the held page.
    fn store(&mut self, frame: FrameNo, cell: u32, value: u64)
        ensures { Some self.new ≡ with_store (Some self.old) frame.0 cell value }
    {
        if is_mapped(self.word) && frame_of(self.word) == frame.0 {
            self.stores.know(cell, value);
        }
    }
}

impl View {
    ghost use Rattle.std.specs.Prelude.{◌↔◌, ◌==◌, IsTrue, IsSome, IsSomeAnd, Some, None, not, slice_set};
    ghost use Rattle.core_state.specs.Views.{right_to, times_unmarked, hand_frame};
    ghost use Rattle.core_state.specs.Room.{IsCellRoom, due_of};
    ghost use Rattle.core_state.specs.Steps.{held_after_take, noticed_after_take, after_take, after_draw, after_load, after_store, after_mark, after_release, MayDraw, with_hand_store, with_unmarked};

    /// Whether the seat has the right to move the page.
    pub fn has_right(&self, page: PageNo) -> bool
        ensures { IsTrue result ↔ (right_to page.0 self.now ≡ 1) }
    {
        match self.mover.as_slice().get(page.0 as usize) {
            Some(right) => *right,
            None => false,
        }
    }

    /// Notices the word that a take found.
    fn notice(&mut self, notices: &mut LinkedList<Notice, Global>, page: PageNo, found: u64)
        requires room { right_to page.0 self.old ≤ length notices.old }
        requires short { length self.old.noticed.by_right + 1 < 2 ^ 63 }
        ensures noticed { self.new ≡ record self.old { noticed = noticed_after_take OneOwner self.old page found } }
        ensures room { length notices.new + right_to page.0 self.old ≡ length notices.old }
    {
        let notice = Notice {
            page,
            word: found,
            known: self.actions.known,
        };
        if self.has_right(page) {
            push_from(notices, &mut self.noticed.by_right, notice);
        }
        if self.left > 0 {
            self.noticed.last = Some(notice);
        }
    }

    /// Takes a page, whose word was found so.
    pub(crate) fn take(
        &mut self,
        notices: &mut LinkedList<Notice, Global>,
        cells: &mut Option<CellRoom>,
        page: PageNo,
        found: u64,
    )
        requires holds_none { self.old.held ≡ None }
        requires cells { IsSomeAnd cells.old (IsCellRoom self.old.cells) }
        requires room { right_to page.0 self.old ≤ length notices.old }
        requires short { length self.old.noticed.by_right + 1 < 2 ^ 63 }
        ensures view { self.new ≡ after_take OneOwner self.old page found }
        ensures room { length notices.new + right_to page.0 self.old ≡ length notices.old }
        ensures kept { self.new.held ≡ None → cells.new ≡ cells.old }
    {
        self.notice(notices, page, found);
        if !is_taken(found) {
            if let Some(room) = cells.take() {
                self.held = Some(room.newly_held(page, found));
            }
        }
    }

    /// Has drawn a ticket.
    pub(crate) fn draw(&mut self, found: u64)
        requires may { MayDraw self.old }
        requires fits { found + 1 < 2 ^ 64 }
        ensures { self.new ≡ after_draw self.old found }
    {
        if let Some(held) = &mut self.held {
            held.ticket = Some(found);
        }
        self.left -= 1;
        self.seen = found + 1;
    }

    /// Has loaded a cell of the held page.
    pub(crate) fn load(&mut self, cell: u32, value: u64)
        ensures { self.new ≡ after_load self.old cell value }
    {
        if let Some(held) = &mut self.held {
            held.load(cell, value);
        }
    }

    /// Notes what was stored, where the frame is in hand.
    fn store_in_hand(&mut self, frame: FrameNo, cell: u32, value: u64)
        ensures { self.new ≡ record self.old { hand = slice_set self.old.hand frame.0 (with_hand_store (hand_frame self.old frame.0) cell value) } }
    {
        let place = frame.0 as usize;
        if place < self.hand.len() {
            if let Some(in_hand) = self.hand.item_mut(place) {
                in_hand.stores.know(cell, value);
            }
        }
    }

    /// Whether the seat wrote the frame and hasn't marked it since.
    pub fn has_unmarked(&self, frame: FrameNo) -> bool
        ensures { result ≡ not (times_unmarked frame.0 self.now == 0) }
    {
        self.unmarked.contains(&frame)
    }

    /// Has stored a value in a cell. The frame is unmarked from then on, in a node of the pool.
    pub(crate) fn store(
        &mut self,
        pool: &mut LinkedList<FrameNo, Global>,
        frame: FrameNo,
        cell: u32,
        value: u64,
    )
        requires pool { times_unmarked frame.0 self.old ≡ 0 → 0 < length pool.old }
        requires short { length self.old.unmarked + 1 < 2 ^ 63 }
        ensures view { self.new ≡ after_store self.old frame cell value }
        ensures pool { length pool.new + times_unmarked frame.0 self.new ≡ length pool.old + times_unmarked frame.0 self.old }
        ensures nodes { length pool.new + length self.new.unmarked ≡ length pool.old + length self.old.unmarked }
    {
        if let Some(held) = &mut self.held {
            held.store(frame, cell, value);
        }
        self.store_in_hand(frame, cell, value);
        if !self.has_unmarked(frame) {
            push_from(pool, &mut self.unmarked, frame);
        }
    }

    /// Has marked a frame. Its node goes to the pool.
    pub(crate) fn mark(&mut self, pool: &mut LinkedList<FrameNo, Global>, frame: FrameNo)
        requires short { length pool.old + length self.old.unmarked < 2 ^ 63 }
        ensures view { self.new ≡ after_mark self.old frame }
        ensures pool { length pool.new ≡ length pool.old + times_unmarked frame.0 self.old }
        ensures nodes { length pool.new + length self.new.unmarked ≡ length pool.old + length self.old.unmarked }
    {
        remove_into(pool, &mut self.unmarked, frame);
    }

    /// Has let the held page go. The entry of a call goes in a node of the pool, and the places for
    /// cells back to where they came from.
    pub(crate) fn release(
        &mut self,
        entries: &mut LinkedList<Entry, Global>,
        cells: &mut Option<CellRoom>,
        done: &Option<CallDone>,
    )
        requires holds { IsSome self.old.held }
        requires some { IsSome done.now → 0 < length entries.old }
        requires short { length self.old.entries + 1 < 2 ^ 63 }
        ensures view { self.new ≡ after_release self.old done.now }
        ensures entries { length entries.new + length self.new.entries ≡ length entries.old + length self.old.entries }
        ensures cells { IsSomeAnd self.old.held (λ h. cells.new ≡ Some (record { loads = h.loads; stores = h.stores })) }
    {
        if let Some(held) = self.held.take() {
            if let Some(d) = done {
                let entry = Entry {
                    ticket: held.ticket.unwrap_or(0),
                    caller: self.caller.unwrap_or(0),
                    call_no: self.entries.len() as u64,
                    page: held.page,
                    call: d.call,
                    reply: d.reply,
                };
                push_from(entries, &mut self.entries, entry);
            }
            *cells = Some(CellRoom {
                loads: held.loads,
                stores: held.stores,
            });
        }
    }
}
