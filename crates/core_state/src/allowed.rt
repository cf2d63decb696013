//! Whether a step of a call is allowed, by the view of the seat that is to make it.

ghost use Rattle.std.specs.Prelude.{◌≡◌, ◌↔◌, ℕ, ◌<◌, ◌≤◌, List, IsTrue};
ghost use Rattle.evac_model.specs.Page.{Page};
ghost use Rattle.evac_words.specs.Word.{pins_of};
ghost use Rattle.core_state.specs.Views.{IsSeated, Has, right_to, maps_to, times_in_hand, Owns};
ghost use Rattle.core_state.specs.Pages.{CouldBe};
ghost use Rattle.core_state.specs.Settled.{HasPage};
ghost use Rattle.core_state.specs.declared.view.View.{View};
ghost use Rattle.core_state.specs.Sound.{Sound};
ghost use Rattle.core_state.specs.Steps.{MayTake, MayDraw, MayLoad, MayStore, MayLetGo, MayEnd, MayRelease, Allowed, pins_after};

use crate::allowed_calls::{is_left_same, is_settled};
use crate::held::Held;
use crate::opening::Opening;
use crate::step::{CallDone, Step};
use crate::view::View;
use evac_model::{Call, FrameNo, PageNo, Reply};
use evac_words::{frame_of, is_mapped, is_moving, pins_of};

/// Whether the view knows the number of cells, and has a place for each frame.
pub fn is_seated(o: &Opening, v: &View) -> bool
    ensures { IsTrue result ↔ IsSeated o.now v.now }
{
    let has_image = match &v.scan {
        Some(scan) => scan.image.len() == o.frames as usize,
        None => true,
    };
    v.cells == o.cells && v.hand.len() == o.frames as usize && has_image
}

/// Whether the view has the right to move the page.
fn has_right(v: &View, page: PageNo) -> bool
    ensures { IsTrue result ↔ (0 < right_to page.0 v.now) }
{
    match v.mover.as_slice().get(page.0 as usize) {
        Some(right) => *right,
        None => false,
    }
}

/// Whether the word maps the frame.
fn is_mapped_to(word: u64, frame: FrameNo) -> bool
    ensures { IsTrue result ↔ (maps_to frame.0 word ≡ 1) }
{
    is_mapped(word) && frame_of(word) == frame.0
}

/// Whether the view has the frame in hand.
fn has_in_hand(v: &View, frame: FrameNo) -> bool
    ensures { IsTrue result ↔ (0 < times_in_hand frame.0 v.now) }
{
    match v.hand.as_slice().get(frame.0 as usize) {
        Some(place) => place.is_some(),
        None => false,
    }
}

/// Whether the frame is in the view's hand, or is that of the page that it holds.
fn is_own(v: &View, frame: FrameNo) -> bool
    ensures { IsTrue result ↔ Owns v.now frame.0 }
{
    if has_in_hand(v, frame) {
        return true;
    }
    match &v.held {
        Some(h) => is_mapped_to(h.word, frame),
        None => false,
    }
}

/// Whether the view may take the page.
fn may_take(o: &Opening, v: &View, page: PageNo) -> bool
    ensures { IsTrue result ↔ MayTake o.now v.now page.0 }
{
    is_seated(o, v) && v.held.is_none() && page.0 < o.pages && (v.left > 0 || has_right(v, page))
}

/// Whether the view may draw a ticket.
fn may_draw(v: &View) -> bool
    ensures { IsTrue result ↔ MayDraw v.now }
{
    match &v.held {
        Some(h) => h.ticket.is_none() && v.left > 0,
        None => false,
    }
}

/// Whether the view may load the cell of the page that it holds.
fn may_load(o: &Opening, v: &View, cell: u32) -> bool
    ensures { IsTrue result ↔ MayLoad o.now v.now cell }
{
    match &v.held {
        Some(h) => cell < o.cells && is_mapped(h.word),
        None => false,
    }
}

/// Whether the view may store a value in a cell of the frame.
fn may_store(o: &Opening, v: &View, frame: FrameNo, cell: u32, value: u64) -> bool
    ensures { IsTrue result ↔ MayStore o.now v.now frame.0 cell value }
{
    cell < o.cells && is_own(v, frame)
}

/// The pins after a call with this reply.
fn pins_after(call: &Call, reply: &Reply, pins: u8) -> u8
    requires { pins ≤ 63 }
    ensures { result ≡ pins_after call.now reply.now pins }
{
    match (call, reply) {
        (Call::Pin, Reply::Done) => pins + 1,
        (Call::Unpin, Reply::Done) => pins.saturating_sub(1),
        _ => pins,
    }
}

/// Whether the page may be let go without an entry.
fn may_let_go(o: &Opening, v: &View, h: &Held) -> bool
    ensures { (m : Page) → CouldBe o.now h.now m → (IsTrue result ↔ MayLetGo o.now v.now h.now) }
{
    !is_moving(h.word) && h.ticket.is_none() && has_right(v, h.page) && is_left_same(o, h)
}

/// Whether the page may be let go with the entry of this call.
fn may_end(o: &Opening, done: &CallDone, h: &Held) -> bool
    ensures { (m : Page) → CouldBe o.now h.now m → (IsTrue result ↔ MayEnd o.now done.now h.now) }
{
    let pins = pins_after(&done.call, &done.reply, pins_of(h.word));
    !is_moving(h.word)
        && h.ticket.is_some()
        && pins <= 63
        && is_settled(o, h, &done.call, &done.reply, pins)
}

/// Whether the view may let the page go that it holds.
fn may_release(o: &Opening, v: &View, done: &Option<CallDone>) -> bool
    ensures { HasPage o.now v.now → (IsTrue result ↔ MayRelease o.now v.now done.now) }
{
    if !v.unmarked.is_empty() {
        return false;
    }
    match (&v.held, done) {
        (Some(h), Some(done)) => may_end(o, done, h),
        (Some(h), None) => may_let_go(o, v, h),
        (None, _) => false,
    }
}

/// Whether a step of a call is allowed at a seat with this view, in any sound snapshot. It takes no
/// memory. A release looks once at each cell of a page, any other step at none.
pub(crate) fn is_allowed(o: &Opening, v: &View, step: &Step) -> bool
    ensures { (words : List ℕ) (views : List View) (seat : ℕ) → Sound o.now words views → Has views seat v.now
        → (IsTrue result ↔ Allowed o.now v.now step.now) }
{
    match step {
        Step::Take { page } => may_take(o, v, *page),
        Step::Draw => may_draw(v),
        Step::Load { cell } => may_load(o, v, *cell),
        Step::Store { frame, cell, value } => may_store(o, v, *frame, *cell, *value),
        Step::Mark { frame } => is_own(v, *frame),
        Step::Release { done } => may_release(o, v, done),
    }
}
