//! Whether a step on a mapping or a hand-over is allowed, by the views of the seats.

ghost use Rattle.std.specs.Prelude.{◌≡◌, ◌↔◌, ◌+◌, ℕ, ◌<◌, ◌≤◌, IsTrue, IsSome, Some, length, replicate};
ghost use Rattle.core_state.specs.declared.keeper.Keeper.TheVariants.{OneOwner};
ghost use Rattle.core_state.specs.CoreState.{IsSound};
ghost use Rattle.core_state.specs.Views.{view_of, hand_frame};
ghost use Rattle.core_state.specs.MoveSteps.{known_cell, IsCopied, InHand, MayBegin, MayRemap, MayMap, MayUnmap, AllowedMove};
ghost use Rattle.core_state.specs.HandOvers.{IsAtRest, MayHandOver};

use core_state::{Core, HandFrame, Held, KnownCells, MoveStep, Opening, View, is_seated};
use evac_model::{FrameNo, Kind};
use evac_words::{is_mapped, is_moving, is_unmovable, pins_of};

/// Whether the view may begin to move the page that it holds.
fn may_begin(v: &View, h: &Held) -> bool
    ensures { IsTrue result ↔ MayBegin v.now h.now }
{
    v.has_right(h.page) && is_mapped(h.word) && !is_unmovable(h.word) && pins_of(h.word) == 0
}

/// What the holder knows of a cell of the page that it holds.
fn known_cell(h: &Held, cell: u32) -> Option<u64>
    ensures { result ≡ known_cell h.now cell }
{
    match h.stores.at(cell) {
        Some(value) => Some(value),
        None => h.loads.at(cell),
    }
}

/// Whether two numbers are known and the same.
fn are_known_same(a: Option<u64>, b: Option<u64>) -> bool
    ensures { IsTrue result ↔ ((value : ℕ) × (a ≡ Some value) × (b ≡ Some value)) }
{
    match (a, b) {
        (Some(x), Some(y)) => x == y,
        _ => false,
    }
}

/// Whether each cell of the held page is known, and its value is stored in the frame.
fn is_copied(o: &Opening, h: &Held, x: &HandFrame) -> bool
    ensures { IsTrue result ↔ IsCopied o.now h.now x.now }
{
    for cell in 0..o.cells {
        if !are_known_same(known_cell(h, cell), x.stores.at(cell)) {
            return false;
        }
    }
    true
}

/// Whether zero is stored in each of so many cells, and there are no others.
fn are_zeros(cells: u32, stores: &KnownCells) -> bool
    ensures { IsTrue result ↔ (stores.now ≡ replicate cells (Some 0)) }
{
    if stores.len() != cells as usize {
        return false;
    }
    for cell in 0..cells {
        if stores.at(cell) != Some(0) {
            return false;
        }
    }
    true
}

/// Whether the held page may be remapped to this frame in hand.
fn may_remap(o: &Opening, h: &Held, x: &HandFrame) -> bool
    ensures { IsTrue result ↔ MayRemap OneOwner o.now h.now x.now }
{
    is_moving(h.word) && is_copied(o, h, x)
}

/// Whether the held page may be mapped to this frame in hand.
fn may_map(o: &Opening, h: &Held, x: &HandFrame, kind: Kind) -> bool
    ensures { IsTrue result ↔ MayMap OneOwner o.now h.now x.now kind }
{
    h.ticket.is_some() && !is_mapped(h.word) && are_zeros(o.cells, &x.stores)
}

/// Whether the held page may be unmapped.
fn may_unmap(h: &Held) -> bool
    ensures { IsTrue result ↔ MayUnmap h.now }
{
    h.ticket.is_some() && is_mapped(h.word) && pins_of(h.word) == 0
}

/// Whether the held page may be remapped to a frame, which is in hand and marked.
fn may_remap_to(o: &Opening, v: &View, h: &Held, frame: FrameNo) -> bool
    ensures { IsTrue result ↔ InHand v.now frame.0 (MayRemap OneOwner o.now h.now) }
{
    if v.has_unmarked(frame) {
        return false;
    }
    match v.hand.as_slice().get(frame.0 as usize) {
        Some(Some(x)) => may_remap(o, h, x),
        _ => false,
    }
}

/// Whether the held page may be mapped to a frame, which is in hand and marked.
fn may_map_to(o: &Opening, v: &View, h: &Held, frame: FrameNo, kind: Kind) -> bool
    ensures { IsTrue result ↔ InHand v.now frame.0 (λ x. MayMap OneOwner o.now h.now x kind) }
{
    if v.has_unmarked(frame) {
        return false;
    }
    match v.hand.as_slice().get(frame.0 as usize) {
        Some(Some(x)) => may_map(o, h, x, kind),
        _ => false,
    }
}

/// Whether a step on the mapping of the held page is allowed at a seat with this view.
fn is_allowed(o: &Opening, v: &View, step: &MoveStep) -> bool
    ensures { IsTrue result ↔ AllowedMove OneOwner o.now v.now step.now }
{
    let Some(h) = &v.held else {
        return false;
    };
    is_seated(o, v)
        && match step {
            MoveStep::Moving => may_begin(v, h),
            MoveStep::Remap { frame } => may_remap_to(o, v, h, *frame),
            MoveStep::Map { frame, kind } => may_map_to(o, v, h, *frame, *kind),
            MoveStep::Unmap => may_unmap(h),
        }
}

/// Whether the step on the mapping of the held page is one that the seat may make now. It takes no
/// memory, and its time is at most that of the cells of one page and of the frames that the seat has
/// unmarked.
pub fn may_move(core: &Core, seat: u32, step: MoveStep) -> bool
    requires seat { seat < length core.now.snapshot.views }
    ensures { IsTrue result ↔ AllowedMove OneOwner core.now.opening (view_of core.now.snapshot.views seat) step }
{
    let view = &core.snapshot().views.as_slice()[seat as usize];
    is_allowed(core.opening(), view, &step)
}

/// Whether the view holds no page and has marked each frame that it wrote.
fn is_at_rest(o: &Opening, v: &View) -> bool
    ensures { IsTrue result ↔ IsAtRest o.now v.now }
{
    is_seated(o, v) && v.held.is_none() && v.unmarked.is_empty()
}

/// Whether the view has the frame in hand.
fn has_in_hand(v: &View, frame: u32) -> bool
    ensures { IsTrue result ↔ IsSome (hand_frame v.now frame) }
{
    match v.hand.as_slice().get(frame as usize) {
        Some(place) => place.is_some(),
        None => false,
    }
}

/// Whether the view has the frames from the first one on and below the last one in hand.
fn has_all_in_hand(v: &View, first: u32, last: u32) -> bool
    ensures { IsTrue result ↔ ((frame : ℕ) → first ≤ frame → frame < last → IsSome (hand_frame v.now frame)) }
{
    for frame in first..last {
        if !has_in_hand(v, frame) {
            return false;
        }
    }
    true
}

/// Whether frames may go from the hand of one view to that of the other.
fn may_give(o: &Opening, giver: &View, receiver: &View, first: u32, n: u32) -> bool
    ensures { IsTrue result ↔ MayHandOver o.now giver.now receiver.now first n }
{
    let frames = o.frames as u64;
    let fits = first as u64 + n as u64 <= frames;
    fits && is_at_rest(o, giver)
        && is_at_rest(o, receiver)
        && has_all_in_hand(giver, first, first + n)
}

/// Whether the seat `from` may hand `n` frames over to the seat `to` now, from the frame `first` on. It
/// takes no memory, and its time is that of the frames.
pub fn may_hand_over(core: &Core, from: u32, to: u32, first: FrameNo, n: u32) -> bool
    requires from { from < length core.now.snapshot.views }
    requires to { to < length core.now.snapshot.views }
    ensures { IsTrue result ↔ MayHandOver core.now.opening (view_of core.now.snapshot.views from) (view_of core.now.snapshot.views to) first.0 n }
{
    let views = core.snapshot().views.as_slice();
    may_give(
        core.opening(),
        &views[from as usize],
        &views[to as usize],
        first.0,
        n,
    )
}
