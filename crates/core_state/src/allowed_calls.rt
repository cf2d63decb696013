//! Whether the call on a held page is settled by the word found, the loads and the stores.

ghost use Rattle.std.specs.Prelude.{◌≡◌, ◌↔◌, IsTrue};
ghost use Rattle.evac_model.specs.declared.call.Call.{Call};
ghost use Rattle.evac_words.specs.Word.{pins_of};
ghost use Rattle.core_state.specs.Settled.{taken_kind, left_kind, pins_kept, Leaves, AreInside, SettledMapped, SettledUnmapped, Settled, IsLeftSame};
ghost use Rattle.core_state.specs.Wanted.{wanted_at};

use crate::allowed_cells::{Wanted, are_cells_left, is_old, is_read};
use crate::held::{Change, Held};
use crate::opening::Opening;
use evac_model::{Call, Cells, Kind, Reply};
use evac_words::{is_mapped, is_unmovable, pins_of};

/// The kind of the page as it was taken; none where it was unmapped.
fn taken_kind(h: &Held) -> Option<Kind>
    ensures { result ≡ taken_kind h.now }
{
    if !is_mapped(h.found) {
        return None;
    }
    if is_unmovable(h.found) {
        Some(Kind::Unmovable)
    } else {
        Some(Kind::Movable)
    }
}

/// The kind of the page as it is left; none where it is unmapped.
fn left_kind(h: &Held) -> Option<Kind>
    ensures { result ≡ left_kind h.now }
{
    match h.change {
        Change::Kept | Change::Moved => taken_kind(h),
        Change::Mapped { kind } => Some(kind),
        Change::Unmapped => None,
    }
}

/// Whether the page is left unmapped.
fn is_left_unmapped(h: &Held) -> bool
    ensures { IsTrue result ↔ (left_kind h.now ≡ None) }
{
    left_kind(h).is_none()
}

/// Whether the page is left mapped with a kind.
fn is_left_mapped(h: &Held, kind: Kind) -> bool
    ensures { IsTrue result ↔ (left_kind h.now ≡ Some kind) }
{
    match (left_kind(h), kind) {
        (Some(Kind::Movable), Kind::Movable) | (Some(Kind::Unmovable), Kind::Unmovable) => true,
        _ => false,
    }
}

/// Whether the page is left mapped with a kind, has the pins that it should have, and in its cells what
/// is wanted.
fn leaves(o: &Opening, h: &Held, kind: Kind, pins: u8, should: u8, wanted: &Wanted) -> bool
    ensures { IsTrue result ↔ Leaves o.now h.now kind pins should (wanted_at wanted.now) }
{
    is_left_mapped(h, kind) && pins == should && are_cells_left(o.cells, h, wanted)
}

/// Whether the page is left unmapped, or is one whose alloc was done, and the reply says so.
fn is_alloc_settled(o: &Opening, h: &Held, kind: Kind, reply: &Reply, pins: u8) -> bool
    ensures { IsTrue result ↔ SettledUnmapped o.now h.now (Call.Alloc kind) reply.now pins }
{
    match reply {
        Reply::Done => leaves(o, h, kind, pins, 0, &Wanted::Zeros),
        Reply::NoFrame { .. } => is_left_unmapped(h),
        _ => false,
    }
}

/// Whether a call on a page that was unmapped is settled.
fn is_settled_unmapped(o: &Opening, h: &Held, call: &Call, reply: &Reply, pins: u8) -> bool
    ensures { IsTrue result ↔ SettledUnmapped o.now h.now call.now reply.now pins }
{
    match call {
        Call::Alloc { kind } => is_alloc_settled(o, h, *kind, reply, pins),
        _ => matches!(reply, Reply::NotMapped) && is_left_unmapped(h),
    }
}

/// Whether a free of a page that was mapped is settled.
fn is_free_settled(o: &Opening, h: &Held, kind: Kind, reply: &Reply, pins: u8) -> bool
    ensures { IsTrue result ↔ SettledMapped o.now h.now kind (pins_of h.now.found) Call.Free reply.now pins }
{
    let had = pins_of(h.found);
    if had == 0 {
        return matches!(reply, Reply::Done) && is_left_unmapped(h);
    }
    matches!(reply, Reply::Pinned) && leaves(o, h, kind, pins, had, &Wanted::Nothing)
}

/// Whether a read of a page that was mapped is settled.
fn is_read_settled(
    o: &Opening,
    h: &Held,
    kind: Kind,
    first: u32,
    count: u32,
    reply: &Reply,
    pins: u8,
) -> bool
    ensures { IsTrue result ↔ SettledMapped o.now h.now kind (pins_of h.now.found) (Call.Read first count) reply.now pins }
{
    match reply {
        Reply::Values(values) => {
            is_read(o, h, first, count, values)
                && leaves(o, h, kind, pins, pins_of(h.found), &Wanted::Nothing)
        }
        _ => false,
    }
}

/// Whether the cells that a write names are cells of the page, or it names none.
fn are_inside(o: &Opening, first: u32, values: &Cells) -> bool
    ensures { IsTrue result ↔ AreInside o.now first values.now }
{
    values.is_empty() || first as u64 + values.len() as u64 <= o.cells as u64
}

/// Whether a write of a page that was mapped is settled.
fn is_write_settled(
    o: &Opening,
    h: &Held,
    kind: Kind,
    first: u32,
    values: &Cells,
    reply: &Reply,
    pins: u8,
) -> bool
    ensures { IsTrue result ↔ SettledMapped o.now h.now kind (pins_of h.now.found) (Call.Write first values.now) reply.now pins }
{
    let wanted = Wanted::Values {
        first,
        values: *values,
    };
    matches!(reply, Reply::Done)
        && are_inside(o, first, values)
        && leaves(o, h, kind, pins, pins_of(h.found), &wanted)
}

/// Whether an add to a cell of a page that was mapped is settled.
fn is_add_settled(
    o: &Opening,
    h: &Held,
    kind: Kind,
    cell: u32,
    value: u64,
    reply: &Reply,
    pins: u8,
) -> bool
    ensures { IsTrue result ↔ SettledMapped o.now h.now kind (pins_of h.now.found) (Call.Add cell value) reply.now pins }
{
    match reply {
        Reply::Old(old) => {
            let wanted = Wanted::One {
                cell,
                value: old.wrapping_add(value),
            };
            is_old(o, h, cell, *old) && leaves(o, h, kind, pins, pins_of(h.found), &wanted)
        }
        _ => false,
    }
}

/// Whether a pin of a page that was mapped is settled.
fn is_pin_settled(o: &Opening, h: &Held, kind: Kind, reply: &Reply, pins: u8) -> bool
    ensures { IsTrue result ↔ SettledMapped o.now h.now kind (pins_of h.now.found) Call.Pin reply.now pins }
{
    let had = pins_of(h.found);
    if had == 63 {
        return matches!(reply, Reply::PinLimit) && leaves(o, h, kind, pins, had, &Wanted::Nothing);
    }
    matches!(reply, Reply::Done) && leaves(o, h, kind, pins, had + 1, &Wanted::Nothing)
}

/// Whether an unpin of a page that was mapped is settled.
fn is_unpin_settled(o: &Opening, h: &Held, kind: Kind, reply: &Reply, pins: u8) -> bool
    ensures { IsTrue result ↔ SettledMapped o.now h.now kind (pins_of h.now.found) Call.Unpin reply.now pins }
{
    let had = pins_of(h.found);
    if had == 0 {
        return matches!(reply, Reply::NotPinned) && leaves(o, h, kind, pins, had, &Wanted::Nothing);
    }
    matches!(reply, Reply::Done) && leaves(o, h, kind, pins, had - 1, &Wanted::Nothing)
}

/// Whether a call on a page that was mapped is settled.
fn is_settled_mapped(
    o: &Opening,
    h: &Held,
    kind: Kind,
    call: &Call,
    reply: &Reply,
    pins: u8,
) -> bool
    ensures { IsTrue result ↔ SettledMapped o.now h.now kind (pins_of h.now.found) call.now reply.now pins }
{
    match call {
        Call::Alloc { .. } => {
            matches!(reply, Reply::Mapped)
                && leaves(o, h, kind, pins, pins_of(h.found), &Wanted::Nothing)
        }
        Call::Free => is_free_settled(o, h, kind, reply, pins),
        Call::Read { first, count } => is_read_settled(o, h, kind, *first, *count, reply, pins),
        Call::Write { first, values } => is_write_settled(o, h, kind, *first, values, reply, pins),
        Call::Add { cell, value } => is_add_settled(o, h, kind, *cell, *value, reply, pins),
        Call::Pin => is_pin_settled(o, h, kind, reply, pins),
        Call::Unpin => is_unpin_settled(o, h, kind, reply, pins),
    }
}

/// Whether the call answers the reply and leaves the page as the holder leaves it, with these pins.
pub(crate) fn is_settled(o: &Opening, h: &Held, call: &Call, reply: &Reply, pins: u8) -> bool
    ensures { IsTrue result ↔ Settled o.now h.now call.now reply.now pins }
{
    match taken_kind(h) {
        None => is_settled_unmapped(o, h, call, reply, pins),
        Some(kind) => is_settled_mapped(o, h, kind, call, reply, pins),
    }
}

/// The pins of the page as it is left, where no call counted its own.
fn pins_kept(h: &Held) -> u8
    ensures { result ≡ pins_kept h.now.change (pins_of h.now.found) }
{
    match h.change {
        Change::Kept | Change::Moved => pins_of(h.found),
        Change::Mapped { .. } | Change::Unmapped => 0,
    }
}

/// Whether the page is left as it was taken.
pub(crate) fn is_left_same(o: &Opening, h: &Held) -> bool
    ensures { IsTrue result ↔ IsLeftSame o.now h.now }
{
    match taken_kind(h) {
        None => is_left_unmapped(h),
        Some(kind) => leaves(o, h, kind, pins_kept(h), pins_of(h.found), &Wanted::Nothing),
    }
}
