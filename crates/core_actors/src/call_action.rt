//! The action of a call at each of its places, its reply, and the frame that it gives back.

ghost use Rattle.std.specs.Prelude.{◌≡◌, ◌+◌, ◌<◌, ◌≤◌, ◌^◌, [], length, slice_index, slice_index_or, Some};
ghost use Rattle.core_state.specs.declared.step.Step.{Step};
ghost use Rattle.core_actors.specs.CallSteps.{first_cell, load_count, values_of, is_freed, mapped_reply, leased_reply, unmapped_reply, reply_of, leased_frame, frame_back};
ghost use Rattle.core_actors.specs.Actions.{IsStorableAction};
ghost use Rattle.core_actors.specs.Counts.{ComesTo};
ghost use Rattle.core_actors.specs.Places.{first_action, action_at};

use crate::action::LeaseSeen;
use crate::place::CallPlace;
use core_state::{CallDone, MoveStep, Step};
use evac_model::{Call, Cells, FrameNo, PageNo, Reply};
use evac_words::{frame_of, is_mapped, pins_of};
use machine::{Action, SpaceCall};

/// The value that was loaded first, or 0.
fn first_loaded(loads: &Cells) -> u64
    ensures { result ≡ slice_index loads.now 0 }
{
    let values = loads.as_slice();
    if values.is_empty() { 0 } else { values[0] }
}

/// Whether a free whose take found the word frees the page.
pub(crate) fn is_freed(found: u64) -> bool
    ensures { result ≡ is_freed found }
{
    is_mapped(found) && pins_of(found) == 0
}

/// The reply of a call on a mapped page with so many pins, whose loads gave these values.
fn mapped_reply(pins: u8, loads: &Cells, call: &Call) -> Reply
    ensures { result ≡ mapped_reply pins loads.now call.now }
{
    match call {
        Call::Alloc { .. } => Reply::Mapped,
        Call::Free => {
            if pins == 0 {
                Reply::Done
            } else {
                Reply::Pinned
            }
        }
        Call::Read { .. } => Reply::Values(*loads),
        Call::Write { .. } => Reply::Done,
        Call::Add { .. } => Reply::Old(first_loaded(loads)),
        Call::Pin => {
            if pins == 63 {
                Reply::PinLimit
            } else {
                Reply::Done
            }
        }
        Call::Unpin => {
            if pins == 0 {
                Reply::NotPinned
            } else {
                Reply::Done
            }
        }
    }
}

/// The reply of an alloc of an unmapped page, by what its lease gave.
fn leased_reply(lease: &LeaseSeen) -> Reply
    ensures { result ≡ leased_reply lease.now }
{
    match lease {
        LeaseSeen::NotAsked => Reply::Done,
        LeaseSeen::Got { .. } => Reply::Done,
        LeaseSeen::Refused { at } => Reply::NoFrame { at: *at },
    }
}

/// The reply of a call on an unmapped page.
fn unmapped_reply(lease: &LeaseSeen, call: &Call) -> Reply
    ensures { result ≡ unmapped_reply lease.now call.now }
{
    match call {
        Call::Alloc { .. } => leased_reply(lease),
        Call::Free
        | Call::Read { .. }
        | Call::Write { .. }
        | Call::Add { .. }
        | Call::Pin
        | Call::Unpin => Reply::NotMapped,
    }
}

/// The reply of a call, by what its lease gave, the word that its take found and what its loads gave.
fn reply_of(lease: &LeaseSeen, found: u64, loads: &Cells, call: &Call) -> Reply
    ensures { result ≡ reply_of lease.now found loads.now call.now }
{
    if is_mapped(found) {
        mapped_reply(pins_of(found), loads, call)
    } else {
        unmapped_reply(lease, call)
    }
}

/// The release of a call, with its reply.
fn release(lease: &LeaseSeen, found: u64, loads: &Cells, call: &Call) -> Step
    ensures { result ≡ Step.Release (Some (record { call = call.now; reply = reply_of lease.now found loads.now call.now })) }
{
    Step::Release {
        done: Some(CallDone {
            call: *call,
            reply: reply_of(lease, found, loads, call),
        }),
    }
}

/// The value that a call stores behind so many others, where its loads gave these; 0 where there is none.
fn value_at(call: &Call, loads: &Cells, i: u32) -> u64
    ensures value { result ≡ slice_index_or (values_of loads.now call.now) i 0 }
    ensures storable { result < 2 ^ 64 }
{
    match call {
        Call::Write { values, .. } => {
            let values = values.as_slice();
            let at = i as usize;
            if at < values.len() { values[at] } else { 0 }
        }
        Call::Add { value, .. } => {
            if i == 0 {
                first_loaded(loads).wrapping_add(*value)
            } else {
                0
            }
        }
        Call::Alloc { .. } | Call::Free | Call::Read { .. } | Call::Pin | Call::Unpin => 0,
    }
}

/// The first cell that a call names, or 0.
fn first_cell(call: &Call) -> u32
    ensures { result ≡ first_cell call.now }
{
    match call {
        Call::Read { first, .. } => *first,
        Call::Write { first, .. } => *first,
        Call::Add { cell, .. } => *cell,
        Call::Alloc { .. } | Call::Free | Call::Pin | Call::Unpin => 0,
    }
}

/// The action with which a call begins.
pub(crate) fn first_action(page: PageNo, call: &Call) -> Action
    ensures action { result ≡ first_action (page, call.now) }
    ensures storable { IsStorableAction result }
{
    match call {
        Call::Alloc { kind } => Action::Space(SpaceCall::Lease { page, kind: *kind }),
        Call::Free
        | Call::Read { .. }
        | Call::Write { .. }
        | Call::Add { .. }
        | Call::Pin
        | Call::Unpin => Action::Step(Step::Take { page }),
    }
}

/// The action of a call at a place that it comes to. A page has `cells` cells.
pub(crate) fn action_at(cells: u32, page: PageNo, call: &Call, at: &CallPlace) -> Action
    requires sized { cells ≤ 512 }
    requires cells { first_cell call.now + load_count call.now + length (values_of [] call.now) ≤ 2 ^ 32 }
    requires comes { ComesTo cells call.now at.now }
    ensures action { result ≡ action_at (page, call.now) at.now }
    ensures storable { IsStorableAction result }
{
    match at {
        CallPlace::Zero { frame, cell } => Action::Step(Step::Store {
            frame: *frame,
            cell: *cell,
            value: 0,
        }),
        CallPlace::MarkZeros { frame } => Action::Step(Step::Mark { frame: *frame }),
        CallPlace::Take { .. } => Action::Step(Step::Take { page }),
        CallPlace::Draw { .. } => Action::Step(Step::Draw),
        CallPlace::Load { loads, .. } => Action::Step(Step::Load {
            cell: first_cell(call) + loads.len() as u32,
        }),
        CallPlace::Store { found, loads, i } => Action::Step(Step::Store {
            frame: FrameNo(frame_of(*found)),
            cell: first_cell(call) + *i,
            value: value_at(call, loads, *i),
        }),
        CallPlace::Mark { found, .. } => Action::Step(Step::Mark {
            frame: FrameNo(frame_of(*found)),
        }),
        CallPlace::Map { frame, kind, .. } => Action::Move(MoveStep::Map {
            frame: *frame,
            kind: *kind,
        }),
        CallPlace::Unmap { .. } => Action::Move(MoveStep::Unmap),
        CallPlace::Release {
            lease,
            found,
            loads,
        } => Action::Step(release(lease, *found, loads, call)),
    }
}

/// The frame that a lease gave.
fn leased_frame(lease: &LeaseSeen) -> Option<FrameNo>
    ensures { result ≡ leased_frame lease.now }
{
    match lease {
        LeaseSeen::NotAsked => None,
        LeaseSeen::Got { frame } => Some(*frame),
        LeaseSeen::Refused { .. } => None,
    }
}

/// The frame that a call gives back behind its release.
pub(crate) fn frame_back(call: &Call, lease: &LeaseSeen, found: u64) -> Option<FrameNo>
    ensures { result ≡ frame_back call.now lease.now found }
{
    match call {
        Call::Alloc { .. } => {
            if is_mapped(found) {
                leased_frame(lease)
            } else {
                None
            }
        }
        Call::Free => {
            if is_freed(found) {
                Some(FrameNo(frame_of(found)))
            } else {
                None
            }
        }
        Call::Read { .. } | Call::Write { .. } | Call::Add { .. } | Call::Pin | Call::Unpin => None,
    }
}
