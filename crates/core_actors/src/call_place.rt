//! The place of a call behind each of its actions.

ghost use Rattle.std.specs.Prelude.{◌≡◌, ◌+◌, ◌<◌, ◌≤◌, ◌++◌, ◌∷◌, [], length};
ghost use Rattle.core_actors.specs.CallSteps.{load_count, values_of};
ghost use Rattle.core_actors.specs.Counts.{ComesTo};
ghost use Rattle.core_actors.specs.Places.{word_in, zero_from, behind_lease, behind_take, store_from, behind_loads, load_from, cells_behind, map_behind, behind_draw, behind_first, place_behind};

use crate::action::LeaseSeen;
use crate::call_action::{frame_back, is_freed};
use crate::heard::{lease_in, word_in};
use crate::place::{CallPlace, Place};
use evac_model::{Call, Cells, FrameNo, Kind};
use evac_words::{is_mapped, is_taken};
use machine::Heard;

/// From that cell of a leased frame on. A page has `cells` cells.
fn zero_from(cells: u32, frame: FrameNo, cell: u32) -> CallPlace
    ensures { result ≡ zero_from cells frame cell }
{
    if cell < cells {
        CallPlace::Zero { frame, cell }
    } else {
        CallPlace::MarkZeros { frame }
    }
}

/// Behind a lease.
fn behind_lease(cells: u32, lease: &LeaseSeen) -> CallPlace
    ensures { result ≡ behind_lease cells lease.now }
{
    match lease {
        LeaseSeen::Got { frame } => zero_from(cells, *frame, 0),
        LeaseSeen::NotAsked | LeaseSeen::Refused { .. } => CallPlace::Take { lease: *lease },
    }
}

/// Behind a take that found the word. One that found its page taken is made again.
fn behind_take(here: &Place, lease: &LeaseSeen, word: u64) -> Place
    ensures { result ≡ behind_take here.now lease.now word }
{
    if is_taken(word) {
        return *here;
    }
    Place::InCall {
        at: CallPlace::Draw {
            lease: *lease,
            found: word,
        },
    }
}

/// How many values a call stores.
fn value_count(call: &Call, loads: &Cells) -> u32
    ensures { result ≡ length (values_of loads.now call.now) }
{
    match call {
        Call::Write { values, .. } => values.len() as u32,
        Call::Add { .. } => 1,
        Call::Alloc { .. } | Call::Free | Call::Read { .. } | Call::Pin | Call::Unpin => 0,
    }
}

/// How many cells a call loads.
fn load_count(call: &Call) -> u32
    ensures { result ≡ load_count call.now }
{
    match call {
        Call::Read { count, .. } => *count,
        Call::Add { .. } => 1,
        Call::Alloc { .. } | Call::Free | Call::Write { .. } | Call::Pin | Call::Unpin => 0,
    }
}

/// A release without a lease.
fn release(found: u64, loads: &Cells) -> CallPlace
    ensures { result ≡ CallPlace.Release LeaseSeen.NotAsked found loads.now }
{
    CallPlace::Release {
        lease: LeaseSeen::NotAsked,
        found,
        loads: *loads,
    }
}

/// From that value on.
fn store_from(call: &Call, found: u64, loads: &Cells, i: u32) -> CallPlace
    ensures { result ≡ store_from call.now found loads.now i }
{
    if i < value_count(call, loads) {
        CallPlace::Store {
            found,
            loads: *loads,
            i,
        }
    } else {
        CallPlace::Mark {
            found,
            loads: *loads,
        }
    }
}

/// Behind the loads. A call that stores nothing marks nothing.
fn behind_loads(call: &Call, found: u64, loads: &Cells) -> CallPlace
    ensures { result ≡ behind_loads call.now found loads.now }
{
    if value_count(call, loads) == 0 {
        return release(found, loads);
    }
    CallPlace::Store {
        found,
        loads: *loads,
        i: 0,
    }
}

/// Where these values were loaded.
fn load_from(call: &Call, found: u64, loads: &Cells) -> CallPlace
    ensures { result ≡ load_from call.now found loads.now }
{
    if (loads.len() as u32) < load_count(call) {
        CallPlace::Load {
            found,
            loads: *loads,
        }
    } else {
        behind_loads(call, found, loads)
    }
}

/// Behind the load that found the word.
fn behind_load(call: &Call, found: u64, loads: &Cells, word: u64) -> CallPlace
    requires { length loads.now < 8 }
    ensures { result ≡ load_from call.now found (loads.now ++ word ∷ []) }
{
    let mut loads = *loads;
    loads.push(word);
    load_from(call, found, &loads)
}

/// Behind the draw of a call with steps on cells: those of a page that is mapped.
fn cells_behind(call: &Call, found: u64) -> CallPlace
    ensures { result ≡ cells_behind call.now found }
{
    let none = Cells::new();
    if is_mapped(found) {
        load_from(call, found, &none)
    } else {
        release(found, &none)
    }
}

/// Behind the draw of an alloc. It maps an unmapped page to the frame that it leased.
fn map_behind(kind: Kind, lease: &LeaseSeen, found: u64) -> CallPlace
    ensures { result ≡ map_behind kind lease.now found }
{
    match lease {
        LeaseSeen::Got { frame } if !is_mapped(found) => CallPlace::Map {
            frame: *frame,
            kind,
            found,
        },
        _ => CallPlace::Release {
            lease: *lease,
            found,
            loads: Cells::new(),
        },
    }
}

/// Behind the draw.
fn behind_draw(call: &Call, lease: &LeaseSeen, found: u64) -> CallPlace
    ensures { result ≡ behind_draw call.now lease.now found }
{
    match call {
        Call::Alloc { kind } => map_behind(*kind, lease, found),
        Call::Free => {
            if is_freed(found) {
                CallPlace::Unmap { found }
            } else {
                release(found, &Cells::new())
            }
        }
        Call::Read { .. } | Call::Write { .. } | Call::Add { .. } => cells_behind(call, found),
        Call::Pin | Call::Unpin => release(found, &Cells::new()),
    }
}

/// Behind the first action of a call, which gave this.
pub(crate) fn behind_first(cells: u32, call: &Call, heard: &Heard) -> Place
    ensures { result ≡ behind_first cells call.now heard.now }
{
    match call {
        Call::Alloc { .. } => Place::InCall {
            at: behind_lease(cells, &lease_in(heard)),
        },
        Call::Free
        | Call::Read { .. }
        | Call::Write { .. }
        | Call::Add { .. }
        | Call::Pin
        | Call::Unpin => behind_take(
            &Place::Between { back: None },
            &LeaseSeen::NotAsked,
            word_in(heard),
        ),
    }
}

/// Behind the action at a place to which the call comes, and which gave this.
pub(crate) fn place_behind(cells: u32, call: &Call, at: &CallPlace, heard: &Heard) -> Place
    requires sized { cells ≤ 512 }
    requires few { load_count call.now + length (values_of [] call.now) ≤ 16 }
    requires loads { load_count call.now ≤ 8 }
    requires comes { ComesTo cells call.now at.now }
    ensures { result ≡ place_behind cells call.now at.now heard.now }
{
    let at = match at {
        CallPlace::Zero { frame, cell } => zero_from(cells, *frame, *cell + 1),
        CallPlace::MarkZeros { frame } => CallPlace::Take {
            lease: LeaseSeen::Got { frame: *frame },
        },
        CallPlace::Take { lease } => {
            return behind_take(&Place::InCall { at: *at }, lease, word_in(heard));
        }
        CallPlace::Draw { lease, found } => behind_draw(call, lease, *found),
        CallPlace::Load { found, loads } => behind_load(call, *found, loads, word_in(heard)),
        CallPlace::Store { found, loads, i } => store_from(call, *found, loads, *i + 1),
        CallPlace::Mark { found, loads } => release(*found, loads),
        CallPlace::Map { frame, found, .. } => CallPlace::Release {
            lease: LeaseSeen::Got { frame: *frame },
            found: *found,
            loads: Cells::new(),
        },
        CallPlace::Unmap { found } => release(*found, &Cells::new()),
        CallPlace::Release { lease, found, .. } => {
            return Place::Between {
                back: frame_back(call, lease, *found),
            };
        }
    };
    Place::InCall { at }
}
