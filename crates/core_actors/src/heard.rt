//! What is read in what was heard.

ghost use Rattle.std.specs.Prelude.{◌≡◌, ◌<◌};
ghost use Rattle.core_actors.specs.Places.{word_in, lease_in};
ghost use Rattle.core_actors.specs.HostHears.{result_in, done, said_of, seen_in, stays, came_of, cell_on};

use crate::action::LeaseSeen;
use crate::host_place::MovePlace;
use evac_model::{FrameNo, HostResult, Response};
use evacuate::{EvacAction, EvacSeen, is_busy, is_pinned};
use machine::{BlockHeard, DeviceHeard, Heard};

/// The word that was found; 0 where none was.
pub(crate) fn word_in(heard: &Heard) -> u64
    ensures { result ≡ word_in heard.now }
{
    match heard {
        Heard::Word(word) => *word,
        Heard::Start
        | Heard::Nothing
        | Heard::Leased(_)
        | Heard::NoFrame(_)
        | Heard::Block(_)
        | Heard::Device(_) => 0,
    }
}

/// What a lease gave; what isn't of a lease is read as one that was refused.
pub(crate) fn lease_in(heard: &Heard) -> LeaseSeen
    ensures { result ≡ lease_in heard.now }
{
    match heard {
        Heard::Leased(frame) => LeaseSeen::Got { frame: *frame },
        Heard::NoFrame(at) => LeaseSeen::Refused { at: *at },
        Heard::Start | Heard::Word(_) | Heard::Nothing | Heard::Block(_) | Heard::Device(_) =>
            LeaseSeen::Refused { at: 0 },
    }
}

/// What the device gave; an error, where it wasn't asked.
pub(crate) fn result_in(heard: &Heard) -> HostResult
    ensures { result ≡ result_in heard.now }
{
    match heard {
        Heard::Device(DeviceHeard::Answered(response)) => HostResult::Answered(*response),
        Heard::Device(DeviceHeard::Config(config)) => HostResult::Config(*config),
        Heard::Start
        | Heard::Word(_)
        | Heard::Nothing
        | Heard::Leased(_)
        | Heard::NoFrame(_)
        | Heard::Block(_) => HostResult::Answered(Response::Error),
    }
}

/// What is told of an action of an evacuation that gives nothing.
fn done(asked: &EvacAction) -> EvacSeen
    ensures { result ≡ done asked.now }
{
    match asked {
        EvacAction::Isolate { .. } => EvacSeen::Isolated,
        EvacAction::GiveBack { .. } | EvacAction::Undo { .. } => EvacSeen::Done,
        EvacAction::Lease { .. }
        | EvacAction::Move(_)
        | EvacAction::Emptied
        | EvacAction::Failed(_) => EvacSeen::Start,
    }
}

/// What the frame space said of a block, as an evacuation is told it.
fn said_of(said: &BlockHeard) -> EvacSeen
    ensures { result ≡ said_of said.now }
{
    match said {
        BlockHeard::Refused { frame, page } => EvacSeen::Refused {
            frame: *frame,
            page: *page,
        },
        BlockHeard::Leased(lease) => EvacSeen::Leased(*lease),
        BlockHeard::NoneLeft => EvacSeen::NoneLeft,
        BlockHeard::NoTarget { from, page, at } => EvacSeen::NoTarget {
            from: *from,
            page: *page,
            at: *at,
        },
    }
}

/// What was heard of an action that an evacuation asked for; what is no answer to it is read as `Start`, which changes
/// nothing.
pub(crate) fn seen_in(asked: &EvacAction, heard: &Heard) -> EvacSeen
    ensures { result ≡ seen_in asked.now heard.now }
{
    match heard {
        Heard::Nothing => done(asked),
        Heard::Block(said) => said_of(said),
        Heard::Start | Heard::Word(_) | Heard::Leased(_) | Heard::NoFrame(_) | Heard::Device(_) =>
            EvacSeen::Start,
    }
}

/// Whether a page stays, by the word that was found free: it doesn't lie in the frame, or is pinned.
pub(crate) fn stays(word: u64, frame: FrameNo) -> bool
    ensures { result ≡ stays word frame.0 }
{
    is_busy(word, frame) || is_pinned(word, frame)
}

/// What came of a page that was let go.
pub(crate) fn came_of(found: &Option<u64>) -> EvacSeen
    ensures { result ≡ came_of found.now }
{
    match found {
        None => EvacSeen::Moved,
        Some(word) => EvacSeen::Found { word: *word },
    }
}

/// The place of a move behind the copy of a cell; a page has `cells` cells.
pub(crate) fn cell_behind(cells: u32, cell: u32) -> MovePlace
    requires { cell < cells }
    ensures { result ≡ cell_on cells cell }
{
    if cell + 1 < cells {
        MovePlace::Loading { cell: cell + 1 }
    } else {
        MovePlace::Marking
    }
}
