//! Which answers fit the action that an evacuation waits for.

ghost use Rattle.std.specs.Prelude.{◌≡◌, ◌<◌};
ghost use Rattle.evac_model.specs.SpaceJournal.{is_frame_of};
ghost use Rattle.evacuate.specs.Tale as tale;
ghost use Rattle.evacuate.specs.Evacuating as spec;

use crate::found::{is_busy, is_pinned};
use crate::seen::EvacSeen;
use crate::stage::Stage;
use evac_model::{BlockNo, FrameNo, Geometry};

/// Whether the frame is of a managed block.
pub fn is_of_block(g: Geometry, b: BlockNo, frame: FrameNo) -> bool
    requires { b.0 < g.managed }
    ensures { result ≡ is_frame_of g b.0 frame.0 }
{
    let (first, last) = g.frames_of(b);
    first.0 <= frame.0 && frame.0 <= last.0
}

/// Whether the frame lies behind another.
fn is_behind(after: &Option<FrameNo>, frame: FrameNo) -> bool
    ensures { result ≡ tale.is_behind after.now frame.0 }
{
    match after {
        None => true,
        Some(last) => last.0 < frame.0,
    }
}

/// Whether the frame is of a managed block, and behind another.
fn is_next(g: Geometry, b: BlockNo, after: &Option<FrameNo>, frame: FrameNo) -> bool
    requires { b.0 < g.managed }
    ensures { result ≡ tale.is_next g b after.now frame.0 }
{
    is_of_block(g, b, frame) && is_behind(after, frame)
}

/// Whether the answer fits where the evacuation stands: it names the block's next frame, and a word
/// found says why the page wasn't moved.
pub fn answers(g: Geometry, b: BlockNo, stage: &Stage, seen: &EvacSeen) -> bool
    requires { b.0 < g.managed }
    ensures { result ≡ spec.answers g b stage.now seen.now }
{
    match (stage, seen) {
        (Stage::Isolating, EvacSeen::Isolated) => true,
        (Stage::Isolating, EvacSeen::Refused { frame, .. }) => is_of_block(g, b, *frame),
        (Stage::Leasing { after }, EvacSeen::Leased(lease)) => is_next(g, b, after, lease.from),
        (Stage::Leasing { .. }, EvacSeen::NoneLeft) => true,
        (Stage::Leasing { after }, EvacSeen::NoTarget { from, .. }) => is_next(g, b, after, *from),
        (Stage::Moving { .. }, EvacSeen::Moved) => true,
        (Stage::Moving { lease }, EvacSeen::Found { word }) => {
            is_busy(*word, lease.from) || is_pinned(*word, lease.from)
        }
        (Stage::Returning { .. }, EvacSeen::Done) => true,
        (Stage::Undoing { .. }, EvacSeen::Done) => true,
        _ => false,
    }
}
