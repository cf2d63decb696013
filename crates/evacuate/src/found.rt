//! Why a page wasn't moved, by the entry word that was found.

ghost use Rattle.std.specs.Prelude.{◌≡◌};
ghost use Rattle.evacuate.specs.Found as spec;

use evac_model::FrameNo;
use evac_words::{frame_of, is_mapped, is_taken, is_unmovable, pins_of};

/// Whether the word maps the frame.
fn maps(word: u64, frame: FrameNo) -> bool
    ensures { result ≡ spec.maps word frame.0 }
{
    is_mapped(word) && frame_of(word) == frame.0
}

/// Whether the page is busy: its entry is taken, or doesn't map the frame.
pub fn is_busy(word: u64, frame: FrameNo) -> bool
    ensures { result ≡ spec.is_busy word frame.0 }
{
    is_taken(word) || !maps(word, frame)
}

/// Whether the page is pinned: its entry isn't taken, maps the frame, and is that of a movable page
/// with pins.
pub fn is_pinned(word: u64, frame: FrameNo) -> bool
    ensures { result ≡ spec.is_pinned word frame.0 }
{
    !is_busy(word, frame) && !is_unmovable(word) && 0 < pins_of(word)
}
