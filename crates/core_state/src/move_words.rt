//! The word of a held page after each step that changes its mapping.

ghost use Rattle.std.specs.Prelude.{◌≡◌, ◌^◌, ◌<◌};
ghost use Rattle.core_state.specs.Words.{moving_word, remapped_word, mapped_word, unmapped_word};

use evac_model::{FrameNo, Kind};
use evac_words::{after_begin_move, after_map, after_remap, after_unmap};

/// The word of a page that is being moved.
pub(crate) fn moving(word: u64) -> u64
    ensures { result ≡ moving_word word }
{
    after_begin_move(word)
}

/// The word of a page that has moved to another frame.
pub(crate) fn remapped(word: u64, frame: FrameNo) -> u64
    requires { frame.0 < 2 ^ 20 }
    ensures { result ≡ remapped_word word frame.0 }
{
    after_remap(word, frame.0)
}

/// The word of a page that is mapped to the frame, with no pins.
pub(crate) fn mapped(word: u64, frame: FrameNo, kind: &Kind) -> u64
    requires { frame.0 < 2 ^ 20 }
    ensures { result ≡ mapped_word word frame.0 kind.now }
{
    after_map(word, frame.0, *kind == Kind::Unmovable)
}

/// The word of an unmapped page.
pub(crate) fn unmapped(word: u64) -> u64
    ensures { result ≡ unmapped_word word }
{
    after_unmap(word)
}
