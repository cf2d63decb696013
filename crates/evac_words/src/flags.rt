//! What an entry word says, field by field.

ghost use Rattle.std.specs.Prelude.{◌≡◌, ◌+◌, ◌*◌, ◌^◌, ◌<◌, ◌≤◌};
ghost use Rattle.evac_words.specs.Word.{flags_of, word_of, bit_of};

use crate::word::{
    BOUND_SHIFT, FRAME_SHIFT, MAPPED, MOVING, PIN_SHIFT, TAKEN, UNMOVABLE, bound_of, frame_of,
    is_mapped, is_moving, is_taken, is_unmovable, pins_of,
};

/// What the entry word of a page says.
#[derive(Clone, Copy, Debug, PartialEq, Eq)]
pub struct Flags {
    /// A seat holds the page.
    pub taken: bool,
    /// The page is being moved.
    pub moving: bool,
    /// The page is mapped.
    pub mapped: bool,
    /// The page is mapped and cannot be moved.
    pub unmovable: bool,
    /// The pins of the page, 0 to 63.
    pub pins: u8,
    /// The frame that the page is mapped to, below 2^20.
    pub frame: u32,
    /// One more than the greatest ticket of the page, or 0; below 2^34.
    pub bound: u64,
}

/// A bit of the word, or 0.
fn bit(set: bool, value: u64) -> u64
    ensures { result ≡ value * bit_of set }
{
    if set { value } else { 0 }
}

/// The entry word that says this.
pub fn pack(f: Flags) -> u64
    requires pins { f.pins ≤ 63 }
    requires frame { f.frame < 2 ^ 20 }
    requires bound { f.bound < 2 ^ 34 }
    ensures word { result ≡ word_of f }
    ensures flags { flags_of result ≡ f }
{
    bit(f.taken, TAKEN)
        + bit(f.moving, MOVING)
        + bit(f.mapped, MAPPED)
        + bit(f.unmovable, UNMOVABLE)
        + (u64::from(f.pins) << PIN_SHIFT)
        + (u64::from(f.frame) << FRAME_SHIFT)
        + (f.bound << BOUND_SHIFT)
}

/// What an entry word says. The pins are at most 63, the frame is below 2^20, the bound below 2^34.
pub fn unpack(word: u64) -> Flags
    ensures { result ≡ flags_of word }
{
    Flags {
        taken: is_taken(word),
        moving: is_moving(word),
        mapped: is_mapped(word),
        unmovable: is_unmovable(word),
        pins: pins_of(word),
        frame: frame_of(word),
        bound: bound_of(word),
    }
}
