//! The parts of an entry word: the places of its bits, and a reader for each.

ghost use Rattle.std.specs.Prelude.{◌≡◌, ◌↔◌, IsTrue};
ghost use Rattle.evac_words.specs.Word.{taken_bit, moving_bit, mapped_bit, unmovable_bit, pins_of, frame_of, bound_of};

/// The bit of a page that a seat holds.
pub const TAKEN: u64 = 1;
/// The bit of a page that is being moved.
pub(crate) const MOVING: u64 = 2;
/// The bit of a page that is mapped.
pub(crate) const MAPPED: u64 = 4;
/// The bit of a page that cannot be moved.
pub(crate) const UNMOVABLE: u64 = 8;
/// The lowest of the 6 bits of the pins.
pub(crate) const PIN_SHIFT: u32 = 4;
/// The pins, once they are shifted down.
const PIN_MASK: u64 = 63;
/// The lowest of the 20 bits of the frame.
pub(crate) const FRAME_SHIFT: u32 = 10;
/// The frame, once it is shifted down.
const FRAME_MASK: u64 = 1_048_575;
/// The lowest of the 34 bits of the bound.
pub(crate) const BOUND_SHIFT: u32 = 30;

/// Whether a seat holds the page.
pub fn is_taken(word: u64) -> bool
    ensures { IsTrue result ↔ (taken_bit word ≡ 1) }
{
    word & TAKEN != 0
}

/// Whether the page is being moved.
#[tactic(auto, using(crate::proofs::Bits::and_moving))]
pub fn is_moving(word: u64) -> bool
    ensures { IsTrue result ↔ (moving_bit word ≡ 1) }
{
    word & MOVING != 0
}

/// Whether the page is mapped.
#[tactic(auto, using(crate::proofs::Bits::and_mapped))]
pub fn is_mapped(word: u64) -> bool
    ensures { IsTrue result ↔ (mapped_bit word ≡ 1) }
{
    word & MAPPED != 0
}

/// Whether the page is mapped and cannot be moved.
#[tactic(auto, using(crate::proofs::Bits::and_unmovable))]
pub fn is_unmovable(word: u64) -> bool
    ensures { IsTrue result ↔ (unmovable_bit word ≡ 1) }
{
    word & UNMOVABLE != 0
}

/// The pins of the page, 0 to 63.
pub fn pins_of(word: u64) -> u8
    ensures { result ≡ pins_of word }
{
    ((word >> PIN_SHIFT) & PIN_MASK) as u8
}

/// The frame of the page, below 2^20; 0 where the page is not mapped.
pub fn frame_of(word: u64) -> u32
    ensures { result ≡ frame_of word }
{
    ((word >> FRAME_SHIFT) & FRAME_MASK) as u32
}

/// One more than the greatest ticket of the page, or 0; below 2^34.
pub fn bound_of(word: u64) -> u64
    ensures { result ≡ bound_of word }
{
    word >> BOUND_SHIFT
}
