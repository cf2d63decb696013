//! The entry word after each step on it. A contract names what the step changes: all else is kept.

ghost use Rattle.std.specs.Prelude.{◌≡◌, ◌+◌, ◌^◌, ◌<◌, ◌≤◌, true, false};
ghost use Rattle.std.specs.Option.{ForSome};
ghost use Rattle.evac_words.specs.Word.{taken_bit, flags_of, bound_after};

use crate::flags::{Flags, pack, unpack};

/// The word of a page once a seat has taken it, also where it was taken before.
pub fn after_take(word: u64) -> u64
    ensures { flags_of result ≡ record (flags_of word) { taken = true } }
{
    pack(Flags {
        taken: true,
        ..unpack(word)
    })
}

/// The word of a taken page once its seat has let it go. With a ticket, which is below 2^34 - 1, the
/// bound is one more than the ticket.
pub fn after_release(word: u64, ticket: Option<u64>) -> u64
    requires is_taken { taken_bit word ≡ 1 }
    requires ticket_fits { ForSome ticket (λ t. t + 1 < 2 ^ 34) }
    ensures { flags_of result
        ≡ record (flags_of word) { taken = false; bound = bound_after word ticket } }
{
    let flags = Flags {
        taken: false,
        ..unpack(word)
    };
    match ticket {
        Some(t) => pack(Flags {
            bound: t + 1,
            ..flags
        }),
        None => pack(flags),
    }
}

/// The word of a page once it is being moved.
pub fn after_begin_move(word: u64) -> u64
    ensures { flags_of result ≡ record (flags_of word) { moving = true } }
{
    pack(Flags {
        moving: true,
        ..unpack(word)
    })
}

/// The word of a page once it has moved to another frame, below 2^20.
pub fn after_remap(word: u64, frame: u32) -> u64
    requires { frame < 2 ^ 20 }
    ensures { flags_of result ≡ record (flags_of word) { moving = false; frame = frame } }
{
    let moved = Flags {
        moving: false,
        frame,
        ..unpack(word)
    };
    pack(moved)
}

/// The word of a page once it is mapped to a frame, below 2^20, with no pins.
pub fn after_map(word: u64, frame: u32, unmovable: bool) -> u64
    requires { frame < 2 ^ 20 }
    ensures { flags_of result
        ≡ record (flags_of word)
        { moving = false; mapped = true; unmovable = unmovable; pins = 0; frame = frame } }
{
    pack(Flags {
        moving: false,
        mapped: true,
        unmovable,
        pins: 0,
        frame,
        ..unpack(word)
    })
}

/// The word of a page once it is unmapped: bits 1 to 29 are 0.
pub fn after_unmap(word: u64) -> u64
    ensures { flags_of result
        ≡ record (flags_of word)
        { moving = false; mapped = false; unmovable = false; pins = 0; frame = 0 } }
{
    pack(Flags {
        moving: false,
        mapped: false,
        unmovable: false,
        pins: 0,
        frame: 0,
        ..unpack(word)
    })
}

/// The word of a page with other pins, 0 to 63.
pub fn with_pins(word: u64, pins: u8) -> u64
    requires { pins ≤ 63 }
    ensures { flags_of result ≡ record (flags_of word) { pins = pins } }
{
    pack(Flags {
        pins,
        ..unpack(word)
    })
}
