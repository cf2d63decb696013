//! The word of a held page once it is let go.

ghost use Rattle.std.specs.Prelude.{◌≡◌, ◌+◌, ◌^◌, ◌<◌, ◌≤◌, Some};
ghost use Rattle.core_state.specs.Words.{released_word};
ghost use Rattle.core_state.specs.Steps.{pins_after_done, pins_after, word_after_release, held_ticket};

use crate::held::Held;
use crate::step::CallDone;
use evac_model::{Call, Reply};
use evac_words::{Flags, bound_of, pack, pins_of, unpack};

/// The word without the taken bit, with these pins and this bound.
fn released(word: u64, pins: u8, bound: u64) -> u64
    requires pins { pins ≤ 63 }
    requires bound { bound < 2 ^ 34 }
    ensures { result ≡ released_word word pins bound }
{
    pack(Flags {
        taken: false,
        pins,
        bound,
        ..unpack(word)
    })
}

/// The pins after a call that was done, where there were so many.
fn pins_after_done(call: &Call, pins: u8) -> u8
    requires { pins ≤ 63 }
    ensures { result ≡ pins_after_done call.now pins }
{
    match call {
        Call::Pin => pins + 1,
        Call::Unpin => pins.saturating_sub(1),
        Call::Alloc { .. }
        | Call::Free
        | Call::Read { .. }
        | Call::Write { .. }
        | Call::Add { .. } => pins,
    }
}

/// The pins after a call, where there were so many.
fn pins_after(done: &CallDone, pins: u8) -> u8
    requires { pins ≤ 63 }
    ensures { result ≡ pins_after done.now.call done.now.reply pins }
{
    match done.reply {
        Reply::Done => pins_after_done(&done.call, pins),
        Reply::Values(_)
        | Reply::Old(_)
        | Reply::Mapped
        | Reply::NotMapped
        | Reply::Pinned
        | Reply::PinLimit
        | Reply::NotPinned
        | Reply::NoFrame { .. } => pins,
    }
}

impl Held {
    ghost use Rattle.std.specs.Prelude.{IfSome};
    ghost use Rattle.evac_words.specs.Word.{pins_of};

    /// The word once the page is let go.
    pub(crate) fn word_after(&self, done: &Option<CallDone>) -> u64
        requires pins { IfSome done.now (λ d. pins_after d.call d.reply (pins_of self.now.word) ≤ 63) }
        requires ticket { held_ticket (Some self.now) + 1 < 2 ^ 34 }
        ensures { result ≡ word_after_release (Some self.now) done.now }
    {
        let pins = pins_of(self.word);
        match done {
            Some(d) => {
                let ticket = self.ticket.unwrap_or(0);
                released(self.word, pins_after(d, pins), ticket + 1)
            }
            None => released(self.word, pins, bound_of(self.word)),
        }
    }
}
