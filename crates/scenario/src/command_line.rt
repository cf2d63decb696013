//! The lines of the host's commands.

ghost use Rattle.std.specs.Prelude.{◌≡◌, ◌≤◌, ◌/◌, length};
ghost use Rattle.std.specs.Char.{is_ascii_uppercase};
ghost use Rattle.std.specs.List.{list_any};
ghost use Rattle.std.specs.Result.{result_ok};
ghost use Rattle.hex.specs.Hex.{decode_of};
ghost use Rattle.scenario.specs.Words.{words_left};
ghost use Rattle.scenario.specs.Reading.{hex_bytes, request_of, command_of};

use crate::bounds::MOST_REQUEST_BYTES;
use crate::words::{is_ended, split_word};
use evac_model::{HostCommand, RequestBytes};

/// Whether one of the bytes is a capital letter.
fn has_capital(word: &[u8]) -> bool
    ensures { result ≡ list_any is_ascii_uppercase word.now }
{
    word.iter().any(|b| b.is_ascii_uppercase())
}

/// The bytes of hexadecimal digits of either case, where there is room for just so many.
fn decoded(word: &[u8], room: &mut [u8]) -> Option<RequestBytes>
    requires size { length room.old ≡ length word.now / 2 }
    requires most { length room.old ≤ 64 }
    ensures { result ≡ result_ok (decode_of word.now) }
{
    hex::decode_to_slice(word, room).ok()?;
    Some(RequestBytes::from_slice(room))
}

/// The bytes that a word writes in lower-case hexadecimal, at most 64.
fn hex_bytes(word: &[u8]) -> Option<RequestBytes>
    ensures { result ≡ hex_bytes word.now }
{
    if word.len() > 2 * MOST_REQUEST_BYTES || has_capital(word) {
        return None;
    }
    let mut room = [0; MOST_REQUEST_BYTES];
    decoded(word, &mut room[..word.len() / 2])
}

/// The command that is behind the word of the host.
#[tactic(auto, unfolding(crate::specs::Reading::command_of))]
pub fn command_of(rest: Option<&[u8]>) -> Option<HostCommand>
    ensures { result ≡ command_of (words_left rest.entry) }
{
    let (name, rest) = split_word(rest?);
    if name == b"request".as_slice() {
        return request_of(rest);
    }
    if name == b"config".as_slice() && is_ended(rest) {
        return Some(HostCommand::Config);
    }
    None
}

/// The request that is behind its name: at least one byte.
#[tactic(auto, unfolding(crate::specs::Reading::request_of))]
fn request_of(rest: Option<&[u8]>) -> Option<HostCommand>
    ensures { result ≡ request_of (words_left rest.entry) }
{
    let (word, rest) = split_word(rest?);
    let bytes = hex_bytes(word)?;
    if bytes.as_slice().is_empty() || !is_ended(rest) {
        return None;
    }
    Some(HostCommand::Request { bytes })
}
