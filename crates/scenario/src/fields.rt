//! The fields of a line: what comes next, and what is behind it.

ghost use Rattle.std.specs.Prelude.{◌≡◌};
ghost use Rattle.scenario.specs.Words.{words_left};
ghost use Rattle.scenario.specs.Reading.{Gives, number_at, kind_at, online_at};

use crate::number::number;
use crate::words::split_word;
use evac_model::Kind;

/// The number that comes next, and what is behind it.
pub fn number_at(rest: Option<&[u8]>) -> Option<(u64, Option<&[u8]>)>
    ensures { Gives (λ x. (x.0, words_left x.1)) result (number_at (words_left rest.entry)) }
{
    let (word, rest) = split_word(rest?);
    let n = number(word)?;
    Some((n, rest))
}

/// The kind that comes next, and what is behind it.
pub fn kind_at(rest: Option<&[u8]>) -> Option<(Kind, Option<&[u8]>)>
    ensures { Gives (λ x. (x.0, words_left x.1)) result (kind_at (words_left rest.entry)) }
{
    let (word, rest) = split_word(rest?);
    if word == b"movable".as_slice() {
        return Some((Kind::Movable, rest));
    }
    if word == b"unmovable".as_slice() {
        return Some((Kind::Unmovable, rest));
    }
    None
}

/// What managed blocks are online for, where that comes next, and what is behind it.
pub fn online_at(rest: Option<&[u8]>) -> Option<(Kind, Option<&[u8]>)>
    ensures { Gives (λ x. (x.0, words_left x.1)) result (online_at (words_left rest.entry)) }
{
    let (word, rest) = split_word(rest?);
    if word == b"movable".as_slice() {
        return Some((Kind::Movable, rest));
    }
    if word == b"kernel".as_slice() {
        return Some((Kind::Unmovable, rest));
    }
    None
}
