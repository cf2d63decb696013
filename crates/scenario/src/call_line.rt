//! The lines of owners' calls.

ghost use Rattle.std.specs.Prelude.{◌≡◌};
ghost use Rattle.scenario.specs.Words.{words_left};
ghost use Rattle.scenario.specs.Reading.{Gives, plain_call, call_in, count_at, ended, alloc_of, read_of, write_of, add_of, named_call, call_of, call_line_of, values_of};

use crate::fields::{kind_at, number_at};
use crate::number::number;
use crate::words::{is_ended, split_word};
use evac_model::{Cells, Kind};

/// The calls that are read.
#[derive(Clone, Copy, Debug, PartialEq, Eq)]
pub enum LineCall {
    Alloc { kind: Kind },
    Free,
    Read { first: u64, count: u64 },
    Write { first: u64, values: Cells },
    Add { cell: u64, value: u64 },
    Pin,
    Unpin,
}

/// Calls of an owner.
#[derive(Clone, Copy, Debug, PartialEq, Eq)]
pub struct CallLine {
    pub owner: u64,
    /// How often the call is made, where that is written; else it is made once.
    pub count: Option<u64>,
    pub page: u64,
    pub call: LineCall,
}

/// The line of calls that is behind an owner's number.
#[tactic(auto, unfolding(crate::specs::Reading::call_line_of))]
pub fn call_line_of(owner: u64, rest: Option<&[u8]>) -> Option<CallLine>
    ensures { Gives call_in result (call_line_of owner (words_left rest.entry)) }
{
    let (count, rest) = count_at(rest)?;
    let (page, call) = call_of(rest)?;
    Some(CallLine {
        owner,
        count,
        page,
        call,
    })
}

/// The count that is written before a call, and the words of the call.
fn count_at(rest: Option<&[u8]>) -> Option<(Option<u64>, Option<&[u8]>)>
    ensures { Gives (λ x. (x.0, words_left x.1)) result (count_at (words_left rest.entry)) }
{
    let Some(text) = rest else {
        return Some((None, None));
    };
    let (word, behind) = split_word(text);
    match word {
        [b'x', digits @ ..] => {
            let count = number(digits)?;
            Some((Some(count), behind))
        }
        _ => Some((None, rest)),
    }
}

/// A page and a call on it.
#[tactic(auto, unfolding(crate::specs::Reading::call_of))]
fn call_of(rest: Option<&[u8]>) -> Option<(u64, LineCall)>
    ensures { Gives (λ x. (x.0, plain_call x.1)) result (call_of (words_left rest.entry)) }
{
    let (name, rest) = split_word(rest?);
    let (page, rest) = number_at(rest)?;
    let call = named_call(name, rest)?;
    Some((page, call))
}

/// The call of this name, with what is behind its page.
#[tactic(auto, unfolding(crate::specs::Reading::named_call))]
fn named_call(name: &[u8], rest: Option<&[u8]>) -> Option<LineCall>
    ensures { Gives plain_call result (named_call name.now (words_left rest.entry)) }
{
    if name == b"alloc".as_slice() {
        return alloc_of(rest);
    }
    if name == b"free".as_slice() {
        return whole(LineCall::Free, rest);
    }
    if name == b"read".as_slice() {
        return read_of(rest);
    }
    if name == b"write".as_slice() {
        return write_of(rest);
    }
    if name == b"add".as_slice() {
        return add_of(rest);
    }
    if name == b"pin".as_slice() {
        return whole(LineCall::Pin, rest);
    }
    if name == b"unpin".as_slice() {
        return whole(LineCall::Unpin, rest);
    }
    None
}

/// The call, where no word is left.
fn whole(call: LineCall, rest: Option<&[u8]>) -> Option<LineCall>
    ensures { Gives plain_call result (ended (plain_call call) (words_left rest.entry)) }
{
    if !is_ended(rest) {
        return None;
    }
    Some(call)
}

#[tactic(auto, unfolding(crate::specs::Reading::alloc_of))]
fn alloc_of(rest: Option<&[u8]>) -> Option<LineCall>
    ensures { Gives plain_call result (alloc_of (words_left rest.entry)) }
{
    let (kind, rest) = kind_at(rest)?;
    whole(LineCall::Alloc { kind }, rest)
}

#[tactic(auto, unfolding(crate::specs::Reading::read_of))]
fn read_of(rest: Option<&[u8]>) -> Option<LineCall>
    ensures { Gives plain_call result (read_of (words_left rest.entry)) }
{
    let (first, rest) = number_at(rest)?;
    let (count, rest) = number_at(rest)?;
    whole(LineCall::Read { first, count }, rest)
}

#[tactic(auto, unfolding(crate::specs::Reading::write_of))]
fn write_of(rest: Option<&[u8]>) -> Option<LineCall>
    ensures { Gives plain_call result (write_of (words_left rest.entry)) }
{
    let (first, rest) = number_at(rest)?;
    let values = values_of(rest)?;
    if values.is_empty() {
        return None;
    }
    Some(LineCall::Write { first, values })
}

#[tactic(auto, unfolding(crate::specs::Reading::add_of))]
fn add_of(rest: Option<&[u8]>) -> Option<LineCall>
    ensures { Gives plain_call result (add_of (words_left rest.entry)) }
{
    let (cell, rest) = number_at(rest)?;
    let (value, rest) = number_at(rest)?;
    whole(LineCall::Add { cell, value }, rest)
}

/// All the numbers that are left, at most 8.
fn values_of(rest: Option<&[u8]>) -> Option<Cells>
    ensures { Gives (λ x. x) result (values_of 8 (words_left rest.entry)) }
{
    let mut values = Cells::new();
    let mut rest = rest;
    while let Some(text) = rest {
        if values.is_full() {
            return None;
        }
        let (word, after) = split_word(text);
        values.push(number(word)?);
        rest = after;
    }
    Some(values)
}
