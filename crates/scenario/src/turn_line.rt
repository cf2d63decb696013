//! The lines that name turns.

ghost use Rattle.std.specs.Prelude.{◌≡◌, IfOk, map};
ghost use Rattle.scenario.specs.Words.{parts_left, words_left};
ghost use Rattle.scenario.specs.Reading.{Gives, actor_in, turn_in, turns_in, actor_of, turn_count_of, turn_of, turns_of, turns_line_of};

use crate::bytes::split_byte;
use crate::number::number;
use crate::words::split_word;
use std::alloc::{AllocError, Global};

/// Whose turns are named.
#[derive(Clone, Copy, Debug, PartialEq, Eq)]
pub enum LineActor {
    Owner(u64),
    Host,
    Scanner,
}

/// Turns of one actor.
#[derive(Clone, Copy, Debug, PartialEq, Eq)]
pub struct LineTurn {
    pub actor: LineActor,
    /// How many turns they are, where that is written; else it is one.
    pub count: Option<u64>,
}

/// A line of named turns.
#[derive(Debug, Drop)]
pub struct TurnsLine {
    pub turns: Vec<LineTurn>,
}

/// The line of turns that is behind its first word: at least one turn.
#[tactic(auto, unfolding(crate::specs::Reading::turns_line_of))]
pub fn turns_line_of(alloc: Global, rest: Option<&[u8]>) -> Result<Option<TurnsLine>, AllocError>
    ensures { IfOk result (λ line. Gives turns_in line (turns_line_of (words_left rest.entry))) }
{
    let Some(turns) = turns_of(alloc, rest)? else {
        return Ok(None);
    };
    if turns.is_empty() {
        return Ok(None);
    }
    Ok(Some(TurnsLine { turns }))
}

/// All the turns that are left.
fn turns_of(alloc: Global, rest: Option<&[u8]>) -> Result<Option<Vec<LineTurn>>, AllocError>
    ensures { IfOk result (λ turns. Gives (λ v. map turn_in v.items) turns (turns_of (words_left rest.entry))) }
{
    let mut turns = Vec::new(alloc);
    let mut rest = rest;
    while let Some(text) = rest {
        let (word, after) = split_word(text);
        let Some(turn) = turn_of(word) else {
            return Ok(None);
        };
        turns.push(turn)?;
        rest = after;
    }
    Ok(Some(turns))
}

/// The turns that a word names: an actor, and `*COUNT` behind it where there are more.
fn turn_of(word: &[u8]) -> Option<LineTurn>
    ensures { Gives turn_in result (turn_of word.now) }
{
    let (actor, behind) = split_byte(word, b'*');
    let actor = actor_of(actor)?;
    let count = turn_count_of(behind)?;
    Some(LineTurn { actor, count })
}

/// The actor that a text names.
fn actor_of(text: &[u8]) -> Option<LineActor>
    ensures { Gives actor_in result (actor_of text.now) }
{
    if text == b"h".as_slice() {
        return Some(LineActor::Host);
    }
    if text == b"s".as_slice() {
        return Some(LineActor::Scanner);
    }
    let owner = number(text)?;
    Some(LineActor::Owner(owner))
}

/// The count that is behind an actor, where there is one.
fn turn_count_of(behind: Option<&[u8]>) -> Option<Option<u64>>
    ensures { Gives (λ x. x) result (turn_count_of (parts_left 42 behind.entry)) }
{
    let Some(text) = behind else {
        return Some(None);
    };
    let (digits, more) = split_byte(text, b'*');
    let count = number(digits)?;
    match more {
        None => Some(Some(count)),
        Some(_) => None,
    }
}
