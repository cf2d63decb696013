//! The lines that are read, with their numbers as they are written.

ghost use Rattle.std.specs.Prelude.{◌≡◌, IfOk};
ghost use Rattle.evac_model.specs.ScenarioLines.{words};
ghost use Rattle.scenario.specs.Words.{words_left};
ghost use Rattle.scenario.specs.Reading.{Gives, sizes_in, page_in, draw_in, line_in, machine_of, online_kind_of, page_of, fail_of, draw_of, plain_line_of, line_of};

use crate::call_line::{CallLine, call_line_of};
use crate::command_line::command_of;
use crate::fields::{kind_at, number_at, online_at};
use crate::number::number;
use crate::turn_line::{TurnsLine, turns_line_of};
use crate::words::{is_ended, split_word};
use evac_model::{HostCommand, Kind};
use std::alloc::{AllocError, Global};

/// The sizes that a machine line gives.
#[derive(Clone, Copy, Debug, PartialEq, Eq)]
pub struct MachineLine {
    pub cells: u64,
    pub block: u64,
    pub boot: u64,
    pub managed: u64,
    pub plugged: u64,
    pub pages: u64,
}

/// A page of the start.
#[derive(Clone, Copy, Debug, PartialEq, Eq)]
pub struct PageLine {
    pub page: u64,
    pub kind: Kind,
    pub frame: u64,
}

/// Turns that are drawn.
#[derive(Clone, Copy, Debug, PartialEq, Eq)]
pub struct DrawLine {
    pub number: u64,
    pub count: u64,
}

/// A line.
#[derive(Debug, Drop)]
pub enum Line {
    Machine(MachineLine),
    /// What managed blocks are online for.
    Online(Kind),
    Page(PageLine),
    /// A call of the backing that fails.
    Fail(u64),
    Turns(TurnsLine),
    Draw(DrawLine),
    Call(CallLine),
    /// A command of the host.
    Host(HostCommand),
}

/// The line that a text spells, if it spells one.
#[tactic(auto, unfolding(crate::specs::Reading::line_of))]
pub fn line_of(alloc: Global, text: &[u8]) -> Result<Option<Line>, AllocError>
    ensures { IfOk result (λ line. Gives line_in line (line_of (words text.now))) }
{
    let (word, rest) = split_word(text);
    if word != b"turns".as_slice() {
        return Ok(plain_line_of(word, rest));
    }
    match turns_line_of(alloc, rest)? {
        Some(turns) => Ok(Some(Line::Turns(turns))),
        None => Ok(None),
    }
}

/// The line of a first word and what is behind it, if it isn't one of turns.
#[tactic(auto, unfolding(crate::specs::Reading::plain_line_of))]
fn plain_line_of(word: &[u8], rest: Option<&[u8]>) -> Option<Line>
    ensures { Gives line_in result (plain_line_of word.now (words_left rest.entry)) }
{
    if word == b"machine".as_slice() {
        return Some(Line::Machine(machine_of(rest)?));
    }
    if word == b"online".as_slice() {
        return Some(Line::Online(online_kind_of(rest)?));
    }
    if word == b"page".as_slice() {
        return Some(Line::Page(page_of(rest)?));
    }
    if word == b"fail".as_slice() {
        return Some(Line::Fail(fail_of(rest)?));
    }
    if word == b"draw".as_slice() {
        return Some(Line::Draw(draw_of(rest)?));
    }
    if word == b"host".as_slice() {
        return Some(Line::Host(command_of(rest)?));
    }
    let owner = number(word)?;
    Some(Line::Call(call_line_of(owner, rest)?))
}

#[tactic(auto, unfolding(crate::specs::Reading::machine_of))]
fn machine_of(rest: Option<&[u8]>) -> Option<MachineLine>
    ensures { Gives sizes_in result (machine_of (words_left rest.entry)) }
{
    let (cells, rest) = number_at(rest)?;
    let (block, rest) = number_at(rest)?;
    let (boot, rest) = number_at(rest)?;
    let (managed, rest) = number_at(rest)?;
    let (plugged, rest) = number_at(rest)?;
    let (pages, rest) = number_at(rest)?;
    if !is_ended(rest) {
        return None;
    }
    Some(MachineLine {
        cells,
        block,
        boot,
        managed,
        plugged,
        pages,
    })
}

#[tactic(auto, unfolding(crate::specs::Reading::online_kind_of))]
fn online_kind_of(rest: Option<&[u8]>) -> Option<Kind>
    ensures { Gives (λ kind. kind) result (online_kind_of (words_left rest.entry)) }
{
    let (online, rest) = online_at(rest)?;
    if !is_ended(rest) {
        return None;
    }
    Some(online)
}

#[tactic(auto, unfolding(crate::specs::Reading::page_of))]
fn page_of(rest: Option<&[u8]>) -> Option<PageLine>
    ensures { Gives page_in result (page_of (words_left rest.entry)) }
{
    let (page, rest) = number_at(rest)?;
    let (kind, rest) = kind_at(rest)?;
    let (frame, rest) = number_at(rest)?;
    if !is_ended(rest) {
        return None;
    }
    Some(PageLine { page, kind, frame })
}

#[tactic(auto, unfolding(crate::specs::Reading::fail_of))]
fn fail_of(rest: Option<&[u8]>) -> Option<u64>
    ensures { Gives (λ call. call) result (fail_of (words_left rest.entry)) }
{
    let (call, rest) = number_at(rest)?;
    if !is_ended(rest) {
        return None;
    }
    Some(call)
}

#[tactic(auto, unfolding(crate::specs::Reading::draw_of))]
fn draw_of(rest: Option<&[u8]>) -> Option<DrawLine>
    ensures { Gives draw_in result (draw_of (words_left rest.entry)) }
{
    let (number, rest) = number_at(rest)?;
    let (count, rest) = number_at(rest)?;
    if !is_ended(rest) {
        return None;
    }
    Some(DrawLine { number, count })
}
