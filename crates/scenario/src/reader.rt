//! A scenario from its text.

ghost use Rattle.std.specs.Prelude.{◌≡◌, ◌⊎◌, Err, IfOk, MatchResult, Ok, Some};
ghost use Rattle.evac_model.specs.declared.scenario.Scenario.{Scenario};
ghost use Rattle.evac_model.specs.declared.scenario.ScenarioFault.{ScenarioFault};
ghost use Rattle.evac_model.specs.ScenarioGrammar.{Reads, IsScenarioText, IsRefused};
ghost use Rattle.evac_model.specs.Scenarios.{IsRunnable};
ghost use Rattle.scenario.specs.declared.error.ScenarioError.TheVariants.{Fault, OutOfMemory};
ghost use Rattle.scenario.specs.Outcomes.{IsOutcome};
ghost use Rattle.scenario.specs.Reading.{line_in};
ghost use Rattle.scenario.specs.Judging.{Adds, RefusesReadLine, AddsText, RefusesText, RefusesToRead};

use crate::ask::{Ask, ask_of_line};
use crate::draft::Draft;
use crate::error::{Refusal, ScenarioError};
use crate::line::{Line, line_of};
use crate::lines::{is_ignored, split_line};
use evac_model::{LineCause, Scenario, ScenarioFault};
use std::alloc::Global;

/// The line that a text is, or why it is none that is read.
fn read_line(alloc: Global, text: &[u8]) -> Result<Line, Refusal>
    ensures { MatchResult result (λ line. Reads text.now (line_in line)) (RefusesToRead text.now) }
{
    match ask_of_line(text) {
        Ask::Unknown => Err(Refusal::Cause(LineCause::Word)),
        Ask::Later => Err(Refusal::Cause(LineCause::Later)),
        Ask::Read => {
            let spelled = line_of(alloc, text)?;
            match spelled {
                Some(line) => Ok(line),
                None => Err(Refusal::Cause(LineCause::Form)),
            }
        }
    }
}

/// Adds a line behind others, of which the first was the machine's.
fn add_line(alloc: Global, draft: &mut Draft, line: Line) -> Result<(), Refusal>
    ensures { MatchResult result (λ _. Adds (Some draft.old) (line_in line) draft.new) (RefusesReadLine (Some draft.old) (line_in line)) }
{
    match line {
        Line::Machine(_) => Err(Refusal::Cause(LineCause::Order)),
        Line::Online(online) => draft.add_online(online),
        Line::Page(page) => draft.add_page(page),
        Line::Fail(call) => draft.add_fail(call),
        Line::Turns(turns) => draft.add_turns(alloc, turns),
        Line::Draw(draw) => draft.add_draw(draw),
        Line::Call(call) => draft.add_call(alloc, call),
        Line::Host(command) => draft.add_command(command),
    }
}

/// What the lines make with one more.
fn with_line(alloc: Global, draft: Option<Draft>, line: Line) -> Result<Draft, Refusal>
    ensures { MatchResult result (Adds draft (line_in line)) (RefusesReadLine draft (line_in line)) }
{
    match draft {
        None => match line {
            Line::Machine(sizes) => Draft::new(alloc, sizes),
            Line::Online(_)
            | Line::Page(_)
            | Line::Fail(_)
            | Line::Turns(_)
            | Line::Draw(_)
            | Line::Call(_)
            | Line::Host(_) => Err(Refusal::Cause(LineCause::Order)),
        },
        Some(mut draft) => {
            add_line(alloc, &mut draft, line)?;
            Ok(draft)
        }
    }
}

/// What the lines make with the line that a text is.
fn with_text(alloc: Global, draft: Option<Draft>, text: &[u8]) -> Result<Draft, Refusal>
    ensures { MatchResult result (AddsText draft text.now) (RefusesText draft text.now) }
{
    let line = read_line(alloc, text)?;
    with_line(alloc, draft, line)
}

/// What comes of all the lines.
fn read(alloc: Global, bytes: &[u8]) -> Result<Scenario, ScenarioError>
    ensures { IsOutcome bytes.now result }
{
    let mut draft: Option<Draft> = None;
    let mut rest = bytes;
    let mut number: u64 = 0;
    while let Some((text, after)) = split_line(rest) {
        rest = after;
        number += 1;
        if is_ignored(text) {
            continue;
        }
        match with_text(alloc, draft, text) {
            Ok(more) => draft = Some(more),
            Err(Refusal::Cause(cause)) => {
                return Err(ScenarioError::Fault(ScenarioFault {
                    line: number,
                    cause,
                }));
            }
            Err(Refusal::OutOfMemory) => return Err(ScenarioError::OutOfMemory),
        }
    }
    match draft {
        None => Err(ScenarioError::Fault(ScenarioFault {
            line: 0,
            cause: LineCause::Empty,
        })),
        Some(draft) => match draft.finish(alloc) {
            Ok(scenario) => Ok(scenario),
            Err(_) => Err(ScenarioError::OutOfMemory),
        },
    }
}

/// Reads a scenario, all of the bytes: lines that end with LF or CR LF, of words with one space
/// between. A line that is empty or begins with `#` is ignored. The first line that isn't
/// accepted is the fault, with the first cause that it meets.
pub fn read_scenario(alloc: Global, bytes: &[u8]) -> Result<Scenario, ScenarioError>
    // What is read is a scenario that the bytes are a text of, and it can be run.
    ensures scenario { IfOk result (λ s. IsScenarioText bytes.now s) }
    ensures runnable { IfOk result (λ s. IsRunnable s) }
    // The first refused line, and its cause.
    ensures fault { (f : ScenarioFault) → result ≡ Err (Fault f) → IsRefused bytes.now f }
    // A text of a scenario is read, and one that isn't is refused, unless memory runs out.
    ensures accepted { (s : Scenario) → IsScenarioText bytes.now s → (result ≡ Ok s) ⊎ (result ≡ Err OutOfMemory) }
    ensures refused { (f : ScenarioFault) → IsRefused bytes.now f → (result ≡ Err (Fault f)) ⊎ (result ≡ Err OutOfMemory) }
{
    read(alloc, bytes)
}
