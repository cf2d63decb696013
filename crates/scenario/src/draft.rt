//! The scenario that the lines so far make.

ghost use Rattle.std.specs.Prelude.{◌≡◌, ◌≤◌, ◌^◌, ◌↔◌, IsTrue, MatchOption, OnOk, OnErr, replicate};
ghost use Rattle.evac_model.specs.Geometry.{IsWithinLimits, IsThereAtStart};
ghost use Rattle.evac_model.specs.FreeRuns.{fits};
ghost use Rattle.evac_model.specs.ScenarioGrammar.{with_calls, call_count};
ghost use Rattle.scenario.specs.Reading.{sizes_in};
ghost use Rattle.scenario.specs.Judging.{scripts};

use crate::bounds::{HIGHEST_FAIL, MOST_CALLS, MOST_COMMANDS, MOST_OWNERS, MOST_TURNS};
use crate::call_line::CallLine;
use crate::error::Refusal;
use crate::line::{DrawLine, MachineLine, PageLine};
use crate::plain_call::call_of;
use crate::table::NumberTable;
use crate::turn_line::TurnsLine;
use crate::turns::{plain_turns, turns_with};
use evac_model::{
    Call, CallList, Drawn, FrameNo, Geometry, HostCommand, Kind, LineCause, Listed, PageNo,
    Scenario, StartPage, Turn,
};
use std::alloc::{AllocError, Global};
use std::marker::Model;

/// A scenario to which lines are added.
#[derive(Drop)]
pub struct Draft {
    geometry: Geometry,
    online: Option<Kind>,
    start: Vec<StartPage>,
    fails: Vec<u64>,
    named_pages: NumberTable,
    named_frames: NumberTable,
    named: Vec<Turn>,
    turns: u64,
    drawn: Option<Drawn>,
    owners: Vec<Vec<(PageNo, Call)>>,
    calls: u64,
    host: Vec<HostCommand>,
}

/// Whether a frame is there at the start.
fn is_there(geometry: &Geometry, frame: u64) -> bool
    ensures { IsTrue result ↔ IsThereAtStart geometry.now frame }
{
    frame < (geometry.boot() as u64 + geometry.plugged() as u64) * geometry.block() as u64
}

/// Whether a frame takes pages of a kind, where managed blocks are online for `online`.
fn takes(geometry: &Geometry, online: Kind, kind: Kind, frame: u64) -> bool
    ensures { result ≡ fits geometry.now online kind frame }
{
    kind == Kind::Movable
        || online != Kind::Movable
        || frame < geometry.boot() as u64 * geometry.block() as u64
}

/// The machine of these sizes, if they are within the limits.
fn geometry_of(line: MachineLine) -> Option<Geometry>
    ensures { MatchOption result (¬ IsWithinLimits (sizes_in line)) (λ g. (g ≡ sizes_in line) × IsWithinLimits (sizes_in line)) }
{
    let cells = u32::try_from(line.cells).ok()?;
    let block = u32::try_from(line.block).ok()?;
    let boot = u32::try_from(line.boot).ok()?;
    let managed = u32::try_from(line.managed).ok()?;
    let plugged = u32::try_from(line.plugged).ok()?;
    let pages = u32::try_from(line.pages).ok()?;
    Geometry::new(cells, block, boot, managed, plugged, pages).ok()
}

/// Adds calls to the script of an owner, counted from 1, with empty scripts before it as needed.
fn push_calls(
    alloc: Global,
    owners: &mut Vec<Vec<(PageNo, Call)>>,
    owner: usize,
    times: usize,
    call: (PageNo, Call),
) -> Result<(), AllocError>
    requires owner { 1 ≤ owner }
    requires times { times ≤ 2 ^ 20 }
    ensures ok { OnOk result (scripts owners.new ≡ with_calls (scripts owners.old) owner (replicate times call)) }
    ensures err { OnErr result (call_count (scripts owners.new) ≡ call_count (scripts owners.old)) }
{
    while owners.len() < owner {
        owners.push(Vec::new(alloc))?;
    }
    let script = &mut owners[owner - 1];
    script.resize(script.len() + times, call)?;
    Ok(())
}

impl Model for Draft {
    ghost use Rattle.evac_model.specs.declared.scenario.Scenario.{Scenario};

    ghost Value = { Scenario };

    ghost use Rattle.scenario.specs.Drafts.{scenario_of, IsSound};

    ghost view = { scenario_of };

    ghost invariant = { IsSound };
}

impl Draft {
    ghost use Rattle.std.specs.Prelude.{◌≡◌, ◌↔◌, IsTrue, IfOk, MatchResult, None, Some};
    ghost use Rattle.evac_model.specs.ScenarioGrammar.{IsFreeFor};
    ghost use Rattle.scenario.specs.Reading.{page_in, machine_in, online_line_in, page_line_in, fail_line_in, turns_in, draw_line_in, call_in, command_line_in};
    ghost use Rattle.scenario.specs.Judging.{Adds, RefusesReadLine};

    /// The scenario of a machine line alone.
    pub fn new(alloc: Global, line: MachineLine) -> Result<Draft, Refusal>
        ensures { MatchResult result (Adds None (machine_in line)) (RefusesReadLine None (machine_in line)) }
    {
        let Some(geometry) = geometry_of(line) else {
            return Err(Refusal::Cause(LineCause::Range));
        };
        Ok(Draft {
            geometry,
            online: None,
            start: Vec::new(alloc),
            fails: Vec::new(alloc),
            named_pages: NumberTable::new(alloc, geometry.pages() as usize)?,
            named_frames: NumberTable::new(alloc, geometry.frames() as usize)?,
            named: Vec::new(alloc),
            turns: 0,
            drawn: None,
            owners: Vec::new(alloc),
            calls: 0,
            host: Vec::new(alloc),
        })
    }

    /// Takes what managed blocks are online for, from here on.
    pub fn add_online(&mut self, online: Kind) -> Result<(), Refusal>
        ensures { MatchResult result (λ _. Adds (Some self.old) (online_line_in online) self.new) (RefusesReadLine (Some self.old) (online_line_in online)) }
    {
        if self.online.is_some() {
            return Err(Refusal::Cause(LineCause::Order));
        }
        self.online = Some(online);
        Ok(())
    }

    /// Adds a page of the start.
    pub fn add_page(&mut self, line: PageLine) -> Result<(), Refusal>
        ensures { MatchResult result (λ _. Adds (Some self.old) (page_line_in line) self.new) (RefusesReadLine (Some self.old) (page_line_in line)) }
    {
        if line.page >= self.geometry.pages() as u64
            || line.frame >= self.geometry.frames() as u64
        {
            return Err(Refusal::Cause(LineCause::Range));
        }
        if !self.is_free(line) {
            return Err(Refusal::Cause(LineCause::Page));
        }
        self.start.push(StartPage {
            page: PageNo(line.page as u32),
            kind: line.kind,
            frame: FrameNo(line.frame as u32),
        })?;
        self.named_pages.insert(line.page as usize);
        self.named_frames.insert(line.frame as usize);
        Ok(())
    }

    /// Whether a page and its frame weren't named before, and the frame is there and takes it.
    fn is_free(&self, line: PageLine) -> bool
        ensures { IsTrue result ↔ IsFreeFor self.now (page_in line) }
    {
        if self.named_pages.contains(line.page as usize) {
            return false;
        }
        if self.named_frames.contains(line.frame as usize) {
            return false;
        }
        let online = self.online.unwrap_or(Kind::Movable);
        is_there(&self.geometry, line.frame) && takes(&self.geometry, online, line.kind, line.frame)
    }

    /// Adds a call of the backing that fails.
    pub fn add_fail(&mut self, call: u64) -> Result<(), Refusal>
        ensures { MatchResult result (λ _. Adds (Some self.old) (fail_line_in call) self.new) (RefusesReadLine (Some self.old) (fail_line_in call)) }
    {
        if call < 1 || call > HIGHEST_FAIL {
            return Err(Refusal::Cause(LineCause::Range));
        }
        self.fails.push(call)?;
        Ok(())
    }

    /// Adds named turns.
    pub fn add_turns(&mut self, alloc: Global, line: TurnsLine) -> Result<(), Refusal>
        ensures { MatchResult result (λ _. Adds (Some self.old) (turns_in line) self.new) (RefusesReadLine (Some self.old) (turns_in line)) }
    {
        let turns = plain_turns(alloc, line.turns.as_slice())?;
        let Some(total) = turns_with(self.turns, turns.as_slice()) else {
            return Err(Refusal::Cause(LineCause::Count));
        };
        self.named.extend_from_slice(turns.as_slice())?;
        self.turns = total;
        Ok(())
    }

    /// Takes the turns that are drawn.
    pub fn add_draw(&mut self, line: DrawLine) -> Result<(), Refusal>
        ensures { MatchResult result (λ _. Adds (Some self.old) (draw_line_in line) self.new) (RefusesReadLine (Some self.old) (draw_line_in line)) }
    {
        if self.drawn.is_some() {
            return Err(Refusal::Cause(LineCause::Order));
        }
        if line.count > MOST_TURNS {
            return Err(Refusal::Cause(LineCause::Range));
        }
        self.drawn = Some(Drawn {
            number: line.number,
            count: line.count as u32,
        });
        Ok(())
    }

    /// Adds calls to their owner's script.
    pub fn add_call(&mut self, alloc: Global, line: CallLine) -> Result<(), Refusal>
        ensures { MatchResult result (λ _. Adds (Some self.old) (call_in line) self.new) (RefusesReadLine (Some self.old) (call_in line)) }
    {
        if line.owner < 1 || line.owner > MOST_OWNERS || line.page >= self.geometry.pages() as u64 {
            return Err(Refusal::Cause(LineCause::Range));
        }
        let times = line.count.unwrap_or(1);
        if times < 1 || times > MOST_CALLS {
            return Err(Refusal::Cause(LineCause::Range));
        }
        let Some(call) = call_of(&self.geometry, line.call) else {
            return Err(Refusal::Cause(LineCause::Range));
        };
        if times > MOST_CALLS - self.calls {
            return Err(Refusal::Cause(LineCause::Count));
        }
        let call = (PageNo(line.page as u32), call);
        push_calls(
            alloc,
            &mut self.owners,
            line.owner as usize,
            times as usize,
            call,
        )?;
        self.calls += times;
        Ok(())
    }

    /// Adds a command of the host.
    pub fn add_command(&mut self, command: HostCommand) -> Result<(), Refusal>
        ensures { MatchResult result (λ _. Adds (Some self.old) (command_line_in command) self.new) (RefusesReadLine (Some self.old) (command_line_in command)) }
    {
        if self.host.len() >= MOST_COMMANDS {
            return Err(Refusal::Cause(LineCause::Count));
        }
        self.host.push(command)?;
        Ok(())
    }

    /// The scenario.
    pub fn finish(self, alloc: Global) -> Result<Scenario, AllocError>
        ensures { IfOk result (λ s. s ≡ self) }
    {
        let Draft {
            geometry,
            online,
            start,
            fails,
            named_pages: _,
            named_frames: _,
            named,
            turns: _,
            drawn,
            owners,
            calls: _,
            host,
        } = self;
        let owners: Vec<CallList> = owners
            .into_iter()
            .map(|script| Listed::from_vec(script))
            .collect(alloc)?;
        Ok(Scenario {
            geometry,
            online,
            start: Listed::from_vec(start),
            fails: Listed::from_vec(fails),
            named: Listed::from_vec(named),
            drawn,
            owners: Listed::from_vec(owners),
            host: Listed::from_vec(host),
        })
    }
}
