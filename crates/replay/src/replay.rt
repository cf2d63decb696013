//! The replay of a scenario.

ghost use Rattle.std.specs.Prelude.{◌≡◌, ◌<◌, ◌≤◌, ◌^◌, ℕ, List, [], length, Ok, IfOk, IsSome};
ghost use Rattle.std.specs.List.{AllByRecursion};
ghost use Rattle.evac_model.specs.DeviceAnswer.{device_at_start};
ghost use Rattle.evac_model.specs.HostCommands.{host_runs};
ghost use Rattle.evac_model.specs.Scenarios.{IsRunnable, IsOwnerCall};
ghost use Rattle.evac_model.specs.ScenarioGrammar.{call_count};
ghost use Rattle.evac_model.specs.Turns.{turn_count};
ghost use Rattle.evac_model.specs.declared.entry.Entry.{Entry};
ghost use Rattle.evac_model.specs.declared.host.HostRun.{HostRun};
ghost use Rattle.evac_model.specs.declared.scenario.Scenario.{Scenario};
ghost use Rattle.core_actors.specs.Hosts.{host_at_start};
ghost use Rattle.replay.specs.Keeping.{IsKept};
ghost use Rattle.core_state.specs.declared.opening.Opening.{Opening};
ghost use Rattle.core_state.specs.Histories.{IsHistoryOf};
ghost use Rattle.core_state.specs.Pages.{entry_with};
ghost use Rattle.core_state.specs.Words.{next_ticket_of};
ghost use Rattle.replay.specs.StartParts.{AreStartParts};
ghost use Rattle.replay.specs.Notes.{report_with};
ghost use Rattle.replay.specs.declared.replay.Notes.{Notes};
ghost use Rattle.replay.specs.Runs.{budgets_of, owners_from, opening, setting, running_at_start, HaveEnded, IsReportAfter};

use crate::history::history;
use crate::host_report::runs;
use crate::pages::{final_pages, plugged_blocks};
use crate::running::Running;
use crate::schedule;
use core_actors::{Host, Owner};
use core_state::{Core, Snapshot};
use evac_model::{
    BlockList, CallList, CommandList, Drawn, EntryList, Geometry, HostCommand, HostRunList, Kind,
    Listed, NumberList, OutOfMemory, Scenario, ScriptList, Turn, TurnList,
};
use machine::{Journals, Machine};
use report::{FinalPageList, Report};
use std::alloc::{AllocError, Global};
use std::marker::Model;

/// The number of calls of each script.
fn budgets(alloc: Global, scripts: &[CallList]) -> Result<Vec<u64>, AllocError>
    ensures { IfOk result (λ v. v.items ≡ budgets_of scripts.now) }
{
    let mut lengths = Vec::with_capacity(alloc, scripts.len())?;
    for script in scripts {
        lengths.push(script.len() as u64)?;
    }
    Ok(lengths)
}

/// The number of all calls.
fn calls_in(scripts: &[CallList]) -> u64
    requires few { call_count scripts.now ≤ 2 ^ 20 }
    ensures { result ≡ call_count scripts.now }
{
    let mut calls = 0;
    for script in scripts {
        calls += script.len() as u64;
    }
    calls
}

/// Copies of scripts.
fn scripts_of(alloc: Global, scripts: &[CallList]) -> Result<ScriptList, AllocError>
    ensures { IfOk result (λ copies. copies ≡ scripts.now) }
{
    let mut copies = Vec::with_capacity(alloc, scripts.len())?;
    for script in scripts {
        copies.push(Listed::from_vec(Vec::from_slice(alloc, script.as_slice())?))?;
    }
    Ok(Listed::from_vec(copies))
}

/// The owners of the scripts, that of owner 1 first.
fn owners(alloc: Global, g: &Geometry, scripts: Vec<CallList>) -> Result<Vec<Owner>, AllocError>
    requires calls { AllByRecursion (λ script. AllByRecursion (IsOwnerCall g.now) script) scripts.items }
    requires few { length scripts.items ≤ 16 }
    ensures { IfOk result (λ v. v.items ≡ owners_from g.now.cells 1 scripts.items) }
{
    let mut seats = Vec::with_capacity(alloc, scripts.len())?;
    let mut number = 0;
    for script in scripts {
        number += 1;
        seats.push(Owner::new(*g, number, script))?;
    }
    Ok(seats)
}

/// The number of named turns.
fn count_turns(turns: &[Turn]) -> u64
    requires few { turn_count turns.now ≤ 2 ^ 24 }
    ensures { result ≡ turn_count turns.now }
{
    let mut count = 0;
    for turn in turns {
        count += u64::from(turn.count);
    }
    count
}

/// A copy of named turns.
fn turns_of(alloc: Global, turns: &[Turn]) -> Result<TurnList, AllocError>
    ensures { IfOk result (λ copy. copy ≡ turns.now) }
{
    Ok(Listed::from_vec(Vec::from_slice(alloc, turns)?))
}

/// A copy of numbers.
fn numbers_of(alloc: Global, numbers: &[u64]) -> Result<NumberList, AllocError>
    ensures { IfOk result (λ copy. copy ≡ numbers.now) }
{
    Ok(Listed::from_vec(Vec::from_slice(alloc, numbers)?))
}

/// A copy of commands.
fn commands_of(alloc: Global, commands: &[HostCommand]) -> Result<CommandList, AllocError>
    ensures { IfOk result (λ copy. copy ≡ commands.now) }
{
    Ok(Listed::from_vec(Vec::from_slice(alloc, commands)?))
}

/// What is reported of a machine beside its entries, the host's commands and its journals.
#[derive(Drop)]
struct Notes {
    plugged: BlockList,
    pages: FinalPageList,
}

/// What a machine leaves beside its entries, the host's commands and its journals.
fn notes_of(alloc: Global, run: &Running) -> Result<Notes, OutOfMemory>
    ensures { IfOk result (λ notes. (s : Scenario) (h : List Entry) (host : List HostRun) → run.now.setting ≡ setting s → IsKept s run.now.running
        → IsHistoryOf (opening s) run.now.running.world.snapshot.words run.now.running.world.snapshot.views h → host ≡ host_runs s.host run.now.running.lines
        → IsReportAfter s run.now.running (report_with notes h host run.now.running.world.space run.now.running.world.device)) }
{
    let core = run.machine.core();
    let words = core.snapshot().words.as_slice();
    let pages = final_pages(alloc, core.opening(), words)?;
    let plugged = plugged_blocks(alloc, run.machine.plugged())?;
    Ok(Notes {
        plugged: Listed::from_vec(plugged),
        pages: Listed::from_vec(pages),
    })
}

/// The entries of a core whose seats have all let go, moved into the order of their tickets.
fn entries_of(alloc: Global, core: Core) -> Result<EntryList, OutOfMemory>
    requires words { 0 < length core.snapshot.words }
    requires each { (t : ℕ) → t < next_ticket_of core.snapshot.words → IsSome (entry_with t core.snapshot.views) }
    ensures { IfOk result (λ h. (o : Opening) → o.first ≡ 0 → IsHistoryOf o core.snapshot.words core.snapshot.views h) }
{
    let (_, snapshot) = core.into_parts();
    let Snapshot { words, views } = snapshot;
    let count = words.as_slice()[0] as usize;
    let entries = history(alloc, views.into_vec(), count)?;
    Ok(entries)
}

/// The report of its parts, where there was memory for them. The journals are moved into it.
fn put_together(
    notes: Result<Notes, OutOfMemory>,
    entries: Result<EntryList, OutOfMemory>,
    host: Result<HostRunList, OutOfMemory>,
    journals: Journals,
) -> Result<Report, OutOfMemory>
    ensures { IfOk result (λ report. (n : Notes) × (h : List Entry) × (l : List HostRun) × (notes ≡ Ok n) × (entries ≡ Ok h) × (host ≡ Ok l)
        × (report ≡ report_with n h l journals.space.items journals.device.items)) }
{
    let notes = notes?;
    let history = entries?;
    let host = host?;
    Ok(Report {
        history,
        host,
        space_journal: Listed::from_vec(journals.space),
        device_journal: Listed::from_vec(journals.device),
        plugged: notes.plugged,
        pages: notes.pages,
    })
}

/// What a machine leaves whose actors have all ended. The scripts, and the memory that steps needed, are given
/// back before the entries are put in order.
fn report_of(alloc: Global, commands: &[HostCommand], run: Running) -> Result<Report, OutOfMemory>
    requires ended { HaveEnded run.running }
    ensures { IfOk result (λ report. (s : Scenario) → run.setting ≡ setting s → commands.now ≡ s.host → IsKept s run.running → IsReportAfter s run.running report) }
{
    let notes = notes_of(alloc, &run);
    let (core, journals, lines) = run.into_parts();
    let entries = entries_of(alloc, core);
    let host = runs(alloc, commands, lines);
    put_together(notes, entries, host, journals)
}

/// The machine of a scenario at its start, whose device has a backing that fails at the listed calls.
fn machine_of(alloc: Global, s: &Scenario) -> Result<Machine, OutOfMemory>
    requires { IsRunnable s.now }
    ensures setting { IfOk result (λ m. m.setting ≡ setting s.now) }
    ensures world { IfOk result (λ m. m.world ≡ (running_at_start s.now).world) }
{
    let budgets = budgets(alloc, s.owners.as_slice())?;
    let fails = numbers_of(alloc, s.fails.as_slice())?;
    let online = s.online.unwrap_or(Kind::Movable);
    Ok(Machine::open(
        alloc,
        s.geometry,
        online,
        s.start.as_slice(),
        budgets.as_slice(),
        fails,
    )?)
}

/// The host of a scenario at the start of its commands, beside its machine at the start.
fn host_of(alloc: Global, s: &Scenario, machine: &Machine) -> Result<Host, OutOfMemory>
    requires setting { machine.now.setting ≡ setting s.now }
    requires world { machine.now.world ≡ (running_at_start s.now).world }
    ensures { IfOk result (λ h. h.state ≡ host_at_start s.now.geometry (device_at_start s.now.geometry).plugged s.now.host) }
{
    let commands = commands_of(alloc, s.host.as_slice())?;
    Host::new(alloc, s.geometry, commands, machine.plugged())
}

/// The machine of some scenario and its actors at the start, as one.
fn joined(alloc: Global, machine: Machine, host: Host, owners: Vec<Owner>) -> Running
    requires { AreStartParts machine host owners.items }
    ensures { result ≡ record { setting = machine.setting; running = record { world = machine.world; owners = owners.items; host = host.state; lines = [] } } }
{
    Running {
        machine,
        host,
        lines: Vec::new(alloc),
        owners: Listed::from_vec(owners),
    }
}

/// The run of a scenario at its start. Its owners have the scripts that the scenario had.
fn running(alloc: Global, s: Scenario) -> Result<Running, OutOfMemory>
    requires { IsRunnable s }
    ensures { IfOk result (λ r. r ≡ record { setting = setting s; running = running_at_start s }) }
{
    let machine = machine_of(alloc, &s)?;
    let host = host_of(alloc, &s, &machine)?;
    let geometry = s.geometry;
    let owners = owners(alloc, &geometry, s.owners.into_vec())?;
    Ok(joined(alloc, machine, host, owners))
}

/// A copy of a scenario.
fn scenario_of(alloc: Global, s: &Scenario) -> Result<Scenario, AllocError>
    ensures { IfOk result (λ copy. copy ≡ s.now) }
{
    Ok(Scenario {
        geometry: s.geometry,
        online: s.online,
        start: Listed::from_vec(Vec::from_slice(alloc, s.start.as_slice())?),
        fails: numbers_of(alloc, s.fails.as_slice())?,
        named: turns_of(alloc, s.named.as_slice())?,
        drawn: s.drawn,
        owners: scripts_of(alloc, s.owners.as_slice())?,
        host: commands_of(alloc, s.host.as_slice())?,
    })
}

/// The replay of one scenario: its turns, and the machine at the start. Each turn makes one step of one
/// actor: the next action of an owner's call, on a word or on the frame space; or that of a command of the
/// host, on the memory device, on the frame space, or on a word, where it moves a page or zeroes a frame.
/// The turns are the named ones, those that the generator draws, and then rounds over all actors until all
/// have ended.
#[derive(Drop)]
pub struct Replay {
    geometry: Geometry,
    named: TurnList,
    drawn: Option<Drawn>,
    calls: u64,
    commands: CommandList,
    running: Running,
}

impl Model for Replay {
    ghost use Rattle.replay.specs.ReplayInside.{ReplayState, state_of, IsReplay};

    ghost Value = { ReplayState };

    ghost view = { state_of };

    ghost invariant = { IsReplay };
}

impl Replay {
    ghost use Rattle.std.specs.Prelude.{◌≡◌, ℕ, length, IfOk};
    ghost use Rattle.evac_model.specs.declared.scenario.Scenario.{Scenario};
    ghost use Rattle.evac_model.specs.Scenarios.{IsRunnable};
    ghost use Rattle.replay.specs.Running.{after_turns};
    ghost use Rattle.replay.specs.ReplayInside.{replay_of};
    ghost use Rattle.replay.specs.Runs.{setting, running_at_start, HaveEnded, IsReportOfRun};
    ghost use Rattle.report.specs.ReportOf.{IsReportOf};
    ghost use Rattle.replay.specs.Schedule.{schedule, round_bound, round_count, turn_bound};

    /// The machine of a scenario at its start, and its turns. It takes the memory of the words, of the views
    /// with room for all entries, of the frame space and what the rest of its journal needs at least, of the blocks of
    /// the device, of the driver and of the host, of the owners' seats, and of a copy of the scenario and another of its
    /// commands and named turns.
    pub fn open(alloc: Global, s: &Scenario) -> Result<Replay, OutOfMemory>
        requires { IsRunnable s.now }
        ensures { IfOk result (λ r. r ≡ replay_of s.now) }
    {
        Replay::from_scenario(alloc, scenario_of(alloc, s)?)
    }

    /// The same of a scenario that is used up: its scripts are those of the run, and aren't copied.
    pub fn from_scenario(alloc: Global, s: Scenario) -> Result<Replay, OutOfMemory>
        requires { IsRunnable s }
        ensures { IfOk result (λ r. r ≡ replay_of s) }
    {
        Ok(Replay {
            geometry: s.geometry,
            named: turns_of(alloc, s.named.as_slice())?,
            drawn: s.drawn,
            calls: calls_in(s.owners.as_slice()),
            commands: commands_of(alloc, s.host.as_slice())?,
            running: running(alloc, s)?,
        })
    }

    /// The most rounds that a run needs.
    fn round_bound(&self) -> u64
        ensures { result ≡ round_bound self.now.geometry self.now.calls (length self.now.commands) }
    {
        let g = self.geometry;
        let cells = u64::from(g.cells());
        let by_command = u64::from(g.frames()) * (11 * cells + 36) + 9 * u64::from(g.managed()) + 4;
        1 + self.calls * (cells + 6) + self.commands.len() as u64 * by_command
    }

    /// The number of turns after which every actor has ended: the named and the drawn ones, and so many
    /// rounds over all actors as the calls and the commands could have steps.
    pub fn bound(&self) -> u64
        ensures bound { (s : Scenario) → self.now ≡ replay_of s → result ≡ turn_bound s }
        ensures ended { (s : Scenario) → IsRunnable s → self.now ≡ replay_of s → (length (schedule s (round_count s)) ≡ result)
            × HaveEnded (after_turns (setting s) (running_at_start s) (schedule s (round_count s))) }
    {
        let drawn = match &self.drawn {
            Some(d) => u64::from(d.count),
            None => 0,
        };
        let actors = u64::from(self.running.owner_count()) + 2;
        count_turns(self.named.as_slice()) + drawn + actors * self.round_bound()
    }

    /// Makes the turns of the schedule, and reports what they leave. Each answer of a call is given by
    /// its steps. It takes the memory of the two journals, of the notices of the driver's takes, and of the host's lines and the
    /// blocks that they tell of, turn by turn, and of the report.
    pub fn run(self, alloc: Global) -> Result<Report, OutOfMemory>
        ensures run { IfOk result (λ report. (s : Scenario) → IsRunnable s → self ≡ replay_of s → IsReportOfRun s report) }
        ensures theorem { IfOk result (λ report. (s : Scenario) → IsRunnable s → self ≡ replay_of s → IsReportOf s report) }
    {
        let most = self.round_bound();
        let Replay {
            geometry: _,
            named,
            drawn,
            calls: _,
            commands,
            running,
        } = self;
        let mut run = running;
        let owners = run.owner_count();
        schedule::named(&mut run, named.as_slice())?;
        schedule::drawn(&mut run, owners, &drawn)?;
        schedule::rounds(&mut run, owners, most)?;
        report_of(alloc, commands.as_slice(), run)
    }
}
