//! The machine and its actors, and their turns.

use core_actors::{Host, Owner};
use core_state::Core;
use evac_model::{Actor, HostLine, Listed, OutOfMemory};
use machine::{Journals, Machine};
use std::marker::Model;

/// The machine, the host with the lines of its commands that have ended, and each owner, that of owner 1 first.
/// Contracts see what the run began with, and how it stands.
#[derive(Drop)]
pub(crate) struct Running {
    pub(crate) machine: Machine,
    pub(crate) host: Host,
    pub(crate) lines: Vec<HostLine>,
    pub(crate) owners: Listed<Owner>,
}

/// The actors of a run, to be given back as one.
#[derive(Drop)]
struct Actors {
    host: Host,
    owners: Listed<Owner>,
}

impl Model for Running {
    ghost use Rattle.replay.specs.Running.{Run};
    ghost use Rattle.replay.specs.RunningInside.{run_of, IsRunning};

    ghost Value = { Run };

    ghost view = { run_of };

    ghost invariant = { IsRunning };
}

impl Running {
    ghost use Rattle.std.specs.Prelude.{◌≡◌, ◌<◌, ◌∷◌, ℕ, [], true, length, OnOk, OnErr, IsSome};
    ghost use Rattle.core_state.specs.Pages.{entry_with};
    ghost use Rattle.core_state.specs.Words.{next_ticket_of};
    ghost use Rattle.replay.specs.Running.{run_after};
    ghost use Rattle.replay.specs.Runs.{AllEnded, HaveEnded};

    /// The core of a machine whose actors have all ended, with an entry for each ticket drawn, the two journals, and the
    /// host's lines. The memory of the rest is given back, and none is taken.
    pub fn into_parts(self) -> (Core, Journals, Vec<HostLine>)
        requires ended { HaveEnded self.running }
        ensures snapshot { result.0.snapshot ≡ self.running.world.snapshot }
        ensures words { 0 < length result.0.snapshot.words }
        ensures entries { (t : ℕ) → t < next_ticket_of result.0.snapshot.words → IsSome (entry_with t result.0.snapshot.views) }
        ensures space { result.1.space.items ≡ self.running.world.space }
        ensures device { result.1.device.items ≡ self.running.world.device }
        ensures lines { result.2.items ≡ self.running.lines }
    {
        let Running {
            machine,
            host,
            lines,
            owners,
        } = self;
        let _actors = Actors { host, owners };
        let (core, journals) = machine.into_parts();
        (core, journals, lines)
    }

    /// How many owners there are.
    pub fn owner_count(&self) -> u32
        ensures { result ≡ length self.now.running.owners }
    {
        self.owners.len() as u32
    }

    /// A turn of an owner, whose seat has its number.
    fn owner_turn(&mut self, owner: u32) -> Result<(), OutOfMemory>
        ensures turned { OnOk result (self.new ≡ run_after self.old (Actor.Owner owner ∷ [])) }
        ensures err { OnErr result (self.new ≡ self.old) }
    {
        let place = owner as usize;
        if place == 0 || place > self.owners.len() {
            return Ok(());
        }
        let actor = &self.owners.as_slice()[place - 1];
        if actor.is_ended() {
            return Ok(());
        }
        let heard = self.machine.make(owner, &actor.action())?;
        self.owners.item_mut(place - 1).hear(&heard);
        Ok(())
    }

    /// A turn of the host, whose seat is the driver's. Room for the line of a command, and for what comes of a block, is
    /// made before its action.
    fn host_turn(&mut self) -> Result<(), OutOfMemory>
        ensures turned { OnOk result (self.new ≡ run_after self.old (Actor.Host ∷ [])) }
        ensures err { OnErr result (self.new ≡ self.old) }
    {
        if self.host.has_ended() {
            return Ok(());
        }
        self.lines.reserve(1)?;
        self.host.make_room()?;
        let heard = self.machine.make(0, &self.host.action())?;
        self.host.hear(&heard, self.machine.plugged());
        if let Some(line) = self.host.line() {
            self.lines.push_reserved(line);
        }
        Ok(())
    }

    /// A turn of an actor. It takes the memory of its action, and a turn of a host that hasn't ended that of a line and of
    /// what comes of a block besides; where there is none, nothing changes.
    pub fn turn(&mut self, actor: Actor) -> Result<(), OutOfMemory>
        ensures turned { OnOk result (self.new ≡ run_after self.old (actor ∷ [])) }
        ensures err { OnErr result (self.new ≡ self.old) }
    {
        match actor {
            Actor::Owner(owner) => self.owner_turn(owner),
            Actor::Host => self.host_turn(),
            Actor::Scanner => Ok(()),
        }
    }

    /// Whether each owner has ended.
    fn have_owners_ended(&self) -> bool
        ensures { result ≡ true → AllEnded self.now.running.owners }
    {
        for owner in self.owners.as_slice() {
            if !owner.is_ended() {
                return false;
            }
        }
        true
    }

    /// Whether each owner and the host have ended.
    pub fn have_all_ended(&self) -> bool
        ensures { result ≡ true → HaveEnded self.now.running }
    {
        self.host.has_ended() && self.have_owners_ended()
    }
}
