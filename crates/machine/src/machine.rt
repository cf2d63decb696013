//! The machine, and the one function by which an actor changes it.

use crate::action::{Action, DeviceCall, DeviceHeard, Heard, SpaceCall};
use crate::allowed::is_allowed;
use crate::block_calls::ask_for_block;
use crate::device_calls::request;
use crate::parts::Parts;
use crate::space_calls::{give_back, lease};
use crate::steps::{change_mapping, step};
use block_map::BlockMap;
use core_state::Core;
use evac_model::{DeviceAction, OutOfMemory, SpaceAction};
use std::marker::Model;

/// The words and the views, the frame space, the memory device and the blocks that the driver holds, for so many
/// owners. Contracts see what the run began with, and the world as it stands, which is consistent.
#[derive(Drop)]
pub struct Machine {
    parts: Parts,
}

/// The actions of a machine's frame space and of its memory device, in order.
#[derive(Drop)]
pub struct Journals {
    /// Those of the frame space.
    pub space: Vec<SpaceAction>,
    /// Those of the memory device.
    pub device: Vec<DeviceAction>,
}

impl Model for Machine {
    ghost use Rattle.machine.specs.World.{MachineState};
    ghost use Rattle.machine.specs.MachineInside.{state_of, IsMachine};

    ghost Value = { MachineState };

    ghost view = { λ a. state_of a.parts };

    ghost invariant = { λ a. IsMachine a.parts };
}

impl Machine {
    ghost use Rattle.std.specs.Prelude.{◌≡◌, ◌↔◌, IsTrue, IfOk, OnErr};
    ghost use Rattle.machine.specs.Consistent.{IsSetting, IsConsistent};
    ghost use Rattle.machine.specs.Made.{Made, made};
    ghost use Rattle.machine.specs.MachineInside.{IsMachine, state_of};
    ghost use Rattle.machine.specs.MayMake.{MayMake, TakesMemory};
    ghost use Rattle.machine.specs.World.{device_now};

    /// A machine of these parts.
    pub(crate) fn from_parts(parts: Parts) -> Machine
        requires { IsMachine parts }
        ensures { result ≡ state_of parts }
    {
        Machine { parts }
    }

    /// Makes an action of the actor on that seat, and gives what it hears. A lease, a target and an isolation take the
    /// memory of the frame space's journal, a request that of the device's, an UNPLUG_ALL that of a list of the plugged blocks besides,
    /// and a take by the driver that of its notice; where there is none, nothing changes. Other actions take none.
    pub fn make(&mut self, seat: u32, action: &Action) -> Result<Heard, OutOfMemory>
        requires may { MayMake self.old.setting seat self.old.world action.now }
        ensures made { IfOk result (λ heard. let after : Made = record { world = self.new.world; heard = heard } in after ≡ made self.old.setting seat self.old.world action.now) }
        ensures setting { self.new.setting ≡ self.old.setting }
        ensures err { OnErr result (self.new ≡ self.old) }
        ensures memory { OnErr result (TakesMemory seat action.now) }
    {
        match action {
            Action::Step(at) => step(&mut self.parts, seat, at),
            Action::Move(at) => Ok(change_mapping(&mut self.parts, seat, *at)),
            Action::Space(SpaceCall::Lease { page, kind }) => {
                lease(&mut self.parts, seat, *page, *kind)
            }
            Action::Space(SpaceCall::Return { frame }) => {
                Ok(give_back(&mut self.parts, seat, *frame))
            }
            Action::Block(call) => ask_for_block(&mut self.parts, call),
            Action::Device(DeviceCall::Request { bytes }) => request(&mut self.parts, bytes),
            Action::Device(DeviceCall::Config) => Ok(Heard::Device(DeviceHeard::Config(
                self.parts.device.config(),
            ))),
            Action::Ended => Ok(Heard::Start),
        }
    }

    /// Whether the actor on that seat may make the action now. It takes no memory. A step that maps, remaps or
    /// releases looks once at each cell of a page, any other action at none; taking a block away looks once at each of
    /// its frames, and an UNPLUG at each block that it names.
    pub fn may_make(&self, seat: u32, action: &Action) -> bool
        ensures { IsTrue result ↔ MayMake self.now.setting seat self.now.world action.now }
    {
        is_allowed(&self.parts, seat, action)
    }

    /// The words and the views.
    pub fn core(&self) -> &Core
        ensures opening { result.now.opening ≡ self.now.setting.opening }
        ensures snapshot { result.now.snapshot ≡ self.now.world.snapshot }
        ensures set { IsSetting self.now.setting }
        ensures consistent { IsConsistent self.now.setting self.now.world }
    {
        &self.parts.core
    }

    /// The plugged blocks.
    pub fn plugged(&self) -> &BlockMap
        ensures plugged { result.now.plugged ≡ (device_now self.now.setting self.now.world).plugged }
        ensures sizes { result.now.sizes ≡ self.now.setting.sizes }
    {
        self.parts.device.plugged()
    }

    /// The words and the views, and the two journals. The memory of the rest is given back, and none is taken.
    pub fn into_parts(self) -> (Core, Journals)
        ensures opening { result.0.opening ≡ self.setting.opening }
        ensures snapshot { result.0.snapshot ≡ self.world.snapshot }
        ensures space { result.1.space.items ≡ self.world.space }
        ensures device { result.1.device.items ≡ self.world.device }
    {
        let Machine { parts } = self;
        let Parts {
            core,
            space,
            device,
            held: _held,
            owners: _,
            alloc: _,
        } = parts;
        let journals = Journals {
            space: space.into_journal(),
            device: device.into_journal(),
        };
        (core, journals)
    }
}
