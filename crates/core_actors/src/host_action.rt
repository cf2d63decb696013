//! The action that a host makes at a place of its command.

ghost use Rattle.std.specs.Prelude.{◌≡◌};
ghost use Rattle.core_actors.specs.Hosts.{device_call, evac_action, move_action};

use crate::host_place::MovePlace;
use core_state::{MoveStep, Step};
use evac_model::{HostCommand, MoveLease};
use evacuate::EvacAction;
use machine::{Action, BlockCall, DeviceCall, SpaceCall};

/// What a command asks of the device.
pub(crate) fn device_call(command: &HostCommand) -> DeviceCall
    ensures { result ≡ device_call command.now }
{
    match command {
        HostCommand::Request { bytes } => DeviceCall::Request { bytes: *bytes },
        HostCommand::Config => DeviceCall::Config,
    }
}

/// What an evacuation asks for. A move is made step by step, and its ends ask for nothing.
pub(crate) fn evac_action(asked: &EvacAction) -> Action
    ensures { result ≡ evac_action asked.now }
{
    match asked {
        EvacAction::Isolate { block } => Action::Block(BlockCall::Isolate { block: *block }),
        EvacAction::Lease { block, after } => Action::Block(BlockCall::Target {
            block: *block,
            after: *after,
        }),
        EvacAction::GiveBack { frame } => Action::Space(SpaceCall::Return { frame: *frame }),
        EvacAction::Undo { block } => Action::Block(BlockCall::Undo { block: *block }),
        EvacAction::Move(_) | EvacAction::Emptied | EvacAction::Failed(_) => Action::Ended,
    }
}

/// The next step of a move.
pub(crate) fn move_action(lease: &MoveLease, at: &MovePlace) -> Action
    ensures { result ≡ move_action lease.now at.now }
{
    match at {
        MovePlace::Taking => Action::Step(Step::Take { page: lease.page }),
        MovePlace::Beginning => Action::Move(MoveStep::Moving),
        MovePlace::Loading { cell } => Action::Step(Step::Load { cell: *cell }),
        MovePlace::Storing { cell, value } => Action::Step(Step::Store {
            frame: lease.target,
            cell: *cell,
            value: *value,
        }),
        MovePlace::Marking => Action::Step(Step::Mark {
            frame: lease.target,
        }),
        MovePlace::Remapping => Action::Move(MoveStep::Remap {
            frame: lease.target,
        }),
        MovePlace::Releasing { .. } => Action::Step(Step::Release { done: None }),
    }
}
