//! The lines of a report.

use crate::report::FinalPage;
use evac_model::{
    BlockList, DeviceAct, Entry, HostCommand, HostResult, Notice, SpaceAction, Tried,
};

/// A line of a report.
#[derive(Debug, Drop)]
pub enum Line {
    /// A call with its reply.
    Call(Entry),
    /// A command of the host with what it gave.
    Host {
        /// Its number, from 0.
        no: u64,
        /// The command.
        command: HostCommand,
        /// What it gave.
        result: HostResult,
    },
    /// A block that the command of the `Host` line before it tried, and what came of it.
    Tried(Tried),
    /// An action of the frame space.
    Space {
        /// Its number, from 0.
        no: u64,
        /// The action.
        action: SpaceAction,
    },
    /// An action of the memory device.
    Device {
        /// Its number, from 0.
        no: u64,
        /// The action.
        act: DeviceAct,
    },
    /// What a listener was told.
    Notice {
        /// The number of the device's action that told it.
        no: u64,
        /// What was told.
        notice: Notice,
    },
    /// The plugged blocks.
    Plugged(BlockList),
    /// A page that is mapped at the end.
    Page(FinalPage),
    /// The last line.
    End,
}
