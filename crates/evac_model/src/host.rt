//! What the host asks for, and what is reported of it.

use crate::device::{Config, Response};
use crate::list::Listed;
use crate::request_bytes::RequestBytes;
use crate::tried::TriedList;

/// A command of the host.
#[derive(Clone, Copy, Debug, PartialEq, Eq)]
pub enum HostCommand {
    /// Send these bytes, 1 to 64, to the device as a request.
    Request {
        /// The bytes.
        bytes: RequestBytes,
    },
    /// Read the device's configuration.
    Config,
}

/// Commands, in the order in which the host runs them; at most 256.
pub type CommandList = Listed<HostCommand>;

/// What a command gave.
#[derive(Clone, Copy, Debug, PartialEq, Eq)]
pub enum HostResult {
    /// The device's answer to a request.
    Answered(Response),
    /// The request wasn't sent: a block that it unplugs couldn't be emptied.
    Unsent,
    /// The device's configuration.
    Config(Config),
}

/// What is said of a command that has ended.
#[derive(Debug, Drop)]
pub struct HostLine {
    /// The number of the command, from 0.
    pub no: u64,
    /// What it gave.
    pub result: HostResult,
    /// The blocks that it tried, in order.
    pub tried: TriedList,
}

/// A command with its line.
#[derive(Debug, Drop)]
pub struct HostRun {
    /// The command.
    pub command: HostCommand,
    /// Its line.
    pub line: HostLine,
}

/// Commands with their lines, in order.
pub type HostRunList = Listed<HostRun>;
