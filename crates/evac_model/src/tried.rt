//! What came of each block that was tried.

use crate::device::Response;
use crate::evacuation::EvacCause;
use crate::list::Listed;
use crate::names::BlockNo;

/// What came of a block.
#[derive(Clone, Copy, Debug, PartialEq, Eq)]
pub enum TriedResult {
    /// It was emptied and unplugged.
    Unplugged,
    /// It was emptied for a request that unplugs it. A resize never says so.
    Emptied,
    /// It was emptied, and the device answered its UNPLUG otherwise than ACK: it is plugged still.
    Answered(Response),
    /// It wasn't emptied, for this cause: it is plugged still.
    Failed(EvacCause),
    /// The device's answer to its PLUG.
    Plugged(Response),
}

/// A block that was tried.
#[derive(Clone, Copy, Debug, PartialEq, Eq)]
pub struct Tried {
    /// The block.
    pub block: BlockNo,
    /// What came of it.
    pub result: TriedResult,
}

/// Blocks that were tried, in order.
pub type TriedList = Listed<Tried>;
