//! What a memory device keeps of each of its actions, and what it tells its listeners, after QEMU's
//! RamDiscardManager.

use crate::device::Response;
use crate::list::Listed;
use crate::names::BlockNo;
use crate::request_bytes::RequestBytes;

/// What a listener was told of a range of blocks, and how it took it.
#[derive(Clone, Copy, Debug, PartialEq, Eq)]
pub enum Told {
    /// To map the blocks; it did.
    PopulateOk,
    /// To map the blocks; it refused.
    PopulateRefused,
    /// To unmap the blocks.
    Discard,
}

/// One call of a listener.
#[derive(Clone, Copy, Debug, PartialEq, Eq)]
pub struct Notice {
    /// The listener's key. None where it was about to join and was refused.
    pub key: Option<usize>,
    /// The first block of the range.
    pub first: BlockNo,
    /// Blocks in the range.
    pub n: u32,
    /// What it was told.
    pub told: Told,
}

/// Calls of listeners, in order.
pub type Notices = Listed<Notice>;

/// What a device did.
#[derive(Clone, Copy, Debug, PartialEq, Eq)]
pub enum DeviceAct {
    /// The host set the size that the device asks for, in bytes.
    Requested {
        /// The size.
        size: u64,
    },
    /// A request was answered.
    Request {
        /// The bytes that came.
        bytes: RequestBytes,
        /// The answer.
        response: Response,
    },
    /// A listener joined.
    Join {
        /// Its key.
        key: usize,
    },
    /// A listener was about to join, and refused a block.
    JoinRefused,
    /// A listener left.
    Leave {
        /// Its key.
        key: usize,
    },
    /// A migration began.
    Begin,
    /// A migration was cancelled.
    Cancel,
    /// A migration finished.
    Finish,
}

/// An action of a device, with the calls of listeners that it made.
#[derive(Debug, Drop)]
pub struct DeviceAction {
    /// What it did.
    pub act: DeviceAct,
    /// The calls, in order.
    pub notices: Notices,
}
