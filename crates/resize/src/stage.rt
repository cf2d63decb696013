//! Where a resize stands.

use evac_model::{BlockNo, Response};

/// Where a resize stands, by the action whose answer it waits for.
#[derive(Clone, Copy, Debug, PartialEq, Eq)]
pub enum Stage {
    /// A PLUG of the block was sent.
    Plugging {
        /// The block.
        block: BlockNo,
    },
    /// The block, which is plugged now, is put online.
    Joining {
        /// The block.
        block: BlockNo,
        /// The state in the device's ACK.
        state: u16,
    },
    /// The block is evacuated.
    Evacuating {
        /// The block.
        block: BlockNo,
    },
    /// The empty block is taken offline.
    Leaving {
        /// The block.
        block: BlockNo,
    },
    /// The block's cells are zeroed.
    Zeroing {
        /// The block.
        block: BlockNo,
    },
    /// An UNPLUG of the block was sent.
    Unplugging {
        /// The block.
        block: BlockNo,
    },
    /// The block, which the device keeps plugged, is put online again.
    Returning {
        /// The block.
        block: BlockNo,
        /// The device's answer.
        response: Response,
    },
    /// The plugged size is the goal.
    Settled,
    /// No block is left to be tried, or a PLUG was refused.
    Short,
}
