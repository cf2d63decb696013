//! What an evacuation does.

use evac_model::{BlockNo, EvacCause, FrameNo, MoveLease};

/// An action of an evacuation. The last two are its ends.
#[derive(Clone, Copy, Debug, PartialEq, Eq)]
pub enum EvacAction {
    /// To isolate the block.
    Isolate {
        /// The block.
        block: BlockNo,
    },
    /// To lease a target for the page of the block's next frame that is out.
    Lease {
        /// The block.
        block: BlockNo,
        /// The frame behind which to look; None at the beginning of a round.
        after: Option<FrameNo>,
    },
    /// To move the page to its target.
    Move(MoveLease),
    /// To give back a frame: the target of a page that wasn't moved, the old frame of one that was.
    GiveBack {
        /// The frame.
        frame: FrameNo,
    },
    /// To undo the isolation of the block.
    Undo {
        /// The block.
        block: BlockNo,
    },
    /// Nothing more: no frame of the block is out.
    Emptied,
    /// Nothing more: the block isn't isolated, for this cause.
    Failed(EvacCause),
}
