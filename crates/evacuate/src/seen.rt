//! What an evacuation is told.

use evac_model::{FrameNo, MoveLease, PageNo};

/// What the last action of an evacuation gave.
#[derive(Clone, Copy, Debug, PartialEq, Eq)]
pub enum EvacSeen {
    /// Nothing was done yet.
    Start,
    /// The block is isolated.
    Isolated,
    /// The block isn't isolated: this is its first frame that is out for an unmovable page.
    Refused {
        /// The frame.
        frame: FrameNo,
        /// The page.
        page: PageNo,
    },
    /// The next frame of the block that is out, and a target for its page.
    Leased(MoveLease),
    /// No later frame of the block is out.
    NoneLeft,
    /// The next frame of the block that is out, and that there is no target for its page.
    NoTarget {
        /// The frame.
        from: FrameNo,
        /// The page.
        page: PageNo,
        /// The length of the space journal then.
        at: u64,
    },
    /// The page was moved to its target.
    Moved,
    /// The page wasn't moved: the mover found its entry taken, or mapped to another frame or to none, or
    /// pinned.
    Found {
        /// The entry word that it found.
        word: u64,
    },
    /// The frame was given back, or the isolation undone.
    Done,
}
