//! What an evacuation of a block moves, and why it fails.

use crate::names::{FrameNo, PageNo};

/// A frame that is out in an isolated block, the page that it is out for, and a frame that was leased for
/// that page to move to.
#[derive(Clone, Copy, Debug, PartialEq, Eq)]
pub struct MoveLease {
    /// The frame in the isolated block.
    pub from: FrameNo,
    /// The page.
    pub page: PageNo,
    /// The target.
    pub target: FrameNo,
}

/// Why a block wasn't emptied. Each cause names a frame of the block, and the page that it is out for.
#[derive(Clone, Copy, Debug, PartialEq, Eq)]
pub enum EvacCause {
    /// The block couldn't be isolated: this is the first frame of it that is out for an unmovable page.
    Unmovable {
        /// The frame.
        frame: FrameNo,
        /// The page.
        page: PageNo,
    },
    /// The page is pinned.
    Pinned {
        /// The frame.
        frame: FrameNo,
        /// The page.
        page: PageNo,
        /// The entry word that the mover found: it maps the frame and has pins.
        word: u64,
    },
    /// No frame is free for the page to move to.
    NoTarget {
        /// The frame.
        frame: FrameNo,
        /// The page.
        page: PageNo,
        /// The length of the space journal then.
        at: u64,
    },
    /// The page was busy in each of five rounds: it is the first that was busy in the fifth.
    Busy {
        /// The frame.
        frame: FrameNo,
        /// The page.
        page: PageNo,
        /// The entry words that the mover found, one a round, in order: each is taken or doesn't map the frame.
        words: [u64; 5],
    },
}
