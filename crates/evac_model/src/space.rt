//! What is asked of the frame space, and why it refuses. Frames are free, out (leased or mapped) or
//! offline; blocks are isolated before they are emptied, after Linux's page isolation and its memory
//! hot-unplug.

use crate::names::{BlockNo, FrameNo, Kind, PageNo};

/// One action of the frame space.
#[derive(Clone, Copy, Debug, PartialEq, Eq)]
pub enum SpaceAction {
    /// A frame was leased for a page of that kind.
    Lease {
        /// The caller: 0 for the driver, 1 to 16 for an owner.
        who: u32,
        /// The frame.
        frame: FrameNo,
        /// The page.
        page: PageNo,
        /// The kind.
        kind: Kind,
    },
    /// The driver leased a target for a page that lies in an isolated block.
    MoveLease {
        /// The target.
        frame: FrameNo,
        /// The page.
        page: PageNo,
    },
    /// A frame was given back.
    Return {
        /// The caller.
        who: u32,
        /// The frame.
        frame: FrameNo,
    },
    /// The driver isolated a block.
    Isolate {
        /// The block.
        block: BlockNo,
    },
    /// The driver took an isolation back.
    Undo {
        /// The block.
        block: BlockNo,
    },
    /// The driver took an isolated block away.
    Offline {
        /// The block.
        block: BlockNo,
    },
    /// The driver gave a block back.
    Online {
        /// The block.
        block: BlockNo,
    },
}

/// The first frame of a block that is out for an unmovable page: the block can't be isolated.
#[derive(Clone, Copy, Debug, PartialEq, Eq)]
pub struct Unmovable {
    /// The frame.
    pub frame: FrameNo,
    /// The page.
    pub page: PageNo,
}

/// Why a frame wasn't leased.
#[derive(Clone, Copy, Debug, PartialEq, Eq)]
pub enum LeaseFault {
    /// No frame that takes the page is free outside isolated blocks.
    NoFrame {
        /// The length of the space journal then.
        at: u64,
    },
    /// There was no memory for the journal.
    OutOfMemory,
}

/// Why a page of an isolated block got no target.
#[derive(Clone, Copy, Debug, PartialEq, Eq)]
pub enum MoveLeaseFault {
    /// No frame that takes the page is free outside isolated blocks.
    NoTarget {
        /// The frame of the page.
        from: FrameNo,
        /// The page.
        page: PageNo,
        /// The length of the space journal then.
        at: u64,
    },
    /// There was no memory for the journal.
    OutOfMemory,
}

/// Why a block wasn't isolated.
#[derive(Clone, Copy, Debug, PartialEq, Eq)]
pub enum IsolateFault {
    /// A frame of the block is out for an unmovable page; this is the first such frame.
    Unmovable {
        /// The frame.
        frame: FrameNo,
        /// The page.
        page: PageNo,
    },
    /// There was no memory for the journal.
    OutOfMemory,
}

/// The first frame of a block that is out: the block can't be taken away.
#[derive(Clone, Copy, Debug, PartialEq, Eq)]
pub struct NotEmpty {
    /// The frame.
    pub frame: FrameNo,
}
