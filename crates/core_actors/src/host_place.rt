//! Where a command of the host stands.

use evac_model::{FrameNo, HostResult, MoveLease};

/// Where the move of a page stands, by the step that comes next.
#[derive(Clone, Copy, Debug, PartialEq, Eq)]
pub enum MovePlace {
    /// The page is to be taken.
    Taking,
    /// The page was found free, in its frame, movable and without pins: the move is to begin.
    Beginning,
    /// A cell of the page is to be loaded.
    Loading {
        /// The cell.
        cell: u32,
    },
    /// The value of a cell is to be stored in the target.
    Storing {
        /// The cell.
        cell: u32,
        /// Its value.
        value: u64,
    },
    /// All cells are copied: the target is to be marked dirty.
    Marking,
    /// The page is to be remapped to its target.
    Remapping,
    /// The page is to be let go.
    Releasing {
        /// None where it was remapped, else the entry word that was found, for which it stays where it is.
        found: Option<u64>,
    },
}

/// Where the command under way stands, by the action that comes next.
#[derive(Clone, Copy, Debug, PartialEq, Eq)]
pub enum HostPlace {
    /// The device is to be asked.
    Asking,
    /// A block is being emptied: the action that its evacuation waits for is to be made, which is no move.
    Evacuating,
    /// A block is being emptied: a page of it is being moved.
    Moving {
        /// The page and its frames.
        lease: MoveLease,
        /// Where its move stands.
        at: MovePlace,
    },
    /// The emptied block is to be taken away.
    TakingAway,
    /// A zero is to be stored in a cell of the block that was taken away.
    Zeroing {
        /// The frame.
        frame: FrameNo,
        /// The cell.
        cell: u32,
    },
    /// All cells of a frame of that block are zeroed: it is to be marked dirty.
    MarkingZeros {
        /// The frame.
        frame: FrameNo,
    },
    /// The command has this result, and blocks are to be put online before it ends.
    PuttingOnline {
        /// The result.
        result: HostResult,
    },
}
