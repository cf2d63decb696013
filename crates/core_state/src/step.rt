//! The steps. Each acts on one word and changes the view of the seat that makes it.

use evac_model::{Call, FrameNo, Kind, PageNo, Reply};

/// The call that a release ends, and what it answers.
#[derive(Clone, Copy, Debug, PartialEq, Eq)]
pub struct CallDone {
    /// The call.
    pub call: Call,
    /// Its reply.
    pub reply: Reply,
}

/// A step of a call.
#[derive(Clone, Copy, Debug, PartialEq, Eq)]
pub enum Step {
    /// Sets the bit that says that a page is held. The seat holds it where the bit was clear.
    Take {
        /// The page.
        page: PageNo,
    },
    /// Draws the next ticket.
    Draw,
    /// Loads a cell of the held page.
    Load {
        /// The cell.
        cell: u32,
    },
    /// Stores a value in a cell of a frame.
    Store {
        /// The frame.
        frame: FrameNo,
        /// The cell.
        cell: u32,
        /// The value.
        value: u64,
    },
    /// Marks a frame as dirty.
    Mark {
        /// The frame.
        frame: FrameNo,
    },
    /// Lets the held page go.
    Release {
        /// The call and its reply, exactly where a ticket was drawn.
        done: Option<CallDone>,
    },
}

/// A step that changes the mapping of the held page.
#[derive(Clone, Copy, Debug, PartialEq, Eq)]
pub enum MoveStep {
    /// Begins a move: the word says that the page is being moved.
    Moving,
    /// Maps the page to a frame in hand that has its cells, and ends the move.
    Remap {
        /// The frame.
        frame: FrameNo,
    },
    /// Maps the unmapped page to a frame in hand that has zeros.
    Map {
        /// The frame.
        frame: FrameNo,
        /// The kind that the page gets.
        kind: Kind,
    },
    /// Unmaps the page.
    Unmap,
}

/// A step of the scanner.
#[derive(Clone, Copy, Debug, PartialEq, Eq)]
pub enum ScanStep {
    /// Clears the dirty word of a frame.
    Sweep {
        /// The frame.
        frame: FrameNo,
        /// Whether the frame is new in this migration.
        fresh: bool,
    },
    /// Copies the next cell of the frame swept last.
    Copy,
}
