//! The places of an owner in its script.

use crate::action::LeaseSeen;
use evac_model::{Cells, FrameNo, Kind};

/// Where an owner stands in its script.
#[derive(Clone, Copy, Debug, PartialEq, Eq)]
pub enum Place {
    /// Before its next call.
    Between {
        /// A frame to be given back first.
        back: Option<FrameNo>,
    },
    /// In its next call, behind the first action of that.
    InCall {
        /// The place there.
        at: CallPlace,
    },
}

/// A place in a call: before which action, with what was heard so far and is still needed.
#[derive(Clone, Copy, Debug, PartialEq, Eq)]
pub enum CallPlace {
    /// Before 0 is stored in a cell of the frame that an alloc leased.
    Zero {
        /// The frame.
        frame: FrameNo,
        /// The cell.
        cell: u32,
    },
    /// Before that frame is marked.
    MarkZeros {
        /// The frame.
        frame: FrameNo,
    },
    /// Before the take of an alloc. Every other call begins with its take.
    Take {
        /// What the alloc's lease gave.
        lease: LeaseSeen,
    },
    /// Before the draw.
    Draw {
        /// What the lease gave.
        lease: LeaseSeen,
        /// The word that the take found.
        found: u64,
    },
    /// Before the load of the next cell.
    Load {
        /// The word that the take found.
        found: u64,
        /// The values loaded so far.
        loads: Cells,
    },
    /// Before the store of a value.
    Store {
        /// The word that the take found.
        found: u64,
        /// The values loaded.
        loads: Cells,
        /// How many values are stored.
        i: u32,
    },
    /// Before the frame is marked in which the values are stored.
    Mark {
        /// The word that the take found.
        found: u64,
        /// The values loaded.
        loads: Cells,
    },
    /// Before an alloc maps its page.
    Map {
        /// The frame that it leased.
        frame: FrameNo,
        /// The page's kind.
        kind: Kind,
        /// The word that the take found.
        found: u64,
    },
    /// Before a free unmaps its page.
    Unmap {
        /// The word that the take found.
        found: u64,
    },
    /// Before the release.
    Release {
        /// What the lease gave.
        lease: LeaseSeen,
        /// The word that the take found.
        found: u64,
        /// The values loaded.
        loads: Cells,
    },
}
