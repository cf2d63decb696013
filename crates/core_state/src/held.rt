//! The page that a seat holds.

use crate::known_cells::KnownCells;
use evac_model::{Kind, PageNo};

/// What was done to the mapping of a page since it was taken.
#[derive(Clone, Copy, Debug, PartialEq, Eq)]
pub enum Change {
    /// Nothing.
    Kept,
    /// It was remapped to another frame, with the same cells.
    Moved,
    /// It was mapped to a frame of zeros, with no pins.
    Mapped {
        /// The kind that it got.
        kind: Kind,
    },
    /// It was unmapped.
    Unmapped,
}

/// The page that a seat holds, and what the seat knows of it. Loads and stores are kept by cell, so
/// that a cell may be loaded or stored any number of times.
#[derive(Drop)]
pub struct Held {
    /// The page.
    pub page: PageNo,
    /// Its word as the take found it.
    pub found: u64,
    /// Its word as it is now.
    pub word: u64,
    /// The ticket, once it is drawn.
    pub ticket: Option<u64>,
    /// What was loaded from each cell that wasn't stored before.
    pub loads: KnownCells,
    /// What was stored last in each cell.
    pub stores: KnownCells,
    /// What was done to its mapping.
    pub change: Change,
}
