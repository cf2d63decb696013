//! What an owner keeps of its lease, and how the other actors stand.

use evac_model::FrameNo;

/// What the lease of an alloc gave.
#[derive(Clone, Copy, Debug, PartialEq, Eq)]
pub enum LeaseSeen {
    /// It wasn't made yet, or the call isn't an alloc.
    NotAsked,
    /// A frame.
    Got {
        /// The frame.
        frame: FrameNo,
    },
    /// It was refused.
    Refused {
        /// The length of the space journal then.
        at: u64,
    },
}

/// How the other actors stand.
#[derive(Clone, Copy, Debug, PartialEq, Eq)]
pub struct Others {
    /// Each owner has ended.
    pub owners_ended: bool,
    /// The host has ended.
    pub host_ended: bool,
    /// The scanner has made the passes of each migration begun.
    pub passes_made: bool,
    /// The host stands at the end of a migration, and the scanner's final pass is to be made.
    pub final_due: bool,
    /// That final pass is made.
    pub final_made: bool,
}
