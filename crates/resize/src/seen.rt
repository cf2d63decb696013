//! What a resize is told.

use evac_model::{EvacCause, Response};

/// What the last action of a resize gave.
#[derive(Clone, Copy, Debug, PartialEq, Eq)]
pub enum ResizeSeen {
    /// Nothing was done yet.
    Start,
    /// The device answered the request.
    Answered(Response),
    /// The block is isolated, and no frame of it is out.
    Emptied,
    /// The block wasn't emptied.
    Failed(EvacCause),
    /// The block was put online or offline, or its frames hold zeros.
    Done,
}
