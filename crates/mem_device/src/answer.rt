//! What a device's calls give back.

use evac_model::Response;

/// A device's answer to a request.
#[derive(Debug, Drop)]
pub struct Answer<H> {
    /// The response.
    pub response: Response,
    /// What holds frames of blocks for the caller: the blocks plugged where a PLUG is acknowledged,
    /// none where an UNPLUG or an UNPLUG_ALL is, and else what came with the request.
    pub back: H,
}

/// There was no memory to answer a request. The device is as it was.
#[derive(Debug, Drop)]
pub struct NoMemory<H> {
    /// What came with the request.
    pub held: H,
}

/// Why a requested size isn't set.
#[derive(Clone, Copy, Debug, PartialEq, Eq)]
pub enum SizeFault {
    /// The size is no multiple of the block size, or is above the region's.
    BadSize,
    /// There was not enough memory.
    OutOfMemory,
}
