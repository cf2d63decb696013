//! A frame of an image.

use evac_model::{FrameNo, Listed, NumberList};

/// A frame, with its cells.
#[derive(Debug, Drop)]
pub struct ImageFrame {
    /// The frame, of a boot block or of a plugged block.
    pub frame: FrameNo,
    /// What its cells hold, as many as a page has.
    pub cells: NumberList,
}

/// The frames of an image, rising.
pub type ImageFrameList = Listed<ImageFrame>;
