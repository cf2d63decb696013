//! The image of a machine's frames.

use crate::frame::ImageFrameList;
use evac_model::{BlockList, Geometry};
use std::marker::Model;

/// The frames of boot blocks and of plugged blocks, each with its cells, after what a migration's
/// stream of Linux or QEMU carries in outline. Its type keeps that it has a spelling: the blocks rise,
/// and each frame that is due is there once, in rising order, with all its cells.
#[derive(Debug, Drop)]
pub struct Image {
    /// The sizes of the machine, with 1 page, and with as many blocks plugged as `plugged` has.
    pub geometry: Geometry,
    /// The plugged blocks, rising.
    pub plugged: BlockList,
    /// The frames of boot blocks, then those of plugged blocks, rising.
    pub frames: ImageFrameList,
}

impl Model for Image {
    ghost use Rattle.migrate_image.specs.Images.{ImageParts, IsImage};

    ghost Value = { ImageParts };

    ghost view = { λ i. record { geometry = i.geometry; plugged = i.plugged; frames = i.frames } };

    ghost invariant = { λ i. IsImage (record { geometry = i.geometry; plugged = i.plugged; frames = i.frames }) };
}
