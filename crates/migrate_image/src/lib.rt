//! The image of a machine's frames that a finished migration leaves, version 1, as bytes: written and
//! read, one spelling for each image. The layout is this project's own.
#![tactic(auto)]

mod blocks;
mod cells;
mod fault;
mod field;
mod frame;
mod frames;
mod image;
mod laws;
mod reader;
mod sizes;
mod writer;

pub use evac_model::{BlockList, BlockNo, ByteList, FrameNo, Geometry, NumberList, OutOfMemory};
pub use fault::ImageFault;
pub use frame::{ImageFrame, ImageFrameList};
pub use image::Image;
pub use laws::{images_read_back, limits_are_tested, one_image, trailing_bytes_are_refused};
pub use reader::read_image;
pub use writer::write_image;

#[cfg(test)]
mod tests;
