//! Which frames are out, for which page and kind, and which managed blocks are isolated, after
//! Linux's pageblocks and page isolation.
#![tactic(auto)]

mod blocks;
mod holder;
mod laws;
mod scan;

pub use blocks::Blocks;
pub use evac_model::{BlockNo, FrameNo, Geometry, Kind, OutOfMemory, PageNo, Unmovable};
pub use laws::frames_out_are_those_out;

#[cfg(test)]
mod tests;
