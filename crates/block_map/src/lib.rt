//! Which device blocks of a machine are plugged, one bit for each, after the bitmap of QEMU's
//! virtio-mem device.
#![tactic(auto)]

mod bits;
mod map;

pub use evac_model::{BlockNo, Geometry, OutOfMemory, STATE_MIXED, STATE_PLUGGED, STATE_UNPLUGGED};
pub use map::BlockMap;

#[cfg(test)]
mod tests;
