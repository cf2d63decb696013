//! A resize: a machine that is told what each action gave, and says the next one. It plugs or unplugs
//! managed blocks, one by one, until a size is reached, after Linux's virtio_mem driver.
#![tactic(auto)]

mod action;
mod goal;
mod resize;
mod seen;
mod stage;

pub use action::ResizeAction;
pub use block_map::BlockMap;
pub use evac_model::{BlockNo, Geometry, OutOfMemory, Tried, TriedList, TriedResult};
pub use evacuate::EvacCause;
pub use mem_codec::Response;
pub use resize::Resize;
pub use seen::ResizeSeen;

#[cfg(test)]
mod tests;
