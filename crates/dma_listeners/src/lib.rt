//! Who is told of the plugged blocks, and what backs them: a listener maps blocks for devices that
//! access memory by themselves, and the backing gives memory back to the host (after QEMU's
//! `RamDiscardManager` and its `ram_block_discard_range`).
//!
//! A listener tells its blocks, counts its refusals and may tell a limit. A backing counts its
//! faults and may tell which of its calls fail. The traits say what each call does to these.
#![tactic(auto)]

mod backing;
mod blocks;
mod dma_map;
mod draft;
mod each;
mod fault;
mod laws;
mod listener;
mod registry;
mod slate;

pub use backing::Backing;
pub use dma_map::DmaMap;
pub use draft::NoticeDraft;
pub use evac_model::{BlockNo, Failed, Notice, Notices, NumberList, OutOfMemory, Told};
pub use fault::{JoinFault, Refused, RefusedBy};
pub use laws::{plug_notices_map, refused_notices_map_nothing, unplug_notices_discard};
pub use listener::Listener;
pub use registry::Registry;
pub use slate::{Slate, SureSlate};

#[cfg(test)]
mod tests;
