//! The machine: the words and the views, the frame space, the memory device and the blocks that the driver holds,
//! and the one function by which every actor changes them.
#![tactic(auto)]

mod action;
mod allowed;
mod block_calls;
mod device_calls;
mod laws;
mod machine;
mod no_listener;
mod open;
mod parts;
mod space_calls;
mod steps;

pub use action::{Action, BlockCall, BlockHeard, DeviceCall, DeviceHeard, Heard, SpaceCall};
pub use laws::{
    actions_keep_consistency, cells_have_64_bits, mapped_pages_are_plugged, starts_are_consistent,
};
pub use machine::{Journals, Machine};
