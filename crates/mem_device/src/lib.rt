//! A virtio-mem device (Virtio 1.2, 5.15): it answers requests to plug and to unplug blocks of a
//! machine's memory, and keeps what holds the frames of the unplugged ones. The conditions and the
//! order of its answers are this project's own.
#![tactic(auto)]

mod answer;
mod block_hand;
mod device;
mod hand_kind;
mod held;
mod laws;
mod memory;
mod range;
mod requested;

pub use answer::{Answer, NoMemory, SizeFault};
pub use block_hand::BlockHand;
pub use block_map::BlockMap;
pub use device::Device;
pub use dma_listeners::{Backing, Listener, Slate, SureSlate};
pub use evac_model::{BlockNo, Config, DeviceAct, DeviceAction, Geometry, OutOfMemory, Response};
pub use held::Held;
pub use laws::{busy_has_a_cause, sure_backing_is_never_busy};
pub use range::range_at;
pub use requested::{named_range, plugged_by, requested_blocks};
