//! The parts of a machine.

use crate::no_listener::NoListener;
use core_state::Core;
use mem_device::{BlockHand, Device, Slate};
use space::Space;
use std::alloc::Global;

/// The memory device of a machine: no listener joins it yet, and its backing fails at the calls that are listed.
pub(crate) type MachineDevice = Device<NoListener, Slate, BlockHand>;

/// The words and the views, the frame space, the memory device, the blocks that the driver holds, the number of
/// owners, and where memory is taken.
#[derive(Drop)]
pub(crate) struct Parts {
    pub(crate) core: Core,
    pub(crate) space: Space,
    pub(crate) device: MachineDevice,
    pub(crate) held: BlockHand,
    pub(crate) owners: u32,
    pub(crate) alloc: Global,
}
