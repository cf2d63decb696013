//! What a driver asks of a virtio-mem device, what the device answers, and what its configuration
//! says (Virtio 1.2, 5.15.4 and 5.15.6). Addresses and sizes are in bytes.

/// The state of a range whose blocks are all plugged (`VIRTIO_MEM_STATE_PLUGGED`).
pub const STATE_PLUGGED: u16 = 0;

/// The state of a range with no plugged block (`VIRTIO_MEM_STATE_UNPLUGGED`).
pub const STATE_UNPLUGGED: u16 = 1;

/// The state of a range with blocks of both kinds (`VIRTIO_MEM_STATE_MIXED`).
pub const STATE_MIXED: u16 = 2;

/// A driver's request (Virtio 1.2, 5.15.6). A range is given by the first byte of its first block
/// and the number of its blocks.
#[derive(Clone, Copy, Debug, PartialEq, Eq)]
pub enum Request {
    /// Plug the blocks of a range, all of them unplugged.
    Plug {
        /// The first byte of the range.
        addr: u64,
        /// Blocks in the range.
        count: u16,
    },
    /// Unplug the blocks of a range, all of them plugged.
    Unplug {
        /// The first byte of the range.
        addr: u64,
        /// Blocks in the range.
        count: u16,
    },
    /// Unplug every plugged block.
    UnplugAll,
    /// Say whether the blocks of a range are plugged.
    State {
        /// The first byte of the range.
        addr: u64,
        /// Blocks in the range.
        count: u16,
    },
}

/// The device's answer to a request (Virtio 1.2, 5.15.6).
#[derive(Clone, Copy, Debug, PartialEq, Eq)]
pub enum Response {
    /// The request was done.
    Ack {
        /// The state of the range that was asked about, from 0 to 2; 0 after any other request.
        state: u16,
    },
    /// The request was refused.
    Nack,
    /// The request can't be done for now.
    Busy,
    /// The request was wrong, or failed.
    Error,
}

/// The device's configuration (Virtio 1.2, 5.15.4). All but the node are in bytes.
#[derive(Clone, Copy, Debug, PartialEq, Eq)]
pub struct Config {
    /// The size of a block.
    pub block_size: u64,
    /// The NUMA node of the memory.
    pub node_id: u16,
    /// The first byte of the managed region.
    pub addr: u64,
    /// The size of the managed region.
    pub region_size: u64,
    /// The size of the part of the region, from its start, whose blocks may be plugged.
    pub usable_region_size: u64,
    /// The size of all plugged blocks.
    pub plugged_size: u64,
    /// The size that the device asks the driver to have plugged.
    pub requested_size: u64,
}
