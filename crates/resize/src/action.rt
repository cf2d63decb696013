//! What a resize does.

use evac_model::{BlockNo, TriedList};

/// An action of a resize. The last two are its ends; their sizes are in bytes.
#[derive(Debug, Drop)]
pub enum ResizeAction {
    /// To send a PLUG (Virtio 1.2, 5.15.6).
    Plug {
        /// The first block.
        first: BlockNo,
        /// How many blocks.
        n: u32,
    },
    /// To put the block online.
    Online {
        /// The block.
        block: BlockNo,
    },
    /// To evacuate the block.
    Evacuate {
        /// The block.
        block: BlockNo,
    },
    /// To take the block, which is empty, offline.
    Offline {
        /// The block.
        block: BlockNo,
    },
    /// To write zeros into all cells of the block.
    Zero {
        /// The block.
        block: BlockNo,
    },
    /// To send an UNPLUG (Virtio 1.2, 5.15.6).
    Unplug {
        /// The first block.
        first: BlockNo,
        /// How many blocks.
        n: u32,
    },
    /// Nothing more: the plugged size is the goal.
    Settled {
        /// The plugged size.
        plugged: u64,
        /// The blocks that were tried.
        tried: TriedList,
    },
    /// Nothing more: the plugged size isn't the goal, and why stands in the list.
    Short {
        /// The plugged size.
        plugged: u64,
        /// The goal.
        goal: u64,
        /// The blocks that were tried.
        tried: TriedList,
    },
}
