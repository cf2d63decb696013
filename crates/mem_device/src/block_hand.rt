//! A plain holder of blocks.

use crate::Held;
use crate::hand_kind::{HandKind, add_kind};
use block_map::BlockMap;
use evac_model::{BlockNo, Geometry, OutOfMemory};
use std::alloc::Global;
use std::marker::Model;

/// Blocks in hand, with no frames behind them: a set with room for each block of a machine, or a
/// plain range with no room, which a set gives out.
#[derive(Debug, Drop)]
pub struct BlockHand {
    kind: HandKind,
}

impl Model for BlockHand {
    ghost use Rattle.mem_device.specs.HandState.{HandState};

    ghost Value = { HandState };

    ghost use Rattle.mem_device.specs.HandInside.{hand_state};

    ghost view = { λ h. hand_state h.kind };
}

impl BlockHand {
    ghost use Rattle.std.specs.Prelude.{◌≡◌, ◌+◌, ◌≤◌, IfOk};
    ghost use Rattle.std.specs.List.{range_with_len};
    ghost use Rattle.evac_model.specs.DeviceBlocks.{device_blocks};

    /// A plain range: `n` blocks from `first` on, with no room for others. It takes no memory.
    pub fn range(first: BlockNo, n: u32) -> BlockHand
        ensures { result.blocks ≡ range_with_len first.0 n }
    {
        BlockHand {
            kind: HandKind::Range { first, n },
        }
    }

    /// A hand with room for each block of the machine, and with `n` blocks from `first` on, one bit
    /// for each block. It fails where there is no memory for the bits.
    pub fn new(alloc: Global, g: Geometry, first: BlockNo, n: u32) -> Result<BlockHand, OutOfMemory>
        requires { first.0 + n ≤ device_blocks g }
        ensures blocks { IfOk result (λ h. h.blocks ≡ range_with_len first.0 n) }
        ensures room { IfOk result (λ h. h.room ≡ device_blocks g) }
    {
        let mut map = BlockMap::new(alloc, g)?;
        // its blocks are rising
        let blocks = map.geometry().device_blocks();
        map.clear(BlockNo(0), blocks);
        map.set(first, n);
        Ok(BlockHand {
            kind: HandKind::Set(map),
        })
    }
}

impl Held for BlockHand {
    ghost blocks = { λ h. h.blocks };

    ghost room = { λ h. h.room };

    /// Gives a plain range.
    fn part(&mut self, first: BlockNo, n: u32) -> BlockHand {
        match &mut self.kind {
            HandKind::Set(map) => {
                // its blocks are rising
                let _ = map.geometry();
                map.clear(first, n);
            }
            HandKind::Range { first: _, n: _ } => {}
        }
        BlockHand::range(first, n)
    }

    fn merge(&mut self, other: BlockHand) {
        let BlockHand { kind } = other;
        match &mut self.kind {
            HandKind::Set(map) => add_kind(map, kind),
            // there is room for no block, so the other has none
            HandKind::Range { first: _, n: _ } => {}
        }
    }
}
