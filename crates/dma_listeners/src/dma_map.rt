//! A listener that keeps one bit a block.

ghost use Rattle.std.specs.Prelude.{◌≡◌, ◌*◌, ◌<◌, ◌≤◌};

use crate::{Listener, OutOfMemory, Refused};
use block_map::BlockMap;
use evac_model::{BlockNo, Geometry, count_up};
use std::alloc::Global;
use std::marker::Model;

/// A listener that keeps the blocks that it maps, one bit each, and maps at most `limit` of them,
/// after the DMA map of QEMU's VFIO. No call but `new` takes memory.
#[derive(Debug, Drop)]
pub struct DmaMap {
    map: BlockMap,
    limit: u32,
    refusals: u64,
}

impl Model for DmaMap {
    ghost use Rattle.evac_model.specs.DeviceBlocks.{device_blocks};
    ghost use Rattle.dma_listeners.specs.DmaMaps.{DmaState};

    ghost Value = { DmaState };

    ghost view = { λ d. record { region = device_blocks d.map.sizes; mapped = d.map.plugged; limit = d.limit; refusals = d.refusals } };
}

impl DmaMap {
    ghost use Rattle.std.specs.Prelude.{[], length, IfOk};
    ghost use Rattle.evac_model.specs.DeviceBlocks.{device_blocks};
    ghost use Rattle.evac_model.specs.Numbers.{is_in};

    /// A listener that maps no block yet. It can be told of the device's blocks, and refuses
    /// where it would map more than `limit` of them. It fails where there is no memory for the bits.
    pub fn new(alloc: Global, g: Geometry, limit: u32) -> Result<DmaMap, OutOfMemory>
        ensures { IfOk result (λ d. d ≡ record { region = device_blocks g; mapped = []; limit = limit; refusals = 0 }) }
    {
        let mut map = BlockMap::new(alloc, g)?;
        let blocks = map.geometry().device_blocks();
        map.clear(BlockNo(0), blocks);
        Ok(DmaMap {
            map,
            limit,
            refusals: 0,
        })
    }

    /// Whether it maps a block.
    pub fn maps(&self, b: BlockNo) -> bool
        ensures { result ≡ is_in b.0 self.now.mapped }
    {
        self.map.plugged(b)
    }

    // How many blocks are mapped.
    fn count(&self) -> u64
        ensures mapped { result ≡ length self.now.mapped }
        ensures few { result ≤ 65536 }
    {
        self.map.plugged_size() / self.map.geometry().block_bytes()
    }
}

impl Listener for DmaMap {
    ghost use Rattle.std.specs.Prelude.{Some};

    ghost mapped = { λ d. d.mapped };

    ghost refusals = { λ d. d.refusals };

    ghost limit = { λ d. Some d.limit };

    ghost room = { λ d. d.region };

    fn populate(&mut self, first: BlockNo, n: u32) -> Result<(), Refused> {
        if self.count() + n as u64 > self.limit as u64 {
            self.refusals = count_up(self.refusals);
            return Err(Refused);
        }
        self.map.set(first, n);
        Ok(())
    }

    fn discard(&mut self, first: BlockNo, n: u32) {
        self.map.clear(first, n);
    }
}
