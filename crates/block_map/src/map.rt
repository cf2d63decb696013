//! The plugged blocks of a machine.

ghost use Rattle.std.specs.Prelude.{◌≡◌, ◌*◌, ◌≤◌};

use crate::bits::{are_all_set, are_none_set, bit, clear_bits, set_bits};
use evac_model::{BlockNo, Geometry, OutOfMemory, STATE_MIXED, STATE_PLUGGED, STATE_UNPLUGGED};
use std::alloc::Global;
use std::marker::Model;

/// Which device blocks are plugged: a bit for each block and at most a word more, after the
/// bitmap of QEMU's virtio-mem device.
#[derive(Debug, Drop)]
pub struct BlockMap {
    geometry: Geometry,
    words: Vec<u64>,
    count: u32,
}

impl Model for BlockMap {
    ghost use Rattle.evac_model.specs.DeviceBlocks.{device_blocks};
    ghost use Rattle.evac_model.specs.Numbers.{numbers_where};
    ghost use Rattle.block_map.specs.Blocks.{Blocks};
    ghost use Rattle.block_map.specs.Bits.{has_bit};
    ghost use Rattle.block_map.specs.MapInside.{IsKept};

    ghost Value = { Blocks };

    ghost view = { λ m. record { sizes = m.geometry; plugged = numbers_where (has_bit m.words.items) (device_blocks m.geometry) } };

    ghost invariant = { λ m. IsKept m.geometry m.words.items m.count };
}

// The bytes of so many blocks.
fn bytes_of(count: u32, block_bytes: u64) -> u64
    requires few { count ≤ 65536 }
    requires small { block_bytes ≤ 2097152 }
    ensures { result ≡ count * block_bytes }
{
    count as u64 * block_bytes
}

impl BlockMap {
    ghost use Rattle.std.specs.Prelude.{◌≡◌, ◌↔◌, ◌+◌, ◌*◌, ◌<◌, ◌≤◌, length, IfOk};
    ghost use Rattle.std.specs.List.{range_with_len};
    ghost use Rattle.evac_model.specs.Geometry.{IsWithinLimits};
    ghost use Rattle.evac_model.specs.DeviceBlocks.{device_blocks, plugged_at_start, device_block_bytes};
    ghost use Rattle.evac_model.specs.Numbers.{is_in, with_range, without_range, IsRisingBelow};
    ghost use Rattle.block_map.specs.Blocks.{IsAllPlugged, IsNonePlugged, state_told};

    /// The map of a machine at its start: the lowest blocks are plugged, as many as its geometry says. It fails where
    /// there is no memory for the words.
    pub fn new(alloc: Global, g: Geometry) -> Result<BlockMap, OutOfMemory>
        ensures sizes { IfOk result (λ m. m.sizes ≡ g) }
        ensures plugged { IfOk result (λ m. m.plugged ≡ range_with_len 0 (plugged_at_start g)) }
    {
        let mut words = vec![in alloc; 0; (g.device_blocks() / 64) as usize + 1]?;
        let count = set_bits(&mut words, 0, g.plugged_at_start());
        Ok(BlockMap {
            geometry: g,
            words,
            count,
        })
    }

    /// The sizes of the machine.
    pub fn geometry(&self) -> Geometry
        ensures sizes { result ≡ self.now.sizes }
        ensures within { IsWithinLimits self.now.sizes }
        ensures rising { IsRisingBelow (device_blocks self.now.sizes) self.now.plugged }
    {
        self.geometry
    }

    /// Plugs the blocks of a range: `n` blocks from `first` on, all of them device blocks. Those
    /// that are plugged already stay so.
    pub fn set(&mut self, first: BlockNo, n: u32)
        requires { first.0 + n ≤ device_blocks self.old.sizes }
        ensures sizes { self.new.sizes ≡ self.old.sizes }
        ensures plugged { self.new.plugged ≡ with_range first.0 n self.old.plugged }
    {
        let added = set_bits(&mut self.words, first.0, first.0 + n);
        self.count += added;
    }

    /// Unplugs the blocks of a range: `n` blocks from `first` on, all of them device blocks. Those
    /// that are unplugged already stay so.
    pub fn clear(&mut self, first: BlockNo, n: u32)
        requires { first.0 + n ≤ device_blocks self.old.sizes }
        ensures sizes { self.new.sizes ≡ self.old.sizes }
        ensures plugged { self.new.plugged ≡ without_range first.0 n self.old.plugged }
    {
        let removed = clear_bits(&mut self.words, first.0, first.0 + n);
        self.count -= removed;
    }

    /// Whether a block is plugged. A block past the region is not.
    pub fn plugged(&self, b: BlockNo) -> bool
        ensures { result ≡ is_in b.0 self.now.plugged }
    {
        b.0 < self.geometry.device_blocks() && bit(&self.words, b.0)
    }

    /// The state of a range of `n` blocks from `first` on, at least one: `STATE_PLUGGED` where all
    /// are plugged, `STATE_UNPLUGGED` where none is, else `STATE_MIXED` (Virtio 1.2, 5.15.6). Blocks
    /// past the region are unplugged.
    pub fn state(&self, first: BlockNo, n: u32) -> u16
        requires { 0 < n }
        ensures plugged { (result ≡ STATE_PLUGGED) ↔ IsAllPlugged first.0 n self.now.plugged }
        ensures unplugged { (result ≡ STATE_UNPLUGGED) ↔ IsNonePlugged first.0 n self.now.plugged }
        ensures range { result ≤ STATE_MIXED }
        ensures state { result ≡ state_told self.now.plugged first.0 n }
    {
        let blocks = self.geometry.device_blocks();
        if are_all_set(&self.words, blocks, first.0, n) {
            return STATE_PLUGGED;
        }
        if are_none_set(&self.words, blocks, first.0, n) {
            return STATE_UNPLUGGED;
        }
        STATE_MIXED
    }

    /// The bytes of all plugged blocks.
    pub fn plugged_size(&self) -> u64
        ensures { result ≡ length self.now.plugged * device_block_bytes self.now.sizes }
    {
        bytes_of(self.count, self.geometry.device_block_bytes())
    }
}
