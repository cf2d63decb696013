//! Ranges of device blocks.

ghost use Rattle.std.specs.Prelude.{◌≡◌, ◌+◌, ◌*◌, ◌<◌, ◌≤◌, length, is_some, IfSome, OnSome};
ghost use Rattle.evac_model.specs.DeviceBlocks.{device_blocks, device_block_bytes};
ghost use Rattle.evac_model.specs.DeviceAnswer.{block_at, is_good_range, are_plugged, are_unplugged};

use block_map::BlockMap;
use evac_model::{BlockNo, Geometry, STATE_PLUGGED, STATE_UNPLUGGED};

/// The first block of a range, if the range is good: it begins at a block, has one at least, and all
/// of them are in the region.
pub fn range_at(g: &Geometry, addr: u64, count: u16) -> Option<BlockNo>
    ensures good { is_some result ≡ is_good_range g.now addr count }
    ensures first { IfSome result (λ b. b.0 ≡ block_at g.now addr) }
    ensures inside { IfSome result (λ b. b.0 + count ≤ device_blocks g.now) }
    ensures some { OnSome result (0 < count) }
{
    let blocks = g.device_blocks() as u64;
    let start = g.device_address(BlockNo(0));
    let size = g.device_block_bytes();
    if addr < start {
        return None;
    }
    let offset = addr - start;
    if offset % size != 0 {
        return None;
    }
    let first = offset / size;
    if count == 0 || first > blocks || count as u64 > blocks - first {
        return None;
    }
    Some(BlockNo(first as u32))
}

/// Whether all blocks of a range, at least one, are plugged.
pub(crate) fn is_plugged(map: &BlockMap, first: BlockNo, n: u32) -> bool
    requires { 0 < n }
    ensures { result ≡ are_plugged map.now.plugged first.0 n }
{
    map.state(first, n) == STATE_PLUGGED
}

/// Whether no block of a range, at least one, is plugged.
pub(crate) fn is_unplugged(map: &BlockMap, first: BlockNo, n: u32) -> bool
    requires { 0 < n }
    ensures { result ≡ are_unplugged map.now.plugged first.0 n }
{
    map.state(first, n) == STATE_UNPLUGGED
}

/// The bytes of the plugged blocks and of `count` more.
pub(crate) fn size_with(map: &BlockMap, count: u16) -> u64
    ensures { result ≡ (length map.now.plugged + count) * device_block_bytes map.now.sizes }
{
    let g = map.geometry();
    map.plugged_size() + count as u64 * g.device_block_bytes()
}
