//! How a hand keeps its blocks.

ghost use Rattle.std.specs.Prelude.{◌≡◌, ℕ, ◌<◌, true};
ghost use Rattle.evac_model.specs.DeviceBlocks.{device_blocks};
ghost use Rattle.evac_model.specs.Numbers.{is_in, united};
ghost use Rattle.mem_device.specs.HandInside.{hand_state};

use block_map::BlockMap;
use evac_model::BlockNo;

/// How a hand keeps its blocks.
#[derive(Debug, Drop)]
pub(crate) enum HandKind {
    /// The blocks that are plugged in the map.
    Set(BlockMap),
    /// A plain range.
    Range {
        /// Its first block.
        first: BlockNo,
        /// Blocks in the range.
        n: u32,
    },
}

// Puts all blocks of a map into another.
fn add_all(map: &mut BlockMap, more: &BlockMap)
    requires { (b : ℕ) → is_in b more.now.plugged ≡ true → b < device_blocks map.old.sizes }
    ensures sizes { map.new.sizes ≡ map.old.sizes }
    ensures plugged { map.new.plugged ≡ united map.old.plugged more.now.plugged }
{
    // the blocks of both are rising
    let _ = map.geometry();
    let end = more.geometry().device_blocks();
    for b in 0..end {
        if more.plugged(BlockNo(b)) {
            map.set(BlockNo(b), 1);
        }
    }
}

/// Puts all blocks of a hand into a map.
pub(crate) fn add_kind(map: &mut BlockMap, kind: HandKind)
    requires { (b : ℕ) → is_in b (hand_state kind).blocks ≡ true → b < device_blocks map.old.sizes }
    ensures sizes { map.new.sizes ≡ map.old.sizes }
    ensures plugged { map.new.plugged ≡ united map.old.plugged (hand_state kind).blocks }
{
    // its blocks are rising
    let _ = map.geometry();
    match kind {
        HandKind::Set(more) => add_all(map, &more),
        HandKind::Range { first, n } => {
            if n > 0 {
                map.set(first, n);
            }
        }
    }
}
