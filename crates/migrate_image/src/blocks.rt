//! The plugged blocks of an image.

ghost use Rattle.std.specs.Prelude.{◌≡◌, [], ◌++◌, OnOk};
ghost use Rattle.std.specs.List.{flat_map};
ghost use Rattle.migrate_image.specs.Images.{block_bytes};
ghost use Rattle.migrate_image.specs.Reading.{Gives, blocks_at};

use crate::fault::ImageFault;
use crate::field::{put_u32, u32_at};
use evac_model::{BlockNo, OutOfMemory};
use std::alloc::Global;

/// So many rising blocks below a bound, and the bytes behind them.
pub fn blocks_of(
    alloc: Global,
    bound: u32,
    count: u32,
    bytes: &[u8],
) -> Result<(Vec<BlockNo>, &[u8]), ImageFault>
    ensures { Gives (λ x. (x.0.items, x.1.now)) result (blocks_at bound [] 0 count bytes.now) }
{
    let mut plugged = Vec::new(alloc);
    let mut least: u32 = 0;
    let mut rest = bytes;
    for _ in 0..count {
        let (b, after) = u32_at(rest)?;
        if b < least || bound <= b {
            return Err(ImageFault::BadHeader);
        }
        plugged.push(BlockNo(b))?;
        least = b + 1;
        rest = after;
    }
    Ok((plugged, rest))
}

/// Writes the blocks.
pub fn put_blocks(out: &mut Vec<u8>, blocks: &[BlockNo]) -> Result<(), OutOfMemory>
    ensures { OnOk result (out.new.items ≡ out.old.items ++ flat_map block_bytes blocks.now) }
{
    for b in blocks {
        put_u32(out, b.0)?;
    }
    Ok(())
}
