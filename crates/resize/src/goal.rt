//! Which blocks are tried.

ghost use Rattle.std.specs.Prelude.{◌≡◌, not, IfOk, length};
ghost use Rattle.evac_model.specs.Numbers.{is_in, numbers_where};
ghost use Rattle.resize.specs.Trying.{to_try};

use block_map::BlockMap;
use evac_model::{BlockNo, OutOfMemory};
use std::alloc::Global;

/// The numbers of the plugged blocks, rising.
fn plugged_blocks(alloc: Global, map: &BlockMap) -> Result<Vec<u32>, OutOfMemory>
    ensures { IfOk result (λ v. v.items ≡ numbers_where (λ b. is_in b map.now.plugged) map.now.sizes.managed) }
{
    let managed = map.geometry().managed();
    let mut blocks = Vec::new(alloc);
    for b in 0..managed {
        if map.plugged(BlockNo(b)) {
            blocks.push(b)?;
        }
    }
    Ok(blocks)
}

/// The numbers of the managed blocks that aren't plugged, rising.
fn unplugged_blocks(alloc: Global, map: &BlockMap) -> Result<Vec<u32>, OutOfMemory>
    ensures { IfOk result (λ v. v.items ≡ numbers_where (λ b. not (is_in b map.now.plugged)) map.now.sizes.managed) }
{
    let managed = map.geometry().managed();
    let mut blocks = Vec::new(alloc);
    for b in 0..managed {
        if !map.plugged(BlockNo(b)) {
            blocks.push(b)?;
        }
    }
    Ok(blocks)
}

/// The blocks to be tried, and how many are plugged: above the goal the plugged ones, the highest first;
/// else the others, the lowest first.
pub fn blocks_to_try(
    alloc: Global,
    map: &BlockMap,
    goal: u32,
) -> Result<(Vec<u32>, u32), OutOfMemory>
    ensures blocks { IfOk result (λ r. r.0.items ≡ to_try map.now.sizes goal map.now.plugged) }
    ensures plugged { IfOk result (λ r. r.1 ≡ length map.now.plugged) }
{
    // The map keeps its blocks rising, and the limits of the geometry bound their number.
    let _geometry = map.geometry();
    let mut blocks = plugged_blocks(alloc, map)?;
    let count = blocks.len() as u32;
    if goal < count {
        blocks.reverse();
        return Ok((blocks, count));
    }
    Ok((unplugged_blocks(alloc, map)?, count))
}
