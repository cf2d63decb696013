//! The blocks of a command, put into a list that has room for all managed blocks.

ghost use Rattle.std.specs.Prelude.{◌≡◌, ℕ, ◌+◌, ◌<◌, ◌≤◌, drop, [], vec_capacity};
ghost use Rattle.std.specs.List.{AllByRecursion, range_with_len};
ghost use Rattle.evac_model.specs.DeviceAnswer.{request_in, named_blocks};
ghost use Rattle.core_actors.specs.Hosts.{command_blocks};

use block_map::BlockMap;
use evac_model::{BlockNo, HostCommand, Request};
use mem_codec::read_request;
use mem_device::named_range;

/// The plugged blocks, rising.
fn put_plugged(blocks: &mut Vec<u32>, map: &BlockMap)
    requires empty { blocks.old.items ≡ [] }
    requires roomy { map.now.sizes.managed ≤ vec_capacity blocks.old }
    ensures items { blocks.new.items ≡ map.now.plugged }
    ensures managed { AllByRecursion (λ b. b < map.now.sizes.managed) blocks.new.items }
    ensures capacity { vec_capacity blocks.new ≡ vec_capacity blocks.old }
{
    for block in 0..map.geometry().managed() {
        if map.plugged(BlockNo(block)) {
            blocks.push_reserved(block);
        }
    }
}

/// A range of blocks, rising.
pub(crate) fn put_range(blocks: &mut Vec<u32>, first: u32, n: u32)
    requires empty { blocks.old.items ≡ [] }
    requires inside { first + n ≤ vec_capacity blocks.old }
    requires number { first + n ≤ 65536 }
    ensures items { blocks.new.items ≡ range_with_len first n }
    ensures below { (managed : ℕ) → first + n ≤ managed → AllByRecursion (λ b. b < managed) blocks.new.items }
    ensures capacity { vec_capacity blocks.new ≡ vec_capacity blocks.old }
{
    for block in first..first + n {
        blocks.push_reserved(block);
    }
}

/// The blocks that a request unplugs, if it is such a one.
fn put_named(blocks: &mut Vec<u32>, map: &BlockMap, bytes: &[u8])
    requires empty { blocks.old.items ≡ [] }
    requires roomy { map.now.sizes.managed ≤ vec_capacity blocks.old }
    ensures items { blocks.new.items ≡ named_blocks map.now.sizes map.now.plugged (request_in bytes.now) }
    ensures managed { AllByRecursion (λ b. b < map.now.sizes.managed) blocks.new.items }
    ensures capacity { vec_capacity blocks.new ≡ vec_capacity blocks.old }
{
    match read_request(bytes) {
        Ok(Request::UnplugAll) => put_plugged(blocks, map),
        _ => {
            // The limits of the geometry bound the numbers of blocks.
            let _geometry = map.geometry();
            let (first, n) = named_range(map, bytes);
            put_range(blocks, first.0, n);
        }
    }
}

/// The blocks that the command in that place empties before it asks the device; none where there is no command.
pub(crate) fn put_blocks(blocks: &mut Vec<u32>, map: &BlockMap, commands: &[HostCommand], at: usize)
    requires empty { blocks.old.items ≡ [] }
    requires roomy { map.now.sizes.managed ≤ vec_capacity blocks.old }
    ensures items { blocks.new.items ≡ command_blocks map.now.sizes map.now.plugged (drop at commands.now) }
    ensures managed { AllByRecursion (λ b. b < map.now.sizes.managed) blocks.new.items }
    ensures capacity { vec_capacity blocks.new ≡ vec_capacity blocks.old }
{
    if let Some(HostCommand::Request { bytes }) = commands.get(at) {
        put_named(blocks, map, bytes.as_slice());
    }
}
