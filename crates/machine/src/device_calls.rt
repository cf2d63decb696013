//! What is asked of the memory device, with the hand-over that goes with it.

ghost use Rattle.std.specs.Prelude.{◌≡◌, ◌≢◌, ◌↔◌, ℕ, ◌+◌, ◌<◌, ◌≤◌, ◌∷◌, [], Some, length, IsTrue, IfOk, OnErr};
ghost use Rattle.std.specs.List.{range_with_len};
ghost use Rattle.core_state.specs.CoreState.{IsSound};
ghost use Rattle.core_state.specs.Views.{view_of};
ghost use Rattle.evac_model.specs.declared.device.Request.{Request};
ghost use Rattle.evac_model.specs.DeviceAnswer.{request_in};
ghost use Rattle.evac_model.specs.DeviceJournal.{answer_to};
ghost use Rattle.machine.specs.BlocksInHand.{MayHandBlocks};
ghost use Rattle.machine.specs.Made.{handed_blocks, request_made};
ghost use Rattle.machine.specs.MachineInside.{IsMachine, setting_of, world_of, state_of, made_of};
ghost use Rattle.machine.specs.MayMake.{MayRequest};
ghost use Rattle.machine.specs.World.{device_now, calls_now};

use crate::action::{DeviceHeard, Heard};
use crate::parts::Parts;
use block_map::BlockMap;
use core_moves::hand_over;
use core_state::Core;
use evac_model::{BlockNo, Geometry, OutOfMemory, Request, RequestBytes, Response};
use mem_codec::read_request;
use mem_device::{Answer, BlockHand, Held, NoMemory, named_range, plugged_by};
use std::alloc::Global;
use std::mem;

/// The frames of blocks, if there are any, go from the hand of one seat to that of another.
fn hand_range(core: &mut Core, g: &Geometry, from: u32, to: u32, first: BlockNo, count: u32)
    requires from { from < length core.old.snapshot.views }
    requires to { to < length core.old.snapshot.views }
    requires apart { from ≢ to }
    requires sound { IsSound core.old }
    requires managed { first.0 + count ≤ g.now.managed }
    requires may { MayHandBlocks g.now core.old.opening core.old.snapshot.views from to (range_with_len first.0 count) }
    ensures handed { core.new.snapshot ≡ handed_blocks g.now core.old.snapshot from to (range_with_len first.0 count) }
    ensures opening { core.new.opening ≡ core.old.opening }
    ensures sound { IsSound core.new }
{
    // the machine's limits bound its blocks
    let size = g.block();
    for block in first.0..first.0 + count {
        let (frame, _) = g.frames_of(BlockNo(block));
        hand_over(core, from, to, frame, size);
    }
}

/// The same for the blocks of a list.
fn hand_each(core: &mut Core, g: &Geometry, from: u32, to: u32, blocks: &[u32])
    requires from { from < length core.old.snapshot.views }
    requires to { to < length core.old.snapshot.views }
    requires apart { from ≢ to }
    requires sound { IsSound core.old }
    requires may { MayHandBlocks g.now core.old.opening core.old.snapshot.views from to blocks.now }
    ensures handed { core.new.snapshot ≡ handed_blocks g.now core.old.snapshot from to blocks.now }
    ensures opening { core.new.opening ≡ core.old.opening }
    ensures sound { IsSound core.new }
{
    let size = g.block();
    for block in blocks {
        let (frame, _) = g.frames_of(BlockNo(*block));
        hand_over(core, from, to, frame, size);
    }
}

/// The plugged blocks, rising.
fn plugged_list(alloc: Global, map: &BlockMap) -> Result<Vec<u32>, OutOfMemory>
    ensures { IfOk result (λ blocks. blocks.items ≡ map.now.plugged) }
{
    let mut blocks = Vec::new(alloc);
    for block in 0..map.geometry().device_blocks() {
        if map.plugged(BlockNo(block)) {
            blocks.push(block)?;
        }
    }
    Ok(blocks)
}

/// Whether the bytes are an UNPLUG_ALL.
pub(crate) fn is_unplug_all(bytes: &[u8]) -> bool
    ensures { IsTrue result ↔ (request_in bytes.now ≡ Some Request.UnplugAll) }
{
    match read_request(bytes) {
        Ok(Request::UnplugAll) => true,
        _ => false,
    }
}

/// Sends a request other than an UNPLUG_ALL to the device. The frames of the blocks that it plugs come from who keeps the
/// unplugged ones into the driver's hand, and those of the blocks that it unplugs go back. Where there is no memory for
/// the device's journal, nothing changes.
fn exchange(parts: &mut Parts, bytes: &RequestBytes) -> Result<Heard, OutOfMemory>
    requires is { IsMachine parts.old }
    requires may { MayRequest (setting_of parts.old) 0 (world_of parts.old) bytes.now }
    requires other { request_in bytes.now ≢ Some Request.UnplugAll }
    ensures made { IfOk result (λ heard. made_of parts.new heard ≡ request_made (setting_of parts.old) (world_of parts.old) bytes.now
        (answer_to (setting_of parts.old).sizes (device_now (setting_of parts.old) (world_of parts.old)) (calls_now (setting_of parts.old) (world_of parts.old)) bytes.now)) }
    ensures is { IsMachine parts.new }
    ensures setting { setting_of parts.new ≡ setting_of parts.old }
    ensures err { OnErr result (state_of parts.new ≡ state_of parts.old) }
{
    let sent = bytes.as_slice();
    let keeper = parts.owners + 3;
    let g = parts.device.plugged().geometry();
    let (named, n) = named_range(parts.device.plugged(), sent);
    let given = parts.held.part(named, n);
    match parts.device.answer(sent, given) {
        Err(NoMemory { held }) => {
            parts.held.merge(held);
            Err(OutOfMemory)
        }
        Ok(Answer { response, back }) => {
            parts.held.merge(back);
            let (first, count) = plugged_by(&g, sent, &response);
            hand_range(&mut parts.core, &g, keeper, 0, first, count);
            if let Response::Ack { .. } = &response {
                hand_range(&mut parts.core, &g, 0, keeper, named, n);
            }
            Ok(Heard::Device(DeviceHeard::Answered(response)))
        }
    }
}

/// Sends an UNPLUG_ALL to the device: where it is acknowledged, the frames of all blocks that were plugged go from the
/// driver's hand to who keeps the unplugged ones. Where there is no memory for a list of these blocks, for what holds
/// none of them, or for the device's journal, nothing changes.
fn unplug_all(parts: &mut Parts, bytes: &RequestBytes) -> Result<Heard, OutOfMemory>
    requires is { IsMachine parts.old }
    requires may { MayRequest (setting_of parts.old) 0 (world_of parts.old) bytes.now }
    requires all { request_in bytes.now ≡ Some Request.UnplugAll }
    ensures made { IfOk result (λ heard. made_of parts.new heard ≡ request_made (setting_of parts.old) (world_of parts.old) bytes.now
        (answer_to (setting_of parts.old).sizes (device_now (setting_of parts.old) (world_of parts.old)) (calls_now (setting_of parts.old) (world_of parts.old)) bytes.now)) }
    ensures is { IsMachine parts.new }
    ensures setting { setting_of parts.new ≡ setting_of parts.old }
    ensures err { OnErr result (state_of parts.new ≡ state_of parts.old) }
{
    let sent = bytes.as_slice();
    let keeper = parts.owners + 3;
    let g = parts.device.plugged().geometry();
    let blocks = plugged_list(parts.alloc, parts.device.plugged())?;
    let none = BlockHand::new(parts.alloc, g, BlockNo(0), 0)?;
    let all = mem::replace(&mut parts.held, none);
    match parts.device.answer(sent, all) {
        Err(NoMemory { held }) => {
            parts.held = held;
            Err(OutOfMemory)
        }
        Ok(Answer { response, back }) => {
            if let Response::Ack { .. } = &response {
                hand_each(&mut parts.core, &g, 0, keeper, &blocks);
            } else {
                parts.held = back;
            }
            Ok(Heard::Device(DeviceHeard::Answered(response)))
        }
    }
}

/// Sends a request to the device. The frames of the blocks that it plugs come from who keeps the unplugged ones into the
/// driver's hand, and the driver holds these blocks then; those of the blocks that it unplugs, which the driver held, go
/// back. Where there is no memory, nothing changes.
pub(crate) fn request(parts: &mut Parts, bytes: &RequestBytes) -> Result<Heard, OutOfMemory>
    requires is { IsMachine parts.old }
    requires may { MayRequest (setting_of parts.old) 0 (world_of parts.old) bytes.now }
    ensures made { IfOk result (λ heard. made_of parts.new heard ≡ request_made (setting_of parts.old) (world_of parts.old) bytes.now
        (answer_to (setting_of parts.old).sizes (device_now (setting_of parts.old) (world_of parts.old)) (calls_now (setting_of parts.old) (world_of parts.old)) bytes.now)) }
    ensures is { IsMachine parts.new }
    ensures setting { setting_of parts.new ≡ setting_of parts.old }
    ensures err { OnErr result (state_of parts.new ≡ state_of parts.old) }
{
    if is_unplug_all(bytes.as_slice()) {
        unplug_all(parts, bytes)
    } else {
        exchange(parts, bytes)
    }
}
