//! Which blocks a request names, and which of them it plugged.

ghost use Rattle.std.specs.Prelude.{◌≡◌, ◌≢◌, ◌+◌, ◌≤◌, Some};
ghost use Rattle.std.specs.List.{range_with_len};
ghost use Rattle.evac_model.specs.declared.device.Request.{Request};
ghost use Rattle.evac_model.specs.DeviceAnswer.{named_blocks};
ghost use Rattle.evac_model.specs.DeviceBlocks.{device_blocks};
ghost use Rattle.evac_model.specs.DeviceAnswer.{request_in};
ghost use Rattle.evac_model.specs.HostCommands.{range_blocks, requested_blocks, plugged_by};

use crate::range::{is_plugged, range_at};
use block_map::BlockMap;
use evac_model::{BlockNo, Geometry, Request, Response};
use mem_codec::read_request;

// The first of a range's blocks and how many they are, where the range is good, and else none.
fn range_blocks(g: &Geometry, addr: u64, count: u16) -> (BlockNo, u32)
    ensures first { result.0.0 ≡ (range_blocks g.now addr count).first }
    ensures count { result.1 ≡ (range_blocks g.now addr count).count }
    ensures inside { result.0.0 + result.1 ≤ device_blocks g.now }
{
    match range_at(g, addr, count) {
        Some(first) => (first, count as u32),
        None => (BlockNo(0), 0),
    }
}

/// The first of the blocks that a request names, and how many they are: those of its range, where it
/// is good, and of an UNPLUG_ALL all of the region. What is no request names none.
pub fn requested_blocks(g: &Geometry, bytes: &[u8]) -> (BlockNo, u32)
    ensures first { result.0.0 ≡ (requested_blocks g.now (request_in bytes.now)).first }
    ensures count { result.1 ≡ (requested_blocks g.now (request_in bytes.now)).count }
    ensures inside { result.0.0 + result.1 ≤ device_blocks g.now }
{
    match read_request(bytes) {
        Ok(Request::Plug { addr, count }) => range_blocks(g, addr, count),
        Ok(Request::Unplug { addr, count }) => range_blocks(g, addr, count),
        Ok(Request::UnplugAll) => (BlockNo(0), g.device_blocks()),
        Ok(Request::State { addr, count }) => range_blocks(g, addr, count),
        Err(_) => (BlockNo(0), 0),
    }
}

/// The first of the plugged blocks that an UNPLUG names, and how many they are: those of its range, where it is
/// good and all plugged, and else none. Any other request names none, but an UNPLUG_ALL, which names all that
/// are plugged.
pub fn named_range(map: &BlockMap, bytes: &[u8]) -> (BlockNo, u32)
    requires { request_in bytes.now ≢ Some Request.UnplugAll }
    ensures named { range_with_len result.0.0 result.1 ≡ named_blocks map.now.sizes map.now.plugged (request_in bytes.now) }
    ensures inside { result.0.0 + result.1 ≤ device_blocks map.now.sizes }
{
    let Ok(Request::Unplug { addr, count }) = read_request(bytes) else {
        return (BlockNo(0), 0);
    };
    match range_at(&map.geometry(), addr, count) {
        Some(first) if is_plugged(map, first, count as u32) => (first, count as u32),
        _ => (BlockNo(0), 0),
    }
}

/// The first of the blocks that a request plugged, and how many they are: those of its range, where
/// it is a PLUG of a good range and was acknowledged, and else none.
pub fn plugged_by(g: &Geometry, bytes: &[u8], response: &Response) -> (BlockNo, u32)
    ensures first { result.0.0 ≡ (plugged_by g.now (request_in bytes.now) response.now).first }
    ensures count { result.1 ≡ (plugged_by g.now (request_in bytes.now) response.now).count }
    ensures inside { result.0.0 + result.1 ≤ device_blocks g.now }
{
    match (read_request(bytes), response) {
        (Ok(Request::Plug { addr, count }), Response::Ack { .. }) => range_blocks(g, addr, count),
        _ => (BlockNo(0), 0),
    }
}
