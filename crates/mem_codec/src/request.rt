//! Requests as bytes: type (2 bytes), padding (6), address (8), number of blocks (2), padding (6).

ghost use Rattle.std.specs.Prelude.{◌≡◌, ◌<◌, ◌≢◌, ◌↔◌, IfOk, MatchResult, length};
ghost use Rattle.evac_model.specs.declared.device.Request.{Request};
ghost use Rattle.evac_model.specs.DeviceAnswer.{request_in};
ghost use Rattle.mem_codec.specs.Fields.{le16_at, zeros};
ghost use Rattle.mem_codec.specs.RequestBytes.{AreRequestBytes, request_bytes, request_fields};
ghost use Rattle.mem_codec.specs.Reading.{request_of};

use crate::fault::RequestFault;
use crate::field::{put_u16, put_u64, u16_at, u64_at};
use evac_model::Request;

/// The bytes of a request.
pub const REQUEST_BYTES: usize = 24;

// The request of a type: PLUG 0, UNPLUG 1, UNPLUG_ALL 2, STATE 3.
fn request_by_type(kind: u16, addr: u64, count: u16) -> Result<Request, RequestFault>
    ensures { result ≡ request_of kind addr count }
{
    match kind {
        0 => Ok(Request::Plug { addr, count }),
        1 => Ok(Request::Unplug { addr, count }),
        2 => Ok(Request::UnplugAll),
        3 => Ok(Request::State { addr, count }),
        _ => Err(RequestFault::Kind),
    }
}

/// The request that the bytes spell (Virtio 1.2, 5.15.6). `Length`: there aren't 24 bytes. `Kind`:
/// the type is above 3. The paddings are ignored, and so are the address and the number of blocks
/// of an UNPLUG_ALL.
pub fn read_request(bytes: &[u8]) -> Result<Request, RequestFault>
    // What is read is spelled so, and what is spelled so is read.
    ensures found { IfOk result (λ r. AreRequestBytes bytes.now r) }
    ensures only { (r : Request) → AreRequestBytes bytes.now r → result ≡ Ok r }

    // It is the request that a memory device takes the bytes for, and a fault comes where they are none.
    ensures request { MatchResult result (λ r. request_in bytes.now ≡ Some r) (λ _. request_in bytes.now ≡ None) }

    // Which fault it is.
    ensures length_fault { (result ≡ Err RequestFault.Length) ↔ (length bytes.now ≢ REQUEST_BYTES) }
    ensures kind_fault { (result ≡ Err RequestFault.Kind) ↔ (length bytes.now ≡ REQUEST_BYTES) × (3 < le16_at 0 bytes.now) }
{
    if bytes.len() != REQUEST_BYTES {
        return Err(RequestFault::Length);
    }
    request_by_type(u16_at(bytes, 0), u64_at(bytes, 8), u16_at(bytes, 16))
}

// Writes the fields of a request, with zeros in its paddings.
fn write_request_fields(kind: u16, addr: u64, count: u16, out: &mut [u8; 24])
    ensures { out.new ≡ request_fields kind zeros addr count zeros }
{
    *out = [0; 24];
    put_u16(out, 0, kind);
    put_u64(out, 8, addr);
    put_u16(out, 16, count);
}

/// Writes a request, with zeros in its paddings, and in the address and the number of blocks of an
/// UNPLUG_ALL.
pub fn write_request(r: Request, out: &mut [u8; 24])
    ensures { out.new ≡ request_bytes r }
{
    match r {
        Request::Plug { addr, count } => write_request_fields(0, addr, count, out),
        Request::Unplug { addr, count } => write_request_fields(1, addr, count, out),
        Request::UnplugAll => write_request_fields(2, 0, 0, out),
        Request::State { addr, count } => write_request_fields(3, addr, count, out),
    }
}
