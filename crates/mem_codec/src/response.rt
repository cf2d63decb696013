//! Responses as bytes: type (2 bytes), padding (6), state (2).

ghost use Rattle.std.specs.Prelude.{◌≡◌, ◌<◌, ◌≤◌, ◌≢◌, ◌↔◌, IfOk, length};
ghost use Rattle.evac_model.specs.declared.device.Response.{Response};
ghost use Rattle.mem_codec.specs.Fields.{le16_at, zeros};
ghost use Rattle.mem_codec.specs.ResponseBytes.{ResponseBytes, response_bytes, response_fields, HasState, IsWrongState};
ghost use Rattle.mem_codec.specs.Reading.{response_of};

use crate::fault::ResponseFault;
use crate::field::{put_u16, u16_at};
use evac_model::Response;

/// The bytes of a response.
pub const RESPONSE_BYTES: usize = 10;

// The response of a type, ACK 0, NACK 1, BUSY 2, ERROR 3, with a state.
fn response_by_type(kind: u16, state: u16) -> Result<Response, ResponseFault>
    ensures { result ≡ response_of kind state }
{
    if kind > 3 {
        return Err(ResponseFault::Kind);
    }
    if state > 2 || kind != 0 && state != 0 {
        return Err(ResponseFault::State);
    }
    Ok(match kind {
        0 => Response::Ack { state },
        1 => Response::Nack,
        2 => Response::Busy,
        _ => Response::Error,
    })
}

/// The response that the bytes spell (Virtio 1.2, 5.15.6). The first that holds: `Length`, there
/// aren't 10 bytes; `Kind`, the type is above 3; `State`, the state is above 2, or isn't 0 in a
/// response that is no ACK. The padding is ignored.
pub fn read_response(bytes: &[u8]) -> Result<Response, ResponseFault>
    // What is read is spelled so, and what is spelled so is read.
    ensures found { IfOk result (λ r. ResponseBytes bytes.now r) }
    ensures only { (r : Response) → ResponseBytes bytes.now r → result ≡ Ok r }

    // Which fault it is.
    ensures length_fault { (result ≡ Err ResponseFault.Length) ↔ (length bytes.now ≢ RESPONSE_BYTES) }
    ensures kind_fault { (result ≡ Err ResponseFault.Kind) ↔ (length bytes.now ≡ RESPONSE_BYTES) × (3 < le16_at 0 bytes.now) }
    ensures state_fault { (result ≡ Err ResponseFault.State) ↔ (length bytes.now ≡ RESPONSE_BYTES) × (le16_at 0 bytes.now ≤ 3) × IsWrongState (le16_at 0 bytes.now) (le16_at 8 bytes.now) }
{
    if bytes.len() != RESPONSE_BYTES {
        return Err(ResponseFault::Length);
    }
    response_by_type(u16_at(bytes, 0), u16_at(bytes, 8))
}

// Writes the fields of a response, with zeros in its padding.
fn write_response_fields(kind: u16, state: u16, out: &mut [u8; 10])
    ensures { out.new ≡ response_fields kind zeros state }
{
    *out = [0; 10];
    put_u16(out, 0, kind);
    put_u16(out, 8, state);
}

/// Writes a response, with zeros in its padding. The state is 0 outside ACK.
pub fn write_response(r: Response, out: &mut [u8; 10])
    requires { HasState r }
    ensures { out.new ≡ response_bytes r }
{
    match r {
        Response::Ack { state } => write_response_fields(0, state, out),
        Response::Nack => write_response_fields(1, 0, out),
        Response::Busy => write_response_fields(2, 0, out),
        Response::Error => write_response_fields(3, 0, out),
    }
}
