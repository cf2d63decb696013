//! One number of a message, at its place.

ghost use Rattle.std.specs.Prelude.{◌≡◌, ◌+◌, ◌≤◌, length};
ghost use Rattle.mem_codec.specs.Fields.{le16, le64, le16_at, le64_at, overwritten};

use byteorder::{ByteOrder, LittleEndian};

/// The number in the 2 bytes from a place on.
#[tactic(auto, unfolding(crate::specs::Fields::le16_at))]
pub fn u16_at(bytes: &[u8], place: usize) -> u16
    requires { place + 2 ≤ length bytes.now }
    ensures { result ≡ le16_at place bytes.now }
{
    LittleEndian::read_u16(&bytes[place..])
}

/// The number in the 8 bytes from a place on.
#[tactic(auto, unfolding(crate::specs::Fields::le64_at))]
pub fn u64_at(bytes: &[u8], place: usize) -> u64
    requires { place + 8 ≤ length bytes.now }
    ensures { result ≡ le64_at place bytes.now }
{
    LittleEndian::read_u64(&bytes[place..])
}

/// Writes a number into the 2 bytes from a place on.
#[tactic(auto, unfolding(crate::specs::Fields::le16))]
pub fn put_u16(out: &mut [u8], place: usize, n: u16)
    requires { place + 2 ≤ length out.old }
    ensures { out.new ≡ overwritten place (le16 n) out.old }
{
    LittleEndian::write_u16(&mut out[place..], n);
}

/// Writes a number into the 8 bytes from a place on.
#[tactic(auto, unfolding(crate::specs::Fields::le64))]
pub fn put_u64(out: &mut [u8], place: usize, n: u64)
    requires { place + 8 ≤ length out.old }
    ensures { out.new ≡ overwritten place (le64 n) out.old }
{
    LittleEndian::write_u64(&mut out[place..], n);
}
