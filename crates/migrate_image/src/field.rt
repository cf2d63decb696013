//! One field of an image: read from the front of the bytes, or written behind them.

ghost use Rattle.std.specs.Prelude.{◌≡◌, ◌++◌, OnOk};
ghost use Rattle.migrate_image.specs.Fields.{le32, le64, mark};
ghost use Rattle.migrate_image.specs.Reading.{Gives, le32_at, le64_at, mark_at};

use crate::fault::ImageFault;
use byteorder::{ByteOrder, LittleEndian};
use evac_model::OutOfMemory;

/// The bytes that an image begins with.
pub const MARK: [u8; 8] = *b"EVACIMG1";

/// A number of 4 bytes, and the bytes behind it.
#[tactic(auto, unfolding(crate::specs::Reading::le32_at))]
pub fn u32_at(bytes: &[u8]) -> Result<(u32, &[u8]), ImageFault>
    ensures { Gives (λ x. (x.0, x.1.now)) result (le32_at bytes.now) }
{
    if bytes.len() < 4 {
        return Err(ImageFault::Truncated);
    }
    Ok((LittleEndian::read_u32(bytes), &bytes[4..]))
}

/// A number of 8 bytes, and the bytes behind it.
#[tactic(auto, unfolding(crate::specs::Reading::le64_at))]
pub fn u64_at(bytes: &[u8]) -> Result<(u64, &[u8]), ImageFault>
    ensures { Gives (λ x. (x.0, x.1.now)) result (le64_at bytes.now) }
{
    if bytes.len() < 8 {
        return Err(ImageFault::Truncated);
    }
    Ok((LittleEndian::read_u64(bytes), &bytes[8..]))
}

/// The bytes behind the mark.
#[tactic(auto, unfolding(crate::specs::Reading::mark_at, crate::specs::Fields::mark))]
pub fn behind_mark(bytes: &[u8]) -> Result<&[u8], ImageFault>
    ensures { Gives (λ rest. rest.now) result (mark_at bytes.now) }
{
    if bytes.len() < 8 {
        return Err(ImageFault::Truncated);
    }
    let (front, rest) = bytes.split_at(8);
    if front != MARK.as_slice() {
        return Err(ImageFault::BadMark);
    }
    Ok(rest)
}

/// Writes a number as 4 bytes.
#[tactic(auto, unfolding(crate::specs::Fields::le32))]
pub fn put_u32(out: &mut Vec<u8>, n: u32) -> Result<(), OutOfMemory>
    ensures { OnOk result (out.new.items ≡ out.old.items ++ le32 n) }
{
    let mut field = [0; 4];
    LittleEndian::write_u32(&mut field, n);
    out.extend_from_slice(&field)?;
    Ok(())
}

/// Writes a number as 8 bytes.
#[tactic(auto, unfolding(crate::specs::Fields::le64))]
pub fn put_u64(out: &mut Vec<u8>, n: u64) -> Result<(), OutOfMemory>
    ensures { OnOk result (out.new.items ≡ out.old.items ++ le64 n) }
{
    let mut field = [0; 8];
    LittleEndian::write_u64(&mut field, n);
    out.extend_from_slice(&field)?;
    Ok(())
}

/// Writes the mark.
#[tactic(auto, unfolding(crate::specs::Fields::mark))]
pub fn put_mark(out: &mut Vec<u8>) -> Result<(), OutOfMemory>
    ensures { OnOk result (out.new.items ≡ out.old.items ++ mark) }
{
    out.extend_from_slice(&MARK)?;
    Ok(())
}
