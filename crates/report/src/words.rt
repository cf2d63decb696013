//! Words of a line, each behind a space.

ghost use Rattle.std.specs.Prelude.{◌≡◌, ◌≤◌, ◌*◌, ◌++◌, length, map, OnOk};
ghost use Rattle.std.specs.List.{flat_map};
ghost use Rattle.std.specs.Fmt.{decimal};
ghost use Rattle.hex.specs.Hex.{encode_lower};
ghost use Rattle.mem_codec.specs.ResponseBytes.{response_bytes, HasState};
ghost use Rattle.evac_model.specs.Spelling.{kind_word};
ghost use Rattle.report.specs.ReportText.{behind_space};

use evac_model::{Kind, Response};
use itoa::Buffer;
use mem_codec::write_response;
use std::alloc::AllocError;

/// Adds a space and a word.
pub fn put_word(out: &mut Vec<u8>, word: &[u8]) -> Result<(), AllocError>
    ensures { OnOk result (out.new.items ≡ out.old.items ++ behind_space word.now) }
{
    out.push(b' ')?;
    out.extend_from_slice(word)
}

/// Adds a space and a number in decimal.
pub fn put_number(out: &mut Vec<u8>, n: u64) -> Result<(), AllocError>
    ensures { OnOk result (out.new.items ≡ out.old.items ++ behind_space (decimal n)) }
{
    let mut buffer = Buffer::new();
    put_word(out, buffer.format(n).as_bytes())
}

/// Adds numbers, a space before each.
pub fn put_numbers(out: &mut Vec<u8>, numbers: &[u64]) -> Result<(), AllocError>
    ensures { OnOk result (out.new.items ≡ out.old.items ++ flat_map behind_space (map decimal numbers.now)) }
{
    for n in numbers {
        put_number(out, *n)?;
    }
    Ok(())
}

/// Adds a space and the word of a kind.
pub fn put_kind(out: &mut Vec<u8>, kind: Kind) -> Result<(), AllocError>
    ensures { OnOk result (out.new.items ≡ out.old.items ++ behind_space (kind_word kind)) }
{
    match kind {
        Kind::Movable => put_word(out, b"movable"),
        Kind::Unmovable => put_word(out, b"unmovable"),
    }
}

/// Writes bytes in lower-case hexadecimal, two digits for each.
fn write_hex(bytes: &[u8], digits: &mut [u8])
    requires { length digits.old ≡ 2 * length bytes.now }
    ensures { digits.new ≡ encode_lower bytes.now }
{
    let written = hex::encode_to_slice(bytes, digits).is_ok();
    prove!(written);
}

/// Adds a space and at most 64 bytes in hexadecimal.
pub fn put_hex(out: &mut Vec<u8>, bytes: &[u8]) -> Result<(), AllocError>
    requires { length bytes.now ≤ 64 }
    ensures { OnOk result (out.new.items ≡ out.old.items ++ behind_space (encode_lower bytes.now)) }
{
    let mut buffer = [0; 128];
    let digits = &mut buffer[..2 * bytes.len()];
    write_hex(bytes, digits);
    put_word(out, digits)
}

/// Adds a space and the bytes of a response in hexadecimal.
pub fn put_response(out: &mut Vec<u8>, response: Response) -> Result<(), AllocError>
    requires { HasState response }
    ensures { OnOk result (out.new.items ≡ out.old.items ++ behind_space (encode_lower (response_bytes response))) }
{
    let mut bytes = [0; 10];
    write_response(response, &mut bytes);
    put_hex(out, &bytes)
}
