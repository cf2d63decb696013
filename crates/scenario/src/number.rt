//! Numbers in decimal.

ghost use Rattle.std.specs.Prelude.{◌≡◌};
ghost use Rattle.scenario.specs.Numbers.{number_of, value_after};

/// The number of 64 bits that a word writes: digits, with no zero before others.
pub fn number(word: &[u8]) -> Option<u64>
    ensures { result ≡ number_of word.now }
{
    match word {
        [] => None,
        [b'0', _, ..] => None,
        _ => value(word),
    }
}

/// What digits say, where it is a number of 64 bits.
fn value(digits: &[u8]) -> Option<u64>
    ensures { result ≡ value_after 0 digits.now }
{
    let mut value: u64 = 0;
    for digit in digits {
        if !digit.is_ascii_digit() {
            return None;
        }
        value = value.checked_mul(10)?.checked_add((*digit - b'0') as u64)?;
    }
    Some(value)
}
