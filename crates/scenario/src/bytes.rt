//! Where a byte stands in a text.

ghost use Rattle.std.specs.Prelude.{◌≡◌, ◌==◌, ◌∷◌};
ghost use Rattle.std.specs.List.{position, slice_split};
ghost use Rattle.scenario.specs.Words.{parts_left};

/// The first place of a byte.
pub fn position_of(text: &[u8], byte: u8) -> Option<usize>
    ensures { result ≡ position (λ b. b == byte) text.now }
{
    text.iter().position(|b| *b == byte)
}

/// What is before the first place of a byte, and what is behind it, where there is one.
pub fn split_byte(text: &[u8], byte: u8) -> (&[u8], Option<&[u8]>)
    ensures { slice_split (λ b. b == byte) text.now ≡ result.0.now ∷ parts_left byte result.1 }
{
    match position_of(text, byte) {
        Some(end) => (&text[..end], Some(&text[end + 1..])),
        None => (text, None),
    }
}
