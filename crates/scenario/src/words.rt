//! The words of a line, with one space between.

ghost use Rattle.std.specs.Prelude.{◌≡◌, ◌∷◌, ◌==◌, length};
ghost use Rattle.evac_model.specs.ScenarioLines.{words};
ghost use Rattle.scenario.specs.Words.{words_left};

use crate::bytes::split_byte;

/// The first word, and what is behind the space after it, where there is one.
pub fn split_word(text: &[u8]) -> (&[u8], Option<&[u8]>)
    ensures { words text.now ≡ result.0.now ∷ words_left result.1 }
{
    split_byte(text, b' ')
}

/// Whether no word is left.
pub fn is_ended(rest: Option<&[u8]>) -> bool
    ensures { result ≡ (length (words_left rest.entry) == 0) }
{
    rest.is_none()
}
