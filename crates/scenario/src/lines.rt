//! The lines of an input.

ghost use Rattle.std.specs.Prelude.{◌≡◌, ◌<◌, ◌∷◌, [], length, MatchOption};
ghost use Rattle.std.specs.Str.Lines.{lines, strip_carriage_return};
ghost use Rattle.scenario.specs.Lines.{IsSplit};
ghost use Rattle.evac_model.specs.ScenarioGrammar.{is_ignored};

use crate::bytes::position_of;

/// The first line, without what ends it, and what comes behind it. There is none in nothing.
pub fn split_line(text: &[u8]) -> Option<(&[u8], &[u8])>
    ensures { MatchOption result (text.now ≡ []) (λ x. IsSplit text.now x.0.now x.1.now) }
{
    if text.is_empty() {
        return None;
    }
    match position_of(text, b'\n') {
        Some(end) => Some((without_return(&text[..end]), &text[end + 1..])),
        None => Some((text, &text[text.len()..])),
    }
}

/// The line without the carriage return at its end.
fn without_return(line: &[u8]) -> &[u8]
    ensures { result.now ≡ strip_carriage_return line.now }
{
    match line {
        [front @ .., b'\r'] => front,
        _ => line,
    }
}

/// Whether the line says nothing: it is empty, or a comment.
pub fn is_ignored(line: &[u8]) -> bool
    ensures { result ≡ is_ignored line.now }
{
    match line {
        [] => true,
        [first, ..] => *first == b'#',
    }
}
