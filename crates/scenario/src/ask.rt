//! What a line asks for, by its first words.

ghost use Rattle.std.specs.Prelude.{◌≡◌};
ghost use Rattle.evac_model.specs.ScenarioLines.{words, line_names, call_names, command_names, later_commands};
ghost use Rattle.scenario.specs.Words.{words_left, is_one_of};
ghost use Rattle.scenario.specs.Asking.{ask_of_words, ask_of_owner, ask_behind_count, ask_of_call, ask_of_host, ask_of_command};

use crate::number::number;
use crate::words::split_word;

/// Whether this program reads lines of this kind.
#[derive(Clone, Copy, Debug, PartialEq, Eq)]
pub enum Ask {
    /// Scenarios have no such line, call or command.
    Unknown,
    /// Scenarios have the line, and it isn't read yet.
    Later,
    /// It is read, if the line has its form.
    Read,
}

fn is_line_name(word: &[u8]) -> bool
    ensures { result ≡ is_one_of line_names word.now }
{
    word == b"machine".as_slice()
        || word == b"online".as_slice()
        || word == b"page".as_slice()
        || word == b"fail".as_slice()
        || word == b"turns".as_slice()
        || word == b"draw".as_slice()
        || word == b"host".as_slice()
}

fn is_call_name(word: &[u8]) -> bool
    ensures { result ≡ is_one_of call_names word.now }
{
    word == b"alloc".as_slice()
        || word == b"free".as_slice()
        || word == b"read".as_slice()
        || word == b"write".as_slice()
        || word == b"add".as_slice()
        || word == b"pin".as_slice()
        || word == b"unpin".as_slice()
}

fn is_command_name(word: &[u8]) -> bool
    ensures { result ≡ is_one_of command_names word.now }
{
    word == b"resize".as_slice()
        || word == b"request".as_slice()
        || word == b"config".as_slice()
        || word == b"join".as_slice()
        || word == b"leave".as_slice()
        || word == b"migrate".as_slice()
        || word == b"cancel".as_slice()
        || word == b"finish".as_slice()
}

fn is_later_command(word: &[u8]) -> bool
    ensures { result ≡ is_one_of later_commands word.now }
{
    word == b"resize".as_slice()
        || word == b"join".as_slice()
        || word == b"leave".as_slice()
        || word == b"migrate".as_slice()
        || word == b"cancel".as_slice()
        || word == b"finish".as_slice()
}

/// What the line asks for.
pub fn ask_of_line(text: &[u8]) -> Ask
    ensures { result ≡ ask_of_words (words text.now) }
{
    let (word, rest) = split_word(text);
    if number(word).is_some() {
        return ask_of_owner(rest);
    }
    if word == b"host".as_slice() {
        return ask_of_host(rest);
    }
    if word.is_empty() || is_line_name(word) {
        return Ask::Read;
    }
    Ask::Unknown
}

/// What is asked behind an owner's number: a call, which a count of calls may come before.
fn ask_of_owner(rest: Option<&[u8]>) -> Ask
    ensures { result ≡ ask_of_owner (words_left rest.entry) }
{
    let Some(text) = rest else {
        return Ask::Read;
    };
    let (word, rest) = split_word(text);
    match word {
        [b'x', ..] => ask_behind_count(rest),
        _ => ask_of_call(word),
    }
}

fn ask_behind_count(rest: Option<&[u8]>) -> Ask
    ensures { result ≡ ask_behind_count (words_left rest.entry) }
{
    let Some(text) = rest else {
        return Ask::Read;
    };
    let (word, _) = split_word(text);
    ask_of_call(word)
}

/// What is asked by a call's word.
fn ask_of_call(word: &[u8]) -> Ask
    ensures { result ≡ ask_of_call word.now }
{
    if word.is_empty() || is_call_name(word) {
        return Ask::Read;
    }
    Ask::Unknown
}

/// What is asked of the host.
fn ask_of_host(rest: Option<&[u8]>) -> Ask
    ensures { result ≡ ask_of_host (words_left rest.entry) }
{
    let Some(text) = rest else {
        return Ask::Read;
    };
    let (word, _) = split_word(text);
    ask_of_command(word)
}

/// What is asked by a command's word.
fn ask_of_command(word: &[u8]) -> Ask
    ensures { result ≡ ask_of_command word.now }
{
    if is_later_command(word) {
        return Ask::Later;
    }
    if word.is_empty() || is_command_name(word) {
        return Ask::Read;
    }
    Ask::Unknown
}
