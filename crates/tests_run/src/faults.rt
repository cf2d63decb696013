//! What the top call writes of inputs that it refuses, of words that are no command, and where a read or a write
//! fails.

ghost use Rattle.std.specs.Prelude.{None};

use crate::replays::{SMALL, bytes_of, numbers_of, replays, small_replays};
use evac::replay_main;
use evac_io::{Failed, MemSink, MemSource, Source};
use std::alloc::Global;
use std::process::Abort;
use std::test::Fail;

#[test]
fn what_isnt_built_yet_is_later(rt: HostRuntime) -> Result<(), Fail> {
    small_replays(
        &rt,
        rt.alloc(),
        b"page 0 movable 0\nhost resize 64\n",
        3,
        b"scenario: line 3: later\n",
    )?;
    small_replays(
        &rt,
        rt.alloc(),
        b"host migrate 1\n",
        3,
        b"scenario: line 2: later\n",
    )
}

#[test]
fn refused_inputs_name_their_first_bad_line(rt: HostRuntime) -> Result<(), Fail> {
    replays(
        &rt,
        rt.alloc(),
        b"machine 3 4 2 4 4 8\n",
        3,
        b"scenario: line 1: range\n",
    )?;
    replays(&rt, rt.alloc(), b"", 3, b"scenario: line 0: empty\n")?;
    small_replays(
        &rt,
        rt.alloc(),
        b"1 read 0 1 2\n",
        3,
        b"scenario: line 2: range\n",
    )?;
    small_replays(
        &rt,
        rt.alloc(),
        b"1 frob 0\n",
        3,
        b"scenario: line 2: word\n",
    )?;
    small_replays(
        &rt,
        rt.alloc(),
        b"1 read 0\n",
        3,
        b"scenario: line 2: form\n",
    )?;
    small_replays(&rt, rt.alloc(), SMALL, 3, b"scenario: line 2: order\n")?;
    small_replays(
        &rt,
        rt.alloc(),
        b"page 0 unmovable 8\n",
        3,
        b"scenario: line 2: page\n",
    )
}

/// These words are no command.
fn no_command(rt: &impl Abort, alloc: Global, words: &[&str]) -> Result<(), Fail> {
    let mut source = MemSource::new(bytes_of(alloc, SMALL)?, numbers_of(alloc, &[])?);
    let mut sink = MemSink::with_room(alloc, 4096).ok().ok_or("room")?;
    let finish = replay_main(alloc, words, &mut source, &mut sink);
    let usage = b"usage: evac replay|run [--quiet|--image], check, show, gen N\n";
    assert_eq!(rt; finish.status, 2);
    assert_eq!(rt; sink.bytes(), usage.as_slice());
    Ok(())
}

#[test]
fn other_words_are_no_command(rt: HostRuntime) -> Result<(), Fail> {
    no_command(&rt, rt.alloc(), &[])?;
    no_command(&rt, rt.alloc(), &["replay", "--quiet", "--quiet"])?;
    no_command(&rt, rt.alloc(), &["replay", "--"])?;
    no_command(&rt, rt.alloc(), &["gen", "05"])?;
    no_command(&rt, rt.alloc(), &["run"])?;
    no_command(&rt, rt.alloc(), &["replay", "--quiet"])?;
    no_command(&rt, rt.alloc(), &["--help"])
}

/// A write and a read of page 0.
const WRITE_AND_READ: &[u8] =
    b"machine 2 4 2 4 4 8\npage 0 movable 0\n1 write 0 0 7\n1 read 0 0 1\n";

#[test]
fn a_failed_read_is_told(rt: HostRuntime) -> Result<(), Fail> {
    let alloc = rt.alloc();
    let mut source = MemSource::new(bytes_of(alloc, WRITE_AND_READ)?, numbers_of(alloc, &[1])?);
    let mut sink = MemSink::with_room(alloc, 4096).ok().ok_or("room")?;
    let finish = replay_main(alloc, &["replay"], &mut source, &mut sink);
    assert_eq!(rt; finish.status, 4);
    assert!(rt; finish.report.is_none());
    assert_eq!(rt; sink.bytes(), b"read fault\n".as_slice());
    Ok(())
}

#[test]
fn a_full_sink_keeps_a_prefix_of_the_text(rt: HostRuntime) -> Result<(), Fail> {
    let alloc = rt.alloc();
    let mut source = MemSource::new(bytes_of(alloc, WRITE_AND_READ)?, numbers_of(alloc, &[])?);
    let mut sink = MemSink::with_room(alloc, 10).ok().ok_or("room")?;
    let finish = replay_main(alloc, &["replay"], &mut source, &mut sink);
    assert_eq!(rt; finish.status, 5);
    assert_eq!(rt; sink.bytes(), b"call 0 1 0".as_slice());
    assert!(rt; finish.report.is_some());
    Ok(())
}

#[test]
fn a_fault_while_the_line_is_written_keeps_the_status(rt: HostRuntime) -> Result<(), Fail> {
    let alloc = rt.alloc();
    let mut source = MemSource::new(bytes_of(alloc, b"")?, numbers_of(alloc, &[])?);
    let mut sink = MemSink::with_room(alloc, 5).ok().ok_or("room")?;
    let finish = replay_main(alloc, &["replay"], &mut source, &mut sink);
    assert_eq!(rt; finish.status, 3);
    assert_eq!(rt; sink.bytes(), b"scena".as_slice());
    Ok(())
}

/// A source that never ends. It tells nothing.
#[derive(Drop)]
struct Endless;

impl Source for Endless {
    ghost left = { λ _. None };

    ghost faults = { λ _. 0 };

    fn read(&mut self, into: &mut [u8]) -> Result<usize, Failed> {
        Ok(into.len())
    }
}

#[test]
fn an_input_without_end_is_too_long(rt: HostRuntime) -> Result<(), Fail> {
    let alloc = rt.alloc();
    let mut sink = MemSink::with_room(alloc, 4096).ok().ok_or("room")?;
    let finish = replay_main(alloc, &["replay"], &mut Endless, &mut sink);
    assert_eq!(rt; finish.status, 3);
    assert_eq!(rt; sink.bytes(), b"input: size\n".as_slice());
    Ok(())
}
