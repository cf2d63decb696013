//! The arguments of the program.

use crate::replays::{bytes_of, numbers_of};
use evac::program_main;
use evac_io::{MemSink, MemSource};
use std::alloc::Global;
use std::process::Abort;
use std::test::Fail;

const USAGE: &[u8] = b"usage: evac replay|run [--quiet|--image], check, show, gen N\n";

/// The program with these arguments, for a machine alone, writes this text and ends with this status.
fn ends(
    rt: &impl Abort,
    alloc: Global,
    arguments: &[&str],
    status: u8,
    text: &[u8],
) -> Result<(), Fail> {
    let mut texts = Vec::new(alloc);
    for argument in arguments {
        texts.push(argument.to_string(alloc)?)?;
    }
    let machine = b"machine 2 4 2 4 2 8\n";
    let mut source = MemSource::new(bytes_of(alloc, machine)?, numbers_of(alloc, &[])?);
    let mut sink = MemSink::with_room(alloc, 4096).ok().ok_or("room")?;
    let finish = program_main(alloc, Ok(texts.into_iter()), &mut source, &mut sink);
    assert_eq!(rt; sink.bytes(), text);
    assert_eq!(rt; finish.status, status);
    Ok(())
}

#[test]
fn the_word_behind_the_name_is_the_command(rt: HostRuntime) -> Result<(), Fail> {
    let alloc = rt.alloc();
    ends(&rt, alloc, &["evac", "replay"], 0, b"plugged 0 1\nend\n")?;
    ends(&rt, alloc, &["replay", "replay"], 0, b"plugged 0 1\nend\n")
}

#[test]
fn words_that_are_no_command_are_answered_by_the_usage(rt: HostRuntime) -> Result<(), Fail> {
    let alloc = rt.alloc();
    ends(&rt, alloc, &[], 2, USAGE)?;
    ends(&rt, alloc, &["evac"], 2, USAGE)?;
    ends(&rt, alloc, &["evac", "frob"], 2, USAGE)?;
    ends(&rt, alloc, &["evac", "--help"], 2, USAGE)?;
    ends(&rt, alloc, &["evac", "replay", "replay"], 2, USAGE)
}
