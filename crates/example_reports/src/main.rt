//! Compares the report of each example scenario with the text that stands beside it.
#![tactic(auto)]

use evac::replay_main;
use evac_io::{ByteList, MemSink, MemSource, NumberList};
use std::io::ErrorKind;
use std::process::ExitCode;
use std::{fs, io};

/// The examples: each is a file with the ending `scn`, and one with the ending `txt`.
const NAMES: [&str; 11] = [
    "allocs-and-frees",
    "drawn-turns",
    "evacuation",
    "host-commands",
    "named-turns",
    "no-frame",
    "real-sizes",
    "refused",
    "three-scripts",
    "two-owners",
    "unmapped-page",
];

/// The bytes of an example's file with this ending.
fn example(rt: &HostRuntime, name: &str, ending: &str) -> io::Result<Vec<u8>> {
    let path = format!(in rt.alloc(); "{name}.{ending}")?;
    fs::read(rt, path.as_str())
}

/// The status of an example: all are accepted but one.
fn status_of(name: &str) -> u8 {
    if name == "refused" { 3 } else { 0 }
}

/// Whether an example is answered by its text and its status.
fn is_expected(rt: &HostRuntime, name: &str) -> io::Result<bool> {
    let scenario = ByteList::from_vec(example(rt, name, "scn")?);
    let text = example(rt, name, "txt")?;
    let mut source = MemSource::new(scenario, NumberList::from_vec(Vec::new(rt.alloc())));
    let Ok(mut sink) = MemSink::with_room(rt.alloc(), 1 << 20) else {
        return Err(io::Error::from(ErrorKind::OutOfMemory));
    };
    let finish = replay_main(rt.alloc(), &["replay"], &mut source, &mut sink);
    Ok(finish.status == status_of(name) && sink.bytes() == text.as_slice())
}

/// Writes a line for each example, and fails where one has another.
fn main(rt: HostRuntime) -> io::Result<ExitCode> {
    let mut status = 0;
    for name in NAMES {
        if is_expected(&rt, name)? {
            println!(rt; "{name}: same text")?;
        } else {
            println!(rt; "{name}: another text")?;
            status = 1;
        }
    }
    Ok(ExitCode::from(status))
}
