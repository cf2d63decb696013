//! Replays of texts over memory.

use evac::replay_main;
use evac_io::{ByteList, MemSink, MemSource, NumberList};
use std::alloc::Global;
use std::process::Abort;
use std::test::Fail;

/// Two boot blocks and four managed ones of four frames, two cells in a page, eight pages.
pub(crate) const SMALL: &[u8] = b"machine 2 4 2 4 4 8\n";

/// A list of bytes.
pub(crate) fn bytes_of(alloc: Global, text: &[u8]) -> Result<ByteList, Fail> {
    Ok(ByteList::from_vec(Vec::from_slice(alloc, text)?))
}

/// A list of numbers.
pub(crate) fn numbers_of(alloc: Global, numbers: &[u64]) -> Result<NumberList, Fail> {
    Ok(NumberList::from_vec(Vec::from_slice(alloc, numbers)?))
}

/// `replay` of an input writes this text and ends with this status.
pub(crate) fn replays(
    rt: &impl Abort,
    alloc: Global,
    input: &[u8],
    status: u8,
    text: &[u8],
) -> Result<(), Fail> {
    let mut source = MemSource::new(bytes_of(alloc, input)?, numbers_of(alloc, &[])?);
    let mut sink = MemSink::with_room(alloc, 4096).ok().ok_or("room")?;
    let finish = replay_main(alloc, &["replay"], &mut source, &mut sink);
    assert_eq!(rt; sink.bytes(), text);
    assert_eq!(rt; finish.status, status);
    assert_eq!(rt; finish.report.is_some(), status == 0);
    Ok(())
}

/// The same of lines behind the machine line.
pub(crate) fn small_replays(
    rt: &impl Abort,
    alloc: Global,
    lines: &[u8],
    status: u8,
    text: &[u8],
) -> Result<(), Fail> {
    let mut input = Vec::from_slice(alloc, SMALL)?;
    input.extend_from_slice(lines)?;
    replays(rt, alloc, input.as_slice(), status, text)
}
