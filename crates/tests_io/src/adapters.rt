//! The adapters of std's readers and writers, over ones that move a few bytes at a call, are
//! interrupted, end or fail in mid-text.

use evac_io::{Failed, ReadAllFault, Source, StdSink, StdSource, read_all, write_all};
use std::alloc::Global;
use std::io::{self, ErrorKind, Read, Write};
use std::process::Abort;
use std::test::Fail;

const TEXT: &[u8] = b"seven bytes";

/// What comes of a call of a reader or a writer.
#[derive(Clone, Copy, Debug)]
enum Turn {
    /// It moves so many bytes at most.
    Moves(usize),
    /// It is interrupted, and moves none.
    Interrupted,
    /// It fails, and moves none.
    Broken,
}

/// A reader of a text, whose first calls come out as listed. Every later one moves all that has room.
#[derive(Drop)]
struct Reader<'a> {
    left: &'a [u8],
    turns: &'a [Turn],
}

/// A writer into memory, whose first calls come out as listed. Every later one moves all.
#[derive(Drop)]
struct Writer<'a> {
    kept: Vec<u8>,
    turns: &'a [Turn],
}

/// How many bytes the next call moves of so many, and the turns behind it.
fn next_count(turns: &[Turn], len: usize) -> (io::Result<usize>, &[Turn]) {
    let Some((turn, rest)) = turns.split_first() else {
        return (Ok(len), turns);
    };
    let result = match turn {
        Turn::Moves(most) => Ok(len.min(*most)),
        Turn::Interrupted => Err(io::Error::from(ErrorKind::Interrupted)),
        Turn::Broken => Err(io::Error::from(ErrorKind::BrokenPipe)),
    };
    (result, rest)
}

impl Read for Reader<'_> {
    fn read(&mut self, buf: &mut [u8]) -> io::Result<usize> {
        let room = buf.len().min(self.left.len());
        let (result, rest) = next_count(self.turns, room);
        self.turns = rest;
        let count = result?.min(room);
        buf[..count].copy_from_slice(&self.left[..count]);
        self.left = &self.left[count..];
        Ok(count)
    }
}

impl Write for Writer<'_> {
    fn write(&mut self, buf: &[u8]) -> io::Result<usize> {
        let (result, rest) = next_count(self.turns, buf.len());
        self.turns = rest;
        let count = result?.min(buf.len());
        self.kept.extend_from_slice(&buf[..count])?;
        Ok(count)
    }

    fn flush(&mut self) -> io::Result<()> {
        Ok(())
    }
}

#[test]
fn std_readers_and_writers(rt: HostRuntime) -> Result<(), Fail> {
    let alloc = rt.alloc();
    let mut source = StdSource::new(TEXT);
    let bytes = read_all(alloc, &mut source, 11)?;
    assert_eq!(rt; bytes.as_slice(), TEXT);
    assert_eq!(rt; source.into_inner().is_empty(), true);
    let mut sink = StdSink::new(Vec::new(alloc));
    write_all(&mut sink, bytes.as_slice())?;
    assert_eq!(rt; sink.into_inner().as_slice(), TEXT);
    Ok(())
}

/// Reads all of the text by a reader with these turns: what comes of it, and how many bytes are left.
fn reads(
    rt: &impl Abort,
    alloc: Global,
    turns: &[Turn],
    want: Result<usize, ReadAllFault>,
    left: usize,
) {
    let mut source = StdSource::new(Reader { left: TEXT, turns });
    let got = read_all(alloc, &mut source, 11);
    if let Ok(bytes) = &got {
        assert!(rt; TEXT.starts_with(bytes.as_slice()), "{turns:?}");
    }
    assert_eq!(rt; got.map(|bytes| bytes.len()), want, "{turns:?}");
    assert_eq!(rt; source.into_inner().left.len(), left, "{turns:?}");
}

#[test]
fn a_reader_that_moves_few_bytes_or_fails(rt: HostRuntime) {
    let alloc = rt.alloc();
    let (one, three) = (Turn::Moves(1), Turn::Moves(3));
    let (broken, interrupted) = (Turn::Broken, Turn::Interrupted);
    let failed = Err(ReadAllFault::Failed);
    reads(&rt, alloc, &[], Ok(11), 0);
    reads(&rt, alloc, &[one; 11], Ok(11), 0);
    reads(
        &rt,
        alloc,
        &[one, interrupted, three, interrupted],
        Ok(11),
        0,
    );
    reads(&rt, alloc, &[broken], failed, 11);
    reads(&rt, alloc, &[one, three, broken], failed, 7);
    reads(&rt, alloc, &[one, interrupted, broken], failed, 10);
    // The text is whole, and its end is not seen.
    reads(&rt, alloc, &[Turn::Moves(11), broken], failed, 0);
    // A read of no byte is the end.
    reads(&rt, alloc, &[three, Turn::Moves(0)], Ok(3), 8);
}

// A read that fails gives nothing, and the next goes on from there.
#[test]
fn a_source_goes_on_behind_a_failure(rt: HostRuntime) -> Result<(), Fail> {
    let turns = [
        Turn::Moves(5),
        Turn::Broken,
        Turn::Interrupted,
        Turn::Moves(2),
    ];
    let mut source = StdSource::new(Reader {
        left: TEXT,
        turns: &turns,
    });
    let mut into = [b'.'; 8];
    assert_eq!(rt; source.read(&mut into), Ok(5));
    assert_eq!(rt; into, *b"seven...");
    assert_eq!(rt; source.read(&mut into), Err(Failed));
    assert_eq!(rt; into, *b"seven...");
    assert_eq!(rt; source.read(&mut into), Ok(2));
    assert_eq!(rt; into, *b" bven...");
    assert_eq!(rt; source.read(&mut into), Ok(4));
    assert_eq!(rt; into, *b"ytesn...");
    assert_eq!(rt; source.read(&mut into), Ok(0));
    Ok(())
}

/// Writes the text by a writer with these turns: what comes of it, and how many bytes are taken.
fn writes(rt: &impl Abort, alloc: Global, turns: &[Turn], want: Result<(), Failed>, taken: &[u8]) {
    let kept = Vec::new(alloc);
    let mut sink = StdSink::new(Writer { kept, turns });
    assert_eq!(rt; write_all(&mut sink, TEXT), want, "{turns:?}");
    assert_eq!(rt; sink.into_inner().kept.as_slice(), taken, "{turns:?}");
}

#[test]
fn a_writer_that_moves_few_bytes_or_fails(rt: HostRuntime) {
    let alloc = rt.alloc();
    let (one, three) = (Turn::Moves(1), Turn::Moves(3));
    let (broken, interrupted) = (Turn::Broken, Turn::Interrupted);
    writes(&rt, alloc, &[], Ok(()), TEXT);
    writes(&rt, alloc, &[one; 11], Ok(()), TEXT);
    writes(
        &rt,
        alloc,
        &[one, interrupted, three, interrupted],
        Ok(()),
        TEXT,
    );
    writes(&rt, alloc, &[broken], Err(Failed), b"");
    writes(&rt, alloc, &[one, three, broken], Err(Failed), b"seve");
    writes(&rt, alloc, &[one, interrupted, broken], Err(Failed), b"s");
    writes(&rt, alloc, &[Turn::Moves(11), broken], Ok(()), TEXT);
    // A write that takes no byte is a fault.
    writes(&rt, alloc, &[three, Turn::Moves(0)], Err(Failed), b"sev");
}
