//! Adapters of std's readers and writers. They tell no bytes, and count each failure.

ghost use Rattle.std.specs.Prelude.{◌≡◌, ◌<◌, ◌≤◌, length, None, IfOk, OnOk, OnErr};
ghost use Rattle.evac_model.specs.Counts.{one_more, Rose};

use crate::{Failed, Sink, Source};
use evac_model::count_up;
use std::io::{ErrorKind, Read, Write};

/// A reader of std as a source. It tells no bytes. Each `Err` of the reader is a fault, but for
/// `Interrupted`: then it reads again, as std's own loops do.
#[derive(Debug, Drop)]
pub struct StdSource<R> {
    inner: R,
    faults: u64,
}

impl<R> StdSource<R> {
    ghost use Rattle.evac_io.specs.Edge.{source_inner, source_faults};

    /// The source of this reader.
    pub fn new(inner: R) -> StdSource<R>
        ensures inner { source_inner result ≡ inner }
        ensures faults { source_faults result ≡ 0 }
    {
        StdSource { inner, faults: 0 }
    }

    /// The reader.
    pub fn into_inner(self) -> R
        ensures { result ≡ source_inner self }
    {
        let StdSource { inner, faults: _ } = self;
        inner
    }
}

impl<R: Read> Source for StdSource<R> {
    ghost use Rattle.std.specs.Io.KnownBytes.{ReadConsumes};
    ghost use Rattle.evac_io.specs.Edge.{source_inner, source_faults};

    ghost left = { λ _. None };

    ghost faults = { λ s. s.faults };

    fn read(&mut self, into: &mut [u8]) -> Result<usize, Failed>
        ensures bound { IfOk result (λ count. count ≤ length into.new) }

        // It gives what the reader gives, where std knows it.
        ensures bytes { ReadConsumes (R.remaining (source_inner self.old)) (R.remaining (source_inner self.new)) result into.new }

        ensures ok { OnOk result (source_faults self.new ≡ source_faults self.old) }
        ensures counted { OnErr result (source_faults self.new ≡ one_more (source_faults self.old)) }
        ensures counts { source_faults self.old ≤ source_faults self.new }
    {
        for _ in 0..u64::MAX {
            match self.inner.read(into) {
                Ok(count) => return Ok(count),
                Err(error) if error.kind() == ErrorKind::Interrupted => {}
                Err(_) => break,
            }
        }
        self.faults = count_up(self.faults);
        Err(Failed)
    }
}

/// A writer of std as a sink. It tells no bytes. Each `Err` of the writer is a fault, but for
/// `Interrupted`: then it writes again, as std's own loops do. A write that takes none of a piece
/// that isn't empty is a fault too.
#[derive(Debug, Drop)]
pub struct StdSink<W> {
    inner: W,
    faults: u64,
}

impl<W> StdSink<W> {
    ghost use Rattle.evac_io.specs.Edge.{sink_inner, sink_faults};

    /// The sink of this writer.
    pub fn new(inner: W) -> StdSink<W>
        ensures inner { sink_inner result ≡ inner }
        ensures faults { sink_faults result ≡ 0 }
    {
        StdSink { inner, faults: 0 }
    }

    /// The writer.
    pub fn into_inner(self) -> W
        ensures { result ≡ sink_inner self }
    {
        let StdSink { inner, faults: _ } = self;
        inner
    }
}

impl<W: Write> Sink for StdSink<W> {
    ghost use Rattle.std.specs.Io.KnownBytes.{WriteAppends};
    ghost use Rattle.evac_io.specs.Edge.{sink_inner, sink_faults};

    ghost taken = { λ _. None };

    ghost faults = { λ s. s.faults };

    fn write(&mut self, piece: &[u8]) -> Result<usize, Failed>
        ensures bound { IfOk result (λ count. count ≤ length piece.now) }
        ensures some { IfOk result (λ count. 0 < length piece.now → 0 < count) }

        // The writer takes what it takes, where std knows it.
        ensures bytes { WriteAppends (W.contents (sink_inner self.old)) (W.contents (sink_inner self.new)) result piece.now }

        ensures ok { OnOk result (sink_faults self.new ≡ sink_faults self.old) }
        ensures counted { OnErr result (sink_faults self.new ≡ one_more (sink_faults self.old)) }
        ensures counts { sink_faults self.old ≤ sink_faults self.new }
    {
        for _ in 0..u64::MAX {
            match self.inner.write(piece) {
                Ok(count) if count > 0 || piece.is_empty() => return Ok(count),
                Err(error) if error.kind() == ErrorKind::Interrupted => {}
                _ => break,
            }
        }
        self.faults = count_up(self.faults);
        Err(Failed)
    }
}
