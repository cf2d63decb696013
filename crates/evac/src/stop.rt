//! Why a replay ends without a report.

ghost use Rattle.std.specs.Prelude.{◌≡◌, ◌++◌, IfOk, OnOk};
ghost use Rattle.evac.specs.Stops.{cause_word, fault_line, status_of, stop_line};
ghost use Rattle.evac.specs.declared.stop.Stop.TheVariants.{OutOfMemory};

use evac_model::{LineCause, OutOfMemory, ScenarioFault};
use itoa::Buffer;
use std::alloc::{AllocError, Global};

/// Why a replay ends without a report.
#[derive(Clone, Copy, Debug, PartialEq, Eq)]
pub enum Stop {
    /// A read of the source failed: status 4.
    ReadFault,
    /// The input has more bytes than the limit: status 3.
    TooLong,
    /// The input is no scenario: status 3.
    Refused(ScenarioFault),
    /// There was not enough memory: status 6.
    OutOfMemory,
}

/// The word of a cause.
fn word_of(cause: LineCause) -> &'static [u8]
    ensures { result.now ≡ cause_word cause }
{
    match cause {
        LineCause::Empty => b"empty",
        LineCause::Word => b"word",
        LineCause::Later => b"later",
        LineCause::Form => b"form",
        LineCause::Order => b"order",
        LineCause::Range => b"range",
        LineCause::Page => b"page",
        LineCause::Count => b"count",
    }
}

/// The line of a refused scenario.
fn fault_text(alloc: Global, fault: ScenarioFault) -> Result<Vec<u8>, AllocError>
    ensures { IfOk result (λ line. line.items ≡ fault_line fault) }
{
    let mut buffer = Buffer::new();
    let mut line = Vec::from_slice(alloc, b"scenario: line ")?;
    line.extend_from_slice(buffer.format(fault.line).as_bytes())?;
    line.extend_from_slice(b": ")?;
    line.extend_from_slice(word_of(fault.cause))?;
    line.extend_from_slice(b"\n")?;
    Ok(line)
}

impl Stop {
    /// The exit status.
    pub fn status(self) -> u8
        ensures { result ≡ status_of self }
    {
        match self {
            Stop::ReadFault => 4,
            Stop::TooLong => 3,
            Stop::Refused(_) => 3,
            Stop::OutOfMemory => 6,
        }
    }

    /// The line that is written.
    pub fn line(self, alloc: Global) -> Result<Vec<u8>, AllocError>
        ensures { IfOk result (λ line. line.items ≡ stop_line self) }
    {
        match self {
            Stop::ReadFault => Vec::from_slice(alloc, b"read fault\n"),
            Stop::TooLong => Vec::from_slice(alloc, b"input: size\n"),
            Stop::Refused(fault) => fault_text(alloc, fault),
            Stop::OutOfMemory => Vec::from_slice(alloc, b"memory\n"),
        }
    }
}

impl From<OutOfMemory> for Stop {
    ghost from_gives = { λ _ stop. stop ≡ OutOfMemory };

    fn from(_e: OutOfMemory) -> Stop {
        Stop::OutOfMemory
    }
}
