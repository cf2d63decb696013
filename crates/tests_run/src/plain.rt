//! Reports beside the plain machine.

ghost use Rattle.std.specs.Prelude.{◌≡◌};

use crate::replays::{bytes_of, numbers_of};
use evac::replay_main;
use evac_io::{MemSink, MemSource};
use evac_model::{Entry, EntryList, FrameNo, Geometry, Kind, PageNo, Plain, Reply, StartPage};
use report::Report;
use std::alloc::Global;
use std::process::Abort;
use std::test::Fail;

/// The plain machine answers an entry's call as the entry says.
fn is_answered_alike(rt: &impl Abort, plain: &mut Plain, geometry: &Geometry, e: &Entry)
    requires { plain.old.sizes ≡ geometry.now }
    ensures { plain.new.sizes ≡ geometry.now }
{
    assert!(rt; e.page.0 < geometry.pages());
    assert!(rt; e.call.fits(geometry));
    let no_frame = match e.reply {
        Reply::NoFrame { at } => Some(at),
        _ => None,
    };
    assert_eq!(rt; plain.apply(e.page, &e.call, no_frame), e.reply);
}

/// The plain machine answers each entry's call as the entry says, one after another.
fn are_answered_alike(rt: &impl Abort, plain: &mut Plain, geometry: &Geometry, entries: &EntryList)
    requires { plain.old.sizes ≡ geometry.now }
    ensures { plain.new.sizes ≡ geometry.now }
{
    for e in entries.iter() {
        is_answered_alike(rt, plain, geometry, e);
    }
}

/// The report of an input.
fn report_of(alloc: Global, input: &[u8]) -> Result<Report, Fail> {
    let mut source = MemSource::new(bytes_of(alloc, input)?, numbers_of(alloc, &[])?);
    let mut sink = MemSink::with_room(alloc, 1 << 16).ok().ok_or("room")?;
    let report = replay_main(alloc, &["replay"], &mut source, &mut sink).report;
    Ok(report.ok_or("report")?)
}

#[test]
fn replies_are_those_of_the_plain_machine(rt: HostRuntime) -> Result<(), Fail> {
    let alloc = rt.alloc();
    let lines =
        b"machine 4 2 1 2 2 4\npage 1 movable 5\n1 write 1 0 9 8\n2 read 1 0 4\n2 x3 alloc 3 movable\n1 alloc 3 movable\n2 x2 add 3 1 5\n1 x2 pin 3\n2 free 3\n1 x2 free 1\n2 alloc 2 unmovable\n1 x3 alloc 0 movable\n2 write 1 1 1\n1 x2 unpin 3\n2 x2 free 3\n1 read 1 0 4\n1 alloc 1 movable\n2 read 3 0 1\nturns 1*9 2*4\ndraw 5 300\n";
    let report = report_of(alloc, lines)?;
    let geometry = Geometry::new(4, 2, 1, 2, 2, 4)?;
    let start = [StartPage {
        page: PageNo(1),
        kind: Kind::Movable,
        frame: FrameNo(5),
    }];
    let mut plain = Plain::new(alloc, geometry, &start)?;
    assert_eq!(rt; report.history.len(), 25);
    are_answered_alike(&rt, &mut plain, &geometry, &report.history);
    Ok(())
}

/// The reply to each of 64 pins, a free, and 64 unpins of one page.
fn pinned_reply(ticket: u64) -> Reply {
    match ticket {
        63 => Reply::PinLimit,
        64 => Reply::Pinned,
        128 => Reply::NotPinned,
        _ => Reply::Done,
    }
}

#[test]
fn a_pinned_page_is_not_freed(rt: HostRuntime) -> Result<(), Fail> {
    let lines = b"machine 2 4 2 4 4 8\npage 0 movable 0\n1 x64 pin 0\n1 free 0\n1 x64 unpin 0\n";
    let report = report_of(rt.alloc(), lines)?;
    assert_eq!(rt; report.history.len(), 129);
    assert_eq!(rt; report.space_journal.len(), 0);
    for e in report.history.iter() {
        assert_eq!(rt; e.reply, pinned_reply(e.ticket));
    }
    Ok(())
}
