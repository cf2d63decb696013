//! The worked schedules, by reports counted by hand.

ghost use Rattle.std.specs.Prelude.{IfOk};
ghost use Rattle.evac_model.specs.Scenarios.{IsRunnable};

use crate::scenario_of;
use evac_model::{
    Call, Cells, Entry, FrameNo, HostCommand, HostResult, Kind, PageNo, Reply, RequestBytes,
    Response, Scenario, SpaceAction,
};
use replay::Replay;
use report::Report;
use std::alloc::Global;
use std::test::Fail;

/// A write of one cell.
fn write(first: u32, value: u64) -> Call {
    let mut values = Cells::new();
    values.push(value);
    Call::Write { first, values }
}

/// The reply with one value.
fn one(value: u64) -> Reply {
    let mut values = Cells::new();
    values.push(value);
    Reply::Values(values)
}

/// The reply with two values.
fn two(first: u64, second: u64) -> Reply {
    let mut values = Cells::new();
    values.push(first);
    values.push(second);
    Reply::Values(values)
}

/// An entry, by its ticket, its caller, its number in the caller's script, and its page.
fn entry(numbers: [u32; 4], call: Call, reply: Reply) -> Entry {
    let [ticket, caller, call_no, page] = numbers;
    Entry {
        ticket: ticket as u64,
        caller,
        call_no: call_no as u64,
        page: PageNo(page),
        call,
        reply,
    }
}

const ALLOC: Call = Call::Alloc {
    kind: Kind::Movable,
};

const ADD_MOST: Call = Call::Add {
    cell: 1,
    value: 18_446_744_073_709_551_615,
};

const READ_ONE: Call = Call::Read { first: 0, count: 1 };

const READ_TWO: Call = Call::Read { first: 0, count: 2 };

const READ_LAST: Call = Call::Read { first: 1, count: 1 };

/// The scenario of a text.
fn read(alloc: Global, text: &[u8]) -> Result<Scenario, Fail>
    ensures { IfOk result (λ s. IsRunnable s) }
{
    let read = scenario_of(alloc, text);
    Ok(read.ok_or("scenario")?)
}

/// The report of a scenario's run.
fn report(alloc: Global, text: &[u8]) -> Result<Report, Fail> {
    let s = read(alloc, text)?;
    let replay = Replay::open(alloc, &s).ok().ok_or("memory")?;
    let report = replay.run(alloc).ok().ok_or("memory")?;
    Ok(report)
}

/// The entries of a report, in order.
fn entries(alloc: Global, report: &Report) -> Result<Vec<Entry>, Fail> {
    let mut entries = Vec::new(alloc);
    for e in report.history.iter() {
        entries.push(*e)?;
    }
    Ok(entries)
}

/// The most turns of a scenario's run.
fn bound(alloc: Global, text: &[u8]) -> Result<u64, Fail> {
    let s = read(alloc, text)?;
    let replay = Replay::open(alloc, &s).ok().ok_or("memory")?;
    Ok(replay.bound())
}

/// Owner 1 writes and owner 2 reads; the named turns let the write begin.
const WRITE_FIRST: &[u8] =
    b"machine 2 4 2 4 4 8\npage 0 movable 0\npage 1 unmovable 3\n1 write 0 0 7\n2 read 0 0 1\nturns 1 2*3 1*4\n";

#[test]
fn a_write_that_is_taken_first_is_first(rt: HostRuntime) -> Result<(), Fail> {
    let report = report(rt.alloc(), WRITE_FIRST)?;
    let entries = entries(rt.alloc(), &report)?;
    assert_eq!(rt;
        entries.as_slice(),
        [
            entry([0, 1, 0, 0], write(0, 7), Reply::Done),
            entry([1, 2, 0, 0], READ_ONE, one(7)),
        ]
        .as_slice()
    );
    Ok(())
}

/// The same, where the read begins.
const READ_FIRST: &[u8] =
    b"machine 2 4 2 4 4 8\npage 0 movable 0\npage 1 unmovable 3\n1 write 0 0 7\n2 read 0 0 1\nturns 2 1*3 2*3\n";

#[test]
fn a_read_that_is_taken_first_is_first(rt: HostRuntime) -> Result<(), Fail> {
    let report = report(rt.alloc(), READ_FIRST)?;
    let entries = entries(rt.alloc(), &report)?;
    assert_eq!(rt;
        entries.as_slice(),
        [
            entry([0, 2, 0, 0], READ_ONE, one(0)),
            entry([1, 1, 0, 0], write(0, 7), Reply::Done),
        ]
        .as_slice()
    );
    Ok(())
}

/// Two owners write and read two pages.
const TWO_OWNERS: &[u8] =
    b"machine 2 4 2 4 4 8\npage 0 movable 0\npage 1 unmovable 3\n1 write 0 0 7\n1 read 1 1 1\n1 read 0 0 2\n2 read 0 0 2\n2 write 1 1 9\n";

#[test]
fn two_owners_in_rounds(rt: HostRuntime) -> Result<(), Fail> {
    let report = report(rt.alloc(), TWO_OWNERS)?;
    let entries = entries(rt.alloc(), &report)?;
    assert_eq!(rt;
        entries.as_slice(),
        [
            entry([0, 1, 0, 0], write(0, 7), Reply::Done),
            entry([1, 2, 0, 0], READ_TWO, two(7, 0)),
            entry([2, 1, 1, 1], READ_LAST, one(0)),
            entry([3, 1, 2, 0], READ_TWO, two(7, 0)),
            entry([4, 2, 1, 1], write(1, 9), Reply::Done),
        ]
        .as_slice()
    );
    assert_eq!(rt; report.plugged.len(), 4);
    let [first, second] = report.pages.as_slice() else {
        return Err("pages".into());
    };
    assert_eq!(rt; first.page, PageNo(0));
    assert_eq!(rt; first.cells.as_slice(), [7, 0].as_slice());
    assert_eq!(rt; first.kind, Kind::Movable);
    assert_eq!(rt; second.page, PageNo(1));
    assert_eq!(rt; second.cells.as_slice(), [0, 9].as_slice());
    assert_eq!(rt; second.kind, Kind::Unmovable);
    Ok(())
}

/// The same, with turns drawn before the rounds.
const TWO_OWNERS_DRAWN: &[u8] =
    b"machine 2 4 2 4 4 8\npage 0 movable 0\npage 1 unmovable 3\n1 write 0 0 7\n1 read 1 1 1\n1 read 0 0 2\n2 read 0 0 2\n2 write 1 1 9\ndraw 1 40\n";

#[test]
fn drawn_turns_come_before_the_rounds(rt: HostRuntime) -> Result<(), Fail> {
    let report = report(rt.alloc(), TWO_OWNERS_DRAWN)?;
    let entries = entries(rt.alloc(), &report)?;
    assert_eq!(rt;
        entries.as_slice(),
        [
            entry([0, 2, 0, 0], READ_TWO, two(0, 0)),
            entry([1, 1, 0, 0], write(0, 7), Reply::Done),
            entry([2, 2, 1, 1], write(1, 9), Reply::Done),
            entry([3, 1, 1, 1], READ_LAST, one(9)),
            entry([4, 1, 2, 0], READ_TWO, two(7, 0)),
        ]
        .as_slice()
    );
    Ok(())
}

/// The same as without drawn turns, with named turns of an owner that has no script.
const TWO_OWNERS_AND_A_THIRD: &[u8] =
    b"machine 2 4 2 4 4 8\npage 0 movable 0\npage 1 unmovable 3\n1 write 0 0 7\n1 read 1 1 1\n1 read 0 0 2\n2 read 0 0 2\n2 write 1 1 9\nturns 3*9\n";

#[test]
fn turns_of_an_owner_without_a_script_do_nothing(rt: HostRuntime) -> Result<(), Fail> {
    let rounds = report(rt.alloc(), TWO_OWNERS)?;
    let named = report(rt.alloc(), TWO_OWNERS_AND_A_THIRD)?;
    assert_eq!(rt; named.history.len(), 5);
    let (named, rounds) = (entries(rt.alloc(), &named)?, entries(rt.alloc(), &rounds)?);
    assert_eq!(rt; named.as_slice(), rounds.as_slice());
    let turns = bound(rt.alloc(), TWO_OWNERS)?;
    assert_eq!(rt;
        bound(rt.alloc(), TWO_OWNERS_AND_A_THIRD)?,
        turns.wrapping_add(9)
    );
    Ok(())
}

/// An owner pins a page 64 times.
const PINS: &[u8] = b"machine 2 4 2 4 4 8\npage 0 movable 0\npage 1 unmovable 3\n1 x64 pin 0\n";

#[test]
fn a_page_has_at_most_63_pins(rt: HostRuntime) -> Result<(), Fail> {
    let report = report(rt.alloc(), PINS)?;
    assert_eq!(rt; report.history.len(), 64);
    for e in report.history.iter() {
        let reply = if e.ticket < 63 {
            Reply::Done
        } else {
            Reply::PinLimit
        };
        assert_eq!(rt; e.reply, reply);
    }
    let [first, _] = report.pages.as_slice() else {
        return Err("pages".into());
    };
    assert_eq!(rt; first.pins, 63);
    Ok(())
}

/// A lease for a movable page.
fn lease(who: u32, frame: u32, page: u32) -> SpaceAction {
    SpaceAction::Lease {
        who,
        frame: FrameNo(frame),
        page: PageNo(page),
        kind: Kind::Movable,
    }
}

/// A frame that was given back.
fn give_back(who: u32, frame: u32) -> SpaceAction {
    SpaceAction::Return {
        who,
        frame: FrameNo(frame),
    }
}

/// Owner 1 maps, writes and frees a page, and owner 2 maps and reads it behind that.
const MAP_AND_FREE: &[u8] =
    b"machine 2 4 2 4 4 8\n1 alloc 0 movable\n1 write 0 0 5\n1 free 0\n2 alloc 0 movable\n2 read 0 0 2\nturns 1*18\n";

// 8 turns for the alloc, 5 for the write and 5 for the free.
#[test]
fn an_alloc_is_zeroed_mapped_and_freed(rt: HostRuntime) -> Result<(), Fail> {
    let report = report(rt.alloc(), MAP_AND_FREE)?;
    let entries = entries(rt.alloc(), &report)?;
    assert_eq!(rt;
        entries.as_slice(),
        [
            entry([0, 1, 0, 0], ALLOC, Reply::Done),
            entry([1, 1, 1, 0], write(0, 5), Reply::Done),
            entry([2, 1, 2, 0], Call::Free, Reply::Done),
            entry([3, 2, 0, 0], ALLOC, Reply::Done),
            entry([4, 2, 1, 0], READ_TWO, two(0, 0)),
        ]
        .as_slice()
    );
    assert_eq!(rt;
        report.space_journal.as_slice(),
        [lease(1, 0, 0), give_back(1, 0), lease(2, 4, 0)].as_slice()
    );
    Ok(())
}

/// An owner allocates a page that is mapped, and adds to it.
const MAP_A_MAPPED_PAGE: &[u8] =
    b"machine 2 4 2 4 4 8\npage 0 movable 0\n1 alloc 0 movable\n1 x2 add 0 1 18446744073709551615\n";

#[test]
fn a_mapped_page_is_not_allocated(rt: HostRuntime) -> Result<(), Fail> {
    let report = report(rt.alloc(), MAP_A_MAPPED_PAGE)?;
    let entries = entries(rt.alloc(), &report)?;
    assert_eq!(rt;
        entries.as_slice(),
        [
            entry([0, 1, 0, 0], ALLOC, Reply::Mapped),
            entry([1, 1, 1, 0], ADD_MOST, Reply::Old(0)),
            entry(
                [2, 1, 2, 0],
                ADD_MOST,
                Reply::Old(18_446_744_073_709_551_615)
            ),
        ]
        .as_slice()
    );
    assert_eq!(rt;
        report.space_journal.as_slice(),
        [lease(1, 4, 0), give_back(1, 4)].as_slice()
    );
    Ok(())
}

/// An owner allocates a page, and all frames are those of start pages.
const FULL_MACHINE: &[u8] =
    b"machine 1 2 1 1 1 5\npage 0 movable 0\npage 1 movable 1\npage 2 movable 2\npage 3 movable 3\n1 alloc 4 movable\n";

#[test]
fn a_full_machine_has_no_frame(rt: HostRuntime) -> Result<(), Fail> {
    let report = report(rt.alloc(), FULL_MACHINE)?;
    let entries = entries(rt.alloc(), &report)?;
    assert_eq!(rt;
        entries.as_slice(),
        [entry([0, 1, 0, 4], ALLOC, Reply::NoFrame { at: 0 })].as_slice()
    );
    assert_eq!(rt; report.space_journal.len(), 0);
    Ok(())
}

// 8 named turns, and 4 actors in 1 + 2 * (2 + 6) rounds.
#[test]
fn the_bound_counts_turns(rt: HostRuntime) -> Result<(), Fail> {
    assert_eq!(rt; bound(rt.alloc(), WRITE_FIRST)?, 76);
    Ok(())
}

/// Owner 1 writes and owner 2 reads beside a host that reads the configuration, sends a byte, and reads it again.
const COMMANDS_BESIDE_CALLS: &[u8] =
    b"machine 2 4 2 4 4 8\npage 0 movable 0\npage 1 unmovable 3\n1 write 0 0 7\n2 read 0 0 1\nhost config\nhost request ff\nhost config\nturns 1 h*2 2*3\n";

/// A request of one byte, which is none.
fn one_byte() -> HostCommand {
    HostCommand::Request {
        bytes: RequestBytes::from_slice(&[255]),
    }
}

#[test]
fn the_host_runs_its_commands_beside_calls(rt: HostRuntime) -> Result<(), Fail> {
    let report = report(rt.alloc(), COMMANDS_BESIDE_CALLS)?;
    assert_eq!(rt; report.history.len(), 2);
    assert_eq!(rt; report.device_journal.len(), 1);
    assert_eq!(rt; report.plugged.len(), 4);
    let [first, second, third] = report.host.as_slice() else {
        return Err("commands".into());
    };
    assert_eq!(rt; [first.line.no, second.line.no, third.line.no], [0, 1, 2]);
    assert_eq!(rt; second.command, one_byte());
    assert_eq!(rt; second.line.result, HostResult::Answered(Response::Error));
    assert_eq!(rt; first.line.result, third.line.result);
    let HostResult::Config(config) = third.line.result else {
        return Err("configuration".into());
    };
    assert_eq!(rt; config.plugged_size, 256);
    Ok(())
}

// 6 named turns, and 4 actors in 1 + 2 * (2 + 6) + 3 * (24 * (11 * 2 + 36) + 9 * 4 + 4) rounds.
#[test]
fn the_bound_counts_commands(rt: HostRuntime) -> Result<(), Fail> {
    assert_eq!(rt; bound(rt.alloc(), COMMANDS_BESIDE_CALLS)?, 17_258);
    Ok(())
}
