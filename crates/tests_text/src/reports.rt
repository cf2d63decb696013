//! A report with a line of each shape, spelled by hand.

ghost use Rattle.std.specs.Prelude.{◌≤◌, length, IfOk, OnOk};
ghost use Rattle.std.specs.List.{AllByRecursion};
ghost use Rattle.report.specs.ReportText.{HasActState, HasResultState, HaveStates};

use evac_model::{
    BlockNo, Call, Cells, Config, DeviceAct, DeviceAction, Entry, EntryList, EvacCause, FrameNo,
    HostCommand, HostLine, HostResult, HostRun, HostRunList, Kind, Listed, Notice, PageNo, Reply,
    RequestBytes, Response, SpaceAction, Told, Tried, TriedList, TriedResult,
};
use report::{FinalPage, Report, write_report};
use std::alloc::Global;
use std::collections::LinkedList;
use std::process::Abort;
use std::test::Fail;

/// A PLUG of the block at 320.
const PLUG: [u8; 24] = [
    0, 0, 0, 0, 0, 0, 0, 0, 0x40, 1, 0, 0, 0, 0, 0, 0, 1, 0, 0, 0, 0, 0, 0, 0,
];

/// An UNPLUG_ALL.
const UNPLUG_ALL: [u8; 24] = [
    2, 0, 0, 0, 0, 0, 0, 0, 0, 0, 0, 0, 0, 0, 0, 0, 0, 0, 0, 0, 0, 0, 0, 0,
];

/// The device did what it was asked.
const ACK: Response = Response::Ack { state: 0 };

/// The calls of page 5 by owner 12, one after the other, and their replies.
fn history(alloc: Global, calls: &[(Call, Reply)]) -> Result<EntryList, Fail> {
    let mut entries = LinkedList::new(alloc);
    let mut ticket = 0u64;
    for (call, reply) in calls {
        entries.push_back(Entry {
            ticket,
            caller: 12,
            call_no: 1 << 20,
            page: PageNo(5),
            call: *call,
            reply: *reply,
        })?;
        ticket = ticket.wrapping_add(1);
    }
    Ok(entries)
}

/// The report of a run in which nothing happens, with no plugged block and no page.
fn nothing(alloc: Global) -> Report
    ensures { HaveStates result }
{
    Report {
        history: LinkedList::new(alloc),
        host: Listed::from_vec(Vec::new(alloc)),
        space_journal: Listed::from_vec(Vec::new(alloc)),
        device_journal: Listed::from_vec(Vec::new(alloc)),
        plugged: Listed::from_vec(Vec::new(alloc)),
        pages: Listed::from_vec(Vec::new(alloc)),
    }
}

/// The report has this text.
fn is_written(rt: &impl Abort, alloc: Global, report: &Report, text: &[u8]) -> Result<(), Fail>
    requires { HaveStates report.now }
{
    let written = write_report(alloc, report).ok().ok_or("memory")?;
    assert_eq!(rt; written.as_slice(), text);
    Ok(())
}

#[test]
fn a_line_of_each_call(rt: HostRuntime) -> Result<(), Fail> {
    let mut values = Cells::new();
    values.push(0);
    values.push(u64::MAX);
    let movable = Kind::Movable;
    let unmovable = Kind::Unmovable;
    let calls = [
        (Call::Alloc { kind: movable }, Reply::Done),
        (Call::Alloc { kind: unmovable }, Reply::Mapped),
        (Call::Alloc { kind: movable }, Reply::NoFrame { at: 30 }),
        (Call::Free, Reply::Pinned),
        (Call::Read { first: 3, count: 2 }, Reply::Values(values)),
        (Call::Write { first: 9, values }, Reply::NotMapped),
        (Call::Add { cell: 1, value: 8 }, Reply::Old(17)),
        (Call::Pin, Reply::PinLimit),
        (Call::Unpin, Reply::NotPinned),
    ];
    let text = b"call 0 12 1048576 alloc 5 movable = ok\n\
call 1 12 1048576 alloc 5 unmovable = mapped\n\
call 2 12 1048576 alloc 5 movable = noframe 30\n\
call 3 12 1048576 free 5 = pinned\n\
call 4 12 1048576 read 5 3 2 = 0 18446744073709551615\n\
call 5 12 1048576 write 5 9 0 18446744073709551615 = notmapped\n\
call 6 12 1048576 add 5 1 8 = 17\n\
call 7 12 1048576 pin 5 = pinlimit\n\
call 8 12 1048576 unpin 5 = notpinned\n\
plugged\n\
end\n";
    let mut report = nothing(rt.alloc());
    report.history = history(rt.alloc(), &calls)?;
    is_written(&rt, rt.alloc(), &report, text)
}

#[test]
fn lines_of_blocks_and_pages(rt: HostRuntime) -> Result<(), Fail> {
    let alloc = rt.alloc();
    let mut pages = Vec::new(alloc);
    pages.push(FinalPage {
        page: PageNo(2),
        kind: Kind::Unmovable,
        pins: 63,
        cells: Listed::from_vec(Vec::from_slice(alloc, &[0, 7, 0, 10])?),
    })?;
    pages.push(FinalPage {
        page: PageNo(65_535),
        kind: Kind::Movable,
        pins: 0,
        cells: Listed::from_vec(Vec::from_slice(alloc, &[0, 0, 0, 0])?),
    })?;
    let text = b"plugged 0 3 65535\n\
page 2 unmovable 63 1:7 3:10\n\
page 65535 movable 0\n\
end\n";
    let blocks = [BlockNo(0), BlockNo(3), BlockNo(65_535)];
    let mut report = nothing(alloc);
    report.plugged = Listed::from_vec(Vec::from_slice(alloc, &blocks)?);
    report.pages = Listed::from_vec(pages);
    is_written(&rt, alloc, &report, text)
}

// The actions are numbered from 0.
#[test]
fn a_line_of_each_action(rt: HostRuntime) -> Result<(), Fail> {
    let alloc = rt.alloc();
    let block = BlockNo(6);
    let actions = [
        SpaceAction::Lease {
            who: 12,
            frame: FrameNo(65_535),
            page: PageNo(5),
            kind: Kind::Movable,
        },
        SpaceAction::Lease {
            who: 1,
            frame: FrameNo(0),
            page: PageNo(4),
            kind: Kind::Unmovable,
        },
        SpaceAction::Isolate { block },
        SpaceAction::MoveLease {
            frame: FrameNo(30),
            page: PageNo(5),
        },
        SpaceAction::Return {
            who: 12,
            frame: FrameNo(65_535),
        },
        SpaceAction::Undo { block },
        SpaceAction::Isolate { block: BlockNo(0) },
        SpaceAction::Offline { block: BlockNo(0) },
        SpaceAction::Online { block: BlockNo(0) },
        SpaceAction::Return {
            who: 0,
            frame: FrameNo(30),
        },
        SpaceAction::Undo { block: BlockNo(7) },
    ];
    let text = b"space 0 lease 12 65535 alloc 5 movable\n\
space 1 lease 1 0 alloc 4 unmovable\n\
space 2 isolate 6\n\
space 3 lease 0 30 move 5\n\
space 4 return 12 65535\n\
space 5 undo 6\n\
space 6 isolate 0\n\
space 7 offline 0\n\
space 8 online 0\n\
space 9 return 0 30\n\
space 10 undo 7\n\
plugged\n\
end\n";
    let mut report = nothing(alloc);
    report.space_journal = Listed::from_vec(Vec::from_slice(alloc, &actions)?);
    is_written(&rt, alloc, &report, text)
}

/// The blocks with these numbers, and what came of each.
fn tried(alloc: Global, blocks: &[(u32, TriedResult)]) -> Result<TriedList, Fail> {
    let mut list = Vec::new(alloc);
    for (block, result) in blocks {
        list.push(Tried {
            block: BlockNo(*block),
            result: *result,
        })?;
    }
    Ok(Listed::from_vec(list))
}

/// A request of the host, what it gave, and the blocks that it tried.
fn asked(no: u64, bytes: &[u8], given: HostResult, tried: TriedList) -> HostRun
    requires bytes { length bytes.now ≤ 64 }
    requires state { HasResultState given }
    ensures { HasResultState result.line.result }
{
    HostRun {
        command: HostCommand::Request {
            bytes: RequestBytes::from_slice(bytes),
        },
        line: HostLine {
            no,
            result: given,
            tried,
        },
    }
}

/// The host reads the configuration of a machine with 2 cells in a frame, 4 frames in a block, and 2 boot and
/// 4 managed blocks, all of these plugged.
fn read(alloc: Global, no: u64) -> HostRun
    ensures { HasResultState result.line.result }
{
    let config = Config {
        block_size: 64,
        node_id: 0,
        addr: 128,
        region_size: 256,
        usable_region_size: 256,
        plugged_size: 256,
        requested_size: 256,
    };
    HostRun {
        command: HostCommand::Config,
        line: HostLine {
            no,
            result: HostResult::Config(config),
            tried: Listed::from_vec(Vec::new(alloc)),
        },
    }
}

/// Commands of each kind, which tried no block.
fn host_runs(alloc: Global) -> Result<HostRunList, Fail>
    ensures { IfOk result (λ runs. AllByRecursion (λ x. HasResultState x.line.result) runs) }
{
    let none = tried(alloc, &[])?;
    let acknowledged = asked(1, &PLUG, HostResult::Answered(ACK), none);
    let none = tried(alloc, &[])?;
    let refused = asked(2, &[0xaf], HostResult::Answered(Response::Error), none);
    let none = tried(alloc, &[])?;
    let unsent = asked(3, &UNPLUG_ALL, HostResult::Unsent, none);
    let runs = [read(alloc, 0), acknowledged, refused, unsent];
    Ok(Listed::from_vec(Vec::from_array(alloc, runs)?))
}

#[test]
fn a_line_of_each_command(rt: HostRuntime) -> Result<(), Fail> {
    let text =
        b"host 0 config = 4000000000000000000000000000000080000000000000000001000000000000000100000000000000010000000000000001000000000000\n\
host 1 request 000000000000000040010000000000000100000000000000 = 00000000000000000000\n\
host 2 request af = 03000000000000000000\n\
host 3 request 020000000000000000000000000000000000000000000000 = unsent\n\
plugged\n\
end\n";
    let mut report = nothing(rt.alloc());
    report.host = host_runs(rt.alloc())?;
    is_written(&rt, rt.alloc(), &report, text)
}

/// One request that tried blocks, and what came of them: each of the answers and of the causes.
fn all_tried(alloc: Global) -> Result<TriedList, Fail> {
    let frame = FrameNo(20);
    let page = PageNo(5);
    let max = u64::MAX;
    let pinned = EvacCause::Pinned {
        frame,
        page,
        word: 1_073_762_324,
    };
    let no_target = EvacCause::NoTarget { frame, page, at: 1 };
    let busy = EvacCause::Busy {
        frame: FrameNo(65_535),
        page: PageNo(0),
        words: [20_485, 0, 7, max, 4],
    };
    let blocks = [
        (7, TriedResult::Unplugged),
        (6, TriedResult::Emptied),
        (5, TriedResult::Answered(ACK)),
        (4, TriedResult::Answered(Response::Nack)),
        (3, TriedResult::Answered(Response::Busy)),
        (2, TriedResult::Answered(Response::Error)),
        (1, TriedResult::Failed(EvacCause::Unmovable { frame, page })),
        (0, TriedResult::Failed(pinned)),
        (12, TriedResult::Failed(no_target)),
        (11, TriedResult::Failed(busy)),
        (65_535, TriedResult::Plugged(ACK)),
        (10, TriedResult::Plugged(Response::Nack)),
        (9, TriedResult::Plugged(Response::Busy)),
        (8, TriedResult::Plugged(Response::Error)),
    ];
    tried(alloc, &blocks)
}

/// A report of one request that wasn't sent.
fn one_unsent(alloc: Global, tried: TriedList) -> Result<Report, Fail>
    ensures { IfOk result (λ report. HaveStates report) }
{
    let runs = [asked(0, &[1], HostResult::Unsent, tried)];
    let mut report = nothing(alloc);
    report.host = Listed::from_vec(Vec::from_array(alloc, runs)?);
    Ok(report)
}

#[test]
fn a_line_of_each_tried_block(rt: HostRuntime) -> Result<(), Fail> {
    let text = b"host 0 request 01 = unsent\n\
tried 7 unplugged\n\
tried 6 emptied\n\
tried 5 answered ack\n\
tried 4 answered nack\n\
tried 3 answered busy\n\
tried 2 answered error\n\
tried 1 unmovable 20 5\n\
tried 0 pinned 20 5 1073762324\n\
tried 12 no-target 20 5 1\n\
tried 11 busy 65535 0 20485 0 7 18446744073709551615 4\n\
plug 65535 ack\n\
plug 10 nack\n\
plug 9 busy\n\
plug 8 error\n\
plugged\n\
end\n";
    let report = one_unsent(rt.alloc(), all_tried(rt.alloc())?)?;
    is_written(&rt, rt.alloc(), &report, text)
}

/// Two requests that unplug all blocks: the first finds two that are plugged, the second none.
fn two_unplugs(alloc: Global) -> Result<Report, Fail>
    ensures { IfOk result (λ report. HaveStates report) }
{
    let emptied = TriedResult::Emptied;
    let two = tried(alloc, &[(1, emptied), (0, emptied)])?;
    let none = tried(alloc, &[])?;
    let runs = [
        asked(0, &UNPLUG_ALL, HostResult::Answered(ACK), two),
        asked(1, &UNPLUG_ALL, HostResult::Answered(ACK), none),
    ];
    let mut report = nothing(alloc);
    report.host = Listed::from_vec(Vec::from_array(alloc, runs)?);
    Ok(report)
}

#[test]
fn tried_blocks_stand_behind_their_command(rt: HostRuntime) -> Result<(), Fail> {
    let text =
        b"host 0 request 020000000000000000000000000000000000000000000000 = 00000000000000000000\n\
tried 1 emptied\n\
tried 0 emptied\n\
host 1 request 020000000000000000000000000000000000000000000000 = 00000000000000000000\n\
plugged\n\
end\n";
    is_written(&rt, rt.alloc(), &two_unplugs(rt.alloc())?, text)
}

/// Adds an action with its notices, of which each is a key, the two numbers of a range, and what was told.
fn push_action(
    alloc: Global,
    journal: &mut Vec<DeviceAction>,
    act: DeviceAct,
    calls: &[(Option<usize>, u32, u32, Told)],
) -> Result<(), Fail>
    requires new { HasActState act }
    requires old { AllByRecursion (λ a. HasActState a.act) journal.old.items }
    ensures { OnOk result (AllByRecursion (λ a. HasActState a.act) journal.new.items) }
{
    let mut notices = Vec::new(alloc);
    for (key, first, n, told) in calls {
        notices.push(Notice {
            key: *key,
            first: BlockNo(*first),
            n: *n,
            told: *told,
        })?;
    }
    let notices = Listed::from_vec(notices);
    Ok(journal.push(DeviceAction { act, notices })?)
}

/// Listeners 0 and 17 join, another refuses, and a block is plugged, which listener 17 refuses.
fn push_joins(alloc: Global, journal: &mut Vec<DeviceAction>) -> Result<(), Fail>
    requires { AllByRecursion (λ a. HasActState a.act) journal.old.items }
    ensures { OnOk result (AllByRecursion (λ a. HasActState a.act) journal.new.items) }
{
    let ok = Told::PopulateOk;
    let refused = Told::PopulateRefused;
    let told = [(Some(0), 0, 2, ok), (Some(0), 3, 65_533, ok)];
    push_action(alloc, journal, DeviceAct::Join { key: 0 }, &told)?;
    let told = [(Some(17), 0, 2, ok)];
    push_action(alloc, journal, DeviceAct::Join { key: 17 }, &told)?;
    let told = [(None, 0, 2, refused)];
    push_action(alloc, journal, DeviceAct::JoinRefused, &told)?;
    let request = DeviceAct::Request {
        bytes: RequestBytes::from_slice(&PLUG),
        response: Response::Busy,
    };
    let told = [
        (Some(0), 2, 1, ok),
        (Some(17), 2, 1, refused),
        (Some(0), 2, 1, Told::Discard),
    ];
    push_action(alloc, journal, request, &told)
}

/// A request that is refused and bytes that are none, and then a migration that is cancelled and one that finishes.
fn push_migrations(alloc: Global, journal: &mut Vec<DeviceAction>) -> Result<(), Fail>
    requires { AllByRecursion (λ a. HasActState a.act) journal.old.items }
    ensures { OnOk result (AllByRecursion (λ a. HasActState a.act) journal.new.items) }
{
    let refused = DeviceAct::Request {
        bytes: RequestBytes::from_slice(&PLUG),
        response: Response::Nack,
    };
    push_action(alloc, journal, refused, &[])?;
    let wrong = DeviceAct::Request {
        bytes: RequestBytes::from_slice(&[0xaf, 0, 0x1c]),
        response: Response::Error,
    };
    push_action(alloc, journal, wrong, &[])?;
    push_action(alloc, journal, DeviceAct::Begin, &[])?;
    push_action(alloc, journal, DeviceAct::Cancel, &[])?;
    push_action(alloc, journal, DeviceAct::Begin, &[])?;
    push_action(alloc, journal, DeviceAct::Finish, &[])
}

/// Actions of each kind.
fn device_journal(alloc: Global) -> Result<Listed<DeviceAction>, Fail>
    ensures { IfOk result (λ journal. AllByRecursion (λ a. HasActState a.act) journal) }
{
    let mut journal = Vec::new(alloc);
    let size = u64::MAX;
    push_action(alloc, &mut journal, DeviceAct::Requested { size }, &[])?;
    push_joins(alloc, &mut journal)?;
    push_migrations(alloc, &mut journal)?;
    let told = [(Some(17), 0, 2, Told::Discard)];
    push_action(alloc, &mut journal, DeviceAct::Leave { key: 17 }, &told)?;
    Ok(Listed::from_vec(journal))
}

// The notices of an action stand behind it, with its number.
#[test]
fn a_line_of_each_act_and_notice(rt: HostRuntime) -> Result<(), Fail> {
    let text = b"device 0 requested 18446744073709551615\n\
device 1 join 0\n\
notice 1 0 populate 0 2 ok\n\
notice 1 0 populate 3 65533 ok\n\
device 2 join 17\n\
notice 2 17 populate 0 2 ok\n\
device 3 join refused\n\
notice 3 new populate 0 2 refused\n\
device 4 request 000000000000000040010000000000000100000000000000 02000000000000000000\n\
notice 4 0 populate 2 1 ok\n\
notice 4 17 populate 2 1 refused\n\
notice 4 0 discard 2 1\n\
device 5 request 000000000000000040010000000000000100000000000000 01000000000000000000\n\
device 6 request af001c 03000000000000000000\n\
device 7 begin\n\
device 8 cancel\n\
device 9 begin\n\
device 10 finish\n\
device 11 leave 17\n\
notice 11 17 discard 0 2\n\
plugged\n\
end\n";
    let mut report = nothing(rt.alloc());
    report.device_journal = device_journal(rt.alloc())?;
    is_written(&rt, rt.alloc(), &report, text)
}

/// A report with a line in each section.
fn one_of_each(alloc: Global) -> Result<Report, Fail>
    ensures { IfOk result (λ report. HaveStates report) }
{
    let actions = [SpaceAction::Isolate { block: BlockNo(6) }];
    let told = [(None, 0, 1, Told::Discard)];
    let answer = HostResult::Answered(Response::Ack { state: 2 });
    let blocks = tried(alloc, &[(6, TriedResult::Emptied)])?;
    let runs = [asked(255, &[9], answer, blocks)];
    let mut journal = Vec::new(alloc);
    push_action(alloc, &mut journal, DeviceAct::JoinRefused, &told)?;
    let mut pages = Vec::new(alloc);
    pages.push(FinalPage {
        page: PageNo(5),
        kind: Kind::Movable,
        pins: 0,
        cells: Listed::from_vec(Vec::from_slice(alloc, &[1])?),
    })?;
    Ok(Report {
        history: history(alloc, &[(Call::Free, Reply::Done)])?,
        host: Listed::from_vec(Vec::from_array(alloc, runs)?),
        space_journal: Listed::from_vec(Vec::from_slice(alloc, &actions)?),
        device_journal: Listed::from_vec(journal),
        plugged: Listed::from_vec(Vec::from_slice(alloc, &[BlockNo(6)])?),
        pages: Listed::from_vec(pages),
    })
}

#[test]
fn sections_in_order(rt: HostRuntime) -> Result<(), Fail> {
    let text = b"call 0 12 1048576 free 5 = ok\n\
host 255 request 09 = 00000000000000000200\n\
tried 6 emptied\n\
space 0 isolate 6\n\
device 0 join refused\n\
notice 0 new discard 0 1\n\
plugged 6\n\
page 5 movable 0 0:1\n\
end\n";
    is_written(&rt, rt.alloc(), &one_of_each(rt.alloc())?, text)
}
