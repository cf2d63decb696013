//! Resizes of a small machine: what is told, and what is done upon it, counted by hand.
//!
//! 4 managed blocks of 64 bytes, of which so many are plugged at the start.

ghost use Rattle.std.specs.Prelude.{◌≤◌};

use crate::*;
use std::process::Abort;
use std::test::Fail;

const ACK: ResizeSeen = ResizeSeen::Answered(Response::Ack { state: 0 });

const BUSY: ResizeSeen = ResizeSeen::Answered(Response::Busy);

// What is done, by a letter and the block: p plug, + online, e evacuate, - offline, z zero, u unplug.
fn in_short(action: &ResizeAction) -> (char, u32) {
    match action {
        ResizeAction::Plug { first, n: 1 } => ('p', first.0),
        ResizeAction::Online { block } => ('+', block.0),
        ResizeAction::Evacuate { block } => ('e', block.0),
        ResizeAction::Offline { block } => ('-', block.0),
        ResizeAction::Zero { block } => ('z', block.0),
        ResizeAction::Unplug { first, n: 1 } => ('u', first.0),
        _ => ('?', 0),
    }
}

// Tells the resize each answer in turn, and compares what it does with what is wanted.
fn follow(rt: &impl Abort, resize: &mut Resize, table: &[(ResizeSeen, char, u32)]) {
    for (seen, letter, block) in table {
        let action = resize.next(*seen);
        assert_eq!(rt; in_short(&action), (*letter, *block));
    }
}

// The end, in bytes; a settled one has no goal.
fn end(
    rt: &impl Abort,
    resize: &mut Resize,
    seen: ResizeSeen,
    sizes: (u64, Option<u64>),
    list: &[(u32, TriedResult)],
) {
    let (given, tried) = match resize.next(seen) {
        ResizeAction::Settled { plugged, tried } => ((plugged, None), tried),
        ResizeAction::Short {
            plugged,
            goal,
            tried,
        } => ((plugged, Some(goal)), tried),
        _ => panic!(rt; "no end"),
    };
    assert_eq!(rt; given, sizes);
    assert_eq!(rt; tried.len(), list.len());
    for (one, (block, result)) in tried.as_slice().iter().zip(list) {
        assert_eq!(rt; one.block.0, *block);
        assert_eq!(rt; one.result, *result);
    }
}

// The region has 256 bytes.
fn resize(rt: &HostRuntime, plugged: u32, size: u64) -> Result<Resize, Fail>
    requires fits { size ≤ 256 }
{
    let geometry = Geometry::new(2, 4, 2, 4, plugged, 8)?;
    let map = BlockMap::new(rt.alloc(), geometry)?;
    Ok(Resize::new(rt.alloc(), geometry, &map, size)?)
}

const PINNED: EvacCause = EvacCause::Pinned {
    frame: evac_model::FrameNo(20),
    page: evac_model::PageNo(0),
    word: 1_073_762_324,
};

const ADDED: TriedResult = TriedResult::Plugged(Response::Ack { state: 0 });

#[test]
fn grows_from_the_lowest_unplugged_block(rt: HostRuntime) -> Result<(), Fail> {
    let mut resize = resize(&rt, 1, 192)?;
    let table = [
        (ResizeSeen::Start, 'p', 1),
        (ACK, '+', 1),
        (ResizeSeen::Done, 'p', 2),
        (ACK, '+', 2),
    ];
    follow(&rt, &mut resize, &table);
    end(
        &rt,
        &mut resize,
        ResizeSeen::Done,
        (192, None),
        &[(1, ADDED), (2, ADDED)],
    );
    end(&rt, &mut resize, ResizeSeen::Done, (192, None), &[]);
    Ok(())
}

#[test]
fn a_refused_plug_ends_it(rt: HostRuntime) -> Result<(), Fail> {
    let mut resize = resize(&rt, 1, 256)?;
    let table = [
        (ResizeSeen::Start, 'p', 1),
        (ACK, '+', 1),
        (ResizeSeen::Done, 'p', 2),
    ];
    follow(&rt, &mut resize, &table);
    let list = [(1, ADDED), (2, TriedResult::Plugged(Response::Busy))];
    end(&rt, &mut resize, BUSY, (128, Some(256)), &list);
    Ok(())
}

// A size that isn't a whole number of blocks is rounded down.
#[test]
fn shrinks_from_the_highest_plugged_block(rt: HostRuntime) -> Result<(), Fail> {
    let mut resize = resize(&rt, 3, 130)?;
    let table = [
        (ResizeSeen::Start, 'e', 2),
        (ResizeSeen::Emptied, '-', 2),
        (ResizeSeen::Done, 'z', 2),
        (ResizeSeen::Done, 'u', 2),
    ];
    follow(&rt, &mut resize, &table);
    end(
        &rt,
        &mut resize,
        ACK,
        (128, None),
        &[(2, TriedResult::Unplugged)],
    );
    Ok(())
}

#[test]
fn a_block_that_stays_is_passed_over(rt: HostRuntime) -> Result<(), Fail> {
    let mut resize = resize(&rt, 4, 192)?;
    let table = [
        (ResizeSeen::Start, 'e', 3),
        (ResizeSeen::Failed(PINNED), 'e', 2),
        (ResizeSeen::Emptied, '-', 2),
        (ResizeSeen::Done, 'z', 2),
        (ResizeSeen::Done, 'u', 2),
    ];
    follow(&rt, &mut resize, &table);
    let list = [
        (3, TriedResult::Failed(PINNED)),
        (2, TriedResult::Unplugged),
    ];
    end(&rt, &mut resize, ACK, (192, None), &list);
    Ok(())
}

#[test]
fn a_block_that_the_device_keeps_is_online_again(rt: HostRuntime) -> Result<(), Fail> {
    let mut resize = resize(&rt, 2, 0)?;
    let table = [
        (ResizeSeen::Start, 'e', 1),
        (ResizeSeen::Emptied, '-', 1),
        (ResizeSeen::Done, 'z', 1),
        (ResizeSeen::Done, 'u', 1),
        (BUSY, '+', 1),
        (ResizeSeen::Done, 'e', 0),
    ];
    follow(&rt, &mut resize, &table);
    let list = [
        (1, TriedResult::Answered(Response::Busy)),
        (0, TriedResult::Failed(PINNED)),
    ];
    end(
        &rt,
        &mut resize,
        ResizeSeen::Failed(PINNED),
        (128, Some(0)),
        &list,
    );
    Ok(())
}

// It settles at once, with so many bytes plugged.
fn settles(rt: &impl Abort, resize: &mut Resize, bytes: u64) {
    end(rt, resize, ResizeSeen::Start, (bytes, None), &[]);
}

#[test]
fn at_the_goal_nothing_is_done(rt: HostRuntime) -> Result<(), Fail> {
    settles(&rt, &mut resize(&rt, 0, 0)?, 0);
    settles(&rt, &mut resize(&rt, 0, 63)?, 0);
    settles(&rt, &mut resize(&rt, 2, 128)?, 128);
    settles(&rt, &mut resize(&rt, 2, 191)?, 128);
    settles(&rt, &mut resize(&rt, 4, 256)?, 256);
    Ok(())
}

#[test]
fn what_does_not_answer_is_asked_again(rt: HostRuntime) -> Result<(), Fail> {
    let mut resize = resize(&rt, 2, 64)?;
    let table = [
        (ResizeSeen::Done, 'e', 1),
        (ACK, 'e', 1),
        (ResizeSeen::Emptied, '-', 1),
        (ResizeSeen::Emptied, '-', 1),
        (ResizeSeen::Start, '-', 1),
        (ResizeSeen::Done, 'z', 1),
    ];
    follow(&rt, &mut resize, &table);
    Ok(())
}
