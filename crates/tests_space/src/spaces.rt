//! The space of a small machine, and of a large one.

use crate::small_geometry;
use space::{
    BlockNo, FrameNo, Geometry, IsolateFault, Kind, LeaseFault, MoveLeaseFault, NotEmpty,
    OutOfMemory, PageNo, Space, SpaceAction, StartPage,
};
use std::alloc::Global;
use std::process::Abort;
use std::test::Fail;

/// A space whose frames are all free, but for those of the blocks that aren't plugged.
fn open_free(alloc: Global, geometry: Geometry, online: Kind) -> Result<Space, OutOfMemory> {
    Space::open(alloc, geometry, online, &[])
}

/// What is asked of a space: the caller, the page and the kind of a lease; the block of a move lease and of a
/// search for a frame that is out, and the frame behind which they look; the caller and the frame of a return; the
/// block of the others.
#[derive(Clone, Copy, Debug)]
enum Ask {
    Lease(u32, u32, Kind),
    MoveLease(u32, Option<u32>),
    Out(u32, Option<u32>),
    Return(u32, u32),
    Isolate(u32),
    Undo(u32),
    Offline(u32),
    Online(u32),
}

/// What it answers: a move lease has the frame, the page and the target.
#[derive(Clone, Copy, Debug, PartialEq, Eq)]
enum Reply {
    Done,
    Frame(u32),
    NoFrame(u64),
    Moved(u32, u32, u32),
    NoTarget(u32, u32, u64),
    Out(u32, u32),
    NoneOut,
    Unmovable(u32, u32),
    NotEmpty(u32),
    OutOfMemory,
}

fn lease(rt: &impl Abort, space: &mut Space, who: u32, page: u32, kind: Kind) -> Reply {
    assert!(rt; who <= 16);
    assert!(rt; page < space.geometry().pages());
    match space.lease(who, PageNo(page), kind) {
        Ok(frame) => Reply::Frame(frame.0),
        Err(LeaseFault::NoFrame { at }) => Reply::NoFrame(at),
        Err(LeaseFault::OutOfMemory) => Reply::OutOfMemory,
    }
}

fn move_lease(rt: &impl Abort, space: &mut Space, block: u32, after: Option<u32>) -> Reply {
    assert!(rt; space.is_isolated(BlockNo(block)));
    match space.lease_for_move(BlockNo(block), after.map(FrameNo)) {
        Ok(Some(lease)) => Reply::Moved(lease.from.0, lease.page.0, lease.target.0),
        Ok(None) => Reply::NoneOut,
        Err(MoveLeaseFault::NoTarget { from, page, at }) => Reply::NoTarget(from.0, page.0, at),
        Err(MoveLeaseFault::OutOfMemory) => Reply::OutOfMemory,
    }
}

fn out_after(rt: &impl Abort, space: &Space, block: u32, after: Option<u32>) -> Reply {
    assert!(rt; block < space.geometry().managed());
    match space.out_after(BlockNo(block), after.map(FrameNo)) {
        Some((frame, page)) => Reply::Out(frame.0, page.0),
        None => Reply::NoneOut,
    }
}

fn give_back(rt: &impl Abort, space: &mut Space, who: u32, frame: u32) -> Reply {
    assert!(rt; who <= 16);
    assert!(rt; space.out_at(FrameNo(frame)).is_some());
    space.give_back(who, FrameNo(frame));
    Reply::Done
}

fn isolate(rt: &impl Abort, space: &mut Space, block: u32) -> Reply {
    assert!(rt; block < space.geometry().managed());
    assert!(rt; !space.is_isolated(BlockNo(block)));
    match space.isolate(BlockNo(block)) {
        Ok(()) => Reply::Done,
        Err(IsolateFault::Unmovable { frame, page }) => Reply::Unmovable(frame.0, page.0),
        Err(IsolateFault::OutOfMemory) => Reply::OutOfMemory,
    }
}

fn undo(rt: &impl Abort, space: &mut Space, block: u32) -> Reply {
    assert!(rt; space.is_isolated(BlockNo(block)));
    assert!(rt; !space.is_offline(BlockNo(block)));
    space.undo(BlockNo(block));
    Reply::Done
}

fn offline(rt: &impl Abort, space: &mut Space, block: u32) -> Reply {
    assert!(rt; space.is_isolated(BlockNo(block)));
    assert!(rt; !space.is_offline(BlockNo(block)));
    match space.offline(BlockNo(block)) {
        Ok(()) => Reply::Done,
        Err(NotEmpty { frame }) => Reply::NotEmpty(frame.0),
    }
}

fn online(rt: &impl Abort, space: &mut Space, block: u32) -> Reply {
    assert!(rt; space.is_offline(BlockNo(block)));
    space.online(BlockNo(block));
    Reply::Done
}

fn answer(rt: &impl Abort, space: &mut Space, ask: Ask) -> Reply {
    match ask {
        Ask::Lease(who, page, kind) => lease(rt, space, who, page, kind),
        Ask::MoveLease(block, after) => move_lease(rt, space, block, after),
        Ask::Out(block, after) => out_after(rt, space, block, after),
        Ask::Return(who, frame) => give_back(rt, space, who, frame),
        Ask::Isolate(block) => isolate(rt, space, block),
        Ask::Undo(block) => undo(rt, space, block),
        Ask::Offline(block) => offline(rt, space, block),
        Ask::Online(block) => online(rt, space, block),
    }
}

/// Asks in turn, and compares the answers.
fn expect_answers(rt: &impl Abort, space: &mut Space, table: &[(Ask, Reply)]) {
    for (place, (ask, want)) in table.iter().enumerate() {
        assert_eq!(rt; answer(rt, space, *ask), *want, "place {place}");
    }
}

// Blocks of 4 frames: boot frames 0 to 7, then those of the managed blocks 0 (8 to 11), 1 (12 to 15),
// 2 (16 to 19) and 3 (20 to 23).
#[test]
fn leases(rt: HostRuntime) -> Result<(), Fail> {
    let geometry = small_geometry(4)?;
    // kernel pages lie in boot blocks alone
    let mut space = open_free(rt.alloc(), geometry, Kind::Movable)?;
    assert_eq!(rt; space.geometry(), geometry);
    expect_answers(
        &rt,
        &mut space,
        &[
            (Ask::Lease(1, 0, Kind::Movable), Reply::Frame(0)),
            (Ask::Return(1, 0), Reply::Done),
            (Ask::Lease(2, 1, Kind::Movable), Reply::Frame(4)),
            (Ask::Lease(1, 0, Kind::Movable), Reply::Frame(0)),
            // the caches' boot frames are drained
            (Ask::Lease(3, 2, Kind::Unmovable), Reply::Frame(1)),
            (Ask::Lease(3, 3, Kind::Unmovable), Reply::Frame(5)),
            (Ask::Lease(3, 4, Kind::Unmovable), Reply::Frame(2)),
            (Ask::Lease(3, 5, Kind::Unmovable), Reply::Frame(3)),
            (Ask::Lease(3, 6, Kind::Unmovable), Reply::Frame(6)),
            (Ask::Lease(3, 7, Kind::Unmovable), Reply::Frame(7)),
            (Ask::Lease(4, 6, Kind::Unmovable), Reply::NoFrame(10)),
            (Ask::Lease(4, 6, Kind::Movable), Reply::Frame(8)),
            (Ask::Lease(4, 7, Kind::Unmovable), Reply::NoFrame(11)),
            (Ask::Lease(4, 7, Kind::Movable), Reply::Frame(9)),
        ],
    );
    assert_eq!(rt; space.journal().len(), 12);
    assert_eq!(rt; space.out_at(FrameNo(9)), Some((PageNo(7), Kind::Movable)));
    assert_eq!(rt; space.out_at(FrameNo(10)), None);
    // kernel pages lie in all blocks: a run of 4 frames, then of 2, then of 1, then once caches are drained
    let mut space = open_free(rt.alloc(), geometry, Kind::Unmovable)?;
    expect_answers(
        &rt,
        &mut space,
        &[
            (Ask::Lease(1, 0, Kind::Unmovable), Reply::Frame(0)),
            (Ask::Lease(1, 1, Kind::Movable), Reply::Frame(4)),
            (Ask::Lease(2, 2, Kind::Movable), Reply::Frame(8)),
            (Ask::Lease(3, 3, Kind::Movable), Reply::Frame(12)),
            (Ask::Lease(4, 4, Kind::Movable), Reply::Frame(16)),
            (Ask::Lease(5, 5, Kind::Movable), Reply::Frame(20)),
            (Ask::Lease(6, 6, Kind::Movable), Reply::Frame(2)),
            (Ask::Lease(7, 7, Kind::Movable), Reply::Frame(1)),
            (Ask::Lease(8, 0, Kind::Movable), Reply::Frame(6)),
            (Ask::Isolate(0), Reply::Done),
            (Ask::Undo(0), Reply::Done),
            (Ask::Lease(9, 1, Kind::Unmovable), Reply::Frame(3)),
            (Ask::Lease(9, 2, Kind::Unmovable), Reply::Frame(5)),
            (Ask::Lease(9, 3, Kind::Unmovable), Reply::Frame(9)),
            (Ask::Isolate(0), Reply::Unmovable(9, 3)),
        ],
    );
    Ok(())
}

// The same machine. Twelve leases, then nine returns, of which the ninth pushes the first out.
#[test]
fn returns(rt: HostRuntime) -> Result<(), Fail> {
    let geometry = small_geometry(4)?;
    let mut space = open_free(rt.alloc(), geometry, Kind::Movable)?;
    for frame in 0..12 {
        assert_eq!(rt;
            lease(&rt, &mut space, 3, 0, Kind::Movable),
            Reply::Frame(frame)
        );
    }
    for frame in 0..9 {
        assert_eq!(rt; give_back(&rt, &mut space, 3, frame), Reply::Done);
    }
    expect_answers(
        &rt,
        &mut space,
        &[
            (Ask::Lease(4, 0, Kind::Unmovable), Reply::Frame(0)),
            (Ask::Lease(4, 1, Kind::Unmovable), Reply::Frame(1)),
            (Ask::Lease(3, 2, Kind::Movable), Reply::Frame(8)),
            (Ask::Lease(3, 3, Kind::Movable), Reply::Frame(4)),
        ],
    );
    Ok(())
}

// The same machine: frames of an isolated block, which is then taken away and given back.
#[test]
fn isolation(rt: HostRuntime) -> Result<(), Fail> {
    let geometry = small_geometry(4)?;
    let mut space = open_free(rt.alloc(), geometry, Kind::Movable)?;
    for frame in 0..9 {
        assert_eq!(rt;
            lease(&rt, &mut space, 1, 0, Kind::Movable),
            Reply::Frame(frame)
        );
    }
    expect_answers(
        &rt,
        &mut space,
        &[
            (Ask::Isolate(0), Reply::Done),
            (Ask::Offline(0), Reply::NotEmpty(8)),
            (Ask::Lease(1, 1, Kind::Movable), Reply::Frame(12)),
            (Ask::Return(1, 8), Reply::Done),
            (Ask::Lease(2, 2, Kind::Movable), Reply::Frame(16)),
            (Ask::Undo(0), Reply::Done),
            (Ask::Lease(3, 3, Kind::Movable), Reply::Frame(8)),
            (Ask::Return(3, 8), Reply::Done),
            (Ask::Isolate(0), Reply::Done),
            (Ask::Offline(0), Reply::Done),
            (Ask::Lease(3, 4, Kind::Movable), Reply::Frame(20)),
            (Ask::Lease(4, 5, Kind::Movable), Reply::Frame(14)),
        ],
    );
    assert_eq!(rt; space.is_offline(BlockNo(0)), true);
    assert_eq!(rt; space.is_offline(BlockNo(1)), false);
    expect_answers(
        &rt,
        &mut space,
        &[
            (Ask::Online(0), Reply::Done),
            (Ask::Lease(5, 6, Kind::Movable), Reply::Frame(8)),
        ],
    );
    assert_eq!(rt; space.is_isolated(BlockNo(0)), false);
    assert_eq!(rt; space.journal().len(), 22);
    Ok(())
}

// The same machine: targets for the pages of isolated blocks, until no frame is free.
#[test]
fn move_leases(rt: HostRuntime) -> Result<(), Fail> {
    let geometry = small_geometry(4)?;
    let mut space = open_free(rt.alloc(), geometry, Kind::Movable)?;
    for frame in 0..9 {
        assert_eq!(rt;
            lease(&rt, &mut space, 1, 0, Kind::Movable),
            Reply::Frame(frame)
        );
    }
    expect_answers(
        &rt,
        &mut space,
        &[
            // frames 8 and 9 of block 0 are out, and 10 and 11 in the cache
            (Ask::Lease(1, 1, Kind::Movable), Reply::Frame(9)),
            (Ask::Isolate(0), Reply::Done),
            // the driver's cache is empty: it gets the run of 4 frames from 12 on
            (Ask::MoveLease(0, None), Reply::Moved(8, 0, 12)),
            (Ask::MoveLease(0, Some(8)), Reply::Moved(9, 1, 13)),
            (Ask::MoveLease(0, Some(9)), Reply::NoneOut),
            // a frame of another block, and a number that is no frame's
            (Ask::MoveLease(0, Some(3)), Reply::Moved(8, 0, 14)),
            (Ask::MoveLease(0, Some(12)), Reply::NoneOut),
            (Ask::MoveLease(0, Some(4_294_967_295)), Reply::NoneOut),
            (Ask::Out(0, None), Reply::Out(8, 0)),
            (Ask::Out(0, Some(8)), Reply::Out(9, 1)),
            (Ask::Out(0, Some(9)), Reply::NoneOut),
            (Ask::Out(1, Some(12)), Reply::Out(13, 1)),
            (Ask::Out(2, None), Reply::NoneOut),
            // 15 leaves the driver's cache, which gets the run from 16 on
            (Ask::Isolate(1), Reply::Done),
            (Ask::MoveLease(1, Some(12)), Reply::Moved(13, 1, 16)),
            (Ask::Lease(0, 2, Kind::Movable), Reply::Frame(17)),
            (Ask::Lease(0, 2, Kind::Movable), Reply::Frame(18)),
            (Ask::Lease(0, 2, Kind::Movable), Reply::Frame(19)),
            (Ask::Lease(0, 2, Kind::Movable), Reply::Frame(20)),
            (Ask::Lease(0, 2, Kind::Movable), Reply::Frame(21)),
            (Ask::Lease(0, 2, Kind::Movable), Reply::Frame(22)),
            (Ask::Lease(0, 2, Kind::Movable), Reply::Frame(23)),
            // 10, 11 and 15 are kept aside
            (Ask::MoveLease(0, None), Reply::NoTarget(8, 0, 23)),
            (Ask::MoveLease(0, Some(8)), Reply::NoTarget(9, 1, 23)),
            (Ask::MoveLease(0, Some(9)), Reply::NoneOut),
            // a frame of another caller's cache
            (Ask::Return(5, 3), Reply::Done),
            (Ask::MoveLease(0, Some(8)), Reply::Moved(9, 1, 3)),
        ],
    );
    assert_eq!(rt; space.journal().len(), 25);
    let Some(action) = space.journal().get(12) else {
        panic!(rt; "no thirteenth action");
    };
    let want = SpaceAction::MoveLease {
        frame: FrameNo(13),
        page: PageNo(1),
    };
    assert_eq!(rt; *action, want);
    assert_eq!(rt; space.out_at(FrameNo(13)), Some((PageNo(1), Kind::Movable)));
    Ok(())
}

// The same machine, with block 3 not plugged and two pages mapped at the start.
#[test]
fn opening(rt: HostRuntime) -> Result<(), Fail> {
    let geometry = small_geometry(3)?;
    let start = [
        StartPage {
            page: PageNo(3),
            kind: Kind::Movable,
            frame: FrameNo(9),
        },
        StartPage {
            page: PageNo(4),
            kind: Kind::Unmovable,
            frame: FrameNo(2),
        },
    ];
    let mut space = Space::open(rt.alloc(), geometry, Kind::Movable, &start)?;
    for (block, want) in [(0, false), (2, false), (3, true), (4, false)] {
        assert_eq!(rt; space.is_offline(BlockNo(block)), want, "block {block}");
        assert_eq!(rt; space.is_isolated(BlockNo(block)), want, "block {block}");
    }
    assert_eq!(rt;
        space.out_at(FrameNo(2)),
        Some((PageNo(4), Kind::Unmovable))
    );
    assert_eq!(rt; space.out_at(FrameNo(9)), Some((PageNo(3), Kind::Movable)));
    expect_answers(
        &rt,
        &mut space,
        &[
            // the runs of 4 frames are 4 to 7, 12 to 15 and 16 to 19
            (Ask::Lease(1, 0, Kind::Movable), Reply::Frame(4)),
            (Ask::Lease(2, 0, Kind::Movable), Reply::Frame(12)),
            (Ask::Lease(3, 0, Kind::Movable), Reply::Frame(16)),
            (Ask::Lease(4, 0, Kind::Movable), Reply::Frame(0)),
            (Ask::Online(3), Reply::Done),
            (Ask::Lease(5, 0, Kind::Movable), Reply::Frame(20)),
            (Ask::Return(0, 9), Reply::Done),
            (Ask::Lease(0, 0, Kind::Movable), Reply::Frame(9)),
        ],
    );
    Ok(())
}

// 65,536 frames in 128 blocks: each is leased once, and given back.
#[test]
fn large_machine(rt: HostRuntime) -> Result<(), Fail> {
    let geometry = Geometry::new(1, 512, 1, 127, 127, 1)?;
    let mut space = open_free(rt.alloc(), geometry, Kind::Movable)?;
    for frame in 0..65_536 {
        assert_eq!(rt;
            lease(&rt, &mut space, 1 + frame % 16, 0, Kind::Movable) != Reply::OutOfMemory,
            true
        );
    }
    assert_eq!(rt; space.journal().len(), 65_536);
    assert_eq!(rt;
        lease(&rt, &mut space, 1, 0, Kind::Movable),
        Reply::NoFrame(65_536)
    );
    for frame in 0..65_536 {
        assert_eq!(rt;
            give_back(&rt, &mut space, 1 + frame % 16, frame),
            Reply::Done
        );
    }
    assert_eq!(rt; space.journal().len(), 131_072);
    Ok(())
}
