//! Evacuations of a small machine's block: what is told, and what is done upon it, counted by hand.
//!
//! Blocks have 4 frames, and block 3 has the frames 20 to 23. Page 0 lies in frame 20, and page 5 in
//! frame 22.

use crate::*;
use std::process::Abort;
use std::test::Fail;

const BLOCK: BlockNo = BlockNo(3);

const PAGE_0: MoveLease = MoveLease {
    from: FrameNo(20),
    page: PageNo(0),
    target: FrameNo(0),
};

const PAGE_5: MoveLease = MoveLease {
    from: FrameNo(22),
    page: PageNo(5),
    target: FrameNo(1),
};

// Mapped to frame 20, and taken.
const TAKEN: u64 = 20_485;
// Mapped to frame 20, with a pin and bound 1.
const PINNED: u64 = 1_073_762_324;
// Mapped to frame 16.
const ELSEWHERE: u64 = 16_388;

fn isolate() -> EvacAction {
    EvacAction::Isolate { block: BLOCK }
}

fn undo() -> EvacAction {
    EvacAction::Undo { block: BLOCK }
}

fn first_lease() -> EvacAction {
    EvacAction::Lease {
        block: BLOCK,
        after: None,
    }
}

fn lease_behind(frame: u32) -> EvacAction {
    EvacAction::Lease {
        block: BLOCK,
        after: Some(FrameNo(frame)),
    }
}

fn give_back(frame: u32) -> EvacAction {
    EvacAction::GiveBack {
        frame: FrameNo(frame),
    }
}

// Tells the evacuation each answer in turn, and compares what it does with what is wanted.
fn follow(rt: &impl Abort, evacuation: &mut Evacuation, table: &[(EvacSeen, EvacAction)]) {
    for (seen, want) in table {
        assert_eq!(rt; evacuation.next(*seen), *want);
    }
}

fn begun(rt: &impl Abort) -> Result<Evacuation, Fail> {
    let mut evacuation = Evacuation::new(Geometry::new(2, 4, 2, 4, 4, 8)?, BLOCK);
    follow(
        rt,
        &mut evacuation,
        &[
            (EvacSeen::Start, isolate()),
            (EvacSeen::Isolated, first_lease()),
        ],
    );
    Ok(evacuation)
}

#[test]
fn pages_are_moved_and_old_frames_given_back(rt: HostRuntime) -> Result<(), Fail> {
    let mut evacuation = begun(&rt)?;
    let table = [
        (EvacSeen::Leased(PAGE_0), EvacAction::Move(PAGE_0)),
        (EvacSeen::Moved, give_back(20)),
        (EvacSeen::Done, lease_behind(20)),
        (EvacSeen::Leased(PAGE_5), EvacAction::Move(PAGE_5)),
        (EvacSeen::Moved, give_back(22)),
        (EvacSeen::Done, lease_behind(22)),
        (EvacSeen::NoneLeft, EvacAction::Emptied),
    ];
    follow(&rt, &mut evacuation, &table);
    Ok(())
}

#[test]
fn an_unmovable_page_refuses_the_isolation(rt: HostRuntime) -> Result<(), Fail> {
    let mut evacuation = Evacuation::new(Geometry::new(2, 4, 2, 4, 4, 8)?, BLOCK);
    let cause = EvacCause::Unmovable {
        frame: FrameNo(21),
        page: PageNo(7),
    };
    let refused = EvacSeen::Refused {
        frame: FrameNo(21),
        page: PageNo(7),
    };
    let table = [
        (EvacSeen::Start, isolate()),
        (refused, EvacAction::Failed(cause)),
        (EvacSeen::Start, EvacAction::Failed(cause)),
    ];
    follow(&rt, &mut evacuation, &table);
    Ok(())
}

#[test]
fn a_pinned_page_ends_it_at_once(rt: HostRuntime) -> Result<(), Fail> {
    let mut evacuation = begun(&rt)?;
    let cause = EvacCause::Pinned {
        frame: FrameNo(20),
        page: PageNo(0),
        word: PINNED,
    };
    let table = [
        (EvacSeen::Leased(PAGE_0), EvacAction::Move(PAGE_0)),
        (EvacSeen::Found { word: PINNED }, give_back(0)),
        (EvacSeen::Done, undo()),
        (EvacSeen::Done, EvacAction::Failed(cause)),
    ];
    follow(&rt, &mut evacuation, &table);
    Ok(())
}

#[test]
fn without_a_target_it_ends_at_once(rt: HostRuntime) -> Result<(), Fail> {
    let mut evacuation = begun(&rt)?;
    let cause = EvacCause::NoTarget {
        frame: FrameNo(22),
        page: PageNo(5),
        at: 4,
    };
    let no_target = EvacSeen::NoTarget {
        from: FrameNo(22),
        page: PageNo(5),
        at: 4,
    };
    let table = [
        (EvacSeen::Leased(PAGE_0), EvacAction::Move(PAGE_0)),
        (EvacSeen::Found { word: TAKEN }, give_back(0)),
        (EvacSeen::Done, lease_behind(20)),
        (no_target, undo()),
        (EvacSeen::Done, EvacAction::Failed(cause)),
    ];
    follow(&rt, &mut evacuation, &table);
    Ok(())
}

// A round in which page 0 was busy, but for its end.
fn busy_round(rt: &impl Abort, evacuation: &mut Evacuation, word: u64) {
    let table = [
        (EvacSeen::Leased(PAGE_0), EvacAction::Move(PAGE_0)),
        (EvacSeen::Found { word }, give_back(0)),
        (EvacSeen::Done, lease_behind(20)),
    ];
    follow(rt, evacuation, &table);
}

#[test]
fn five_busy_rounds_end_it(rt: HostRuntime) -> Result<(), Fail> {
    let mut evacuation = begun(&rt)?;
    for word in [TAKEN, 0, ELSEWHERE, 1] {
        busy_round(&rt, &mut evacuation, word);
        assert_eq!(rt; evacuation.next(EvacSeen::NoneLeft), first_lease());
    }
    busy_round(&rt, &mut evacuation, TAKEN);
    let cause = EvacCause::Busy {
        frame: FrameNo(20),
        page: PageNo(0),
        words: [TAKEN, 0, ELSEWHERE, 1, TAKEN],
    };
    let table = [
        (EvacSeen::Leased(PAGE_5), EvacAction::Move(PAGE_5)),
        (EvacSeen::Found { word: 1 }, give_back(1)),
        (EvacSeen::Done, lease_behind(22)),
        (EvacSeen::NoneLeft, undo()),
        (EvacSeen::Done, EvacAction::Failed(cause)),
    ];
    follow(&rt, &mut evacuation, &table);
    Ok(())
}

#[test]
fn a_page_freed_meanwhile_is_out_no_more(rt: HostRuntime) -> Result<(), Fail> {
    let mut evacuation = begun(&rt)?;
    busy_round(&rt, &mut evacuation, TAKEN);
    assert_eq!(rt; evacuation.next(EvacSeen::NoneLeft), first_lease());
    assert_eq!(rt; evacuation.next(EvacSeen::NoneLeft), EvacAction::Emptied);
    Ok(())
}

#[test]
fn the_fifth_round_may_still_empty_it(rt: HostRuntime) -> Result<(), Fail> {
    let mut evacuation = begun(&rt)?;
    for _round in 0..4 {
        busy_round(&rt, &mut evacuation, TAKEN);
        assert_eq!(rt; evacuation.next(EvacSeen::NoneLeft), first_lease());
    }
    let table = [
        (EvacSeen::Leased(PAGE_0), EvacAction::Move(PAGE_0)),
        (EvacSeen::Moved, give_back(20)),
        (EvacSeen::Done, lease_behind(20)),
        (EvacSeen::NoneLeft, EvacAction::Emptied),
    ];
    follow(&rt, &mut evacuation, &table);
    Ok(())
}

#[test]
fn what_does_not_answer_is_asked_again(rt: HostRuntime) -> Result<(), Fail> {
    let mut evacuation = begun(&rt)?;
    let of_another_block = MoveLease {
        from: FrameNo(19),
        ..PAGE_0
    };
    let table = [
        (EvacSeen::Done, first_lease()),
        (EvacSeen::Leased(of_another_block), first_lease()),
        (EvacSeen::Leased(PAGE_5), EvacAction::Move(PAGE_5)),
        (EvacSeen::Isolated, EvacAction::Move(PAGE_5)),
        (EvacSeen::Moved, give_back(22)),
        (EvacSeen::Done, lease_behind(22)),
        (EvacSeen::Leased(PAGE_0), lease_behind(22)),
        (EvacSeen::NoneLeft, EvacAction::Emptied),
    ];
    follow(&rt, &mut evacuation, &table);
    Ok(())
}
