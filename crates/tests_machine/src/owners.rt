//! Leases, maps, unmaps and returns of an owner.

use crate::acts::{DRAW, back, end, lease, leased, map, mapping, mark, store, take};
use crate::play::{expect_hand, expect_words, follow, paged};
use core_state::MoveStep;
use evac_model::{Call, Kind, Reply};
use machine::Heard::{NoFrame, Nothing, Word};
use std::test::Fail;

// A mapped word is 4, 1024 times the frame, and 2^30 times the bound.

#[test]
fn a_leased_frame_is_zeroed_and_mapped(rt: HostRuntime) -> Result<(), Fail> {
    let mut m = paged(rt.alloc())?;
    let call = Call::Alloc {
        kind: Kind::Movable,
    };
    let table = [
        // the lower frame of the boot block; the other one comes into the owner's cache
        (lease(1, 2, Kind::Movable), leased(0)),
        (store(1, 0, 0, 0), Nothing),
        (store(1, 0, 1, 0), Nothing),
        (mark(1, 0), Nothing),
        (take(1, 2), Word(0)),
        (DRAW, Word(0)),
        (map(0, Kind::Movable), Nothing),
        (end(call, Reply::Done), Nothing),
    ];
    follow(&rt, &mut m, &table);
    // a ticket is drawn, page 2 lies in frame 0 with the bound 1, and that frame is dirty
    let words = [(0, 1), (3, 1_073_741_828), (7, 1), (8, 0)];
    expect_words(&rt, &m, &words);
    expect_hand(&rt, &m, 1, &[]);
    expect_hand(&rt, &m, 3, &[1, 2, 5, 6, 7]);
    Ok(())
}

#[test]
fn a_freed_page_gives_its_frame_back(rt: HostRuntime) -> Result<(), Fail> {
    let mut m = paged(rt.alloc())?;
    let table = [
        (take(1, 0), Word(3_076)),
        (DRAW, Word(0)),
        (mapping(1, MoveStep::Unmap), Nothing),
        (end(Call::Free, Reply::Done), Nothing),
        (back(1, 3), Nothing),
    ];
    follow(&rt, &mut m, &table);
    // page 0 is unmapped with the bound 1
    expect_words(&rt, &m, &[(1, 1_073_741_824)]);
    expect_hand(&rt, &m, 1, &[]);
    expect_hand(&rt, &m, 3, &[0, 1, 2, 3, 5, 6, 7]);
    Ok(())
}

#[test]
fn a_returned_frame_is_leased_again(rt: HostRuntime) -> Result<(), Fail> {
    let mut m = paged(rt.alloc())?;
    let table = [
        (lease(1, 2, Kind::Movable), leased(0)),
        (back(1, 0), Nothing),
        (lease(1, 3, Kind::Movable), leased(0)),
        // the lowest frame that is free alone
        (lease(1, 4, Kind::Unmovable), leased(2)),
        (lease(1, 4, Kind::Unmovable), leased(5)),
        (lease(1, 4, Kind::Unmovable), leased(6)),
        (lease(1, 4, Kind::Unmovable), leased(7)),
        // frame 1, once the cache is drained
        (lease(1, 4, Kind::Unmovable), leased(1)),
        (lease(1, 4, Kind::Movable), NoFrame(8)),
    ];
    follow(&rt, &mut m, &table);
    expect_hand(&rt, &m, 1, &[0, 1, 2, 5, 6, 7]);
    expect_hand(&rt, &m, 3, &[]);
    Ok(())
}
