//! What no clause says: that a map, an unmap and a move with their hand-overs mean what was meant, by
//! words and views counted by hand.

use crate::Act;
use crate::play::{
    expect_hand, expect_words, found, give, load, map, mapping, mark, remap, step, store, take,
};
use core_state::Seen::{Nothing, Word};
use core_state::{CallDone, MoveStep, Seen, Snapshot, Step};
use evac_model::{Call, Cells, Kind, Reply};
use std::process::Abort;
use std::test::Fail;

/// An alloc that is done.
const ALLOC_DONE: CallDone = CallDone {
    call: Call::Alloc {
        kind: Kind::Movable,
    },
    reply: Reply::Done,
};

/// A free that is done.
const FREE_DONE: CallDone = CallDone {
    call: Call::Free,
    reply: Reply::Done,
};

/// The end of a call.
fn end(seat: u32, done: CallDone) -> Act {
    step(seat, Step::Release { done: Some(done) })
}

/// Owner 1 has so many entries.
fn expect_entries(rt: &impl Abort, snapshot: &Snapshot, many: usize) -> Result<(), Fail> {
    let owner = snapshot.views.as_slice().get(1).ok_or("no owner")?;
    assert_eq!(rt; owner.entries.len(), many);
    Ok(())
}

// A word is 4, 1024 times the frame, and 2^30 times the bound.

/// An alloc of owner 1. Who keeps the free frames hands frame 2 over; the owner stores zeros in it and
/// marks it, takes the unmapped page 1, draws, maps the frame, and releases.
#[test]
fn an_owner_maps(rt: HostRuntime) -> Result<(), Fail> {
    let acts = [
        (give(4, 1, 2), Nothing),
        (store(1, 2, 0, 0), Nothing),
        (store(1, 2, 1, 0), Nothing),
        (mark(1, 2), Nothing),
        (take(1, 1), Word(0)),
        (step(1, Step::Draw), Word(0)),
        (map(1, 2), Nothing),
        (end(1, ALLOC_DONE), Nothing),
    ];
    let (_, snapshot) = found(&rt, rt.alloc(), [2, 1], &acts)?;
    // page 0 stays in frame 1, page 1 is in frame 2 with the bound 1, and frame 2 is dirty
    expect_words(&rt, &snapshot, &[1, 1028, 1_073_743_876, 0, 0, 1, 0, 0, 0]);
    expect_entries(&rt, &snapshot, 1)?;
    expect_hand(&rt, &snapshot, 1, [false; 6])?;
    expect_hand(&rt, &snapshot, 4, [true, false, false, true, false, false])
}

/// A free of owner 1. The owner takes page 0, draws, unmaps and releases, and hands frame 1 over to who
/// keeps the free frames.
#[test]
fn an_owner_unmaps(rt: HostRuntime) -> Result<(), Fail> {
    let acts = [
        (take(1, 0), Word(1028)),
        (step(1, Step::Draw), Word(0)),
        (mapping(1, MoveStep::Unmap), Nothing),
        (end(1, FREE_DONE), Nothing),
        (give(1, 4, 1), Nothing),
    ];
    let (_, snapshot) = found(&rt, rt.alloc(), [2, 1], &acts)?;
    // page 0 is unmapped with the bound 1
    expect_words(&rt, &snapshot, &[1, 1_073_741_824, 0, 0, 0, 0, 0, 0, 0]);
    expect_hand(&rt, &snapshot, 1, [false; 6])?;
    expect_hand(&rt, &snapshot, 4, [true, true, true, true, false, false])
}

/// The write of 7 in cell 1 of page 0.
fn write_done() -> CallDone {
    let values = Cells::from_slice(&[7]);
    let call = Call::Write { first: 1, values };
    let reply = Reply::Done;
    CallDone { call, reply }
}

/// Owner 1 writes 7 in cell 1 of page 0. Then the driver moves the page, which lies in frame 1 with the bound 1:
/// it gets frame 2, begins, loads both cells and stores them in the frame, marks it, remaps, and lets the page
/// go; then it gives the old frame back.
#[test]
fn the_driver_moves_a_page(rt: HostRuntime) -> Result<(), Fail> {
    let word = 1_073_742_852;
    let acts = [
        (take(1, 0), Word(1028)),
        (step(1, Step::Draw), Word(0)),
        (store(1, 1, 1, 7), Nothing),
        (mark(1, 1), Nothing),
        (end(1, write_done()), Nothing),
        (give(4, 0, 2), Nothing),
        (take(0, 0), Word(word)),
        (mapping(0, MoveStep::Moving), Nothing),
        (load(0, 0), Word(0)),
        (load(0, 1), Word(7)),
        (store(0, 2, 0, 0), Nothing),
        (store(0, 2, 1, 7), Nothing),
        (mark(0, 2), Nothing),
        (remap(0, 2), Nothing),
        (step(0, Step::Release { done: None }), Nothing),
        (give(0, 4, 1), Nothing),
    ];
    let (_, snapshot) = found(&rt, rt.alloc(), [2, 1], &acts)?;
    // the page in frame 2 with the bound 1; both frames are dirty, and both have the cells
    let words = [1, word + 1024, 0, 0, 1, 1, 0, 0, 0, 0, 0, 0, 7, 0, 7];
    expect_words(&rt, &snapshot, &words);
    expect_hand(&rt, &snapshot, 4, [true, true, false, true, false, false])
}
