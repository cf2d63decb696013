//! What no clause says: that the definitions of steps mean what was meant, by words and views counted by
//! hand.

use crate::Act;
use crate::play::{expect_hand, expect_words, found, give, load, mapping, mark, step, store, take};
use core_state::Seen::{Nothing, Word};
use core_state::{CallDone, MoveStep, Seen, Snapshot, Step};
use evac_model::{Call, Reply};
use std::process::Abort;
use std::test::Fail;

/// A free of an unmapped page.
const FREE_REFUSED: CallDone = CallDone {
    call: Call::Free,
    reply: Reply::NotMapped,
};

/// Acts of the driver and of two owners, and what each finds. The driver takes page 0 and lets it go; owner 1
/// finds it taken once, then takes it, draws, loads and stores; owner 2 takes the unmapped page 1, draws and
/// answers a free; owner 1 marks, and unmaps its page. Then who keeps the free frames hands frames 2 and 3
/// over to who keeps the frames that aren't plugged. Page 0 is mapped to frame 1: 4 + 1024.
fn acts_of_three() -> [(Act, Seen); 14] {
    let refused = Some(FREE_REFUSED);
    [
        (take(0, 0), Word(1028)),
        (take(1, 0), Word(1029)),
        (step(0, Step::Release { done: None }), Nothing),
        (take(1, 0), Word(1028)),
        (step(1, Step::Draw), Word(0)),
        (load(1, 1), Word(0)),
        (store(1, 1, 1, 9), Nothing),
        (take(2, 1), Word(0)),
        (step(2, Step::Draw), Word(1)),
        (step(2, Step::Release { done: refused }), Nothing),
        (mark(1, 1), Nothing),
        (mapping(1, MoveStep::Unmap), Nothing),
        (give(4, 5, 2), Nothing),
        (give(4, 5, 3), Nothing),
    ]
}

#[test]
fn words_of_two_owners_beside_the_driver(rt: HostRuntime) -> Result<(), Fail> {
    let (opening, snapshot) = found(&rt, rt.alloc(), [2, 1], &acts_of_three())?;
    // Two tickets are drawn. Page 0 is held and unmapped, page 1 has the bound 2, frame 1 is dirty, its
    // cell 1 is 9.
    let words = [
        2,
        1,
        2_147_483_648,
        0,
        1,
        0,
        0,
        0,
        0,
        0,
        0,
        0,
        9,
        0,
        0,
        0,
        0,
        0,
        0,
        0,
        0,
    ];
    expect_words(&rt, &snapshot, &words);
    assert_eq!(rt; snapshot.words.len(), 21);
    assert_eq!(rt; opening.budget, 3);
    Ok(())
}

/// The driver has one notice by right; owner 1 holds a page, with a ticket left; owner 2 has an entry, and no ticket left.
fn expect_views(rt: &impl Abort, snapshot: &Snapshot) -> Result<(), Fail> {
    let views = snapshot.views.as_slice();
    assert_eq!(rt; views.len(), 6);
    let driver = views.get(0).ok_or("no driver")?;
    assert_eq!(rt; driver.noticed.by_right.len(), 1);
    let owner = views.get(1).ok_or("no owner")?;
    assert_eq!(rt; owner.left, 1);
    assert!(rt; owner.held.is_some());
    assert_eq!(rt; owner.unmarked.len(), 0);
    let other = views.get(2).ok_or("no other owner")?;
    assert_eq!(rt; other.left, 0);
    assert_eq!(rt; other.entries.len(), 1);
    Ok(())
}

#[test]
fn views_of_two_owners_beside_the_driver(rt: HostRuntime) -> Result<(), Fail> {
    let (_, snapshot) = found(&rt, rt.alloc(), [2, 1], &acts_of_three())?;
    expect_views(&rt, &snapshot)?;
    expect_hand(&rt, &snapshot, 1, [false, true, false, false, false, false])?;
    expect_hand(&rt, &snapshot, 4, [true, false, false, false, false, false])?;
    expect_hand(&rt, &snapshot, 5, [false, false, true, true, true, true])
}
