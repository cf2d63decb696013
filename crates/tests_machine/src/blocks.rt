//! Isolations, targets, and pages that stay where they are.

use crate::acts::{
    BEGIN, DRAW, LET_GO, NONE_LEFT, back, end, isolate, lease, leased, no_target, refused, take,
    target, target_behind, target_leased, undo,
};
use crate::play::{compare, expect_hand, follow, paged};
use evac_model::{Call, Kind, Reply};
use machine::Heard::{NoFrame, Nothing, Word};
use std::test::Fail;

#[test]
fn a_block_with_an_unmovable_page_stays(rt: HostRuntime) -> Result<(), Fail> {
    let mut m = paged(rt.alloc())?;
    let table = [
        (isolate(1), refused(4, 1)),
        (isolate(1), refused(4, 1)),
        (isolate(2), Nothing),
        (target(2), NONE_LEFT),
        (undo(2), Nothing),
        (isolate(2), Nothing),
    ];
    follow(&rt, &mut m, &table);
    Ok(())
}

#[test]
fn no_target_is_free_until_an_isolation_is_taken_back(rt: HostRuntime) -> Result<(), Fail> {
    let mut m = paged(rt.alloc())?;
    let table = [
        (isolate(0), Nothing),
        (isolate(2), Nothing),
        (lease(1, 2, Kind::Movable), leased(0)),
        (lease(1, 3, Kind::Movable), leased(1)),
        (lease(1, 4, Kind::Movable), leased(5)),
        (lease(1, 5, Kind::Movable), NoFrame(5)),
        (target(0), no_target(3, 0, 5)),
        (undo(2), Nothing),
        (target(0), target_leased(3, 0, 6)),
    ];
    follow(&rt, &mut m, &table);
    expect_hand(&rt, &m, 0, &[6]);
    expect_hand(&rt, &m, 3, &[2, 7]);
    Ok(())
}

#[test]
fn targets_are_for_the_first_page_behind_a_frame(rt: HostRuntime) -> Result<(), Fail> {
    let mut m = paged(rt.alloc())?;
    let table = [
        (isolate(0), Nothing),
        (target_behind(0, 2), target_leased(3, 0, 0)),
        (target_behind(0, 3), NONE_LEFT),
        // a frame that the machine doesn't have
        (target_behind(0, 99), NONE_LEFT),
        (target(0), target_leased(3, 0, 1)),
        (back(0, 0), Nothing),
        (back(0, 1), Nothing),
        // the frame that was given back last
        (target(0), target_leased(3, 0, 1)),
    ];
    follow(&rt, &mut m, &table);
    expect_hand(&rt, &m, 0, &[1]);
    Ok(())
}

#[test]
fn a_page_that_its_owner_holds_or_pinned_is_not_moved(rt: HostRuntime) -> Result<(), Fail> {
    let mut m = paged(rt.alloc())?;
    let held = [
        (take(1, 0), Word(3_076)),
        (take(0, 0), Word(3_077)),
        (take(0, 0), Word(3_077)),
    ];
    follow(&rt, &mut m, &held);
    compare(&rt, &m, &[(BEGIN, false), (LET_GO, false)]);
    let pinned = [
        (DRAW, Word(0)),
        (end(Call::Pin, Reply::Done), Nothing),
        // one pin, and the bound 1
        (take(0, 0), Word(1_073_744_916)),
    ];
    follow(&rt, &mut m, &pinned);
    compare(&rt, &m, &[(BEGIN, false), (LET_GO, true)]);
    Ok(())
}
