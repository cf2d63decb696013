//! What no clause says: that the steps on mappings and the hand-overs that are allowed are those that were meant,
//! by answers counted by hand.

use crate::holders::{FREED, MAPPED, Taken, UNMAPPED, draw, end, holder, pinned, unmap};
use crate::play::Want::{Made, May, MayNot};
use crate::play::{follow, follow_new, give, load, map, mapping, mark, remap, step, store, take};
use crate::{Act, allows};
use core_state::{MoveStep, Step};
use evac_model::{Call, Reply};
use std::alloc::Global;
use std::test::Fail;

/// A move begins.
fn begin(seat: u32) -> Act {
    mapping(seat, MoveStep::Moving)
}

#[test]
fn a_move_begins_with_the_right_to_move(rt: HostRuntime) -> Result<(), Fail> {
    let table = [
        (begin(0), MayNot),
        (take(0, 0), Made),
        (take(1, 1), Made),
        (begin(0), May),
        (begin(1), MayNot),
    ];
    follow_new(&rt, rt.alloc(), [1, 1], &table)
}

#[test]
fn an_owner_begins_no_move(rt: HostRuntime) -> Result<(), Fail> {
    assert!(rt; !may(rt.alloc(), &MAPPED, begin(1))?);
    Ok(())
}

#[test]
fn a_pinned_page_is_not_moved(rt: HostRuntime) -> Result<(), Fail> {
    let mut core = pinned(rt.alloc(), 1)?;
    let table = [
        (end(1, Call::Pin, Reply::Done), Made),
        (take(0, 0), Made),
        (begin(0), MayNot),
        (step(0, Step::Release { done: None }), May),
    ];
    follow(&rt, &mut core, &table)
}

#[test]
fn a_remap_copies_each_cell(rt: HostRuntime) -> Result<(), Fail> {
    let table = [
        (give(4, 0, 2), Made),
        (take(0, 0), Made),
        (load(0, 0), Made),
        (begin(0), Made),
        (load(0, 1), Made),
        (store(0, 2, 0, 0), Made),
        (store(0, 2, 1, 0), Made),
        (mark(0, 2), Made),
        // cell 0 wasn't loaded since the move began
        (remap(0, 2), MayNot),
        (load(0, 0), Made),
        (remap(0, 2), May),
        (remap(0, 3), MayNot),
        (store(0, 2, 1, 8), Made),
        (mark(0, 2), Made),
        (remap(0, 2), MayNot),
        (store(0, 2, 1, 0), Made),
        (remap(0, 2), MayNot),
        (mark(0, 2), Made),
        (remap(0, 2), May),
    ];
    follow_new(&rt, rt.alloc(), [1, 1], &table)
}

#[test]
fn a_map_has_zeros(rt: HostRuntime) -> Result<(), Fail> {
    let table = [
        (give(4, 1, 2), Made),
        (store(1, 2, 0, 0), Made),
        (mark(1, 2), Made),
        (take(1, 1), Made),
        (draw(1), Made),
        (map(1, 2), MayNot),
        (store(1, 2, 1, 0), Made),
        (map(1, 2), MayNot),
        (mark(1, 2), Made),
        (map(1, 2), May),
        (map(1, 3), MayNot),
        (store(1, 2, 1, 1), Made),
        (mark(1, 2), Made),
        (map(1, 2), MayNot),
    ];
    follow_new(&rt, rt.alloc(), [1, 1], &table)
}

/// Whether the holder of a page that was taken so may make the act.
fn may(alloc: Global, taken: &Taken, act: Act) -> Result<bool, Fail> {
    let core = holder(alloc, [5, 6], taken)?;
    Ok(allows(&core, act))
}

#[test]
fn an_unmapped_page_is_mapped_and_a_mapped_one_unmapped(rt: HostRuntime) -> Result<(), Fail> {
    let cases = [
        (UNMAPPED, map(1, 2), true),
        (MAPPED, map(1, 2), false),
        (MAPPED, unmap(1), true),
        (UNMAPPED, unmap(1), false),
        (FREED, unmap(1), false),
    ];
    for (taken, act, want) in cases {
        assert_eq!(rt; may(rt.alloc(), &taken, act)?, want, "{taken:?} {act:?}");
    }
    Ok(())
}

#[test]
fn a_pinned_page_is_not_unmapped(rt: HostRuntime) -> Result<(), Fail> {
    let core = pinned(rt.alloc(), 1)?;
    assert!(rt; !allows(&core, unmap(1)));
    Ok(())
}

#[test]
fn maps_and_unmaps_have_a_ticket(rt: HostRuntime) -> Result<(), Fail> {
    let table = [
        (give(4, 1, 2), Made),
        (store(1, 2, 0, 0), Made),
        (store(1, 2, 1, 0), Made),
        (mark(1, 2), Made),
        (take(1, 1), Made),
        (map(1, 2), MayNot),
        (draw(1), Made),
        (map(1, 2), Made),
        (unmap(1), May),
    ];
    follow_new(&rt, rt.alloc(), [2, 1], &table)
}

#[test]
fn frames_go_from_hands_at_rest(rt: HostRuntime) -> Result<(), Fail> {
    let table = [
        (give(4, 1, 2), May),
        (give(4, 1, 1), MayNot),
        (give(4, 1, 4), MayNot),
        (give(4, 1, 9), MayNot),
        (give(5, 4, 4), May),
        (give(4, 4, 2), MayNot),
        // who holds a page neither gives nor gets a frame
        (give(4, 1, 2), Made),
        (take(1, 0), Made),
        (give(1, 4, 2), MayNot),
        (give(4, 1, 3), MayNot),
        // a frame that was written is marked first
        (give(4, 2, 3), Made),
        (store(2, 3, 0, 5), Made),
        (give(2, 4, 3), MayNot),
        (mark(2, 3), Made),
        (give(2, 4, 3), May),
    ];
    follow_new(&rt, rt.alloc(), [1, 1], &table)
}
