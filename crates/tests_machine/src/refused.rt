//! What may not be made.

use crate::Act;
use crate::acts::{
    BEGIN, DRAW, ask, back, isolate, lease, leased, load, map, mark, offline, online, remap, send,
    state, store, take, target, undo, unplug, unplug_all,
};
use crate::play::{compare, follow, paged};
use evac_model::{BlockNo, Kind};
use machine::Heard::{Nothing, Word};
use machine::{Action, BlockCall, Machine};
use std::alloc::Global;
use std::process::Abort;
use std::test::Fail;

#[test]
fn blocks_at_the_start(rt: HostRuntime) -> Result<(), Fail> {
    let m = paged(rt.alloc())?;
    // block 0 is online, block 3 isn't plugged, and there is no block 4
    let table = [
        (isolate(0), true),
        (isolate(3), false),
        (isolate(4), false),
        (target(0), false),
        (target(3), true),
        (undo(0), false),
        (undo(3), false),
        (offline(0), false),
        (offline(3), false),
        (online(0), false),
        (online(3), false),
        (unplug(32, 1), false),
        (unplug_all(), false),
        (state(32, 4), true),
    ];
    compare(&rt, &m, &table);
    Ok(())
}

#[test]
fn seats_at_the_start(rt: HostRuntime) -> Result<(), Fail> {
    let m = paged(rt.alloc())?;
    let block = BlockNo(0);
    let table = [
        // owners lease frames, and the driver calls the device and asks for blocks
        (lease(0, 2, Kind::Movable), false),
        (lease(1, 2, Kind::Movable), true),
        (lease(1, 6, Kind::Movable), false),
        (lease(2, 2, Kind::Movable), false),
        (send(1, &[0; 24]), false),
        (ask(1, BlockCall::Isolate { block }), false),
        // the scanner's seat and those of the keepers make no steps
        (take(2, 0), false),
        (mark(3, 0), false),
        (mark(4, 8), false),
        (take(5, 0), false),
        (back(1, 3), false),
        (back(3, 0), false),
        (
            Act {
                seat: 2,
                action: Action::Ended,
            },
            true,
        ),
    ];
    compare(&rt, &m, &table);
    Ok(())
}

#[test]
fn a_block_with_a_frame_out_is_not_taken_away(rt: HostRuntime) -> Result<(), Fail> {
    let mut m = paged(rt.alloc())?;
    follow(&rt, &mut m, &[(isolate(0), Nothing)]);
    let table = [
        (isolate(0), false),
        (target(0), true),
        (undo(0), true),
        (offline(0), false),
        (online(0), false),
        (unplug(32, 1), false),
    ];
    compare(&rt, &m, &table);
    Ok(())
}

#[test]
fn a_frame_is_mapped_as_it_was_leased(rt: HostRuntime) -> Result<(), Fail> {
    let mut m = paged(rt.alloc())?;
    let table = [
        (lease(1, 2, Kind::Movable), leased(0)),
        (store(1, 0, 0, 0), Nothing),
        (store(1, 0, 1, 0), Nothing),
        (mark(1, 0), Nothing),
        (take(1, 2), Word(0)),
        (DRAW, Word(0)),
    ];
    follow(&rt, &mut m, &table);
    let kinds = [
        (map(0, Kind::Unmovable), false),
        (map(0, Kind::Movable), true),
        // while it holds the page, it leases no frame, and gives none back
        (lease(1, 3, Kind::Movable), false),
        (back(1, 0), false),
    ];
    compare(&rt, &m, &kinds);
    Ok(())
}

#[test]
fn a_frame_is_mapped_for_its_page_alone(rt: HostRuntime) -> Result<(), Fail> {
    let mut m = paged(rt.alloc())?;
    let table = [
        (lease(1, 2, Kind::Movable), leased(0)),
        (store(1, 0, 0, 0), Nothing),
        (store(1, 0, 1, 0), Nothing),
        (mark(1, 0), Nothing),
        (take(1, 3), Word(0)),
        (DRAW, Word(0)),
    ];
    follow(&rt, &mut m, &table);
    compare(&rt, &m, &[(map(0, Kind::Movable), false)]);
    Ok(())
}

/// The driver holds block 2, with frames 6 and 7.
fn held(rt: &impl Abort, alloc: Global) -> Result<Machine, Fail> {
    let mut m = paged(alloc)?;
    follow(rt, &mut m, &[(isolate(2), Nothing), (offline(2), Nothing)]);
    Ok(m)
}

#[test]
fn what_is_done_with_a_held_block(rt: HostRuntime) -> Result<(), Fail> {
    let m = held(&rt, rt.alloc())?;
    let table = [
        (isolate(2), false),
        (undo(2), false),
        (offline(2), false),
        (online(2), true),
        (unplug(96, 1), true),
        // it holds neither block 1 nor block 0
        (unplug(64, 2), false),
        (unplug_all(), false),
        // these frames aren't out
        (back(0, 6), false),
        (store(0, 6, 0, 9), true),
        (store(1, 6, 0, 9), false),
    ];
    compare(&rt, &m, &table);
    Ok(())
}

#[test]
fn nothing_changes_hands_that_is_not_marked(rt: HostRuntime) -> Result<(), Fail> {
    let mut m = held(&rt, rt.alloc())?;
    follow(&rt, &mut m, &[(store(0, 6, 0, 9), Nothing)]);
    let unmarked = [
        (online(2), false),
        (unplug(96, 1), false),
        (state(32, 1), false),
        (target(2), false),
        (isolate(0), true),
    ];
    compare(&rt, &m, &unmarked);
    follow(&rt, &mut m, &[(mark(0, 6), Nothing)]);
    compare(&rt, &m, &[(online(2), true), (unplug(96, 1), true)]);
    Ok(())
}

#[test]
fn no_page_is_moved_into_a_held_block(rt: HostRuntime) -> Result<(), Fail> {
    let mut m = held(&rt, rt.alloc())?;
    let table = [
        (take(0, 0), Word(3_076)),
        (BEGIN, Nothing),
        (load(0, 0), Word(0)),
        (load(0, 1), Word(0)),
        (store(0, 6, 0, 0), Nothing),
        (store(0, 6, 1, 0), Nothing),
        (mark(0, 6), Nothing),
    ];
    follow(&rt, &mut m, &table);
    // the frame has the cells, but it isn't out for the page
    compare(&rt, &m, &[(remap(6), false)]);
    Ok(())
}
