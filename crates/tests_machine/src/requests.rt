//! Blocks that the device plugs and unplugs, and what becomes of their frames. The machine has no pages.

use crate::Act;
use crate::acts::{
    BUSY, DONE, ERROR, MIXED, UNPLUGGED, isolate, lease, leased, offline, online, plug, state,
    unplug, unplug_all,
};
use crate::play::{bare, compare, expect_hand, failing, follow};
use evac_model::{Config, Kind, RequestBytes, Response};
use machine::Heard::Nothing;
use machine::{Action, DeviceCall, DeviceHeard, Heard, Machine};
use std::alloc::Global;
use std::process::Abort;
use std::test::Fail;

#[test]
fn a_block_is_unplugged_and_plugged_again(rt: HostRuntime) -> Result<(), Fail> {
    let mut m = bare(rt.alloc())?;
    let table = [
        (isolate(0), Nothing),
        (offline(0), Nothing),
        (unplug(32, 1), DONE),
        (state(32, 3), MIXED),
        (plug(32, 1), DONE),
        (online(0), Nothing),
        (lease(1, 2, Kind::Movable), leased(0)),
        (lease(1, 3, Kind::Movable), leased(1)),
        (lease(1, 4, Kind::Movable), leased(2)),
    ];
    follow(&rt, &mut m, &table);
    expect_hand(&rt, &m, 0, &[]);
    expect_hand(&rt, &m, 1, &[0, 1, 2]);
    expect_hand(&rt, &m, 3, &[3, 4, 5, 6, 7]);
    expect_hand(&rt, &m, 4, &[8, 9]);
    Ok(())
}

/// The driver holds all blocks that are plugged, 0 to 2.
fn held(rt: &impl Abort, alloc: Global) -> Result<Machine, Fail> {
    let mut m = bare(alloc)?;
    let table = [
        (isolate(0), Nothing),
        (offline(0), Nothing),
        (isolate(1), Nothing),
        (offline(1), Nothing),
        (isolate(2), Nothing),
        (offline(2), Nothing),
    ];
    follow(rt, &mut m, &table);
    Ok(m)
}

#[test]
fn blocks_of_one_request_change_hands(rt: HostRuntime) -> Result<(), Fail> {
    let mut m = held(&rt, rt.alloc())?;
    expect_hand(&rt, &m, 0, &[2, 3, 4, 5, 6, 7]);
    follow(&rt, &mut m, &[(unplug(64, 2), DONE)]);
    expect_hand(&rt, &m, 0, &[2, 3]);
    expect_hand(&rt, &m, 4, &[4, 5, 6, 7, 8, 9]);
    follow(&rt, &mut m, &[(plug(96, 2), DONE)]);
    expect_hand(&rt, &m, 0, &[2, 3, 6, 7, 8, 9]);
    expect_hand(&rt, &m, 4, &[4, 5]);
    follow(&rt, &mut m, &[(online(3), Nothing)]);
    expect_hand(&rt, &m, 3, &[0, 1, 8, 9]);
    Ok(())
}

#[test]
fn all_held_blocks_are_unplugged(rt: HostRuntime) -> Result<(), Fail> {
    let mut m = held(&rt, rt.alloc())?;
    let table = [
        // the blocks that are left have a hole between them
        (unplug(64, 1), DONE),
        (unplug_all(), DONE),
        (state(32, 4), UNPLUGGED),
        (unplug_all(), DONE),
    ];
    follow(&rt, &mut m, &table);
    expect_hand(&rt, &m, 0, &[]);
    expect_hand(&rt, &m, 3, &[0, 1]);
    expect_hand(&rt, &m, 4, &[2, 3, 4, 5, 6, 7, 8, 9]);
    Ok(())
}

#[test]
fn blocks_that_are_online_are_not_unplugged(rt: HostRuntime) -> Result<(), Fail> {
    let mut m = held(&rt, rt.alloc())?;
    compare(&rt, &m, &[(unplug_all(), true), (unplug(64, 2), true)]);
    follow(&rt, &mut m, &[(online(1), Nothing)]);
    let table = [
        (unplug_all(), false),
        (unplug(64, 2), false),
        (unplug(64, 1), false),
        (unplug(96, 1), true),
        // not all of its blocks are plugged, so it names none
        (unplug(64, 3), true),
    ];
    compare(&rt, &m, &table);
    follow(&rt, &mut m, &[(unplug(64, 3), ERROR)]);
    expect_hand(&rt, &m, 0, &[2, 3, 6, 7]);
    Ok(())
}

#[test]
fn a_backing_that_fails_leaves_the_driver_its_block(rt: HostRuntime) -> Result<(), Fail> {
    let mut m = failing(rt.alloc(), &[1])?;
    let refused = [
        (isolate(0), Nothing),
        (offline(0), Nothing),
        (unplug(32, 1), BUSY),
        (state(32, 1), DONE),
    ];
    follow(&rt, &mut m, &refused);
    expect_hand(&rt, &m, 0, &[2, 3]);
    compare(&rt, &m, &[(unplug(32, 1), true), (online(0), true)]);
    follow(&rt, &mut m, &[(online(0), Nothing)]);
    expect_hand(&rt, &m, 0, &[]);
    let again = [
        (isolate(0), Nothing),
        (offline(0), Nothing),
        (unplug(32, 1), DONE),
        (state(32, 1), UNPLUGGED),
    ];
    follow(&rt, &mut m, &again);
    expect_hand(&rt, &m, 0, &[]);
    expect_hand(&rt, &m, 3, &[0, 1, 4, 5, 6, 7]);
    expect_hand(&rt, &m, 4, &[2, 3, 8, 9]);
    Ok(())
}

/// A look at the configuration.
fn look(seat: u32) -> Act {
    let action = Action::Device(DeviceCall::Config);
    Act { seat, action }
}

/// A byte, which is no request.
fn short() -> Act {
    let bytes = RequestBytes::from_slice(&[0]);
    let action = Action::Device(DeviceCall::Request { bytes });
    Act { seat: 0, action }
}

const CONFIG: Heard = Heard::Device(DeviceHeard::Config(Config {
    block_size: 32,
    node_id: 0,
    addr: 32,
    region_size: 128,
    usable_region_size: 128,
    plugged_size: 96,
    requested_size: 96,
}));

const NACK: Heard = Heard::Device(DeviceHeard::Answered(Response::Nack));

#[test]
fn the_device_answers_without_a_change(rt: HostRuntime) -> Result<(), Fail> {
    let mut m = bare(rt.alloc())?;
    let table = [
        (look(0), CONFIG),
        (look(1), CONFIG),
        (short(), ERROR),
        // above the requested size
        (plug(128, 1), NACK),
        (state(32, 4), MIXED),
    ];
    follow(&rt, &mut m, &table);
    expect_hand(&rt, &m, 0, &[]);
    expect_hand(&rt, &m, 4, &[8, 9]);
    Ok(())
}
