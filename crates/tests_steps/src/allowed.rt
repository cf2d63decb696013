//! What no clause says: that the steps that are allowed are those that were meant, by answers counted by hand.

use crate::holders::{FREED, draw, end, holder};
use crate::play::Want::{Made, May, MayNot};
use crate::play::{follow_new, give, load, mapping, mark, remap, step, store, take};
use crate::{Act, allows};
use core_state::{MoveStep, Step};
use evac_model::{Call, Reply};
use std::test::Fail;

/// A release without an entry.
fn let_go(seat: u32) -> Act {
    step(seat, Step::Release { done: None })
}

#[test]
fn steps_of_a_seat_that_holds_nothing(rt: HostRuntime) -> Result<(), Fail> {
    // owner 1 has a ticket left, owner 2 none; the driver has none, but the right to move every page
    let table = [
        (take(1, 0), May),
        (take(1, 1), May),
        (take(1, 2), MayNot),
        (take(2, 0), MayNot),
        (take(0, 1), May),
        (take(0, 2), MayNot),
        (take(4, 0), MayNot),
        (draw(1), MayNot),
        (load(1, 0), MayNot),
        (store(1, 1, 0, 7), MayNot),
        (let_go(0), MayNot),
        (end(1, Call::Free, Reply::NotMapped), MayNot),
        (store(4, 2, 0, 7), May),
        (mark(4, 2), May),
        (mark(4, 1), MayNot),
        (mark(5, 2), MayNot),
    ];
    follow_new(&rt, rt.alloc(), [1, 0], &table)
}

#[test]
fn steps_of_a_holder(rt: HostRuntime) -> Result<(), Fail> {
    // owner 1 holds page 0, which is mapped, and the driver page 1, which isn't
    let table = [
        (give(4, 1, 2), Made),
        (take(1, 0), Made),
        (take(0, 1), Made),
        (take(1, 1), MayNot),
        (draw(1), May),
        (draw(0), MayNot),
        (load(1, 1), May),
        (load(1, 2), MayNot),
        (load(0, 0), MayNot),
        (store(1, 1, 1, 7), May),
        (store(1, 2, 0, 7), May),
        (store(1, 0, 0, 7), MayNot),
        (store(1, 1, 2, 7), MayNot),
        (store(0, 0, 0, 7), MayNot),
        (mark(1, 1), May),
        (mark(1, 2), May),
        (mark(1, 9), MayNot),
        (end(1, Call::Pin, Reply::Done), MayNot),
        (draw(1), Made),
        (draw(1), MayNot),
        (end(1, Call::Pin, Reply::Done), May),
    ];
    follow_new(&rt, rt.alloc(), [1, 1], &table)
}

#[test]
fn owners_release_with_an_entry(rt: HostRuntime) -> Result<(), Fail> {
    let table = [
        (take(1, 0), Made),
        (let_go(1), MayNot),
        (draw(1), Made),
        (let_go(1), MayNot),
    ];
    follow_new(&rt, rt.alloc(), [1, 1], &table)
}

#[test]
fn a_freed_page_is_released_with_an_entry(rt: HostRuntime) -> Result<(), Fail> {
    let core = holder(rt.alloc(), [5, 6], &FREED)?;
    assert!(rt; !allows(&core, let_go(1)));
    Ok(())
}

#[test]
fn an_unchanged_page_may_be_let_go(rt: HostRuntime) -> Result<(), Fail> {
    let table = [
        (take(0, 0), Made),
        (let_go(0), May),
        (load(0, 0), Made),
        (store(0, 1, 0, 0), Made),
        (let_go(0), MayNot),
        (mark(0, 1), Made),
        (let_go(0), May),
    ];
    follow_new(&rt, rt.alloc(), [1, 1], &table)
}

#[test]
fn a_changed_page_may_not_be_let_go(rt: HostRuntime) -> Result<(), Fail> {
    let other = [
        (take(0, 0), Made),
        (load(0, 0), Made),
        (store(0, 1, 0, 6), Made),
        (mark(0, 1), Made),
        (let_go(0), MayNot),
    ];
    follow_new(&rt, rt.alloc(), [1, 1], &other)?;
    let not_loaded = [
        (take(0, 0), Made),
        (store(0, 1, 0, 0), Made),
        (mark(0, 1), Made),
        (let_go(0), MayNot),
    ];
    follow_new(&rt, rt.alloc(), [1, 1], &not_loaded)?;
    let begun = [
        (take(0, 0), Made),
        (mapping(0, MoveStep::Moving), Made),
        (let_go(0), MayNot),
    ];
    follow_new(&rt, rt.alloc(), [1, 1], &begun)
}

#[test]
fn a_moved_page_may_be_let_go(rt: HostRuntime) -> Result<(), Fail> {
    let table = [
        (give(4, 0, 2), Made),
        (take(0, 0), Made),
        (mapping(0, MoveStep::Moving), Made),
        (load(0, 0), Made),
        (load(0, 1), Made),
        (store(0, 2, 0, 0), Made),
        (store(0, 2, 1, 0), Made),
        (mark(0, 2), Made),
        (remap(0, 2), Made),
        (let_go(0), May),
    ];
    follow_new(&rt, rt.alloc(), [1, 1], &table)
}
