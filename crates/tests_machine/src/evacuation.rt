//! The evacuation of block 0, which has one page: page 0, in frame 3.

use crate::acts::{
    BEGIN, DONE, DRAW, ERROR, LET_GO, NONE_LEFT, UNPLUGGED, back, end, isolate, load, mark,
    offline, remap, state, store, take, target, target_leased, unplug,
};
use crate::play::{compare, expect_hand, expect_journals, expect_words, follow, paged};
use evac_model::{BlockNo, Call, Cells, FrameNo, PageNo, Reply, SpaceAction};
use machine::Heard::{Nothing, Word};
use machine::Machine;
use std::alloc::Global;
use std::process::Abort;
use std::test::Fail;

// The word of page 0: 4, 1024 times the frame, and 2^30 times the bound.
const FOUND: u64 = 3_076;

const WRITTEN: u64 = 1_073_744_900;

const MOVED: u64 = 1_073_741_828;

/// The owner wrote 7 in cell 1 of the page.
fn written(rt: &impl Abort, alloc: Global) -> Result<Machine, Fail> {
    let mut m = paged(alloc)?;
    let values = Cells::from_slice(&[7]);
    let call = Call::Write { first: 1, values };
    let table = [
        (take(1, 0), Word(FOUND)),
        (DRAW, Word(0)),
        (store(1, 3, 1, 7), Nothing),
        (mark(1, 3), Nothing),
        (end(call, Reply::Done), Nothing),
    ];
    follow(rt, &mut m, &table);
    Ok(m)
}

/// Behind that, the driver isolated the block, got a target, took the page, began to move it, and copied its cells.
fn copied(rt: &impl Abort, alloc: Global) -> Result<Machine, Fail> {
    let mut m = written(rt, alloc)?;
    let table = [
        (isolate(0), Nothing),
        (target(0), target_leased(3, 0, 0)),
        (take(0, 0), Word(WRITTEN)),
        (BEGIN, Nothing),
        (load(0, 0), Word(0)),
        (load(0, 1), Word(7)),
        (store(0, 0, 0, 0), Nothing),
        (store(0, 0, 1, 7), Nothing),
        (mark(0, 0), Nothing),
    ];
    follow(rt, &mut m, &table);
    Ok(m)
}

/// Behind that, it remapped the page, and let it go.
fn moved(rt: &impl Abort, alloc: Global) -> Result<Machine, Fail> {
    let mut m = copied(rt, alloc)?;
    follow(rt, &mut m, &[(remap(0), Nothing), (LET_GO, Nothing)]);
    Ok(m)
}

/// Behind that, it gave the old frame back, found no page left, and took the block away.
fn emptied(rt: &impl Abort, alloc: Global) -> Result<Machine, Fail> {
    let mut m = moved(rt, alloc)?;
    let table = [
        (back(0, 3), Nothing),
        (target(0), NONE_LEFT),
        (offline(0), Nothing),
    ];
    follow(rt, &mut m, &table);
    Ok(m)
}

#[test]
fn a_page_is_copied_before_it_is_remapped(rt: HostRuntime) -> Result<(), Fail> {
    let m = copied(&rt, rt.alloc())?;
    // the page is taken and moving, and lies in frame 3 still
    expect_words(&rt, &m, &[(1, WRITTEN + 3)]);
    expect_hand(&rt, &m, 0, &[0]);
    let table = [(LET_GO, false), (remap(0), true), (offline(0), false)];
    compare(&rt, &m, &table);
    Ok(())
}

#[test]
fn a_page_moves_with_its_cells(rt: HostRuntime) -> Result<(), Fail> {
    let m = moved(&rt, rt.alloc())?;
    // frames 0 and 3 are dirty, and both have the cells
    let words = [
        (1, MOVED),
        (7, 1),
        (10, 1),
        (17, 0),
        (18, 7),
        (23, 0),
        (24, 7),
    ];
    expect_words(&rt, &m, &words);
    expect_hand(&rt, &m, 0, &[3]);
    expect_hand(&rt, &m, 3, &[1, 2, 5, 6, 7]);
    // frame 3 is out for the page still
    compare(&rt, &m, &[(offline(0), false), (back(0, 3), true)]);
    Ok(())
}

#[test]
fn its_owner_reads_the_moved_page(rt: HostRuntime) -> Result<(), Fail> {
    let mut m = moved(&rt, rt.alloc())?;
    let values = Cells::from_slice(&[7]);
    let call = Call::Read { first: 1, count: 1 };
    let table = [
        (take(1, 0), Word(MOVED)),
        (DRAW, Word(1)),
        (load(1, 1), Word(7)),
        (end(call, Reply::Values(values)), Nothing),
    ];
    follow(&rt, &mut m, &table);
    Ok(())
}

#[test]
fn an_emptied_block_is_unplugged(rt: HostRuntime) -> Result<(), Fail> {
    let mut m = emptied(&rt, rt.alloc())?;
    expect_hand(&rt, &m, 0, &[2, 3]);
    let table = [
        (state(32, 1), DONE),
        (unplug(32, 1), DONE),
        (state(32, 1), UNPLUGGED),
        (unplug(32, 1), ERROR),
    ];
    follow(&rt, &mut m, &table);
    assert!(rt; !m.plugged().plugged(BlockNo(0)));
    expect_hand(&rt, &m, 0, &[]);
    expect_hand(&rt, &m, 3, &[1, 5, 6, 7]);
    expect_hand(&rt, &m, 4, &[2, 3, 8, 9]);
    Ok(())
}

#[test]
fn the_frame_space_notes_an_evacuation(rt: HostRuntime) -> Result<(), Fail> {
    let m = emptied(&rt, rt.alloc())?;
    let space = [
        SpaceAction::Isolate { block: BlockNo(0) },
        SpaceAction::MoveLease {
            frame: FrameNo(0),
            page: PageNo(0),
        },
        SpaceAction::Return {
            who: 0,
            frame: FrameNo(3),
        },
        SpaceAction::Offline { block: BlockNo(0) },
    ];
    expect_journals(&rt, m, &space, 0);
    Ok(())
}
