//! The frames that seats have in hand when a core is opened.

ghost use Rattle.std.specs.Prelude.{◌≡◌, ◌+◌, ◌-◌, ◌<◌, ◌≤◌, ◌++◌, [], IfOk, OnOk};
ghost use Rattle.evac_model.specs.Geometry.{frame_count};
ghost use Rattle.evac_model.specs.StartPages.{AreStartPages};
ghost use Rattle.core_state.specs.CoreOpens.{frames_there, empty_places, fresh_places, free_hand, unplugged_hand};

use crate::hand::HandFrame;
use crate::known_cells::KnownCells;
use evac_model::{Geometry, StartPage};
use std::alloc::{AllocError, Global};

/// The number of frames of the boot blocks and of the blocks that are plugged at the start.
fn frames_there(g: &Geometry) -> u32
    ensures there { result ≡ frames_there g.now }
    ensures within { result ≤ frame_count g.now }
{
    (g.boot() + g.plugged()) * g.block()
}

/// Adds so many places without a frame.
fn push_empty(hand: &mut Vec<Option<HandFrame>>, count: u32) -> Result<(), AllocError>
    ensures { OnOk result (hand.new.items ≡ hand.old.items ++ empty_places count) }
{
    for _place in 0..count {
        hand.push(None)?;
    }
    Ok(())
}

/// Adds so many places with a frame in which nothing was stored.
fn push_fresh(
    alloc: Global,
    hand: &mut Vec<Option<HandFrame>>,
    count: u32,
    cells: u32,
) -> Result<(), AllocError>
    ensures { OnOk result (hand.new.items ≡ hand.old.items ++ fresh_places cells count) }
{
    for _place in 0..count {
        let stores = KnownCells::nothing(alloc, cells as usize)?;
        hand.push(Some(HandFrame { stores, aim: None }))?;
    }
    Ok(())
}

/// No frame in hand.
pub(crate) fn open_hand(alloc: Global, g: &Geometry) -> Result<Vec<Option<HandFrame>>, AllocError>
    ensures { IfOk result (λ v. v.items ≡ empty_places (frame_count g.now)) }
{
    let mut hand = Vec::with_capacity(alloc, g.frames() as usize)?;
    push_empty(&mut hand, g.frames())?;
    Ok(hand)
}

/// Takes the frames of the start pages out of a hand.
fn take_out(hand: &mut [Option<HandFrame>], g: &Geometry, start: &[StartPage])
    requires start { AreStartPages g.now start.now }
    requires hand { hand.old ≡ free_hand g.now [] }
    ensures { hand.new ≡ free_hand g.now start.now }
{
    let mut left = start.len();
    while left > 0 {
        left -= 1;
        let p = start[left];
        hand[p.frame.0 as usize] = None;
    }
}

/// The frames that are there at the start, without those of the start pages.
pub(crate) fn open_free(
    alloc: Global,
    g: &Geometry,
    start: &[StartPage],
) -> Result<Vec<Option<HandFrame>>, AllocError>
    requires { AreStartPages g.now start.now }
    ensures { IfOk result (λ v. v.items ≡ free_hand g.now start.now) }
{
    let there = frames_there(g);
    let mut hand = Vec::with_capacity(alloc, g.frames() as usize)?;
    push_fresh(alloc, &mut hand, there, g.cells())?;
    push_empty(&mut hand, g.frames() - there)?;
    take_out(&mut hand, g, start);
    Ok(hand)
}

/// The frames that aren't there at the start.
pub(crate) fn open_unplugged(
    alloc: Global,
    g: &Geometry,
) -> Result<Vec<Option<HandFrame>>, AllocError>
    ensures { IfOk result (λ v. v.items ≡ unplugged_hand g.now) }
{
    let there = frames_there(g);
    let mut hand = Vec::with_capacity(alloc, g.frames() as usize)?;
    push_empty(&mut hand, there)?;
    push_fresh(alloc, &mut hand, g.frames() - there, g.cells())?;
    Ok(hand)
}
