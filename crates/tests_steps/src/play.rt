//! Acts of seats that the core must allow, one after another.

ghost use Rattle.std.specs.Prelude.{IfOk};
ghost use Rattle.core_state.specs.CoreState.{IsSound};

use crate::{Act, allows, make, opened};
use core_state::{Core, MoveStep, Opening, Seen, Snapshot, Step, View};
use evac_model::{FrameNo, Kind, PageNo};
use std::alloc::Global;
use std::process::Abort;
use std::test::Fail;

/// A step of a call.
pub(crate) fn step(seat: u32, step: Step) -> Act {
    Act::Step { seat, step }
}

/// A step on a mapping.
pub(crate) fn mapping(seat: u32, step: MoveStep) -> Act {
    Act::Move { seat, step }
}

/// A take of a page.
pub(crate) fn take(seat: u32, page: u32) -> Act {
    step(seat, Step::Take { page: PageNo(page) })
}

/// A load.
pub(crate) fn load(seat: u32, cell: u32) -> Act {
    step(seat, Step::Load { cell })
}

/// A store.
pub(crate) fn store(seat: u32, frame: u32, cell: u32, value: u64) -> Act {
    let frame = FrameNo(frame);
    step(seat, Step::Store { frame, cell, value })
}

/// A mark.
pub(crate) fn mark(seat: u32, frame: u32) -> Act {
    step(
        seat,
        Step::Mark {
            frame: FrameNo(frame),
        },
    )
}

/// A map of a movable page.
pub(crate) fn map(seat: u32, frame: u32) -> Act {
    mapping(
        seat,
        MoveStep::Map {
            frame: FrameNo(frame),
            kind: Kind::Movable,
        },
    )
}

/// A remap.
pub(crate) fn remap(seat: u32, frame: u32) -> Act {
    mapping(
        seat,
        MoveStep::Remap {
            frame: FrameNo(frame),
        },
    )
}

/// A frame that goes from hand to hand.
pub(crate) fn give(from: u32, to: u32, frame: u32) -> Act {
    Act::Give {
        from,
        to,
        frame: FrameNo(frame),
    }
}

/// A core of the small machine.
pub(crate) fn core(alloc: Global, first: u32, second: u32) -> Result<Core, Fail>
    ensures { IfOk result (λ core. IsSound core) }
{
    let made = opened(alloc, first, second)?;
    Ok(made.ok_or("the small machine")?)
}

/// Makes the act, which is allowed, and gives what it finds.
pub(crate) fn make_one(core: &mut Core, act: Act) -> Result<Seen, Fail>
    requires { IsSound core.old }
    ensures { IsSound core.new }
{
    let seen = make(core, act)?;
    Ok(seen.ok_or("an act is not allowed")?)
}

/// Makes the acts, each of which is allowed.
pub(crate) fn make_all(core: &mut Core, acts: &[Act]) -> Result<(), Fail>
    requires { IsSound core.old }
    ensures { IsSound core.new }
{
    for act in acts {
        let _seen = make_one(core, *act)?;
    }
    Ok(())
}

/// Makes the acts that are given, each of which is allowed.
pub(crate) fn make_some(core: &mut Core, acts: &[Option<Act>]) -> Result<(), Fail>
    requires { IsSound core.old }
    ensures { IsSound core.new }
{
    for act in acts {
        if let Some(act) = act {
            let _seen = make_one(core, *act)?;
        }
    }
    Ok(())
}

/// What is wanted of an act.
#[derive(Clone, Copy)]
pub(crate) enum Want {
    /// It is allowed, and made.
    Made,
    /// It is allowed, and not made.
    May,
    /// It isn't allowed.
    MayNot,
}

/// Makes the act or not, and compares whether it is allowed with what is wanted.
fn follow_one(rt: &impl Abort, core: &mut Core, act: Act, want: Want) -> Result<(), Fail>
    requires { IsSound core.old }
    ensures { IsSound core.new }
{
    match want {
        Want::Made => {
            let _seen = make_one(core, act)?;
        }
        Want::May => assert!(rt; allows(core, act), "{act:?}"),
        Want::MayNot => assert!(rt; !allows(core, act), "{act:?}"),
    }
    Ok(())
}

/// The acts of a table, one after another.
pub(crate) fn follow(rt: &impl Abort, core: &mut Core, table: &[(Act, Want)]) -> Result<(), Fail>
    requires { IsSound core.old }
    ensures { IsSound core.new }
{
    for (act, want) in table {
        follow_one(rt, core, *act, *want)?;
    }
    Ok(())
}

/// The acts of a table, one after another, on a new core whose two owners have so many tickets.
pub(crate) fn follow_new(
    rt: &impl Abort,
    alloc: Global,
    tickets: [u32; 2],
    table: &[(Act, Want)],
) -> Result<(), Fail> {
    let [first, second] = tickets;
    let mut core = core(alloc, first, second)?;
    follow(rt, &mut core, table)
}

/// Makes the acts, each of which is allowed, and compares what they find with what is wanted, one after another.
fn find(rt: &impl Abort, core: &mut Core, table: &[(Act, Seen)]) -> Result<(), Fail>
    requires { IsSound core.old }
    ensures { IsSound core.new }
{
    for (act, want) in table {
        let seen = make_one(core, *act)?;
        assert_eq!(rt; seen, *want);
    }
    Ok(())
}

/// The same on a new core whose two owners have so many tickets; gives what it is opened with and what it leaves.
pub(crate) fn found(
    rt: &impl Abort,
    alloc: Global,
    tickets: [u32; 2],
    table: &[(Act, Seen)],
) -> Result<(Opening, Snapshot), Fail> {
    let [first, second] = tickets;
    let mut core = core(alloc, first, second)?;
    find(rt, &mut core, table)?;
    Ok(core.into_parts())
}

/// The table begins with these words.
pub(crate) fn expect_words(rt: &impl Abort, snapshot: &Snapshot, want: &[u64]) {
    assert_eq!(rt; snapshot.words.as_slice().get(..want.len()), Some(want));
}

/// Which of the six frames a seat has in hand.
fn in_hand(view: &View) -> [bool; 6] {
    let mut there = [false; 6];
    for (place, frame) in there.iter_mut().zip(view.hand.as_slice()) {
        *place = frame.is_some();
    }
    there
}

/// The seat has exactly these of the six frames in hand.
pub(crate) fn expect_hand(
    rt: &impl Abort,
    snapshot: &Snapshot,
    seat: usize,
    want: [bool; 6],
) -> Result<(), Fail> {
    let view = snapshot.views.as_slice().get(seat).ok_or("no such seat")?;
    assert_eq!(rt; in_hand(view), want);
    Ok(())
}
