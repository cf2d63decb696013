//! Small scripts of owners, with the actions of each counted by hand.

ghost use Rattle.std.specs.Prelude.{◌≡◌, ◌∷◌, []};

use crate::{NOBODY, two};
use core_actors::{Action, Heard, Owner, SpaceCall};
use core_state::{CallDone, MoveStep, Step};
use evac_model::{Call, CallList, FrameNo, Geometry, Kind, PageNo, Reply};
use std::process::Abort;
use std::test::Fail;

// A free page, mapped to frame 3, without pins, with bound 2: 4 + 3 * 1024 + 2 * 2^30.
const MAPPED: u64 = 2_147_486_724;
// An unmapped page with bound 2.
const UNMAPPED: u64 = 2_147_483_648;

const PAGE: PageNo = PageNo(1);

const FRAME: FrameNo = FrameNo(3);

const TAKE: Action = Action::Step(Step::Take { page: PAGE });

const DRAW: Action = Action::Step(Step::Draw);

const MARK: Action = Action::Step(Step::Mark { frame: FRAME });

const UNMAP: Action = Action::Move(MoveStep::Unmap);

// The frame that is leased.
const LEASED: FrameNo = FrameNo(1);

const ALLOC: Call = Call::Alloc {
    kind: Kind::Unmovable,
};

const MARK_LEASED: Action = Action::Step(Step::Mark { frame: LEASED });

const LEASE: Action = Action::Space(SpaceCall::Lease {
    page: PAGE,
    kind: Kind::Unmovable,
});

const MAP: Action = Action::Move(MoveStep::Map {
    frame: LEASED,
    kind: Kind::Unmovable,
});

const READ: Call = Call::Read { first: 1, count: 2 };

const ADD: Call = Call::Add { cell: 3, value: 9 };

/// A write of two cells.
fn write() -> Call
    ensures { result ≡ Call.Write 1 (7 ∷ 8 ∷ []) }
{
    Call::Write {
        first: 1,
        values: two(7, 8),
    }
}

/// The release of a call.
fn release(call: Call, reply: Reply) -> Action {
    let done = Some(CallDone { call, reply });
    Action::Step(Step::Release { done })
}

/// A load.
fn load(cell: u32) -> Action {
    Action::Step(Step::Load { cell })
}

/// A store in the page's frame.
fn store(cell: u32, value: u64) -> Action {
    Action::Step(Step::Store {
        frame: FRAME,
        cell,
        value,
    })
}

/// A store of 0 in the frame that was leased.
fn zero(cell: u32) -> Action {
    Action::Step(Step::Store {
        frame: LEASED,
        cell,
        value: 0,
    })
}

/// A frame given back.
fn back(frame: FrameNo) -> Action {
    Action::Space(SpaceCall::Return { frame })
}

/// Tells the owner what it hears, row by row, and compares what it does with what is wanted. It hasn't ended
/// before any of them.
fn follow(rt: &impl Abort, owner: &mut Owner, table: &[(Heard, Action)]) {
    for (heard, want) in table {
        assert!(rt; !owner.has_ended());
        assert_eq!(rt; owner.next(*heard, NOBODY), *want);
    }
}

/// The owner makes the action of each row, and hears the answer at once. It has ended just behind the last one.
fn make_all(rt: &impl Abort, owner: &mut Owner, table: &[(Action, Heard)]) {
    for (want, heard) in table {
        assert!(rt; !owner.is_ended());
        assert_eq!(rt; owner.action(), *want);
        owner.hear(heard);
    }
    assert!(rt; owner.is_ended());
    assert_eq!(rt; owner.action(), Action::Ended);
}

#[test]
fn steps_of_a_write_a_read_and_an_add(rt: HostRuntime) -> Result<(), Fail> {
    let g = Geometry::new(4, 2, 2, 1, 1, 4)?;
    let calls = vec![in rt.alloc(); (PAGE, write()), (PAGE, READ), (PAGE, ADD)]?;
    let mut owner = Owner::new(g, 1, CallList::from_vec(calls));
    let table = [
        (Heard::Start, TAKE),
        (Heard::Word(MAPPED + 1), TAKE),
        (Heard::Word(MAPPED + 1), TAKE),
        (Heard::Word(MAPPED), DRAW),
        (Heard::Word(2), store(1, 7)),
        (Heard::Nothing, store(2, 8)),
        (Heard::Nothing, MARK),
        (Heard::Nothing, release(write(), Reply::Done)),
        (Heard::Nothing, TAKE),
        (Heard::Word(MAPPED), DRAW),
        (Heard::Word(3), load(1)),
        (Heard::Word(7), load(2)),
        (Heard::Word(8), release(READ, Reply::Values(two(7, 8)))),
        (Heard::Nothing, TAKE),
        (Heard::Word(MAPPED), DRAW),
        (Heard::Word(4), load(3)),
        (Heard::Word(u64::MAX - 3), store(3, 5)),
        (Heard::Nothing, MARK),
        (Heard::Nothing, release(ADD, Reply::Old(u64::MAX - 3))),
    ];
    follow(&rt, &mut owner, &table);
    assert!(rt; owner.has_ended());
    assert_eq!(rt; owner.next(Heard::Nothing, NOBODY), Action::Ended);
    assert!(rt; owner.has_ended());
    Ok(())
}

#[test]
fn pins_and_refusals_have_three_steps(rt: HostRuntime) -> Result<(), Fail> {
    let g = Geometry::new(4, 2, 2, 1, 1, 4)?;
    let calls = vec![in rt.alloc();
        (PAGE, Call::Pin),
        (PAGE, Call::Pin),
        (PAGE, Call::Unpin),
        (PAGE, Call::Unpin),
        (PAGE, write()),
        (PAGE, READ),
        (PAGE, ADD),
        (PAGE, Call::Pin),
        (PAGE, Call::Unpin),
    ]?;
    let mut owner = Owner::new(g, 1, CallList::from_vec(calls));
    let table = [
        (MAPPED + 62 * 16, release(Call::Pin, Reply::Done)),
        (MAPPED + 63 * 16, release(Call::Pin, Reply::PinLimit)),
        (MAPPED + 63 * 16, release(Call::Unpin, Reply::Done)),
        (MAPPED, release(Call::Unpin, Reply::NotPinned)),
        (UNMAPPED, release(write(), Reply::NotMapped)),
        (UNMAPPED, release(READ, Reply::NotMapped)),
        (UNMAPPED, release(ADD, Reply::NotMapped)),
        (UNMAPPED, release(Call::Pin, Reply::NotMapped)),
        (UNMAPPED, release(Call::Unpin, Reply::NotMapped)),
    ];
    let mut last = Heard::Start;
    for (word, end) in table {
        let table = [
            (last, TAKE),
            (Heard::Word(word), DRAW),
            (Heard::Word(2), end),
        ];
        follow(&rt, &mut owner, &table);
        last = Heard::Nothing;
    }
    assert!(rt; owner.has_ended());
    Ok(())
}

#[test]
fn allocs_lease_a_frame(rt: HostRuntime) -> Result<(), Fail> {
    let g = Geometry::new(2, 2, 2, 1, 1, 4)?;
    let calls = vec![in rt.alloc(); (PAGE, ALLOC), (PAGE, ALLOC), (PAGE, ALLOC), (PAGE, ALLOC)]?;
    let mut owner = Owner::new(g, 1, CallList::from_vec(calls));
    let table = [
        (Heard::Start, LEASE),
        (Heard::Leased(LEASED), zero(0)),
        (Heard::Nothing, zero(1)),
        (Heard::Nothing, MARK_LEASED),
        (Heard::Nothing, TAKE),
        (Heard::Word(UNMAPPED + 1), TAKE),
        (Heard::Word(UNMAPPED), DRAW),
        (Heard::Word(2), MAP),
        (Heard::Nothing, release(ALLOC, Reply::Done)),
        (Heard::Nothing, LEASE),
        (Heard::NoFrame(9), TAKE),
        (Heard::Word(MAPPED), DRAW),
        (Heard::Word(3), release(ALLOC, Reply::Mapped)),
        (Heard::Nothing, LEASE),
        (Heard::NoFrame(9), TAKE),
        (Heard::Word(UNMAPPED), DRAW),
        (Heard::Word(4), release(ALLOC, Reply::NoFrame { at: 9 })),
        (Heard::Nothing, LEASE),
        (Heard::Leased(LEASED), zero(0)),
        (Heard::Nothing, zero(1)),
        (Heard::Nothing, MARK_LEASED),
        (Heard::Nothing, TAKE),
        (Heard::Word(MAPPED), DRAW),
        (Heard::Word(5), release(ALLOC, Reply::Mapped)),
        (Heard::Nothing, back(LEASED)),
    ];
    follow(&rt, &mut owner, &table);
    assert!(rt; owner.has_ended());
    assert_eq!(rt; owner.next(Heard::Nothing, NOBODY), Action::Ended);
    Ok(())
}

#[test]
fn frees_give_the_frame_back(rt: HostRuntime) -> Result<(), Fail> {
    let g = Geometry::new(4, 2, 2, 1, 1, 4)?;
    let calls = vec![in rt.alloc();
        (PAGE, Call::Free),
        (PAGE, Call::Free),
        (PAGE, Call::Free),
        (PAGE, Call::Pin),
    ]?;
    let mut owner = Owner::new(g, 1, CallList::from_vec(calls));
    let table = [
        (Heard::Start, TAKE),
        (Heard::Word(MAPPED + 16), DRAW),
        (Heard::Word(2), release(Call::Free, Reply::Pinned)),
        (Heard::Nothing, TAKE),
        (Heard::Word(MAPPED), DRAW),
        (Heard::Word(3), UNMAP),
        (Heard::Nothing, release(Call::Free, Reply::Done)),
        (Heard::Nothing, back(FRAME)),
        (Heard::Nothing, TAKE),
        (Heard::Word(UNMAPPED), DRAW),
        (Heard::Word(4), release(Call::Free, Reply::NotMapped)),
        (Heard::Nothing, TAKE),
        (Heard::Word(UNMAPPED), DRAW),
        (Heard::Word(5), release(Call::Pin, Reply::NotMapped)),
    ];
    follow(&rt, &mut owner, &table);
    assert!(rt; owner.has_ended());
    Ok(())
}

#[test]
fn a_script_ends_with_its_last_release(rt: HostRuntime) -> Result<(), Fail> {
    let g = Geometry::new(4, 2, 2, 1, 1, 4)?;
    let calls = vec![in rt.alloc(); (PAGE, Call::Free), (PAGE, Call::Pin)]?;
    let mut owner = Owner::new(g, 1, CallList::from_vec(calls));
    let table = [
        (TAKE, Heard::Word(MAPPED + 1)),
        (TAKE, Heard::Word(MAPPED)),
        (DRAW, Heard::Word(2)),
        (UNMAP, Heard::Nothing),
        (release(Call::Free, Reply::Done), Heard::Nothing),
        (back(FRAME), Heard::Nothing),
        (TAKE, Heard::Word(UNMAPPED)),
        (DRAW, Heard::Word(3)),
        (release(Call::Pin, Reply::NotMapped), Heard::Nothing),
    ];
    make_all(&rt, &mut owner, &table);
    Ok(())
}

#[test]
fn a_script_ends_with_its_last_return(rt: HostRuntime) -> Result<(), Fail> {
    let g = Geometry::new(2, 2, 2, 1, 1, 4)?;
    let calls = vec![in rt.alloc(); (PAGE, ALLOC)]?;
    let mut owner = Owner::new(g, 1, CallList::from_vec(calls));
    let table = [
        (LEASE, Heard::Leased(LEASED)),
        (zero(0), Heard::Nothing),
        (zero(1), Heard::Nothing),
        (MARK_LEASED, Heard::Nothing),
        (TAKE, Heard::Word(MAPPED)),
        (DRAW, Heard::Word(2)),
        (release(ALLOC, Reply::Mapped), Heard::Nothing),
        (back(LEASED), Heard::Nothing),
    ];
    make_all(&rt, &mut owner, &table);
    Ok(())
}
