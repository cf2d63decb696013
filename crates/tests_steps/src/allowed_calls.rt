//! What no clause says: that the ends of calls that are allowed are those that were meant, by answers counted by
//! hand.

use crate::allows;
use crate::holders::{
    ANEW, FREED, MAPPED, NEW, UNMAPPED, add, alloc_of, end, loaded, may_end, pinned, read, stored,
    values, write,
};
use evac_model::{Call, Kind, Reply};
use std::test::Fail;

#[test]
fn reads(rt: HostRuntime) -> Result<(), Fail> {
    let both = loaded(true, true);
    let first = loaded(true, false);
    let second = loaded(false, true);
    let cases = [
        (both, read(0, 2), values(&[5, 6]), true),
        (both, read(0, 2), values(&[5]), false),
        (both, read(0, 2), values(&[5, 7]), false),
        (first, read(0, 2), values(&[5, 6]), false),
        (MAPPED, read(0, 1), values(&[5]), false),
        (
            stored(first, Some(6), None),
            read(0, 1),
            values(&[5]),
            false,
        ),
        (stored(first, Some(5), None), read(0, 1), values(&[5]), true),
        (
            stored(MAPPED, Some(5), None),
            read(0, 1),
            values(&[5]),
            false,
        ),
        (second, read(1, 2), values(&[6]), true),
        (MAPPED, read(1, 0), values(&[]), true),
        (both, read(0, 2), Reply::NotMapped, false),
        (UNMAPPED, read(0, 2), Reply::NotMapped, true),
        (NEW, read(0, 2), Reply::NotMapped, false),
    ];
    for (taken, call, reply, want) in cases {
        let may = may_end(rt.alloc(), [5, 6], &taken, call, reply)?;
        assert_eq!(rt; may, want, "{taken:?} {reply:?}");
    }
    Ok(())
}

#[test]
fn writes(rt: HostRuntime) -> Result<(), Fail> {
    let both = stored(MAPPED, Some(7), Some(8));
    let last = stored(MAPPED, None, Some(1));
    let anew = stored(ANEW, Some(1), None);
    let cases = [
        (both, write(0, &[7, 8]), true),
        (both, write(0, &[7, 9]), false),
        (both, write(1, &[7, 8]), false),
        (stored(MAPPED, Some(7), None), write(0, &[7, 6]), false),
        (
            stored(loaded(false, true), Some(7), None),
            write(0, &[7, 6]),
            true,
        ),
        (stored(MAPPED, Some(7), Some(3)), write(0, &[7]), false),
        (last, write(1, &[1]), true),
        (last, write(1, &[1, 2]), false),
        (MAPPED, write(9, &[]), true),
        (anew, write(0, &[1, 0]), true),
        (anew, write(0, &[1]), false),
        (UNMAPPED, write(0, &[]), false),
    ];
    for (taken, call, want) in cases {
        let may = may_end(rt.alloc(), [5, 6], &taken, call, Reply::Done)?;
        assert_eq!(rt; may, want, "{taken:?} {call:?}");
    }
    Ok(())
}

#[test]
fn adds(rt: HostRuntime) -> Result<(), Fail> {
    let most = loaded(true, false);
    let five = loaded(false, true);
    let cases = [
        (
            stored(most, Some(1), None),
            add(0, 2),
            Reply::Old(u64::MAX),
            true,
        ),
        (
            stored(most, Some(5), None),
            add(0, 2),
            Reply::Old(u64::MAX),
            false,
        ),
        (stored(five, None, Some(1)), add(1, 2), Reply::Old(1), false),
        (
            stored(MAPPED, None, Some(5)),
            add(1, 0),
            Reply::Old(5),
            false,
        ),
        (five, add(1, 0), Reply::Old(5), true),
        (five, add(1, 1), Reply::Old(5), false),
        (MAPPED, add(7, 1), Reply::Old(0), true),
        (MAPPED, add(7, 1), Reply::Old(1), false),
        (five, add(1, 0), Reply::Done, false),
        (UNMAPPED, add(0, 0), Reply::NotMapped, true),
    ];
    for (taken, call, reply, want) in cases {
        let may = may_end(rt.alloc(), [u64::MAX, 5], &taken, call, reply)?;
        assert_eq!(rt; may, want, "{taken:?} {reply:?}");
    }
    Ok(())
}

/// An alloc of a movable page.
fn alloc() -> Call {
    alloc_of(Kind::Movable)
}

/// The answer where no frame was leased.
fn no_frame() -> Reply {
    Reply::NoFrame { at: 3 }
}

#[test]
fn allocs_and_frees(rt: HostRuntime) -> Result<(), Fail> {
    let zero = stored(NEW, Some(0), None);
    let one = stored(NEW, Some(1), None);
    let cases = [
        (NEW, alloc(), Reply::Done, true),
        (NEW, alloc_of(Kind::Unmovable), Reply::Done, false),
        (NEW, alloc(), no_frame(), false),
        (NEW, alloc(), Reply::Mapped, false),
        (zero, alloc(), Reply::Done, true),
        (one, alloc(), Reply::Done, false),
        (UNMAPPED, alloc(), Reply::Done, false),
        (UNMAPPED, alloc(), no_frame(), true),
        (UNMAPPED, Call::Free, no_frame(), false),
        (UNMAPPED, Call::Free, Reply::NotMapped, true),
        (UNMAPPED, Call::Unpin, Reply::NotMapped, true),
        (MAPPED, alloc_of(Kind::Unmovable), Reply::Mapped, true),
        (MAPPED, alloc(), no_frame(), false),
        (FREED, alloc(), Reply::Mapped, false),
        (FREED, Call::Free, Reply::Done, true),
        (MAPPED, Call::Free, Reply::Done, false),
        (MAPPED, Call::Free, Reply::Pinned, false),
    ];
    for (taken, call, reply, want) in cases {
        let may = may_end(rt.alloc(), [5, 6], &taken, call, reply)?;
        assert_eq!(rt; may, want, "{taken:?} {reply:?}");
    }
    Ok(())
}

#[test]
fn pins(rt: HostRuntime) -> Result<(), Fail> {
    let cases = [
        (0, Call::Pin, Reply::Done, true),
        (1, Call::Pin, Reply::Done, true),
        (63, Call::Pin, Reply::Done, false),
        (63, Call::Pin, Reply::PinLimit, true),
        (1, Call::Pin, Reply::PinLimit, false),
        (1, Call::Unpin, Reply::Done, true),
        (63, Call::Unpin, Reply::Done, true),
        (0, Call::Unpin, Reply::Done, false),
        (0, Call::Unpin, Reply::NotPinned, true),
        (1, Call::Free, Reply::Pinned, true),
        (1, Call::Free, Reply::Done, false),
    ];
    for (pins, call, reply, want) in cases {
        let core = pinned(rt.alloc(), pins)?;
        assert_eq!(rt;
            allows(&core, end(1, call, reply)),
            want,
            "{pins} {call:?} {reply:?}"
        );
    }
    Ok(())
}
