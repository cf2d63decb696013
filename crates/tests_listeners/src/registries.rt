//! What a registry tells its listeners, call by call.

use crate::{Small, small_geometry};
use dma_listeners::{BlockNo, Notice, RefusedBy, Told};
use std::alloc::Global;
use std::test::Fail;

// The listeners of a machine with 4 managed blocks, so many of which are plugged.
fn small(alloc: Global, plugged: u32) -> Result<Small, Fail> {
    let registry = Small::open(alloc, small_geometry(plugged)?)?;
    Ok(registry)
}

// A notice of the listener of a key, or of one that was refused.
fn notice(key: Option<usize>, first: u32, n: u32, told: Told) -> Notice {
    Notice {
        key,
        first: BlockNo(first),
        n,
        told,
    }
}

const OK: Told = Told::PopulateOk;

const REFUSED: Told = Told::PopulateRefused;

const DISCARD: Told = Told::Discard;

#[test]
fn the_second_of_three_refuses_a_plug(rt: HostRuntime) -> Result<(), Fail> {
    let mut s = small(rt.alloc(), 1)?;
    for (limit, key) in [(4, 0), (1, 1), (4, 2)] {
        let (joined, notices) = s.join(limit)?;
        assert_eq!(rt; joined, Some(key));
        assert_eq!(rt;
            notices.as_slice(),
            [notice(Some(key), 0, 1, OK)].as_slice()
        );
    }
    let (answer, notices) = s.plug(1, 2)?;
    assert_eq!(rt; answer, Err(RefusedBy { key: 1 }));
    let want = [
        notice(Some(0), 1, 2, OK),
        notice(Some(1), 1, 2, REFUSED),
        notice(Some(0), 1, 2, DISCARD),
    ];
    assert_eq!(rt; notices.as_slice(), want.as_slice());
    for key in [0, 1, 2] {
        assert_eq!(rt; s.maps(key, 0), Some(true));
        assert_eq!(rt; s.maps(key, 1), Some(false));
    }
    Ok(())
}

#[test]
fn a_key_is_given_again(rt: HostRuntime) -> Result<(), Fail> {
    let mut s = small(rt.alloc(), 3)?;
    let (first, _) = s.join(8)?;
    assert_eq!(rt; first, Some(0));
    let (left, notices) = s.leave(0)?;
    assert_eq!(rt; left, true);
    let want = [
        notice(Some(0), 0, 1, DISCARD),
        notice(Some(0), 1, 1, DISCARD),
        notice(Some(0), 2, 1, DISCARD),
    ];
    assert_eq!(rt; notices.as_slice(), want.as_slice());
    let (left, notices) = s.leave(0)?;
    assert_eq!(rt; left, false);
    assert_eq!(rt; notices.is_empty(), true);
    let (again, notices) = s.join(8)?;
    assert_eq!(rt; again, Some(0));
    let want = [
        notice(Some(0), 0, 1, OK),
        notice(Some(0), 1, 1, OK),
        notice(Some(0), 2, 1, OK),
    ];
    assert_eq!(rt; notices.as_slice(), want.as_slice());
    Ok(())
}

#[test]
fn a_join_is_refused_at_its_limit(rt: HostRuntime) -> Result<(), Fail> {
    let mut s = small(rt.alloc(), 3)?;
    let (joined, notices) = s.join(2)?;
    assert_eq!(rt; joined, None);
    let want = [
        notice(None, 0, 1, OK),
        notice(None, 1, 1, OK),
        notice(None, 2, 1, REFUSED),
        notice(None, 0, 1, DISCARD),
        notice(None, 1, 1, DISCARD),
    ];
    assert_eq!(rt; notices.as_slice(), want.as_slice());
    assert_eq!(rt; s.next_key(0), None);
    let (joined, _) = s.join(3)?;
    assert_eq!(rt; joined, Some(0));
    Ok(())
}

#[test]
fn a_key_that_was_never_given(rt: HostRuntime) -> Result<(), Fail> {
    let mut s = small(rt.alloc(), 1)?;
    let (joined, _) = s.join(4)?;
    assert_eq!(rt; joined, Some(0));
    let (left, notices) = s.leave(7)?;
    assert_eq!(rt; left, false);
    assert_eq!(rt; notices.is_empty(), true);
    assert_eq!(rt; s.maps(7, 0), None);
    assert_eq!(rt; s.next_key(0), Some(0));
    assert_eq!(rt; s.next_key(1), None);
    Ok(())
}

#[test]
fn all_blocks_are_unplugged_around_a_hole(rt: HostRuntime) -> Result<(), Fail> {
    let mut s = small(rt.alloc(), 4)?;
    for _listener in 0..2 {
        let _ = s.join(4)?;
    }
    let notices = s.unplug(1, 1)?;
    let want = [
        notice(Some(0), 1, 1, DISCARD),
        notice(Some(1), 1, 1, DISCARD),
    ];
    assert_eq!(rt; notices.as_slice(), want.as_slice());
    let notices = s.unplug_all()?;
    let want = [
        notice(Some(0), 0, 1, DISCARD),
        notice(Some(0), 2, 1, DISCARD),
        notice(Some(0), 3, 1, DISCARD),
        notice(Some(1), 0, 1, DISCARD),
        notice(Some(1), 2, 1, DISCARD),
        notice(Some(1), 3, 1, DISCARD),
    ];
    assert_eq!(rt; notices.as_slice(), want.as_slice());
    for b in [0, 1, 2, 3] {
        assert_eq!(rt; s.maps(1, b), Some(false));
    }
    Ok(())
}
