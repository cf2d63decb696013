//! Caches and drains, with frames counted by hand.

ghost use Rattle.std.specs.Prelude.{◌≡◌, ◌≤◌, IfOk};
ghost use Rattle.frame_cache.specs.Drains.{IsDrainable};

use crate::*;
use std::alloc::Global;
use std::process::Abort;
use std::test::Fail;

// What is put last is taken first, and a ninth frame pushes out the first. Other callers' caches
// stay as they are.
#[test]
fn last_in_first_out(rt: HostRuntime) -> Result<(), Fail> {
    let mut caches = Caches::new();
    assert_eq!(rt; caches.take(0), None);
    assert_eq!(rt; caches.put(16, FrameNo(40)), None);
    for n in 1..9 {
        assert_eq!(rt; caches.put(3, FrameNo(n)), None, "{n}");
    }
    assert_eq!(rt; caches.put(3, FrameNo(9)), Some(FrameNo(1)));
    assert_eq!(rt; caches.put(3, FrameNo(10)), Some(FrameNo(2)));
    for n in [10, 9, 8, 7, 6, 5, 4, 3] {
        assert_eq!(rt; caches.take(3), Some(FrameNo(n)));
    }
    assert_eq!(rt; caches.take(3), None);
    assert_eq!(rt; caches.take(2), None);
    assert_eq!(rt; caches.take(16), Some(FrameNo(40)));
    Ok(())
}

// Caller 0 has a frame of a boot block and one of managed block 0. Caller 16 has one of managed
// block 1, one of a boot block and another one of managed block 1. No frame is in the runs.
fn start(alloc: Global) -> Result<(Caches, Runs), Fail>
    ensures drainable { IfOk result (λ p. IsDrainable p.0 p.1) }
    ensures managed { IfOk result (λ p. p.1.sizes.managed ≡ 4) }
{
    let geometry = Geometry::new(2, 4, 2, 4, 4, 8)?;
    let runs = Runs::new(alloc, geometry, Kind::Movable)?;
    let mut caches = Caches::new();
    let _ = caches.put(0, FrameNo(3));
    let _ = caches.put(0, FrameNo(9));
    let _ = caches.put(16, FrameNo(12));
    let _ = caches.put(16, FrameNo(7));
    let _ = caches.put(16, FrameNo(13));
    Ok((caches, runs))
}

// The caller's cache has just those frames, the one put last first.
fn expect_cached(rt: &impl Abort, caches: &mut Caches, who: u32, frames: &[u32])
    requires { who ≤ 16 }
{
    for frame in frames {
        assert_eq!(rt; caches.take(who), Some(FrameNo(*frame)));
    }
    assert_eq!(rt; caches.take(who), None);
}

// Just those frames are in the runs: those that are alone rise, and a run of two comes behind.
fn expect_free(rt: &impl Abort, runs: &mut Runs, frames: &[u32]) {
    for frame in frames {
        assert_eq!(rt; runs.take(0, Kind::Movable), Some(FrameNo(*frame)));
    }
    assert_eq!(rt; runs.take(0, Kind::Movable), None);
}

// The drains of a block, of the blocks that take unmovable pages, which are the boot blocks, and
// of all.
#[test]
fn drains(rt: HostRuntime) -> Result<(), Fail> {
    let (mut caches, mut runs) = start(rt.alloc())?;
    caches.drain_block(BlockNo(1), &mut runs);
    expect_cached(&rt, &mut caches, 0, &[9, 3]);
    expect_cached(&rt, &mut caches, 16, &[7]);
    expect_free(&rt, &mut runs, &[12, 13]);

    let (mut caches, mut runs) = start(rt.alloc())?;
    caches.drain_all(true, &mut runs);
    expect_cached(&rt, &mut caches, 0, &[9]);
    expect_cached(&rt, &mut caches, 16, &[13, 12]);
    expect_free(&rt, &mut runs, &[3, 7]);

    let (mut caches, mut runs) = start(rt.alloc())?;
    caches.drain_all(false, &mut runs);
    expect_cached(&rt, &mut caches, 0, &[]);
    expect_cached(&rt, &mut caches, 16, &[]);
    expect_free(&rt, &mut runs, &[3, 7, 9, 12, 13]);
    Ok(())
}
