//! The free runs of a small machine, and of a large one.

ghost use Rattle.std.specs.Prelude.{◌≡◌, ℕ, ◌+◌, ◌<◌, ◌≤◌, ◌^◌, true};
ghost use Rattle.evac_model.specs.FreeRuns.{is_run};
ghost use Rattle.buddy.specs.FreeFrames.{IsNeither};

use crate::small_geometry;
use buddy::{BlockNo, FrameNo, Geometry, Kind, Runs};
use std::process::Abort;
use std::test::Fail;

// Whether a run may be given.
fn may_give(runs: &Runs, frame: u32, order: u32) -> bool
    ensures run { result ≡ true → is_run runs.now.sizes order frame ≡ true }
    ensures neither { result ≡ true → (k : ℕ) → frame ≤ k → k < frame + 2 ^ order → IsNeither runs.now k }
{
    let geometry = runs.geometry();
    if order > 9 || frame >= geometry.frames() {
        return false;
    }
    let length = 1 << order;
    if frame % length != 0 || length > geometry.block() {
        return false;
    }
    for k in frame..frame + length {
        if runs.has(FrameNo(k)) {
            return false;
        }
    }
    true
}

// Gives a run, once it is seen that it may be given.
fn give(rt: &impl Abort, runs: &mut Runs, frame: u32, order: u32) {
    assert!(rt; may_give(runs, frame, order));
    runs.give(FrameNo(frame), order);
}

fn withdraw(rt: &impl Abort, runs: &mut Runs, block: u32) {
    assert!(rt; block < runs.geometry().managed());
    assert!(rt; !runs.is_withdrawn(BlockNo(block)));
    runs.withdraw(BlockNo(block));
}

fn restore(rt: &impl Abort, runs: &mut Runs, block: u32) {
    assert!(rt; runs.is_withdrawn(BlockNo(block)));
    runs.restore(BlockNo(block));
}

// Takes runs of these orders, which begin at these frames.
fn takes(rt: &impl Abort, runs: &mut Runs, kind: Kind, wanted: &[(u32, Option<u32>)]) {
    for (order, frame) in wanted {
        let found = match kind {
            Kind::Movable => runs.take(*order, Kind::Movable),
            Kind::Unmovable => runs.take(*order, Kind::Unmovable),
        };
        assert_eq!(rt; found, frame.map(FrameNo), "order {order}");
    }
}

// Boot frames 0 to 7, and managed blocks of 4 frames from 8 on.
#[test]
fn small_machine(rt: HostRuntime) -> Result<(), Fail> {
    let geometry = small_geometry(4)?;
    let mut runs = Runs::new(rt.alloc(), geometry, Kind::Movable)?;
    assert_eq!(rt; runs.geometry(), geometry);
    assert_eq!(rt; runs.take(0, Kind::Movable), None);
    assert_eq!(rt; runs.fits(FrameNo(8), Kind::Unmovable), false);
    assert_eq!(rt; runs.fits(FrameNo(7), Kind::Unmovable), true);
    assert_eq!(rt; runs.fits(FrameNo(8), Kind::Movable), true);
    for frame in [0, 4, 8, 12, 16, 20] {
        give(&rt, &mut runs, frame, 2);
    }
    // The halves of a run that is taken from are free runs; one frame of the smallest first.
    takes(
        &rt,
        &mut runs,
        Kind::Movable,
        &[
            (0, Some(0)),
            (1, Some(2)),
            (0, Some(1)),
            (2, Some(4)),
            (0, Some(8)),
            (3, None),
            (4_294_967_295, None),
        ],
    );
    takes(&rt, &mut runs, Kind::Unmovable, &[(0, None)]);
    // 0 and 1 are one run again, and 10 and 11 stay one.
    give(&rt, &mut runs, 1, 0);
    give(&rt, &mut runs, 0, 0);
    takes(&rt, &mut runs, Kind::Unmovable, &[(1, Some(0))]);
    takes(
        &rt,
        &mut runs,
        Kind::Movable,
        &[(1, Some(10)), (0, Some(9))],
    );
    // Block 1 has 12 to 15.
    withdraw(&rt, &mut runs, 1);
    assert_eq!(rt; runs.is_withdrawn(BlockNo(1)), true);
    assert_eq!(rt; runs.is_withdrawn(BlockNo(0)), false);
    assert_eq!(rt; runs.is_withdrawn(BlockNo(4)), false);
    takes(
        &rt,
        &mut runs,
        Kind::Movable,
        &[(0, Some(16)), (2, Some(20)), (1, Some(18))],
    );
    // Block 2 has 16 to 19: 17 is free, and 16 is given meanwhile.
    withdraw(&rt, &mut runs, 2);
    give(&rt, &mut runs, 16, 0);
    takes(&rt, &mut runs, Kind::Movable, &[(0, None)]);
    restore(&rt, &mut runs, 2);
    takes(&rt, &mut runs, Kind::Movable, &[(1, Some(16)), (0, None)]);
    restore(&rt, &mut runs, 1);
    takes(&rt, &mut runs, Kind::Movable, &[(2, Some(12)), (0, None)]);
    Ok(())
}

// 128 blocks of 512 frames, half of them managed ones.
#[test]
fn large_machine(rt: HostRuntime) -> Result<(), Fail> {
    let geometry = Geometry::new(1, 512, 64, 64, 64, 1)?;
    let mut runs = Runs::new(rt.alloc(), geometry, Kind::Unmovable)?;
    for block in 0..128 {
        give(&rt, &mut runs, 512 * block, 9);
    }
    for frame in 0..65_536 {
        assert_eq!(rt; runs.take(0, Kind::Unmovable), Some(FrameNo(frame)));
    }
    assert_eq!(rt; runs.take(0, Kind::Movable), None);
    for frame in 0..65_536 {
        give(&rt, &mut runs, 65_535 - frame, 0);
    }
    for block in 0..128 {
        assert_eq!(rt; runs.take(9, Kind::Movable), Some(FrameNo(512 * block)));
    }
    Ok(())
}
