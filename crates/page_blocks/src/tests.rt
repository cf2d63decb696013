//! A small machine, whose frames are counted by hand.

use crate::*;
use std::test::Fail;

// Blocks of 4 frames: boot frames 0 to 7, then those of the managed blocks 0 (8 to 11), 1 (12 to 15),
// 2 (16 to 19) and 3 (20 to 23).
#[test]
fn isolation(rt: HostRuntime) -> Result<(), Fail> {
    let geometry = Geometry::new(2, 4, 2, 4, 4, 8)?;
    let mut blocks = Blocks::new(rt.alloc(), geometry)?;
    assert_eq!(rt; blocks.geometry(), geometry);
    let refused = |frame, page| {
        Err(Unmovable {
            frame: FrameNo(frame),
            page: PageNo(page),
        })
    };
    blocks.set_out(FrameNo(11), PageNo(3), Kind::Unmovable);
    assert_eq!(rt; blocks.isolate(BlockNo(0)), refused(11, 3));
    blocks.set_out(FrameNo(8), PageNo(5), Kind::Movable);
    assert_eq!(rt; blocks.isolate(BlockNo(0)), refused(11, 3));
    blocks.set_out(FrameNo(10), PageNo(6), Kind::Unmovable);
    assert_eq!(rt; blocks.isolate(BlockNo(0)), refused(10, 6));
    blocks.set_out(FrameNo(12), PageNo(7), Kind::Movable);
    assert_eq!(rt; blocks.isolate(BlockNo(1)), Ok(()));
    assert_eq!(rt; blocks.isolate(BlockNo(3)), Ok(()));
    for (b, want) in [(0, false), (1, true), (2, false), (3, true), (4, false)] {
        assert_eq!(rt; blocks.isolated(BlockNo(b)), want, "block {b}");
    }
    for (frame, want) in [
        (4, false),
        (11, false),
        (12, true),
        (15, true),
        (16, false),
        (23, true),
    ] {
        assert_eq!(rt;
            blocks.is_isolated_frame(FrameNo(frame)),
            want,
            "frame {frame}"
        );
    }
    blocks.undo(BlockNo(1));
    blocks.undo(BlockNo(2));
    assert_eq!(rt; blocks.isolated(BlockNo(1)), false);
    assert_eq!(rt; blocks.isolated(BlockNo(3)), true);
    blocks.clear_out(FrameNo(10));
    assert_eq!(rt; blocks.isolate(BlockNo(0)), refused(11, 3));
    blocks.clear_out(FrameNo(11));
    assert_eq!(rt; blocks.isolate(BlockNo(0)), Ok(()));
    Ok(())
}

// The same machine: frames out in block 0, on both sides of it, and the last frame of all.
#[test]
fn frames_out(rt: HostRuntime) -> Result<(), Fail> {
    let mut blocks = Blocks::new(rt.alloc(), Geometry::new(2, 4, 2, 4, 4, 8)?)?;
    assert_eq!(rt; blocks.out_after(BlockNo(0), None), None);
    blocks.set_out(FrameNo(7), PageNo(1), Kind::Unmovable);
    blocks.set_out(FrameNo(8), PageNo(2), Kind::Movable);
    blocks.set_out(FrameNo(10), PageNo(3), Kind::Unmovable);
    blocks.set_out(FrameNo(12), PageNo(4), Kind::Movable);
    blocks.set_out(FrameNo(23), PageNo(5), Kind::Movable);
    for (frame, want) in [
        (7, Some((PageNo(1), Kind::Unmovable))),
        (8, Some((PageNo(2), Kind::Movable))),
        (9, None),
        (24, None),
    ] {
        assert_eq!(rt; blocks.out_at(FrameNo(frame)), want, "frame {frame}");
    }
    let eighth = Some((FrameNo(8), PageNo(2)));
    let tenth = Some((FrameNo(10), PageNo(3)));
    assert_eq!(rt; blocks.out_after(BlockNo(0), None), eighth);
    assert_eq!(rt; blocks.out_after(BlockNo(0), Some(FrameNo(8))), tenth);
    assert_eq!(rt; blocks.out_after(BlockNo(0), Some(FrameNo(9))), tenth);
    assert_eq!(rt; blocks.out_after(BlockNo(0), Some(FrameNo(10))), None);
    assert_eq!(rt; blocks.out_after(BlockNo(0), Some(FrameNo(11))), None);
    assert_eq!(rt; blocks.out_after(BlockNo(0), Some(FrameNo(3))), eighth);
    assert_eq!(rt; blocks.out_after(BlockNo(0), Some(FrameNo(23))), None);
    assert_eq!(rt; blocks.out_after(BlockNo(2), None), None);
    assert_eq!(rt;
        blocks.out_after(BlockNo(3), None),
        Some((FrameNo(23), PageNo(5)))
    );
    blocks.clear_out(FrameNo(8));
    assert_eq!(rt; blocks.out_after(BlockNo(0), None), tenth);
    Ok(())
}
