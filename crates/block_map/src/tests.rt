//! A small machine, whose numbers are counted by hand, and a large one.

use crate::*;
use std::test::Fail;

// 4 managed blocks of 64 bytes, of which 3 are plugged.
#[test]
fn small_machine(rt: HostRuntime) -> Result<(), Fail> {
    let geometry = Geometry::new(2, 4, 2, 4, 3, 8)?;
    let mut map = BlockMap::new(rt.alloc(), geometry)?;
    assert_eq!(rt; map.geometry(), geometry);
    assert_eq!(rt; map.plugged_size(), 192);
    let states = [
        (0, 3, STATE_PLUGGED),
        (3, 1, STATE_UNPLUGGED),
        (0, 4, STATE_MIXED),
        (2, 2, STATE_MIXED),
        (4, 1, STATE_UNPLUGGED),
        (3, 4_294_967_295, STATE_UNPLUGGED),
    ];
    for (first, n, state) in states {
        assert_eq!(rt; map.state(BlockNo(first), n), state, "{n} from {first}");
    }
    map.set(BlockNo(2), 2);
    assert_eq!(rt; map.plugged_size(), 256);
    assert_eq!(rt; map.state(BlockNo(0), 4), STATE_PLUGGED);
    assert_eq!(rt; map.state(BlockNo(0), 5), STATE_MIXED);
    map.clear(BlockNo(1), 2);
    assert_eq!(rt; map.plugged_size(), 128);
    assert_eq!(rt; map.state(BlockNo(1), 2), STATE_UNPLUGGED);
    let plugged = [true, false, false, true, false];
    for (b, want) in [0, 1, 2, 3, 4].into_iter().zip(plugged) {
        assert_eq!(rt; map.plugged(BlockNo(b)), want, "{b}");
    }
    map.clear(BlockNo(1), 0);
    assert_eq!(rt; map.plugged_size(), 128);
    Ok(())
}

// 65,535 managed blocks of 8 bytes.
#[test]
fn large_machine(rt: HostRuntime) -> Result<(), Fail> {
    let mut map = BlockMap::new(rt.alloc(), Geometry::new(1, 1, 1, 65_535, 65_535, 1)?)?;
    assert_eq!(rt; map.plugged_size(), 524_280);
    map.clear(BlockNo(63), 65_472);
    assert_eq!(rt; map.plugged_size(), 504);
    assert_eq!(rt; map.state(BlockNo(63), 65_472), STATE_UNPLUGGED);
    map.set(BlockNo(65_534), 1);
    assert_eq!(rt; map.state(BlockNo(63), 65_472), STATE_MIXED);
    Ok(())
}
