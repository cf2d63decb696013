//! A DMA map, up to its limit.

use crate::small_geometry;
use dma_listeners::{BlockNo, DmaMap, Listener, Refused};
use std::test::Fail;

#[test]
fn a_map_refuses_exactly_above_its_limit(rt: HostRuntime) -> Result<(), Fail> {
    let mut map = DmaMap::new(rt.alloc(), small_geometry(3)?, 2)?;
    assert_eq!(rt; map.maps(BlockNo(0)), false);
    assert_eq!(rt; map.populate(BlockNo(0), 3), Err(Refused));
    assert_eq!(rt; map.maps(BlockNo(0)), false);
    assert_eq!(rt; map.populate(BlockNo(2), 2), Ok(()));
    assert_eq!(rt; map.maps(BlockNo(3)), true);
    assert_eq!(rt; map.populate(BlockNo(0), 1), Err(Refused));
    map.discard(BlockNo(3), 1);
    assert_eq!(rt; map.maps(BlockNo(3)), false);
    assert_eq!(rt; map.populate(BlockNo(0), 1), Ok(()));
    assert_eq!(rt; map.maps(BlockNo(0)), true);
    assert_eq!(rt; map.maps(BlockNo(2)), true);
    assert_eq!(rt; map.maps(BlockNo(4)), false);
    Ok(())
}
