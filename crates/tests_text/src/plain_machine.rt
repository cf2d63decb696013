//! What no clause says: that the definitions mean what was meant, by values counted by hand.

ghost use Rattle.std.specs.Prelude.{◌≡◌, length};

use evac_model::{
    BlockNo, Call, Cells, FrameNo, Geometry, GeometryFault, Kind, Listed, PageNo, Plain, Reply,
    RequestBytes, StartPage,
};
use std::process::Abort;
use std::test::Fail;

// The longest bytes that are kept, a request's and none.
#[test]
fn bytes_of_requests(rt: HostRuntime) {
    let longest = [7; 64];
    assert!(rt; RequestBytes::from_slice(&longest).as_slice() == longest.as_slice());
    let request = [
        1, 0, 0, 0, 0, 0, 0, 0, 128, 0, 0, 0, 0, 0, 0, 0, 1, 0, 0, 0, 0, 0, 0, 9,
    ];
    assert!(rt; RequestBytes::from_slice(&request).as_slice() == request.as_slice());
    assert!(rt; RequestBytes::from_slice(&[]).as_slice().is_empty());
}

#[test]
fn limits_of_a_geometry(rt: HostRuntime) {
    let cases = [
        ([2, 4, 2, 4, 4, 8], None),
        ([1, 1, 1, 1, 0, 1], None),
        ([512, 1, 1, 1, 1, 65_536], None),
        ([1, 512, 64, 64, 64, 1], None),
        ([64, 1, 32_768, 32_768, 32_768, 1], None),
        ([0, 0, 0, 0, 1, 0], Some(GeometryFault::Cells)),
        ([3, 1, 1, 1, 1, 1], Some(GeometryFault::Cells)),
        ([1024, 1, 1, 1, 1, 1], Some(GeometryFault::Cells)),
        ([1, 0, 0, 0, 1, 0], Some(GeometryFault::Block)),
        ([1, 1024, 1, 1, 1, 1], Some(GeometryFault::Block)),
        ([1, 1, 0, 0, 1, 0], Some(GeometryFault::Boot)),
        ([1, 1, 65_537, 1, 1, 1], Some(GeometryFault::Boot)),
        ([1, 1, 1, 0, 1, 0], Some(GeometryFault::Managed)),
        ([1, 1, 1, 65_537, 1, 1], Some(GeometryFault::Managed)),
        ([1, 1, 1, 1, 2, 0], Some(GeometryFault::Plugged)),
        ([1, 1, 65_536, 1, 1, 0], Some(GeometryFault::Pages)),
        ([1, 1, 1, 1, 1, 65_537], Some(GeometryFault::Pages)),
        ([512, 512, 65, 64, 1, 1], Some(GeometryFault::Frames)),
        (
            [128, 1, 32_768, 32_768, 1, 1],
            Some(GeometryFault::TotalCells),
        ),
    ];
    for ([cells, block, boot, managed, plugged, pages], want) in cases {
        let fault = Geometry::new(cells, block, boot, managed, plugged, pages).err();
        assert_eq!(rt;
            fault,
            want,
            "{cells} {block} {boot} {managed} {plugged} {pages}"
        );
    }
}

#[test]
fn numbers_of_a_small_machine(rt: HostRuntime) -> Result<(), Fail> {
    let g = Geometry::new(2, 4, 2, 4, 3, 8)?;
    assert_eq!(rt; g.cells(), 2);
    assert_eq!(rt; g.block(), 4);
    assert_eq!(rt; g.boot(), 2);
    assert_eq!(rt; g.managed(), 4);
    assert_eq!(rt; g.plugged(), 3);
    assert_eq!(rt; g.pages(), 8);
    assert_eq!(rt; g.block_bytes(), 64);
    assert_eq!(rt; g.address(BlockNo(3)), 320);
    let (first, last) = g.frames_of(BlockNo(3));
    assert_eq!(rt; first, FrameNo(20));
    assert_eq!(rt; last, FrameNo(23));
    Ok(())
}

#[test]
fn a_list_keeps_its_items(rt: HostRuntime) -> Result<(), Fail> {
    let list = Listed::from_vec([3u64, 1].to_vec(rt.alloc())?);
    assert_eq!(rt; list.len(), 2);
    assert!(rt; !list.is_empty());
    assert_eq!(rt; list.as_slice(), [3, 1].as_slice());
    assert_eq!(rt; list.into_vec().as_slice(), [3, 1].as_slice());
    assert!(rt; Cells::new().is_empty());
    Ok(())
}

fn one(value: u64) -> Cells
    ensures { length result ≡ 1 }
{
    let mut cells = Cells::new();
    cells.push(value);
    cells
}

fn two(first: u64, second: u64) -> Cells {
    let mut cells = one(first);
    cells.push(second);
    cells
}

fn alloc() -> Call {
    Call::Alloc {
        kind: Kind::Movable,
    }
}

/// Reads both cells.
fn read() -> Call {
    Call::Read { first: 0, count: 2 }
}

/// Writes 7 to cell 1.
fn write() -> Call {
    Call::Write {
        first: 1,
        values: one(7),
    }
}

/// Adds 2^64 - 1 to cell 0.
fn add() -> Call {
    Call::Add {
        cell: 0,
        value: u64::MAX,
    }
}

/// How often a call is made, its page, the call, a refused lease's place, and the reply each time.
type Step = (u32, u32, Call, Option<u64>, Reply);

/// Makes calls and compares their replies.
fn expect_replies(rt: &impl Abort, plain: &mut Plain, geometry: &Geometry, steps: &[Step])
    requires { plain.old.sizes ≡ geometry.now }
{
    for (times, page, call, no_frame, want) in steps {
        for _time in 0..*times {
            assert!(rt; *page < geometry.pages());
            assert!(rt; call.fits(geometry));
            let reply = plain.apply(PageNo(*page), call, *no_frame);
            assert_eq!(rt; reply, *want, "{call:?} of page {page}");
        }
    }
}

#[test]
fn replies_of_the_plain_machine(rt: HostRuntime) -> Result<(), Fail> {
    let g = Geometry::new(2, 4, 2, 4, 4, 8)?;
    let start = [
        StartPage {
            page: PageNo(7),
            kind: Kind::Unmovable,
            frame: FrameNo(7),
        },
        StartPage {
            page: PageNo(0),
            kind: Kind::Movable,
            frame: FrameNo(23),
        },
    ];
    let mut plain = Plain::new(rt.alloc(), g, &start)?;
    let steps = [
        (1, 1, Call::Free, None, Reply::NotMapped),
        (1, 1, read(), None, Reply::NotMapped),
        (1, 1, write(), None, Reply::NotMapped),
        (1, 1, add(), None, Reply::NotMapped),
        (1, 1, Call::Pin, None, Reply::NotMapped),
        (1, 1, Call::Unpin, Some(5), Reply::NotMapped),
        (1, 1, alloc(), Some(5), Reply::NoFrame { at: 5 }),
        (1, 1, alloc(), None, Reply::Done),
        (1, 1, alloc(), Some(5), Reply::Mapped),
        (1, 1, read(), None, Reply::Values(two(0, 0))),
        (1, 1, write(), None, Reply::Done),
        (1, 1, add(), None, Reply::Old(0)),
        (1, 1, add(), None, Reply::Old(u64::MAX)),
        (1, 1, read(), None, Reply::Values(two(u64::MAX - 1, 7))),
        (1, 2, read(), None, Reply::NotMapped),
        (1, 1, Call::Pin, None, Reply::Done),
        (1, 1, Call::Free, None, Reply::Pinned),
        (1, 1, Call::Unpin, None, Reply::Done),
        (1, 1, Call::Free, None, Reply::Done),
        (1, 1, alloc(), None, Reply::Done),
        (1, 1, read(), None, Reply::Values(two(0, 0))),
        (1, 1, Call::Unpin, None, Reply::NotPinned),
        (1, 7, read(), None, Reply::Values(two(0, 0))),
        (63, 7, Call::Pin, None, Reply::Done),
        (1, 7, Call::Pin, None, Reply::PinLimit),
        (1, 7, Call::Free, None, Reply::Pinned),
        (63, 7, Call::Unpin, None, Reply::Done),
        (1, 7, Call::Unpin, None, Reply::NotPinned),
        (1, 0, Call::Free, None, Reply::Done),
    ];
    expect_replies(&rt, &mut plain, &g, &steps);
    Ok(())
}
