//! Images counted by hand, written and read, and each damaged at each kind of place.

use crate::*;
use std::alloc::Global;
use std::test::*;

// One boot block and one plugged block, each of one frame with one cell: 5, then 0.
const ONE: [u8; 56] = [
    b'E', b'V', b'A', b'C', b'I', b'M', b'G', b'1', 1, 0, 0, 0, 1, 0, 0, 0, 1, 0, 0, 0, 1, 0, 0, 0,
    1, 0, 0, 0, 0, 0, 0, 0, 0, 0, 0, 0, 5, 0, 0, 0, 0, 0, 0, 0, 1, 0, 0, 0, 0, 0, 0, 0, 0, 0, 0, 0,
];

// One boot block and three managed ones, of two frames with one cell each; blocks 0 and 2 are plugged.
// The frames are 0, 1, 2, 3, 6 and 7.
const TWO: [u8; 108] = [
    b'E', b'V', b'A', b'C', b'I', b'M', b'G', b'1', 1, 0, 0, 0, 2, 0, 0, 0, 1, 0, 0, 0, 3, 0, 0, 0,
    2, 0, 0, 0, 0, 0, 0, 0, 2, 0, 0, 0, 0, 0, 0, 0, 10, 0, 0, 0, 0, 0, 0, 0, 1, 0, 0, 0, 11, 0, 0,
    0, 0, 0, 0, 0, 2, 0, 0, 0, 12, 0, 0, 0, 0, 0, 0, 0, 3, 0, 0, 0, 13, 0, 0, 0, 0, 0, 0, 1, 6, 0,
    0, 0, 16, 0, 0, 0, 0, 0, 0, 0, 7, 0, 0, 0, 17, 0, 0, 0, 0, 0, 0, 0,
];

// Reads and writes again.
fn same_bytes(alloc: Global, bytes: &[u8]) -> Result<bool, ImageFault> {
    let image = read_image(alloc, bytes)?;
    let written = match write_image(alloc, &image) {
        Ok(written) => written,
        Err(_) => return Err(ImageFault::OutOfMemory),
    };
    Ok(written.as_slice() == bytes)
}

// The fault of the bytes, where they are no image.
fn fault_of(alloc: Global, bytes: &[u8]) -> Option<ImageFault> {
    match read_image(alloc, bytes) {
        Ok(_) => None,
        Err(fault) => Some(fault),
    }
}

#[test]
fn images_are_written_as_they_were_read(rt: HostRuntime) {
    assert_eq!(rt; same_bytes(rt.alloc(), &ONE), Ok(true));
    assert_eq!(rt; same_bytes(rt.alloc(), &TWO), Ok(true));
}

#[test]
fn frames_of_an_image(rt: HostRuntime) -> Result<(), Fail> {
    let image = read_image(rt.alloc(), &TWO)
        .ok()
        .ok_or("the bytes are an image")?;
    assert_eq!(rt; image.geometry.boot(), 1);
    assert_eq!(rt; image.geometry.managed(), 3);
    assert_eq!(rt; image.geometry.plugged(), 2);
    assert_eq!(rt; image.geometry.pages(), 1);
    assert_eq!(rt;
        image.plugged.as_slice(),
        [BlockNo(0), BlockNo(2)].as_slice()
    );
    let expected = [
        (0, 10),
        (1, 11),
        (2, 12),
        (3, (1 << 56) + 13),
        (6, 16),
        (7, 17),
    ];
    assert_eq!(rt; image.frames.len(), 6);
    for (frame, (n, cell)) in image.frames.as_slice().iter().zip(expected) {
        assert_eq!(rt; frame.frame, FrameNo(n));
        assert_eq!(rt; frame.cells.as_slice(), [cell].as_slice());
    }
    Ok(())
}

#[test]
fn an_image_that_ends_early_or_late(rt: HostRuntime) -> Result<(), Fail> {
    for end in 0..108 {
        assert_eq!(rt;
            fault_of(rt.alloc(), &TWO[..end]),
            Some(ImageFault::Truncated)
        );
    }
    let mut longer = Vec::from_slice(rt.alloc(), &TWO)?;
    longer.push(0)?;
    assert_eq!(rt; fault_of(rt.alloc(), &longer), Some(ImageFault::Trailing));
    Ok(())
}

#[test]
fn an_image_with_one_other_byte(rt: HostRuntime) {
    let cases = [
        // the mark
        (0, 0, Some(ImageFault::BadMark)),
        (7, b'3', Some(ImageFault::BadMark)),
        // cells, frames in a block, boot blocks, managed blocks, plugged blocks
        (8, 3, Some(ImageFault::BadHeader)),
        (11, 1, Some(ImageFault::BadHeader)),
        (12, 0, Some(ImageFault::BadHeader)),
        (16, 0, Some(ImageFault::BadHeader)),
        (22, 2, Some(ImageFault::BadHeader)),
        (24, 4, Some(ImageFault::BadHeader)),
        // the second block is missing, so that its number is the first frame's
        (24, 1, Some(ImageFault::BadFrame { n: 2 })),
        // blocks that aren't below the managed ones, or don't rise
        (28, 3, Some(ImageFault::BadHeader)),
        (28, 2, Some(ImageFault::BadHeader)),
        (32, 0, Some(ImageFault::BadHeader)),
        // another block than the one of the frames 6 and 7
        (32, 1, Some(ImageFault::BadFrame { n: 6 })),
        // frames out of their order, again, of a block that isn't plugged, and of no block
        (36, 1, Some(ImageFault::BadFrame { n: 1 })),
        (48, 0, Some(ImageFault::Repeated { n: 0 })),
        (60, 3, Some(ImageFault::BadFrame { n: 3 })),
        (84, 3, Some(ImageFault::Repeated { n: 3 })),
        (84, 4, Some(ImageFault::BadFrame { n: 4 })),
        (87, 1, Some(ImageFault::BadFrame { n: 16_777_222 })),
        // cells hold any number
        (40, 0, None),
        (107, 255, None),
    ];
    for (place, byte, fault) in cases {
        assert!(rt; place < 108);
        let mut bytes = TWO;
        bytes[place] = byte;
        assert_eq!(rt; fault_of(rt.alloc(), &bytes), fault);
    }
}
