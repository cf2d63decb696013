//! Why bytes are no image.

ghost use Rattle.std.specs.Prelude.{◌≡◌};
ghost use Rattle.migrate_image.specs.declared.fault.ImageFault.TheVariants.{OutOfMemory};

use std::alloc::{AllocError, AllocFailed};

/// What is wrong with the bytes of an image: the first fault that is met, field by field. Or there was
/// no memory for the image.
#[derive(Clone, Copy, Debug, PartialEq, Eq)]
pub enum ImageFault {
    /// The bytes end inside a field, or where a field must begin.
    Truncated,
    /// The first 8 bytes are there, and aren't the mark.
    BadMark,
    /// The five sizes, read whole, break a limit; or a block's number isn't below the managed blocks,
    /// or isn't above the one before.
    BadHeader,
    /// Another frame's number than the one that is due, not read before.
    BadFrame {
        /// The number that was read.
        n: u32,
    },
    /// A frame's number that was read before.
    Repeated {
        /// The number that was read.
        n: u32,
    },
    /// A byte behind the last frame.
    Trailing,
    /// There was no memory.
    OutOfMemory,
}

impl From<AllocError> for ImageFault {
    ghost from_gives = { λ _ e. e ≡ OutOfMemory };

    fn from(_e: AllocError) -> ImageFault {
        ImageFault::OutOfMemory
    }
}

impl<T: Drop> From<AllocFailed<T>> for ImageFault {
    ghost from_gives = { λ _ e. e ≡ OutOfMemory };

    fn from(_e: AllocFailed<T>) -> ImageFault {
        ImageFault::OutOfMemory
    }
}
