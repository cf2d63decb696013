//! Numbers that name a part of the machine, and the kinds of page.

use std::alloc::{AllocError, AllocFailed};

/// The number of a page, from 0. A page is what an owner's call names; it keeps its number
/// wherever its cells lie.
#[derive(Clone, Copy, Debug, PartialEq, Eq, PartialOrd, Ord)]
pub struct PageNo(pub u32);

/// The number of a frame, from 0: the boot blocks' frames first, then those of the managed blocks.
#[derive(Clone, Copy, Debug, PartialEq, Eq, PartialOrd, Ord)]
pub struct FrameNo(pub u32);

/// The number of a managed block, from 0. Boot blocks have no number.
#[derive(Clone, Copy, Debug, PartialEq, Eq, PartialOrd, Ord)]
pub struct BlockNo(pub u32);

/// Whether a page may be moved to another frame, after Linux's migrate types
/// `MIGRATE_MOVABLE` and `MIGRATE_UNMOVABLE`.
#[derive(Clone, Copy, Debug, PartialEq, Eq)]
pub enum Kind {
    /// Evacuation may move the page.
    Movable,
    /// The page stays in its frame until it is freed.
    Unmovable,
}

/// There was no memory for the call, which left its object as it was.
#[derive(Clone, Copy, Debug, PartialEq, Eq)]
pub struct OutOfMemory;

impl From<AllocError> for OutOfMemory {
    fn from(_e: AllocError) -> OutOfMemory {
        OutOfMemory
    }
}

impl<T: Drop> From<AllocFailed<T>> for OutOfMemory {
    fn from(_e: AllocFailed<T>) -> OutOfMemory {
        OutOfMemory
    }
}
