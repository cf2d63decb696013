//! What a call answers.

use crate::cells::Cells;

/// The reply to a call. A refusal changes nothing.
#[derive(Clone, Copy, Debug, PartialEq, Eq)]
pub enum Reply {
    /// The call was done, and has no value to give.
    Done,
    /// The values of the cells read, in order.
    Values(Cells),
    /// The value of the cell before the sum was stored.
    Old(u64),
    /// An alloc of a page that is mapped.
    Mapped,
    /// Any other call on a page that is unmapped.
    NotMapped,
    /// A free of a page with pins.
    Pinned,
    /// A pin of a page that has 63 pins.
    PinLimit,
    /// An unpin of a page without pins.
    NotPinned,
    /// An alloc of an unmapped page whose lease of a frame was refused.
    NoFrame {
        /// The length of the space journal when the lease was refused.
        at: u64,
    },
}
