//! What refuses a call of the registry, or of a listener.

/// A listener refused to map blocks, and did nothing but raise its count of refusals.
#[derive(Clone, Copy, Debug, PartialEq, Eq)]
pub struct Refused;

/// A listener refused a range that all were told to map. No listener maps it.
#[derive(Clone, Copy, Debug, PartialEq, Eq)]
pub struct RefusedBy {
    /// The key of the listener that refused.
    pub key: usize,
}

/// A listener didn't join, and comes back.
#[derive(Debug, Drop)]
pub enum JoinFault<L> {
    /// It refused a plugged block.
    Refused(L),
    /// There was no memory to keep it. It was told nothing.
    OutOfMemory(L),
}
