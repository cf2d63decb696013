//! What a step gives to the seat that makes it.

/// What a step gives.
#[derive(Clone, Copy, Debug, PartialEq, Eq)]
pub enum Seen {
    /// The word that a take, a draw, a load, a sweep or a copy found.
    Word(u64),
    /// A store, a mark and a release give nothing.
    Nothing,
}
