//! Who keeps the views.

/// Who keeps the words and the views. The counts that proofs alone need stand still in a core, where
/// they would be numbers of 64 bits; over shared words they are no data and have no end.
#[derive(Clone, Copy, Debug, PartialEq, Eq)]
pub enum Keeper {
    /// A core with one owner, which keeps both as data.
    OneOwner,
    /// A table of words that threads share, where views are for proofs alone.
    SharedTable,
}
