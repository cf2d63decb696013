//! How many of a thing a scenario may have, and the highest numbers.

/// The most owners.
pub const MOST_OWNERS: u64 = 16;

/// The most calls of all owners.
pub const MOST_CALLS: u64 = 1 << 20;

/// The highest number of a call of the backing that a line may let fail.
pub const HIGHEST_FAIL: u64 = 65_536;

/// The most named turns, and the most drawn ones.
pub const MOST_TURNS: u64 = 1 << 24;

/// The most commands of the host.
pub const MOST_COMMANDS: usize = 256;

/// The most bytes of a request.
pub const MOST_REQUEST_BYTES: usize = 64;
