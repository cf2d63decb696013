//! What a top call gives back.

use report::Report;

/// How a top call ended.
#[derive(Debug, Drop)]
pub struct Finish {
    /// The exit status: 0 done, 2 the words are no command, 3 the input is refused, 4 a read
    /// failed, 5 a write of the text failed, 6 there was not enough memory.
    pub status: u8,
    /// The report, exactly with status 0 or 5.
    pub report: Option<Report>,
}
