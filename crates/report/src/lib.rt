//! The report of a run, and its text.
#![tactic(auto)]

mod device_text;
mod host_text;
mod line;
mod report;
mod space_text;
mod text;
mod tried_text;
mod words;

pub use line::Line;
pub use report::{FinalPage, FinalPageList, Report};
pub use text::write_report;
