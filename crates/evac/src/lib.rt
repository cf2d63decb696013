//! The top calls: a command's words and its input, and what is written. `replay` reads a scenario,
//! replays it, and writes its report.
#![tactic(auto)]

mod commands;
mod finish;
mod input;
mod program;
mod stop;

pub use commands::replay_main;
pub use finish::Finish;
pub use program::program_main;
pub use report::{FinalPage, FinalPageList, Report};
