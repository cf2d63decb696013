//! The free frames of a machine as runs, each a power of two of frames, after the textbook's buddy
//! allocator.
#![tactic(auto)]

mod aside;
mod laws;
mod runs;
mod tree;

pub use evac_model::{BlockNo, FrameNo, Geometry, Kind, OutOfMemory};
pub use laws::{
    each_free_frame_is_in_one_free_run, free_runs_are_maximal, no_choice_means_none_is_free,
    the_choice_is_the_best, the_choice_is_the_lowest,
};
pub use runs::Runs;
