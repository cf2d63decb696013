//! The frame space of a machine: who gets which frame, which blocks are isolated and offline, and the
//! journal of all that, from which everything else follows.
#![tactic(auto)]

mod choose;
mod kept;
mod laws;
mod open;
mod space;

pub use evac_model::{
    BlockNo, FrameNo, Geometry, IsolateFault, Kind, LeaseFault, MoveLease, MoveLeaseFault,
    NotEmpty, OutOfMemory, PageNo, SpaceAction, StartPage,
};
pub use laws::{
    frames_out_fit, frames_out_in_isolated_blocks_are_movable, journals_go_on,
    leased_frames_are_free, leases_keep_spaces, no_frame_out_is_offline, openings_are_spaces,
    refused_leases_have_no_frame, spaces_stay_spaces,
};
pub use space::Space;
