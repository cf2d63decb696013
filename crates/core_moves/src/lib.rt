//! The steps that change the mapping of a held page, and frames that go from hand to hand, on a core that
//! stays sound.
#![tactic(auto)]

mod allowed;
mod laws;
mod on_core;

pub use allowed::{may_hand_over, may_move};
pub use core_state::{Core, MoveStep, Seen};
pub use laws::{
    hand_overs_keep_sound, moves_keep_bounds, moves_keep_frames, moves_keep_image,
    moves_keep_noticed_words, moves_keep_pages, moves_keep_seats, moves_keep_sound,
    moves_keep_tickets, moves_keep_turn,
};
pub use on_core::{hand_over, step_move};
