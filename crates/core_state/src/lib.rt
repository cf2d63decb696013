//! What seats know, the steps that they make on the words of the table, and what holds between any
//! two steps. One owner can keep the words and the views as data; over words that threads share the
//! views are there for proofs alone. The definitions are the same.
#![tactic(auto)]

mod actions;
mod allowed;
mod allowed_calls;
mod allowed_cells;
mod hand;
mod hand_over;
mod held;
mod held_word;
mod keeper;
mod kept;
mod kept_moves;
mod kept_scans;
mod known_cells;
mod laws;
mod laws_allowed;
mod laws_noticed;
mod laws_views;
mod machine;
mod move_words;
mod noticed;
mod open;
mod open_hands;
mod open_room;
mod open_views;
mod opening;
mod pool;
mod room;
mod scan;
mod seen;
mod snapshot;
mod step;
mod view;
mod view_moves;
mod view_scans;
mod view_steps;

pub use actions::{Actions, IsolationRefusal, LeaseRefusal, PlacedAction};
pub use allowed::is_seated;
pub use hand::{Aim, Hand, HandFrame};
pub use held::{Change, Held};
pub use keeper::Keeper;
pub use known_cells::KnownCells;
pub use laws::{
    histories_are_legal, openings_are_sound, steps_keep_bounds, steps_keep_frames,
    steps_keep_image, steps_keep_noticed_words, steps_keep_pages, steps_keep_seats,
    steps_keep_sound, steps_keep_tickets, steps_keep_turn, words_show_the_history,
};
pub use laws_allowed::{answered_is_settled, untouched_is_left_same};
pub use laws_noticed::{noticed_words_tell_the_history, taken_words_are_followed};
pub use laws_views::{
    hand_overs_rearrange, joins_rearrange, rearranged_views_stay_sound,
    reordered_views_are_rearranged, seats_can_be_joined, seats_can_be_split, splits_rearrange,
    views_rearranged_twice_are_rearranged,
};
pub use machine::Core;
pub use noticed::{Notice, Noticed};
pub use opening::{OpenPage, OpenPageList, Opening};
pub use scan::{FrameCopy, ImageSoFar, Scan, Swept};
pub use seen::Seen;
pub use snapshot::{Snapshot, ViewList, WordList};
pub use step::{CallDone, MoveStep, ScanStep, Step};
pub use view::{MoveRight, View};
