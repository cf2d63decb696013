//! An evacuation of a block: a machine that is told what each action gave, and says the next one. It
//! moves the pages out of a block in rounds, after Linux's `offline_pages` and `migrate_pages`.
#![tactic(auto)]

mod action;
mod answers;
mod evacuation;
mod found;
mod laws;
mod seen;
mod stage;
mod words;

pub use action::EvacAction;
pub use evac_model::{BlockNo, EvacCause, FrameNo, Geometry, MoveLease, PageNo};
pub use evacuation::Evacuation;
pub use found::{is_busy, is_pinned};
pub use laws::{evacuations_of_a_small_machine, tales_of_a_small_machine, words_of_a_frame};
pub use seen::EvacSeen;

#[cfg(test)]
mod tests;
