//! The entry word of a page, and where the words of the shared table lie.
#![tactic(auto)]

mod flags;
mod index;
mod laws;
mod steps;
mod word;

pub use flags::{Flags, pack, unpack};
pub use index::{cell_index, dirty_index, entry_index};
pub use laws::{
    bound_pins_and_kind_survive_a_remap, places_are_apart, places_are_inside, setting_bit_0_takes,
    unmapped_words_are_clear, words_and_flags_agree,
};
pub use steps::{
    after_begin_move, after_map, after_release, after_remap, after_take, after_unmap, with_pins,
};
pub use word::{TAKEN, bound_of, frame_of, is_mapped, is_moving, is_taken, is_unmovable, pins_of};

#[cfg(test)]
mod tests;
