//! What the commands of the host do to the frame space and to the memory device: a relation between what is reported of them
//! and what was done, in order. A request that unplugs empties its blocks first.
#![tactic(auto)]

mod laws;

pub use laws::{
    commands_of_a_small_machine, commands_that_unplug_nothing_do_as_told,
    evacuations_lease_a_target_for_each_attempt, evacuations_of_a_small_machine,
    failed_evacuations_are_undone, plain_commands_did_as_told,
    requests_that_unplug_nothing_are_one_answer, true_evacuations_stay_true,
    what_is_done_by_truth_is_done_by_tale,
};
