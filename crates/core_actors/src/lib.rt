//! The actors of a run: owners and the host. Each says what it does next, from what its earlier actions
//! gave; it does nothing itself.
#![tactic(auto)]

mod action;
mod call_action;
mod call_place;
mod heard;
mod host;
mod host_action;
mod host_blocks;
mod host_place;
mod laws;
mod owner;
mod place;

pub use action::{LeaseSeen, Others};
pub use host::Host;
pub use host_place::{HostPlace, MovePlace};
pub use laws::{
    ended_hosts_did_their_commands, ended_owners_have_their_entries,
    ends_are_known_before_the_last_action, hosts_are_kept_at_the_start, hosts_do_their_commands,
    hosts_end_after_their_actions, hosts_make_allowed_actions, owners_end_after_their_actions,
    owners_fit_after_their_actions, owners_fit_at_the_opening, owners_leave_hosts_alone,
    owners_make_allowed_actions, owners_make_the_actions_of_their_calls,
    owners_make_the_actions_of_their_scripts, owners_stay_under_way,
};
pub use machine::{Action, BlockCall, DeviceCall, DeviceHeard, Heard, SpaceCall};
pub use owner::Owner;
pub use place::{CallPlace, Place};
