//! The replay of a scenario, step by step: each turn of its schedule makes one atomic step of one actor.
#![tactic(auto)]

mod history;
mod host_report;
mod laws;
mod pages;
mod replay;
mod running;
mod schedule;

pub use laws::{
    bounds_count_turns, no_mapped_page_is_unplugged, reports_tell_legal_histories,
    runs_end_within_their_bound, starts_are_kept, takes_go_with_leases, turns_are_kept,
};
pub use replay::Replay;
pub use report::{FinalPage, FinalPageList, Report};
