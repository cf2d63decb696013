//! Tests of the steps of calls, and of steps on mappings and hand-overs. Each act of a test is one that the core says is
//! allowed.
#![tactic(auto)]

mod acts;
mod small;

pub use acts::{Act, allows, make};
pub use small::opened;

#[cfg(test)]
mod allowed;
#[cfg(test)]
mod allowed_calls;
#[cfg(test)]
mod allowed_mappings;
#[cfg(test)]
mod holders;
#[cfg(test)]
mod moves;
#[cfg(test)]
mod play;
#[cfg(test)]
mod steps;
