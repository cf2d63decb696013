//! Tests of the machine: what the seats of a small one hear of their actions, which of these they may make, and what
//! words, hands and journals these leave, all counted by hand.
#![tactic(auto)]

use machine::{Action, Heard, Machine};

/// An action of the actor on a seat.
#[derive(Clone, Copy, Debug)]
pub struct Act {
    /// The seat.
    pub seat: u32,
    /// The action.
    pub action: Action,
}

/// Makes the action where its actor may make it, and gives what it hears; None, and nothing is done, where it may not,
/// or where there is no memory for it.
pub fn make(m: &mut Machine, act: &Act) -> Option<Heard> {
    if !m.may_make(act.seat, &act.action) {
        return None;
    }
    m.make(act.seat, &act.action).ok()
}

#[cfg(test)]
mod acts;
#[cfg(test)]
mod blocks;
#[cfg(test)]
mod evacuation;
#[cfg(test)]
mod owners;
#[cfg(test)]
mod play;
#[cfg(test)]
mod refused;
#[cfg(test)]
mod requests;
