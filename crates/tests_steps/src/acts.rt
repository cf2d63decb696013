//! What seats do to a core, where it is allowed.

ghost use Rattle.std.specs.Prelude.{◌≤◌, ◌<◌, ◌↔◌, IsTrue, length};
ghost use Rattle.core_state.specs.CoreState.{IsSound};

use core_moves::{hand_over, may_hand_over, may_move, step_move};
use core_state::{Core, MoveStep, Seen, Step};
use evac_model::{FrameNo, OutOfMemory};

/// What a seat does to the core.
#[derive(Clone, Copy, Debug)]
pub enum Act {
    /// A step of a call.
    Step {
        /// The seat.
        seat: u32,
        /// The step.
        step: Step,
    },
    /// A step on the mapping of the page that the seat holds.
    Move {
        /// The seat.
        seat: u32,
        /// The step.
        step: MoveStep,
    },
    /// One frame goes from hand to hand.
    Give {
        /// The seat that has it in hand.
        from: u32,
        /// The seat that gets it.
        to: u32,
        /// The frame.
        frame: FrameNo,
    },
}

/// Whether there is such a seat.
fn is_seat(core: &Core, seat: u32) -> bool
    ensures { IsTrue result ↔ (seat < length core.now.snapshot.views) }
{
    (seat as usize) < core.snapshot().views.len()
}

/// Makes a step of a call, where it is allowed.
fn make_step(core: &mut Core, seat: u32, step: &Step) -> Option<Seen>
    requires sound { IsSound core.old }
    requires room { 1 ≤ core.old.room }
    ensures sound { IsSound core.new }
{
    if !is_seat(core, seat) || !core.allows(seat, step) {
        return None;
    }
    Some(core.step(seat, step))
}

/// Makes a step on a mapping, where it is allowed.
fn make_move(core: &mut Core, seat: u32, step: &MoveStep) -> Option<Seen>
    requires sound { IsSound core.old }
    ensures sound { IsSound core.new }
{
    if !is_seat(core, seat) || !may_move(core, seat, *step) {
        return None;
    }
    Some(step_move(core, seat, *step))
}

/// Hands a frame over, where it is allowed.
fn give(core: &mut Core, from: u32, to: u32, frame: FrameNo) -> Option<Seen>
    requires sound { IsSound core.old }
    ensures sound { IsSound core.new }
{
    if !is_seat(core, from) || !is_seat(core, to) || from == to {
        return None;
    }
    if !may_hand_over(core, from, to, frame, 1) {
        return None;
    }
    hand_over(core, from, to, frame, 1);
    Some(Seen::Nothing)
}

/// Makes the act where it is allowed, and gives what it finds; None, and nothing is done, where it isn't.
pub fn make(core: &mut Core, act: Act) -> Result<Option<Seen>, OutOfMemory>
    requires { IsSound core.old }
    ensures { IsSound core.new }
{
    core.room_for_notice()?;
    let seen = match &act {
        Act::Step { seat, step } => make_step(core, *seat, step),
        Act::Move { seat, step } => make_move(core, *seat, step),
        Act::Give { from, to, frame } => give(core, *from, *to, *frame),
    };
    Ok(seen)
}

/// Whether the act is allowed now.
pub fn allows(core: &Core, act: Act) -> bool
    requires { IsSound core.now }
{
    match act {
        Act::Step { seat, step } => is_seat(core, seat) && core.allows(seat, &step),
        Act::Move { seat, step } => is_seat(core, seat) && may_move(core, seat, step),
        Act::Give { from, to, frame } => {
            is_seat(core, from)
                && is_seat(core, to)
                && from != to
                && may_hand_over(core, from, to, frame, 1)
        }
    }
}
