//! Steps of a seat on words.

ghost use Rattle.std.specs.Prelude.{◌≡◌, ◌≢◌, ℕ, ◌≤◌, ◌<◌, length, IfOk, OnOk, OnErr};
ghost use Rattle.core_state.specs.CoreState.{notices_of};
ghost use Rattle.core_state.specs.Views.{view_of};
ghost use Rattle.machine.specs.Made.{step_made, move_made};
ghost use Rattle.machine.specs.MachineInside.{IsMachine, setting_of, world_of, state_of, made_of};
ghost use Rattle.machine.specs.MayMake.{MayStep, MayMove, StepTakesMemory};

use crate::action::Heard;
use crate::parts::Parts;
use core_moves::step_move;
use core_state::{Core, MoveStep, Seen, Step};
use evac_model::OutOfMemory;

/// Makes room for the notice of a take by the driver.
fn make_room(core: &mut Core, seat: u32, step: &Step) -> Result<(), OutOfMemory>
    requires none { seat ≢ 0 → notices_of (view_of core.old.snapshot.views seat) step.now ≡ 0 }
    ensures room { OnOk result (notices_of (view_of core.new.snapshot.views seat) step.now ≤ core.new.room) }
    ensures snapshot { core.new.snapshot ≡ core.old.snapshot }
    ensures opening { core.new.opening ≡ core.old.opening }
    ensures memory { OnErr result (StepTakesMemory seat step.now) }
{
    match step {
        Step::Take { .. } if seat == 0 => core.room_for_notice(),
        _ => Ok(()),
    }
}

/// A step of the driver or of an owner on a word. Where there is no memory for the notice of a take by the driver,
/// nothing changes.
pub(crate) fn step(parts: &mut Parts, seat: u32, step: &Step) -> Result<Heard, OutOfMemory>
    requires is { IsMachine parts.old }
    requires may { MayStep (setting_of parts.old) seat (world_of parts.old) step.now }
    ensures made { IfOk result (λ heard. made_of parts.new heard ≡ step_made (setting_of parts.old) seat (world_of parts.old) step.now) }
    ensures is { IsMachine parts.new }
    ensures setting { setting_of parts.new ≡ setting_of parts.old }
    ensures err { OnErr result (state_of parts.new ≡ state_of parts.old) }
    ensures memory { OnErr result (StepTakesMemory seat step.now) }
{
    make_room(&mut parts.core, seat, step)?;
    match parts.core.step(seat, step) {
        Seen::Word(word) => Ok(Heard::Word(word)),
        Seen::Nothing => Ok(Heard::Nothing),
    }
}

/// A step of the driver or of an owner on the mapping of the page that it holds.
pub(crate) fn change_mapping(parts: &mut Parts, seat: u32, step: MoveStep) -> Heard
    requires is { IsMachine parts.old }
    requires may { MayMove (setting_of parts.old) seat (world_of parts.old) step }
    ensures made { made_of parts.new result ≡ move_made seat (world_of parts.old) step }
    ensures is { IsMachine parts.new }
    ensures setting { setting_of parts.new ≡ setting_of parts.old }
{
    step_move(&mut parts.core, seat, step);
    Heard::Nothing
}
