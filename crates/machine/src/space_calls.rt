//! What is asked of the frame space for a page, each with the hand-over that goes with it.

ghost use Rattle.std.specs.Prelude.{◌≡◌, IfOk, OnErr};
ghost use Rattle.evac_model.specs.SpaceJournal.{lease_of};
ghost use Rattle.machine.specs.Made.{lease_made, return_made};
ghost use Rattle.machine.specs.MachineInside.{IsMachine, setting_of, world_of, state_of, made_of};
ghost use Rattle.machine.specs.MayMake.{MayLease, MayReturn};
ghost use Rattle.machine.specs.World.{space_now};

use crate::action::Heard;
use crate::parts::Parts;
use core_moves::hand_over;
use evac_model::{FrameNo, Kind, LeaseFault, OutOfMemory, PageNo};

/// Leases a frame for a page to the owner on that seat: it goes from the free frames into its hand. Where there is no
/// memory for the space's journal, nothing changes.
pub(crate) fn lease(
    parts: &mut Parts,
    seat: u32,
    page: PageNo,
    kind: Kind,
) -> Result<Heard, OutOfMemory>
    requires is { IsMachine parts.old }
    requires may { MayLease (setting_of parts.old) seat (world_of parts.old) page }
    ensures made { IfOk result (λ heard. made_of parts.new heard ≡ lease_made (setting_of parts.old) seat (world_of parts.old) page kind
        (lease_of (setting_of parts.old).sizes (setting_of parts.old).online (space_now (setting_of parts.old) (world_of parts.old)) seat kind)) }
    ensures is { IsMachine parts.new }
    ensures setting { setting_of parts.new ≡ setting_of parts.old }
    ensures err { OnErr result (state_of parts.new ≡ state_of parts.old) }
{
    let free = parts.owners + 2;
    // it is a space, so that a refusal shows that the rules choose no frame
    let _geometry = parts.space.geometry();
    match parts.space.lease(seat, page, kind) {
        Ok(frame) => {
            hand_over(&mut parts.core, free, seat, frame, 1);
            Ok(Heard::Leased(frame))
        }
        Err(LeaseFault::NoFrame { at }) => Ok(Heard::NoFrame(at)),
        Err(LeaseFault::OutOfMemory) => Err(OutOfMemory),
    }
}

/// Gives a frame back that the driver or the owner on that seat has in hand: it goes to the free frames.
pub(crate) fn give_back(parts: &mut Parts, seat: u32, frame: FrameNo) -> Heard
    requires is { IsMachine parts.old }
    requires may { MayReturn (setting_of parts.old) seat (world_of parts.old) frame }
    ensures made { made_of parts.new result ≡ return_made (setting_of parts.old) seat (world_of parts.old) frame }
    ensures is { IsMachine parts.new }
    ensures setting { setting_of parts.new ≡ setting_of parts.old }
{
    let free = parts.owners + 2;
    hand_over(&mut parts.core, seat, free, frame, 1);
    parts.space.give_back(seat, frame);
    Heard::Nothing
}
