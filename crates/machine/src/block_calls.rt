//! What the driver asks of the frame space to empty a block, to take it away and to give it back, each with the hand-over
//! that goes with it.

ghost use Rattle.std.specs.Prelude.{◌≡◌, IfOk, OnErr};
ghost use Rattle.evac_model.specs.declared.names.Kind.{Kind};
ghost use Rattle.evac_model.specs.SpaceJournal.{lease_of};
ghost use Rattle.space.specs.Refusals.{first_unmovable, next_out};
ghost use Rattle.machine.specs.Made.{noted, isolate_made, target_made, offline_made, online_made, block_made};
ghost use Rattle.machine.specs.MachineInside.{IsMachine, setting_of, world_of, state_of, made_of};
ghost use Rattle.machine.specs.MayMake.{MayIsolate, MayTarget, MayUndo, MayTakeOffline, MayPutOnline, MayAskForBlock, BlockTakesMemory};
ghost use Rattle.machine.specs.World.{space_now};
ghost use Rattle.evac_model.specs.declared.space.SpaceAction.{SpaceAction};

use crate::action::{BlockCall, BlockHeard, Heard};
use crate::parts::Parts;
use core_moves::hand_over;
use evac_model::{BlockNo, FrameNo, IsolateFault, OutOfMemory};
use mem_device::{BlockHand, Held};
use space::MoveLeaseFault;

/// Isolates a block, unless an unmovable page lies in it. Where there is no memory for the space's journal, nothing
/// changes.
fn isolate(parts: &mut Parts, block: BlockNo) -> Result<Heard, OutOfMemory>
    requires is { IsMachine parts.old }
    requires may { MayIsolate (setting_of parts.old) 0 (world_of parts.old) block }
    ensures made { IfOk result (λ heard. made_of parts.new heard ≡ isolate_made (world_of parts.old) block
        (first_unmovable (setting_of parts.old).sizes (space_now (setting_of parts.old) (world_of parts.old)) block.0)) }
    ensures is { IsMachine parts.new }
    ensures setting { setting_of parts.new ≡ setting_of parts.old }
    ensures err { OnErr result (state_of parts.new ≡ state_of parts.old) }
{
    match parts.space.isolate(block) {
        Ok(()) => Ok(Heard::Nothing),
        Err(IsolateFault::Unmovable { frame, page }) => {
            Ok(Heard::Block(BlockHeard::Refused { frame, page }))
        }
        Err(IsolateFault::OutOfMemory) => Err(OutOfMemory),
    }
}

/// Leases a target for the next page of a block: it goes from the free frames into the driver's hand. Where there is no
/// memory for the space's journal, nothing changes.
fn lease_target(
    parts: &mut Parts,
    block: BlockNo,
    after: Option<FrameNo>,
) -> Result<Heard, OutOfMemory>
    requires is { IsMachine parts.old }
    requires may { MayTarget (setting_of parts.old) 0 (world_of parts.old) block }
    ensures made { IfOk result (λ heard. made_of parts.new heard ≡ target_made (setting_of parts.old) (world_of parts.old)
        (next_out (setting_of parts.old).sizes (space_now (setting_of parts.old) (world_of parts.old)) block.0 after)
        (lease_of (setting_of parts.old).sizes (setting_of parts.old).online (space_now (setting_of parts.old) (world_of parts.old)) 0 Kind.Movable)) }
    ensures is { IsMachine parts.new }
    ensures setting { setting_of parts.new ≡ setting_of parts.old }
    ensures err { OnErr result (state_of parts.new ≡ state_of parts.old) }
{
    let free = parts.owners + 2;
    // it is a space, so that a refusal shows that the rules choose no frame
    let _geometry = parts.space.geometry();
    match parts.space.lease_for_move(block, after) {
        Ok(None) => Ok(Heard::Block(BlockHeard::NoneLeft)),
        Ok(Some(lease)) => {
            hand_over(&mut parts.core, free, 0, lease.target, 1);
            Ok(Heard::Block(BlockHeard::Leased(lease)))
        }
        Err(MoveLeaseFault::NoTarget { from, page, at }) => {
            Ok(Heard::Block(BlockHeard::NoTarget { from, page, at }))
        }
        Err(MoveLeaseFault::OutOfMemory) => Err(OutOfMemory),
    }
}

/// Takes the isolation of a block back.
fn undo(parts: &mut Parts, block: BlockNo) -> Heard
    requires is { IsMachine parts.old }
    requires may { MayUndo (setting_of parts.old) 0 (world_of parts.old) block }
    ensures made { made_of parts.new result ≡ noted (world_of parts.old) (SpaceAction.Undo block) }
    ensures is { IsMachine parts.new }
    ensures setting { setting_of parts.new ≡ setting_of parts.old }
{
    parts.space.undo(block);
    Heard::Nothing
}

/// Takes an isolated block away of which no frame is out: its frames go from the free ones to the driver's hand, which
/// holds the block then.
fn take_offline(parts: &mut Parts, block: BlockNo) -> Heard
    requires is { IsMachine parts.old }
    requires may { MayTakeOffline (setting_of parts.old) 0 (world_of parts.old) block }
    ensures made { made_of parts.new result ≡ offline_made (setting_of parts.old) (world_of parts.old) block }
    ensures is { IsMachine parts.new }
    ensures setting { setting_of parts.new ≡ setting_of parts.old }
{
    let free = parts.owners + 2;
    let g = parts.space.geometry();
    let (frame, _) = g.frames_of(block);
    hand_over(&mut parts.core, free, 0, frame, g.block());
    // no frame of it is out
    let _ = parts.space.offline(block);
    parts.held.merge(BlockHand::range(block, 1));
    Heard::Nothing
}

/// Puts a block online that the driver holds: its frames go from the driver's hand to the free ones.
fn put_online(parts: &mut Parts, block: BlockNo) -> Heard
    requires is { IsMachine parts.old }
    requires may { MayPutOnline (setting_of parts.old) 0 (world_of parts.old) block }
    ensures made { made_of parts.new result ≡ online_made (setting_of parts.old) (world_of parts.old) block }
    ensures is { IsMachine parts.new }
    ensures setting { setting_of parts.new ≡ setting_of parts.old }
{
    let free = parts.owners + 2;
    let g = parts.space.geometry();
    let _ = parts.held.part(block, 1);
    let (frame, _) = g.frames_of(block);
    hand_over(&mut parts.core, 0, free, frame, g.block());
    parts.space.online(block);
    Heard::Nothing
}

/// Asks the frame space what the driver asks of a block. Where there is no memory for the space's journal, nothing changes.
pub(crate) fn ask_for_block(parts: &mut Parts, call: &BlockCall) -> Result<Heard, OutOfMemory>
    requires is { IsMachine parts.old }
    requires may { MayAskForBlock (setting_of parts.old) 0 (world_of parts.old) call.now }
    ensures made { IfOk result (λ heard. made_of parts.new heard ≡ block_made (setting_of parts.old) (world_of parts.old) call.now) }
    ensures is { IsMachine parts.new }
    ensures setting { setting_of parts.new ≡ setting_of parts.old }
    ensures err { OnErr result (state_of parts.new ≡ state_of parts.old) }
    ensures memory { OnErr result (BlockTakesMemory call.now) }
{
    match call {
        BlockCall::Isolate { block } => isolate(parts, *block),
        BlockCall::Target { block, after } => lease_target(parts, *block, *after),
        BlockCall::Undo { block } => Ok(undo(parts, *block)),
        BlockCall::Offline { block } => Ok(take_offline(parts, *block)),
        BlockCall::Online { block } => Ok(put_online(parts, *block)),
    }
}
