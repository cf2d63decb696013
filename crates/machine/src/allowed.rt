//! Whether a seat may make an action, by the machine as it stands.

ghost use Rattle.std.specs.List.{range_with_len};
ghost use Rattle.evac_model.specs.DeviceAnswer.{named_blocks};
ghost use Rattle.std.specs.Prelude.{◌≡◌, ◌≢◌, ◌↔◌, ℕ, ◌+◌, ◌<◌, ◌≤◌, true, IsTrue, None, Some, length};
ghost use Rattle.evac_model.specs.DeviceAnswer.{request_in};
ghost use Rattle.evac_model.specs.Numbers.{is_in};
ghost use Rattle.evac_model.specs.SpaceJournal.{out_for};
ghost use Rattle.core_state.specs.HandOvers.{IsAtRest};
ghost use Rattle.core_state.specs.Steps.{held_page, held_word};
ghost use Rattle.core_state.specs.Views.{view_of};
ghost use Rattle.core_state.specs.Words.{kind_in};
ghost use Rattle.machine.specs.MachineInside.{IsMachine, setting_of, world_of};
ghost use Rattle.machine.specs.MayMake.{IsOutForHeld, MayStep, MayMove, MayLease, MayReturn, MayAskSpace, MayIsolate, MayTarget, MayUndo, MayTakeOffline, MayPutOnline, MayAskForBlock, MayRequest, MayAskDevice, MayMake};
ghost use Rattle.machine.specs.World.{IsOwnerSeat, IsActorSeat, HasFrame, space_now, device_now, is_held};

use crate::action::{Action, BlockCall, DeviceCall, SpaceCall};
use crate::device_calls::is_unplug_all;
use crate::parts::Parts;
use core_moves::may_move;
use core_state::{MoveStep, Step, View, is_seated};
use evac_model::{BlockNo, FrameNo, Kind, PageNo, RequestBytes};
use evac_words::is_unmovable;
use mem_device::named_range;

/// Whether the seat is an owner's.
fn is_owner(parts: &Parts, seat: u32) -> bool
    ensures { IsTrue result ↔ IsOwnerSeat (setting_of parts.now) seat }
{
    1 <= seat && seat <= parts.owners
}

/// Whether the seat is the driver's or an owner's.
fn is_actor(parts: &Parts, seat: u32) -> bool
    ensures { IsTrue result ↔ IsActorSeat (setting_of parts.now) seat }
{
    seat <= parts.owners
}

/// The view of a seat.
fn view_at(parts: &Parts, seat: u32) -> &View
    requires { seat < length parts.now.core.snapshot.views }
    ensures { result.now ≡ view_of parts.now.core.snapshot.views seat }
{
    &parts.core.snapshot().views.as_slice()[seat as usize]
}

/// Whether it is a page of the machine.
fn is_page(parts: &Parts, page: PageNo) -> bool
    ensures { IsTrue result ↔ (page.0 < parts.now.space.sizes.pages) }
{
    page.0 < parts.space.geometry().pages()
}

/// Whether the seat holds no page and has marked each frame that it wrote.
fn rests(parts: &Parts, seat: u32) -> bool
    requires { seat < length parts.now.core.snapshot.views }
    ensures { IsTrue result ↔ IsAtRest parts.now.core.opening (view_of parts.now.core.snapshot.views seat) }
{
    let view = view_at(parts, seat);
    is_seated(parts.core.opening(), view) && view.held.is_none() && view.unmarked.is_empty()
}

/// Whether the seat has the frame in hand.
fn has_frame(parts: &Parts, seat: u32, frame: FrameNo) -> bool
    requires { seat < length parts.now.core.snapshot.views }
    ensures { IsTrue result ↔ HasFrame (world_of parts.now) seat frame.0 }
{
    match view_at(parts, seat).hand.as_slice().get(frame.0 as usize) {
        Some(place) => place.is_some(),
        None => false,
    }
}

/// Whether the driver holds the block: it is plugged, and offline.
fn is_held(parts: &Parts, block: BlockNo) -> bool
    requires is { IsMachine parts.now }
    ensures { result ≡ is_held (setting_of parts.now) (world_of parts.now) block.0 }
{
    parts.space.is_offline(block) && parts.device.plugged().plugged(block)
}

/// The kind that an entry word says.
fn kind_in(word: u64) -> Kind
    ensures { result ≡ kind_in word }
{
    if is_unmovable(word) {
        Kind::Unmovable
    } else {
        Kind::Movable
    }
}

/// The page that is held; 0 where none is.
fn held_page(view: &View) -> PageNo
    ensures { result.0 ≡ held_page view.now.held }
{
    match &view.held {
        Some(held) => held.page,
        None => PageNo(0),
    }
}

/// The word of the page that is held; 0 where none is.
fn held_word(view: &View) -> u64
    ensures { result ≡ held_word view.now.held }
{
    match &view.held {
        Some(held) => held.word,
        None => 0,
    }
}

/// Whether the frame is out for that page and kind.
fn is_out_for(parts: &Parts, frame: FrameNo, page: PageNo, kind: Kind) -> bool
    ensures { IsTrue result ↔ (out_for (space_now (setting_of parts.now) (world_of parts.now)) frame.0 ≡ Some (record { page = page.0; kind = kind })) }
{
    match parts.space.out_at(frame) {
        Some((out, as_kind)) => out == page && as_kind == kind,
        None => false,
    }
}

/// Whether the frame to which the step maps the held page is out for that page, with its kind.
fn is_out_for_held(parts: &Parts, view: &View, step: &MoveStep) -> bool
    ensures { IsTrue result ↔ IsOutForHeld (setting_of parts.now) (world_of parts.now) view.now step.now }
{
    match step {
        MoveStep::Moving => true,
        MoveStep::Remap { frame } => {
            is_out_for(parts, *frame, held_page(view), kind_in(held_word(view)))
        }
        MoveStep::Map { frame, kind } => is_out_for(parts, *frame, held_page(view), *kind),
        MoveStep::Unmap => true,
    }
}

/// Whether it is a step of the driver or of an owner on a word.
fn may_step(parts: &Parts, seat: u32, step: &Step) -> bool
    requires is { IsMachine parts.now }
    ensures { IsTrue result ↔ MayStep (setting_of parts.now) seat (world_of parts.now) step.now }
{
    is_actor(parts, seat) && parts.core.allows(seat, step)
}

/// Whether it is a step of the driver or of an owner on the mapping of the page that it holds.
fn may_change_mapping(parts: &Parts, seat: u32, step: &MoveStep) -> bool
    requires is { IsMachine parts.now }
    ensures { IsTrue result ↔ MayMove (setting_of parts.now) seat (world_of parts.now) step.now }
{
    is_actor(parts, seat)
        && may_move(&parts.core, seat, *step)
        && is_out_for_held(parts, view_at(parts, seat), step)
}

/// Whether an owner at rest leases a frame for a page of the machine.
fn may_lease(parts: &Parts, seat: u32, page: PageNo) -> bool
    requires is { IsMachine parts.now }
    ensures { IsTrue result ↔ MayLease (setting_of parts.now) seat (world_of parts.now) page }
{
    is_owner(parts, seat) && is_page(parts, page) && rests(parts, seat)
}

/// Whether the driver or an owner, at rest, gives a frame back that it has in hand and that is out.
fn may_give_back(parts: &Parts, seat: u32, frame: FrameNo) -> bool
    requires is { IsMachine parts.now }
    ensures { IsTrue result ↔ MayReturn (setting_of parts.now) seat (world_of parts.now) frame }
{
    is_actor(parts, seat)
        && rests(parts, seat)
        && has_frame(parts, seat, frame)
        && parts.space.out_at(frame).is_some()
}

/// Whether what is asked of the frame space for a page may be asked.
fn may_ask_space(parts: &Parts, seat: u32, call: &SpaceCall) -> bool
    requires is { IsMachine parts.now }
    ensures { IsTrue result ↔ MayAskSpace (setting_of parts.now) seat (world_of parts.now) call.now }
{
    match call {
        SpaceCall::Lease { page, kind: _ } => may_lease(parts, seat, *page),
        SpaceCall::Return { frame } => may_give_back(parts, seat, *frame),
    }
}

/// Whether the driver isolates a managed block that isn't isolated.
fn may_isolate(parts: &Parts, seat: u32, block: BlockNo) -> bool
    requires is { IsMachine parts.now }
    ensures { IsTrue result ↔ MayIsolate (setting_of parts.now) seat (world_of parts.now) block }
{
    seat == 0 && block.0 < parts.space.geometry().managed() && !parts.space.is_isolated(block)
}

/// Whether the driver at rest leases a target for a page of an isolated block.
fn may_lease_target(parts: &Parts, seat: u32, block: BlockNo) -> bool
    requires is { IsMachine parts.now }
    ensures { IsTrue result ↔ MayTarget (setting_of parts.now) seat (world_of parts.now) block }
{
    seat == 0 && rests(parts, 0) && parts.space.is_isolated(block)
}

/// Whether the driver takes the isolation of a block back that isn't offline.
fn may_undo(parts: &Parts, seat: u32, block: BlockNo) -> bool
    requires is { IsMachine parts.now }
    ensures { IsTrue result ↔ MayUndo (setting_of parts.now) seat (world_of parts.now) block }
{
    seat == 0 && parts.space.is_isolated(block) && !parts.space.is_offline(block)
}

/// Whether the driver at rest takes an isolated block away of which no frame is out.
fn may_take_offline(parts: &Parts, seat: u32, block: BlockNo) -> bool
    requires is { IsMachine parts.now }
    ensures { IsTrue result ↔ MayTakeOffline (setting_of parts.now) seat (world_of parts.now) block }
{
    seat == 0
        && rests(parts, 0)
        && parts.space.is_isolated(block)
        && !parts.space.is_offline(block)
        && parts.space.out_after(block, None).is_none()
}

/// Whether the driver at rest puts a block online that it holds.
fn may_put_online(parts: &Parts, seat: u32, block: BlockNo) -> bool
    requires is { IsMachine parts.now }
    ensures { IsTrue result ↔ MayPutOnline (setting_of parts.now) seat (world_of parts.now) block }
{
    seat == 0 && rests(parts, 0) && is_held(parts, block)
}

/// Whether what the driver asks of the frame space of a block may be asked.
fn may_ask_for_block(parts: &Parts, seat: u32, call: &BlockCall) -> bool
    requires is { IsMachine parts.now }
    ensures { IsTrue result ↔ MayAskForBlock (setting_of parts.now) seat (world_of parts.now) call.now }
{
    match call {
        BlockCall::Isolate { block } => may_isolate(parts, seat, *block),
        BlockCall::Target { block, after: _ } => may_lease_target(parts, seat, *block),
        BlockCall::Undo { block } => may_undo(parts, seat, *block),
        BlockCall::Offline { block } => may_take_offline(parts, seat, *block),
        BlockCall::Online { block } => may_put_online(parts, seat, *block),
    }
}

/// Whether the driver holds each of some blocks.
fn are_held(parts: &Parts, first: BlockNo, n: u32) -> bool
    requires is { IsMachine parts.now }
    requires managed { first.0 + n ≤ parts.now.space.sizes.managed }
    ensures { IsTrue result ↔ ((block : ℕ) → is_in block (range_with_len first.0 n) ≡ true → is_held (setting_of parts.now) (world_of parts.now) block ≡ true) }
{
    for block in first.0..first.0 + n {
        if !is_held(parts, BlockNo(block)) {
            return false;
        }
    }
    true
}

/// Whether the driver holds each plugged block.
fn are_all_held(parts: &Parts) -> bool
    requires is { IsMachine parts.now }
    ensures { IsTrue result ↔ ((block : ℕ) → is_in block (device_now (setting_of parts.now) (world_of parts.now)).plugged ≡ true → is_held (setting_of parts.now) (world_of parts.now) block ≡ true) }
{
    let map = parts.device.plugged();
    for block in 0..map.geometry().device_blocks() {
        if map.plugged(BlockNo(block)) && !is_held(parts, BlockNo(block)) {
            return false;
        }
    }
    true
}

/// Whether the driver holds each of the plugged blocks that a request names that unplugs.
fn are_named_held(parts: &Parts, bytes: &[u8]) -> bool
    requires is { IsMachine parts.now }
    ensures { IsTrue result ↔ ((block : ℕ) → is_in block (named_blocks (setting_of parts.now).sizes (device_now (setting_of parts.now) (world_of parts.now)).plugged (request_in bytes.now)) ≡ true → is_held (setting_of parts.now) (world_of parts.now) block ≡ true) }
{
    if is_unplug_all(bytes) {
        return are_all_held(parts);
    }
    let (first, n) = named_range(parts.device.plugged(), bytes);
    are_held(parts, first, n)
}

/// Whether the driver at rest sends a request, and holds what it unplugs.
fn may_request(parts: &Parts, seat: u32, bytes: &RequestBytes) -> bool
    requires is { IsMachine parts.now }
    ensures { IsTrue result ↔ MayRequest (setting_of parts.now) seat (world_of parts.now) bytes.now }
{
    // at most 64
    let sent = bytes.as_slice();
    seat == 0 && rests(parts, 0) && are_named_held(parts, sent)
}

/// Whether what is asked of the memory device may be asked.
fn may_ask_device(parts: &Parts, seat: u32, call: &DeviceCall) -> bool
    requires is { IsMachine parts.now }
    ensures { IsTrue result ↔ MayAskDevice (setting_of parts.now) seat (world_of parts.now) call.now }
{
    match call {
        DeviceCall::Request { bytes } => may_request(parts, seat, bytes),
        DeviceCall::Config => true,
    }
}

/// Whether the actor on that seat may make the action.
pub(crate) fn is_allowed(parts: &Parts, seat: u32, action: &Action) -> bool
    requires is { IsMachine parts.now }
    ensures { IsTrue result ↔ MayMake (setting_of parts.now) seat (world_of parts.now) action.now }
{
    match action {
        Action::Step(step) => may_step(parts, seat, step),
        Action::Move(step) => may_change_mapping(parts, seat, step),
        Action::Space(call) => may_ask_space(parts, seat, call),
        Action::Block(call) => may_ask_for_block(parts, seat, call),
        Action::Device(call) => may_ask_device(parts, seat, call),
        Action::Ended => true,
    }
}
