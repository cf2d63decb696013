//! Actions of the driver, seat 0, and of the owner, seat 1, and what they hear.

use crate::Act;
use core_state::{CallDone, MoveStep, Step};
use evac_model::{BlockNo, Call, FrameNo, Kind, MoveLease, PageNo, Reply, RequestBytes, Response};
use machine::{Action, BlockCall, BlockHeard, DeviceCall, DeviceHeard, Heard, SpaceCall};

// ---- steps

/// A step on a word.
pub(crate) fn step(seat: u32, step: Step) -> Act {
    let action = Action::Step(step);
    Act { seat, action }
}

/// A step on a mapping.
pub(crate) fn mapping(seat: u32, step: MoveStep) -> Act {
    let action = Action::Move(step);
    Act { seat, action }
}

/// A take.
pub(crate) fn take(seat: u32, page: u32) -> Act {
    step(seat, Step::Take { page: PageNo(page) })
}

/// A load.
pub(crate) fn load(seat: u32, cell: u32) -> Act {
    step(seat, Step::Load { cell })
}

/// A store.
pub(crate) fn store(seat: u32, frame: u32, cell: u32, value: u64) -> Act {
    let frame = FrameNo(frame);
    step(seat, Step::Store { frame, cell, value })
}

/// A mark.
pub(crate) fn mark(seat: u32, frame: u32) -> Act {
    let frame = FrameNo(frame);
    step(seat, Step::Mark { frame })
}

/// The owner's draw.
pub(crate) const DRAW: Act = Act {
    seat: 1,
    action: Action::Step(Step::Draw),
};

/// The end of a call of the owner.
pub(crate) fn end(call: Call, reply: Reply) -> Act {
    let done = Some(CallDone { call, reply });
    step(1, Step::Release { done })
}

/// The owner's map.
pub(crate) fn map(frame: u32, kind: Kind) -> Act {
    let frame = FrameNo(frame);
    mapping(1, MoveStep::Map { frame, kind })
}

/// The driver begins to move the page that it holds.
pub(crate) const BEGIN: Act = Act {
    seat: 0,
    action: Action::Move(MoveStep::Moving),
};

/// The driver's remap.
pub(crate) fn remap(frame: u32) -> Act {
    let frame = FrameNo(frame);
    mapping(0, MoveStep::Remap { frame })
}

/// The driver lets the page go.
pub(crate) const LET_GO: Act = Act {
    seat: 0,
    action: Action::Step(Step::Release { done: None }),
};

// ---- what is asked of the frame space

/// What is asked for a page.
fn space(seat: u32, call: SpaceCall) -> Act {
    let action = Action::Space(call);
    Act { seat, action }
}

/// A lease.
pub(crate) fn lease(seat: u32, page: u32, kind: Kind) -> Act {
    let page = PageNo(page);
    space(seat, SpaceCall::Lease { page, kind })
}

/// A frame given back.
pub(crate) fn back(seat: u32, frame: u32) -> Act {
    let frame = FrameNo(frame);
    space(seat, SpaceCall::Return { frame })
}

/// What is asked of a block.
pub(crate) fn ask(seat: u32, call: BlockCall) -> Act {
    let action = Action::Block(call);
    Act { seat, action }
}

/// The driver's isolation of a block.
pub(crate) fn isolate(block: u32) -> Act {
    let block = BlockNo(block);
    ask(0, BlockCall::Isolate { block })
}

/// A target for the first page of a block.
pub(crate) fn target(block: u32) -> Act {
    let block = BlockNo(block);
    let after = None;
    ask(0, BlockCall::Target { block, after })
}

/// A target for the first page of a block behind a frame.
pub(crate) fn target_behind(block: u32, frame: u32) -> Act {
    let block = BlockNo(block);
    let after = Some(FrameNo(frame));
    ask(0, BlockCall::Target { block, after })
}

/// An isolation taken back.
pub(crate) fn undo(block: u32) -> Act {
    let block = BlockNo(block);
    ask(0, BlockCall::Undo { block })
}

/// A block taken away.
pub(crate) fn offline(block: u32) -> Act {
    let block = BlockNo(block);
    ask(0, BlockCall::Offline { block })
}

/// A block put online.
pub(crate) fn online(block: u32) -> Act {
    let block = BlockNo(block);
    ask(0, BlockCall::Online { block })
}

/// A frame is leased.
pub(crate) fn leased(frame: u32) -> Heard {
    Heard::Leased(FrameNo(frame))
}

/// An isolation is refused.
pub(crate) fn refused(frame: u32, page: u32) -> Heard {
    let frame = FrameNo(frame);
    let page = PageNo(page);
    Heard::Block(BlockHeard::Refused { frame, page })
}

/// A target is leased.
pub(crate) fn target_leased(from: u32, page: u32, target: u32) -> Heard {
    let from = FrameNo(from);
    let page = PageNo(page);
    let target = FrameNo(target);
    Heard::Block(BlockHeard::Leased(MoveLease { from, page, target }))
}

/// No frame is free for a page.
pub(crate) fn no_target(from: u32, page: u32, at: u64) -> Heard {
    let from = FrameNo(from);
    let page = PageNo(page);
    Heard::Block(BlockHeard::NoTarget { from, page, at })
}

/// No later frame of the block is out.
pub(crate) const NONE_LEFT: Heard = Heard::Block(BlockHeard::NoneLeft);

// ---- what is asked of the memory device

/// The device is sent bytes.
pub(crate) fn send(seat: u32, bytes: &[u8; 24]) -> Act {
    let bytes = RequestBytes::from_slice(bytes);
    let action = Action::Device(DeviceCall::Request { bytes });
    Act { seat, action }
}

/// The driver's request of a type for a range, whose address and count are below 256.
pub(crate) fn request(kind: u8, address: u8, count: u8) -> Act {
    let mut bytes = [0; 24];
    bytes[0] = kind;
    bytes[8] = address;
    bytes[16] = count;
    send(0, &bytes)
}

/// Blocks are plugged.
pub(crate) fn plug(address: u8, count: u8) -> Act {
    request(0, address, count)
}

/// Blocks are unplugged.
pub(crate) fn unplug(address: u8, count: u8) -> Act {
    request(1, address, count)
}

/// All blocks are unplugged.
pub(crate) fn unplug_all() -> Act {
    request(2, 0, 0)
}

/// The state of blocks.
pub(crate) fn state(address: u8, count: u8) -> Act {
    request(3, address, count)
}

/// A request is done, or the blocks of a range are plugged.
pub(crate) const DONE: Heard = Heard::Device(DeviceHeard::Answered(Response::Ack { state: 0 }));

/// The blocks of a range are not plugged.
pub(crate) const UNPLUGGED: Heard = Heard::Device(DeviceHeard::Answered(Response::Ack {
    state: 1,
}));

/// Some blocks of a range are plugged.
pub(crate) const MIXED: Heard = Heard::Device(DeviceHeard::Answered(Response::Ack { state: 2 }));

/// The device's backing failed.
pub(crate) const BUSY: Heard = Heard::Device(DeviceHeard::Answered(Response::Busy));

/// The request is none, or can't be met.
pub(crate) const ERROR: Heard = Heard::Device(DeviceHeard::Answered(Response::Error));
