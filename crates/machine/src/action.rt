//! What an actor hears and what it does.

use core_state::{MoveStep, Step};
use evac_model::{BlockNo, Config, FrameNo, Kind, MoveLease, PageNo, RequestBytes, Response};

/// What the last action of an actor gave.
#[derive(Clone, Copy, Debug, PartialEq, Eq)]
pub enum Heard {
    /// No action was made.
    Start,
    /// The word that the step found.
    Word(u64),
    /// The action gives nothing.
    Nothing,
    /// The frame that was leased, which is in the actor's hand now.
    Leased(FrameNo),
    /// No frame was leased; the length of the space journal then.
    NoFrame(u64),
    /// What the frame space said of a block.
    Block(BlockHeard),
    /// What the memory device gave.
    Device(DeviceHeard),
}

/// What a frame space says of a block that is to be emptied.
#[derive(Clone, Copy, Debug, PartialEq, Eq)]
pub enum BlockHeard {
    /// It isn't isolated: a frame of it is out for an unmovable page. This is the first such frame.
    Refused {
        /// The frame.
        frame: FrameNo,
        /// The page.
        page: PageNo,
    },
    /// A page of it, and the target that was leased for that page, which is in the driver's hand now.
    Leased(MoveLease),
    /// No later frame of it is out.
    NoneLeft,
    /// No frame is free that takes its next page; the length of the space journal then.
    NoTarget {
        /// The frame of the page.
        from: FrameNo,
        /// The page.
        page: PageNo,
        /// The length.
        at: u64,
    },
}

/// What a memory device gave.
#[derive(Clone, Copy, Debug, PartialEq, Eq)]
pub enum DeviceHeard {
    /// Its answer to a request.
    Answered(Response),
    /// Its configuration.
    Config(Config),
}

/// What an actor asks of the frame space for a page. A frame changes hands with it.
#[derive(Clone, Copy, Debug, PartialEq, Eq)]
pub enum SpaceCall {
    /// A frame for a page of that kind.
    Lease {
        /// The page.
        page: PageNo,
        /// The kind.
        kind: Kind,
    },
    /// A frame is given back.
    Return {
        /// The frame.
        frame: FrameNo,
    },
}

/// What the driver asks of the frame space to empty a block, to take it away and to give it back, after Linux's
/// memory hot-unplug. Frames change hands with it.
#[derive(Clone, Copy, Debug, PartialEq, Eq)]
pub enum BlockCall {
    /// No frame of the block is leased from then on, if it has movable pages alone.
    Isolate {
        /// The block.
        block: BlockNo,
    },
    /// A target for the page of the first frame of an isolated block that is out, or of the first one behind a frame.
    Target {
        /// The block.
        block: BlockNo,
        /// The frame.
        after: Option<FrameNo>,
    },
    /// The isolation of the block is taken back.
    Undo {
        /// The block.
        block: BlockNo,
    },
    /// The isolated block, of which no frame is out, is taken away: its frames come into the driver's hand.
    Offline {
        /// The block.
        block: BlockNo,
    },
    /// The frames of an offline block are given back, and are leased again from then on.
    Online {
        /// The block.
        block: BlockNo,
    },
}

/// What an actor asks of the memory device.
#[derive(Clone, Copy, Debug, PartialEq, Eq)]
pub enum DeviceCall {
    /// An answer to these bytes, which are a request or not. The frames of blocks that are plugged or
    /// unplugged change hands with it.
    Request {
        /// The bytes.
        bytes: RequestBytes,
    },
    /// Its configuration.
    Config,
}

/// What an actor does at its turn.
#[derive(Clone, Copy, Debug, PartialEq, Eq)]
pub enum Action {
    /// It makes the step.
    Step(Step),
    /// It makes the step on the mapping of the page that it holds.
    Move(MoveStep),
    /// It asks the frame space for a page.
    Space(SpaceCall),
    /// It asks the frame space to empty a block, to take it away or to give it back.
    Block(BlockCall),
    /// It asks the memory device.
    Device(DeviceCall),
    /// It has made its last action.
    Ended,
}
