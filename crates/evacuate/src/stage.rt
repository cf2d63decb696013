//! Where an evacuation stands.

ghost use Rattle.std.specs.Prelude.{◌≡◌};
ghost use Rattle.evac_model.specs.declared.evacuation.EvacCause.TheVariants as cause;

use evac_model::{EvacCause, FrameNo, MoveLease, PageNo};

/// A page that was to be moved, and what came of it.
#[derive(Clone, Copy, Debug, PartialEq, Eq)]
pub struct Attempt {
    /// The frame, the page, and its target.
    pub lease: MoveLease,
    /// None where the page was moved, else the entry word that the mover found.
    pub found: Option<u64>,
}

/// Where an evacuation stands, by the action whose answer it waits for.
#[derive(Clone, Copy, Debug, PartialEq, Eq)]
pub enum Stage {
    /// The block is to be isolated.
    Isolating,
    /// A target is to be leased for the next frame that is out.
    Leasing {
        /// The frame behind which to look.
        after: Option<FrameNo>,
    },
    /// A page is to be moved.
    Moving {
        /// The page and its frames.
        lease: MoveLease,
    },
    /// The page's target, or its old frame, is to be given back.
    Returning {
        /// What came of the page.
        attempt: Attempt,
    },
    /// The isolation is to be undone.
    Undoing {
        /// Why.
        cause: EvacCause,
    },
    /// The block is empty.
    Emptied,
    /// The block isn't isolated.
    Failed {
        /// Why.
        cause: EvacCause,
    },
}

impl Stage {
    /// The isolation was refused at an unmovable page.
    pub fn refused(frame: FrameNo, page: PageNo) -> Stage
        ensures { result ≡ Stage.Failed (cause.Unmovable frame page) }
    {
        Stage::Failed {
            cause: EvacCause::Unmovable { frame, page },
        }
    }

    /// There is no target for a page.
    pub fn without_target(frame: FrameNo, page: PageNo, at: u64) -> Stage
        ensures { result ≡ Stage.Undoing (cause.NoTarget frame page at) }
    {
        Stage::Undoing {
            cause: EvacCause::NoTarget { frame, page, at },
        }
    }

    /// A page was found pinned.
    pub fn pinned(lease: MoveLease, word: u64) -> Stage
        ensures { result ≡ Stage.Undoing (cause.Pinned lease.from lease.page word) }
    {
        Stage::Undoing {
            cause: EvacCause::Pinned {
                frame: lease.from,
                page: lease.page,
                word,
            },
        }
    }

    /// A page was busy in five rounds.
    pub fn busy(lease: MoveLease, words: [u64; 5]) -> Stage
        ensures { result ≡ Stage.Undoing (cause.Busy lease.from lease.page words) }
    {
        Stage::Undoing {
            cause: EvacCause::Busy {
                frame: lease.from,
                page: lease.page,
                words,
            },
        }
    }

    /// A page was moved, or not.
    pub fn tried(lease: MoveLease, found: Option<u64>) -> Stage
        ensures { result ≡ Stage.Returning (record { lease = lease; found = found }) }
    {
        Stage::Returning {
            attempt: Attempt { lease, found },
        }
    }
}
