//! The memory that a core keeps ready for the steps to come.

use crate::known_cells::KnownCells;
use crate::noticed::Notice;
use crate::scan::Swept;
use evac_model::{Entry, FrameNo, Listed, OutOfMemory, PageNo};
use std::alloc::Global;
use std::collections::LinkedList;

/// More nodes than this would have no place in an address space of 2^64 bytes.
const MOST_NOTICES: u64 = 4_611_686_018_427_387_904;

/// What a node for a notice has before it is used.
pub(crate) const NO_NOTICE: Notice = Notice {
    page: PageNo(0),
    word: 0,
    known: 0,
};

/// What a seat needs to hold a page: a place for each cell, for loads and for stores.
#[derive(Drop)]
pub(crate) struct CellRoom {
    pub(crate) loads: KnownCells,
    pub(crate) stores: KnownCells,
}

/// The nodes and the places that steps use, so that none takes memory.
#[derive(Drop)]
pub(crate) struct Room {
    /// A node for each entry to come.
    pub(crate) entries: LinkedList<Entry, Global>,
    /// A node for each notice that there is room for.
    pub(crate) notices: LinkedList<Notice, Global>,
    /// How many nodes for notices were made so far.
    pub(crate) notices_made: u64,
    /// For each frame a node, while no view has the frame unmarked.
    pub(crate) unmarked: Listed<LinkedList<FrameNo, Global>>,
    /// For each seat the places for cells, while it holds no page.
    pub(crate) cells: Listed<Option<CellRoom>>,
    /// For each frame the places for its cells, while no seat has it in hand.
    pub(crate) spare: Listed<Option<KnownCells>>,
    /// A node for each frame that wasn't swept in the pass under way.
    pub(crate) swept: LinkedList<Swept, Global>,
}

impl Room {
    ghost use Rattle.std.specs.Prelude.{◌≡◌, ◌+◌, ◌^◌, ◌<◌, ◌≤◌, length, slice_index_or, slice_set, None, Some, IsSome, OnOk, OnErr};

    /// Makes room for one more notice.
    pub(crate) fn add_notice(&mut self) -> Result<(), OutOfMemory>
        ensures count { OnOk result (length self.new.notices ≡ length self.old.notices + 1) }
        ensures made { OnOk result (self.new.notices_made ≡ self.old.notices_made + 1) }
        ensures most { OnOk result (self.new.notices_made ≤ 2 ^ 62) }
        ensures rest { self.new ≡ record self.old { notices = self.new.notices; notices_made = self.new.notices_made } }
        ensures err { OnErr result (self.new ≡ self.old) }
    {
        if self.notices_made >= MOST_NOTICES {
            return Err(OutOfMemory);
        }
        self.notices.push_back(NO_NOTICE)?;
        self.notices_made += 1;
        Ok(())
    }

    /// Takes the places for the cells of a frame, which are there.
    pub(crate) fn take_spare(&mut self, frame: FrameNo) -> KnownCells
        requires frame { frame.0 < length self.old.spare }
        requires some { IsSome (slice_index_or self.old.spare frame.0 None) }
        ensures spare { slice_index_or self.old.spare frame.0 None ≡ Some result }
        ensures room { self.new ≡ record self.old { spare = slice_set self.old.spare frame.0 None } }
    {
        match self.spare.item_mut(frame.0 as usize).take() {
            Some(spare) => spare,
            None => unreachable!(),
        }
    }

    /// Keeps places for the cells of a frame.
    pub(crate) fn keep_spare(&mut self, frame: FrameNo, spare: KnownCells)
        requires { frame.0 < length self.old.spare }
        ensures { self.new ≡ record self.old { spare = slice_set self.old.spare frame.0 (Some spare) } }
    {
        *self.spare.item_mut(frame.0 as usize) = Some(spare);
    }
}
