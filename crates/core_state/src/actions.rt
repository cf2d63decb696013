//! What a seat knows of the frame space, over shared words. In a core the space stands beside the
//! views, and this part is empty, but for the journal of the seat that keeps the free frames, which is
//! there without actions.

use evac_model::{FrameNo, Kind, PageNo, SpaceAction};
use std::alloc::Global;
use std::collections::LinkedList;

/// An action of the seat, with its place in the space journal.
#[derive(Drop)]
pub struct PlacedAction {
    /// The action.
    pub action: SpaceAction,
    /// Its place in the journal.
    pub at: u64,
    /// The journal before it.
    pub before: LinkedList<SpaceAction, Global>,
}

/// A lease that the space refused.
#[derive(Drop)]
pub struct LeaseRefusal {
    /// The page that the lease was for.
    pub page: PageNo,
    /// The kind that it was for.
    pub kind: Kind,
    /// The number of the seat's entries then.
    pub entries: u64,
    /// The length of the journal then.
    pub at: u64,
    /// The journal then.
    pub before: LinkedList<SpaceAction, Global>,
}

/// An isolation that the space refused.
#[derive(Drop)]
pub struct IsolationRefusal {
    /// The first frame of the block that was out for an unmovable page.
    pub frame: FrameNo,
    /// That page.
    pub page: PageNo,
    /// The length of the journal then.
    pub at: u64,
    /// The journal then.
    pub before: LinkedList<SpaceAction, Global>,
}

/// A seat's actions on the frame space, and what it knows of the space journal.
#[derive(Drop)]
pub struct Actions {
    /// Its own actions, in order.
    pub made: LinkedList<PlacedAction, Global>,
    /// The leases that it was refused, in order.
    pub leases_refused: LinkedList<LeaseRefusal, Global>,
    /// The isolations that it was refused, in order.
    pub isolations_refused: LinkedList<IsolationRefusal, Global>,
    /// Whether it has the mark of a piece under way.
    pub marked: bool,
    /// The length of the longest space journal that it knows.
    pub known: u64,
    /// The whole journal, in the seat that keeps the free frames; none in any other.
    pub journal: Option<LinkedList<SpaceAction, Global>>,
    /// Whether a piece is under way, in the seat that has the free frames.
    pub under_way: bool,
}
