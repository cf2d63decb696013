//! The memory that a core is opened with.

ghost use Rattle.std.specs.Prelude.{◌≡◌, ◌∷◌, [], length, replicate, IfOk, None, Some};
ghost use Rattle.evac_model.specs.Geometry.{frame_count};
ghost use Rattle.evac_model.specs.StartPages.{AreStartPages};
ghost use Rattle.core_state.specs.CoreOpens.{unused_node, unused_cells, spare_at_start};

use crate::known_cells::KnownCells;
use crate::pool::nodes;
use crate::room::{CellRoom, Room};
use crate::scan::Swept;
use evac_model::{Call, Entry, FrameNo, Geometry, Listed, PageNo, Reply, StartPage};
use std::alloc::{AllocError, Global};
use std::collections::LinkedList;

/// What a node for an entry has before it is used.
const NO_ENTRY: Entry = Entry {
    ticket: 0,
    caller: 0,
    call_no: 0,
    page: PageNo(0),
    call: Call::Free,
    reply: Reply::Done,
};

/// What a node for a swept frame has before it is used.
const NOT_SWEPT: Swept = Swept {
    frame: FrameNo(0),
    mark: 0,
    fresh: false,
};

/// A node for each frame.
fn open_nodes(alloc: Global, frames: u32) -> Result<Vec<LinkedList<FrameNo, Global>>, AllocError>
    ensures { IfOk result (λ v. v.items ≡ replicate frames unused_node) }
{
    let mut all = Vec::with_capacity(alloc, frames as usize)?;
    for _frame in 0..frames {
        let mut node = LinkedList::new(alloc);
        node.push_back(FrameNo(0))?;
        all.push(node)?;
    }
    Ok(all)
}

/// Places for the cells of a page, for each seat.
fn open_cells(alloc: Global, seats: usize, cells: u32) -> Result<Vec<Option<CellRoom>>, AllocError>
    ensures { IfOk result (λ v. v.items ≡ replicate seats (Some (unused_cells cells))) }
{
    let mut all = Vec::with_capacity(alloc, seats)?;
    for _seat in 0..seats {
        let loads = KnownCells::nothing(alloc, cells as usize)?;
        let stores = KnownCells::nothing(alloc, cells as usize)?;
        all.push(Some(CellRoom { loads, stores }))?;
    }
    Ok(all)
}

/// A place for each frame, with no places for its cells.
fn no_spare(alloc: Global, frames: u32) -> Result<Vec<Option<KnownCells>>, AllocError>
    ensures { IfOk result (λ v. v.items ≡ replicate frames None) }
{
    let mut all = Vec::with_capacity(alloc, frames as usize)?;
    for _frame in 0..frames {
        all.push(None)?;
    }
    Ok(all)
}

/// Places for the cells of each frame that is mapped at the start.
fn open_spare(
    alloc: Global,
    g: &Geometry,
    start: &[StartPage],
) -> Result<Vec<Option<KnownCells>>, AllocError>
    requires { AreStartPages g.now start.now }
    ensures { IfOk result (λ v. v.items ≡ spare_at_start g.now start.now) }
{
    let cells = g.cells() as usize;
    let mut spare = no_spare(alloc, g.frames())?;
    let mut left = start.len();
    while left > 0 {
        left -= 1;
        let p = start[left];
        spare[p.frame.0 as usize] = Some(KnownCells::nothing(alloc, cells)?);
    }
    Ok(spare)
}

/// Room for so many entries of so many seats and for the frames of the start pages, and for no notice
/// yet.
pub(crate) fn open_room(
    alloc: Global,
    g: &Geometry,
    start: &[StartPage],
    seats: usize,
    budget: u64,
) -> Result<Room, AllocError>
    requires { AreStartPages g.now start.now }
    ensures entries { IfOk result (λ r. length r.entries ≡ budget) }
    ensures notices { IfOk result (λ r. r.notices ≡ []) }
    ensures made { IfOk result (λ r. r.notices_made ≡ 0) }
    ensures unmarked { IfOk result (λ r. r.unmarked ≡ replicate (frame_count g.now) unused_node) }
    ensures cells { IfOk result (λ r. r.cells ≡ replicate seats (Some (unused_cells g.now.cells))) }
    ensures spare { IfOk result (λ r. r.spare ≡ spare_at_start g.now start.now) }
    ensures swept { IfOk result (λ r. length r.swept ≡ frame_count g.now) }
{
    let entries = nodes(alloc, budget, NO_ENTRY)?;
    let unmarked = open_nodes(alloc, g.frames())?;
    let cells = open_cells(alloc, seats, g.cells())?;
    let spare = open_spare(alloc, g, start)?;
    let swept = nodes(alloc, u64::from(g.frames()), NOT_SWEPT)?;
    Ok(Room {
        entries,
        notices: LinkedList::new(alloc),
        notices_made: 0,
        unmarked: Listed::from_vec(unmarked),
        cells: Listed::from_vec(cells),
        spare: Listed::from_vec(spare),
        swept,
    })
}
