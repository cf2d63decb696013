//! What one seat knows.

use crate::actions::Actions;
use crate::hand::Hand;
use crate::held::Held;
use crate::noticed::Noticed;
use crate::scan::Scan;
use evac_model::{Entry, FrameNo, Listed};
use std::alloc::Global;
use std::collections::LinkedList;

/// The pages that a seat has the right to move: for each page number, whether it has.
pub type MoveRight = Listed<bool>;

/// What one seat knows, and what it has.
#[derive(Drop)]
pub struct View {
    /// The number of cells of a frame.
    pub cells: u32,
    /// The number of its caller: 0 for the driver, 1 to 16 for the owners, none for other seats.
    pub caller: Option<u32>,
    /// The entries that it has, in the order in which it made them or they were handed to it.
    pub entries: LinkedList<Entry, Global>,
    /// The page that it holds.
    pub held: Option<Held>,
    /// The frames that it has in hand.
    pub hand: Hand,
    /// The frames that it wrote and hasn't marked since, each once.
    pub unmarked: LinkedList<FrameNo, Global>,
    /// The entry words that its takes found.
    pub noticed: Noticed,
    /// The tickets that it has left to draw.
    pub left: u64,
    /// A number above every ticket that it has seen.
    pub seen: u64,
    /// The pages that it has the right to move.
    pub mover: MoveRight,
    /// Its actions on the frame space.
    pub actions: Actions,
    /// What it has copied, where it is the scanner's seat.
    pub scan: Option<Scan>,
}
