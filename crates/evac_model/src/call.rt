//! What owners call.

ghost use Rattle.std.specs.Prelude.{◌↔◌, IsTrue};
ghost use Rattle.evac_model.specs.Calls.{AreCells, IsCallFor};

use crate::cells::Cells;
use crate::geometry::Geometry;
use crate::names::Kind;

/// A call on one page. Any owner may call on any page.
#[derive(Clone, Copy, Debug, PartialEq, Eq)]
pub enum Call {
    /// Maps an unmapped page, with zeros in its cells and no pins.
    Alloc {
        /// The kind that the page gets.
        kind: Kind,
    },
    /// Unmaps a page without pins.
    Free,
    /// Reads cells.
    Read {
        /// The first cell, counted from 0.
        first: u32,
        /// The number of cells, 1 to 8.
        count: u32,
    },
    /// Writes cells.
    Write {
        /// The first cell, counted from 0.
        first: u32,
        /// The values, 1 to 8 of them.
        values: Cells,
    },
    /// Adds to one cell, modulo 2^64.
    Add {
        /// The cell, counted from 0.
        cell: u32,
        /// What is added.
        value: u64,
    },
    /// Adds a pin, as `pin_user_pages` of Linux does: a pinned page isn't moved or freed.
    Pin,
    /// Takes a pin away.
    Unpin,
}

/// Whether `count` cells from `first` on are 1 to 8, all of them in a page.
fn are_cells(geometry: &Geometry, first: u32, count: u32) -> bool
    ensures { IsTrue result ↔ AreCells geometry.now first count }
{
    1 <= count && count <= 8 && first as u64 + count as u64 <= geometry.cells() as u64
}

impl Call {
    /// Whether the cells that the call names are in a page of the machine.
    pub fn fits(&self, geometry: &Geometry) -> bool
        ensures { IsTrue result ↔ IsCallFor geometry.now self.now }
    {
        match self {
            Call::Read { first, count } => are_cells(geometry, *first, *count),
            Call::Write { first, values } => are_cells(geometry, *first, values.len() as u32),
            Call::Add { cell, .. } => *cell < geometry.cells(),
            Call::Alloc { .. } | Call::Free | Call::Pin | Call::Unpin => true,
        }
    }
}
