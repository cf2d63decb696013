//! Whether the cells of a held page are left as a call wants them.

ghost use Rattle.std.specs.Prelude.{◌≡◌, ◌↔◌, ◌+◌, ℕ, ◌<◌, IsTrue, length, slice_index, slice_index_or};
ghost use Rattle.core_state.specs.Settled.{taken_from, before_stores, IsCellKept, IsCellLeft, IsLeftWith, taken_cell, value_at, IsRead, IsOld};
ghost use Rattle.core_state.specs.Wanted.{wanted_at};

use crate::held::{Change, Held};
use crate::known_cells::KnownCells;
use crate::opening::Opening;
use evac_model::Cells;

/// What a call wants to stand in the cells that it leaves.
#[derive(Clone, Copy)]
pub(crate) enum Wanted {
    /// Each cell as it was.
    Nothing,
    /// Zero in each cell.
    Zeros,
    /// These values from the first cell on, and the others as they were.
    Values {
        /// The first cell.
        first: u32,
        /// The values.
        values: Cells,
    },
    /// A value in one cell, and the others as they were.
    One {
        /// The cell.
        cell: u32,
        /// The value.
        value: u64,
    },
}

/// What is known of a cell: nothing past the end.
fn known_at(known: &KnownCells, cell: usize) -> Option<u64>
    ensures { result ≡ slice_index_or known.now cell None }
{
    match known.items.get(cell) {
        Some(number) => *number,
        None => None,
    }
}

/// What a load says of a cell of the page as it was taken.
fn taken_from(change: &Change, loaded: Option<u64>) -> Option<u64>
    ensures { result ≡ taken_from change.now loaded }
{
    match change {
        Change::Kept | Change::Moved => loaded,
        Change::Mapped { .. } | Change::Unmapped => None,
    }
}

/// What a cell has before any store, where it is known.
fn before_stores(change: &Change, loaded: Option<u64>) -> Option<u64>
    ensures { result ≡ before_stores change.now loaded }
{
    match change {
        Change::Kept | Change::Moved => loaded,
        Change::Mapped { .. } => Some(0),
        Change::Unmapped => None,
    }
}

/// Whether two numbers are known and the same.
fn is_same(a: Option<u64>, b: Option<u64>) -> bool
    ensures { IsTrue result ↔ (a ≡ b) }
{
    match (a, b) {
        (Some(x), Some(y)) => x == y,
        (None, None) => true,
        _ => false,
    }
}

/// Whether a cell is left as it was taken.
fn is_cell_kept(change: &Change, stored: Option<u64>, loaded: Option<u64>) -> bool
    ensures { IsTrue result ↔ IsCellKept change.now stored loaded }
{
    match change {
        Change::Kept | Change::Moved => stored.is_none() || is_same(stored, loaded),
        Change::Mapped { .. } | Change::Unmapped => false,
    }
}

/// Whether a cell is left with the number that is wanted, or as it was taken where none is.
fn is_cell_left(
    change: &Change,
    stored: Option<u64>,
    loaded: Option<u64>,
    wanted: Option<u64>,
) -> bool
    ensures { IsTrue result ↔ IsCellLeft change.now stored loaded wanted }
{
    if wanted.is_none() {
        return is_cell_kept(change, stored, loaded);
    }
    match stored {
        Some(_) => is_same(stored, wanted),
        None => is_same(before_stores(change, loaded), wanted),
    }
}

/// Whether a cell of the held page is left so.
fn is_left_with(h: &Held, cell: u32, wanted: Option<u64>) -> bool
    ensures { IsTrue result ↔ IsLeftWith h.now cell wanted }
{
    let stored = known_at(&h.stores, cell as usize);
    let loaded = known_at(&h.loads, cell as usize);
    is_cell_left(&h.change, stored, loaded, wanted)
}

/// The cell of the held page as it was taken, where it is known.
fn taken_cell(h: &Held, cell: usize) -> Option<u64>
    ensures { result ≡ taken_cell h.now cell }
{
    taken_from(&h.change, known_at(&h.loads, cell))
}

/// The value that a write wants in a cell, where the cell is one of its own.
fn value_at(first: u32, values: &Cells, cell: u32) -> Option<u64>
    ensures { result ≡ value_at first values.now cell }
{
    if cell < first {
        return None;
    }
    values.as_slice().get((cell - first) as usize).copied()
}

/// What is wanted in a cell.
fn wanted_at(wanted: &Wanted, cell: u32) -> Option<u64>
    ensures { result ≡ wanted_at wanted.now cell }
{
    match wanted {
        Wanted::Nothing => None,
        Wanted::Zeros => Some(0),
        Wanted::Values { first, values } => value_at(*first, values, cell),
        Wanted::One { cell: at, value } => { if cell == *at { Some(*value) } else { None } }
    }
}

/// Whether each cell of the held page is left as it is wanted.
pub(crate) fn are_cells_left(count: u32, h: &Held, wanted: &Wanted) -> bool
    ensures { IsTrue result ↔ ((cell : ℕ) → cell < count → IsLeftWith h.now cell (wanted_at wanted.now cell)) }
{
    for cell in 0..count {
        if !is_left_with(h, cell, wanted_at(wanted, cell)) {
            return false;
        }
    }
    true
}

/// Whether the cells from the first one on are known to have had these values.
fn are_known(h: &Held, first: u32, values: &[u64]) -> bool
    ensures { IsTrue result ↔ ((i : ℕ) → i < length values.now → taken_cell h.now (first + i) ≡ Some (slice_index values.now i)) }
{
    for (i, value) in values.iter().enumerate() {
        if !is_same(taken_cell(h, first as usize + i), Some(*value)) {
            return false;
        }
    }
    true
}

/// Whether these are the values that a read answers: those of the cells from the first one on, as many
/// as the page has of them.
pub(crate) fn is_read(o: &Opening, h: &Held, first: u32, count: u32, values: &Cells) -> bool
    ensures { IsTrue result ↔ IsRead o.now h.now first count values.now }
{
    let long = count.min(o.cells.saturating_sub(first));
    values.len() == long as usize && are_known(h, first, values.as_slice())
}

/// Whether this is the number that the cell had; it is 0 past the end of the page.
pub(crate) fn is_old(o: &Opening, h: &Held, cell: u32, old: u64) -> bool
    ensures { IsTrue result ↔ IsOld o.now h.now cell old }
{
    if cell < o.cells {
        return is_same(taken_cell(h, cell as usize), Some(old));
    }
    old == 0
}
