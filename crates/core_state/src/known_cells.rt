//! What a seat knows of the cells of a frame.

ghost use Rattle.std.specs.Prelude.{◌≡◌, ◌≤◌, ◌-◌, ◌++◌, ℕ, None, length, take, drop, replicate};

use std::alloc::{AllocError, Global};
use std::marker::Model;

/// For each cell of a frame the number that a seat knows there, or none. Contracts see the list. None is known
/// of a cell before `from`, nor of one from `to` on, so that all is forgotten in the time of the cells between.
#[derive(Drop)]
pub struct KnownCells {
    pub(crate) items: Vec<Option<u64>>,
    from: usize,
    to: usize,
}

impl Model for KnownCells {
    ghost use Rattle.std.specs.Prelude.{List, Option, ℕ};

    ghost Value = { List (Option ℕ) };

    ghost view = { λ a. a.items.items };

    ghost use Rattle.core_state.specs.KnownInside.{AreWithin};

    ghost invariant = { AreWithin };
}

/// The lower one of two numbers.
fn lower(a: usize, b: usize) -> usize
    ensures first { result ≤ a }
    ensures second { result ≤ b }
{
    if a < b { a } else { b }
}

/// The higher one of two numbers.
fn higher(a: usize, b: usize) -> usize
    ensures first { a ≤ result }
    ensures second { b ≤ result }
    ensures most { (n : ℕ) → a ≤ n → b ≤ n → result ≤ n }
{
    if a < b { b } else { a }
}

/// Forgets what is known of the cells from one place on and before another.
fn forget(cells: &mut [Option<u64>], from: usize, to: usize)
    requires range { from ≤ to }
    requires inside { to ≤ length cells.old }
    ensures { cells.new ≡ take from cells.old ++ (replicate (to - from) None ++ drop to cells.old) }
{
    cells[from..to].fill(None);
}

impl KnownCells {
    ghost use Rattle.std.specs.Prelude.{◌≡◌, length, replicate, slice_set, slice_index_or, None, Some, IfOk};

    /// Nothing known of so many cells.
    pub(crate) fn nothing(alloc: Global, cells: usize) -> Result<KnownCells, AllocError>
        ensures { IfOk result (λ known. known ≡ replicate cells None) }
    {
        Ok(KnownCells {
            items: vec![in alloc; None; cells]?,
            from: cells,
            to: 0,
        })
    }

    /// The number of cells.
    pub fn len(&self) -> usize
        ensures { result ≡ length self.now }
    {
        self.items.len()
    }

    /// What is known of a cell; nothing of one that isn't there.
    pub fn at(&self, cell: u32) -> Option<u64>
        ensures { result ≡ slice_index_or self.now cell None }
    {
        match self.items.get(cell as usize) {
            Some(known) => *known,
            None => None,
        }
    }

    /// Knows the number of a cell from here on, where there is such a cell.
    pub(crate) fn know(&mut self, cell: u32, value: u64)
        ensures { self.new ≡ slice_set self.old cell (Some value) }
    {
        let place = cell as usize;
        if place >= self.items.len() {
            return;
        }
        self.items[place] = Some(value);
        self.from = lower(self.from, place);
        self.to = higher(self.to, place + 1);
    }

    /// Forgets all. It looks only at the cells from the first known one to the last.
    pub(crate) fn clear(&mut self)
        ensures { self.new ≡ replicate (length self.old) None }
    {
        let from = lower(self.from, self.to);
        forget(self.items.as_mut_slice(), from, self.to);
        self.from = self.items.len();
        self.to = 0;
    }
}
