//! The values of one call, without memory of their own.

use std::marker::Model;

/// At most 8 numbers of 64 bits: the values that a write stores, or that a read answers.
/// Contracts see the list of them.
#[derive(Clone, Copy, Debug, PartialEq, Eq)]
pub struct Cells {
    count: u8,
    items: [u64; 8],
}

impl Model for Cells {
    ghost use Rattle.std.specs.Prelude.{List, ℕ, take};

    ghost Value = { List ℕ };

    ghost use Rattle.evac_model.specs.Padded.{padded_back};
    ghost use Rattle.evac_model.specs.CellsInside.{IsPadded, padded};

    ghost view = { λ a. take a.count a.items };

    ghost invariant = { IsPadded };

    ghost inverse = { padded };

    ghost inverse_ok = { λ a h. padded_back (λ n xs. record { count = n; items = xs }) 8 a.count a.items h };
}

impl Cells {
    ghost use Rattle.std.specs.Prelude.{◌≡◌, ◌<◌, ◌≤◌, ◌==◌, [], ◌∷◌, ◌++◌, length};

    /// The most numbers that a call carries.
    pub const MOST: usize = 8;

    /// No numbers.
    pub fn new() -> Cells
        ensures { result ≡ [] }
    {
        Cells {
            count: 0,
            items: [0; 8],
        }
    }

    /// These numbers, at most 8.
    pub fn from_slice(values: &[u64]) -> Cells
        requires { length values.now ≤ 8 }
        ensures { result ≡ values.now }
    {
        let mut cells = Cells::new();
        for value in values {
            cells.push(*value);
        }
        cells
    }

    /// How many numbers there are, at most 8.
    pub fn len(&self) -> usize
        ensures count { result ≡ length self.now }
        ensures most { length self.now ≤ 8 }
    {
        self.count as usize
    }

    /// Whether there are none.
    pub fn is_empty(&self) -> bool
        ensures { result ≡ (length self.now == 0) }
    {
        self.count == 0
    }

    /// Whether there are 8, the most that there can be: then no more can be added.
    pub fn is_full(&self) -> bool
        ensures full { result ≡ (length self.now == 8) }
        ensures most { length self.now ≤ 8 }
    {
        self.count as usize == Cells::MOST
    }

    /// The numbers, in order.
    pub fn as_slice(&self) -> &[u64]
        ensures { result.now ≡ self.now }
    {
        &self.items[..self.count as usize]
    }

    /// Adds a number at the end, wherever there are fewer than 8.
    pub fn push(&mut self, value: u64)
        requires { length self.old < 8 }
        ensures { self.new ≡ self.old ++ value ∷ [] }
    {
        self.items[self.count as usize] = value;
        self.count += 1;
    }
}
