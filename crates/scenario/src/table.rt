//! Sets of small numbers.

use std::alloc::{AllocError, Global};
use std::marker::Model;

/// Some of the numbers below a limit, as a flag for each.
#[derive(Debug, Drop)]
pub struct NumberTable {
    has: Vec<bool>,
}

impl Model for NumberTable {
    ghost use Rattle.std.specs.Prelude.{Bool, List};

    ghost Value = { List Bool };

    ghost view = { λ a. a.has.items };
}

impl NumberTable {
    ghost use Rattle.std.specs.Prelude.{◌≡◌, false, true, replicate, slice_index_or, slice_set, IfOk};

    /// None of the numbers below a limit.
    pub fn new(alloc: Global, limit: usize) -> Result<NumberTable, AllocError>
        ensures { IfOk result (λ table. table ≡ replicate limit false) }
    {
        Ok(NumberTable {
            has: vec![in alloc; false; limit]?,
        })
    }

    /// Whether it has a number.
    pub fn contains(&self, n: usize) -> bool
        ensures { result ≡ slice_index_or self.now n false }
    {
        n < self.has.len() && self.has[n]
    }

    /// Adds a number, if it is below the limit.
    pub fn insert(&mut self, n: usize)
        ensures { self.new ≡ slice_set self.old n true }
    {
        if n < self.has.len() {
            self.has[n] = true;
        }
    }
}
