//! Tests of the sources and sinks, and of the loops that read and write everything.
#![tactic(auto)]

ghost use Rattle.std.specs.Prelude.{◌≡◌, IfOk};

use evac_io::NumberList;
use std::alloc::{AllocError, Global};

/// These numbers in memory of their own: the calls of a source or a sink that fail.
pub fn numbers(alloc: Global, numbers: &[u64]) -> Result<NumberList, AllocError>
    ensures { IfOk result (λ list. list ≡ numbers.now) }
{
    Ok(NumberList::from_vec(numbers.to_vec(alloc)?))
}

#[cfg(test)]
mod adapters;
#[cfg(test)]
mod in_memory;
