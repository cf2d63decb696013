//! Why an input couldn't be read.

ghost use Rattle.std.specs.Prelude.{◌≡◌};
ghost use Rattle.scenario.specs.declared.error.Refusal.TheVariants.{OutOfMemory};

use evac_model::{LineCause, ScenarioFault};
use std::alloc::{AllocError, AllocFailed};

/// Why no scenario was read.
#[derive(Clone, Copy, Debug, PartialEq, Eq)]
pub enum ScenarioError {
    /// The input is no scenario: its first line that isn't accepted, and why.
    Fault(ScenarioFault),
    /// There was no memory for what was read.
    OutOfMemory,
}

/// Why one line couldn't be taken.
#[derive(Clone, Copy, Debug, PartialEq, Eq)]
pub enum Refusal {
    /// The line isn't accepted.
    Cause(LineCause),
    /// There was no memory for it.
    OutOfMemory,
}

impl From<AllocError> for Refusal {
    ghost from_gives = { λ _ e. e ≡ OutOfMemory };

    fn from(_e: AllocError) -> Refusal {
        Refusal::OutOfMemory
    }
}

impl<T: Drop> From<AllocFailed<T>> for Refusal {
    ghost from_gives = { λ _ e. e ≡ OutOfMemory };

    fn from(_e: AllocFailed<T>) -> Refusal {
        Refusal::OutOfMemory
    }
}
