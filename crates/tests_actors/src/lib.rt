//! Tests of the actions that owners and the host give, each counted by hand.
#![tactic(auto)]

ghost use Rattle.std.specs.Prelude.{◌≡◌, ◌∷◌, []};

use core_actors::Others;
use evac_model::Cells;

/// How other actors stand that none waits for.
pub const NOBODY: Others = Others {
    owners_ended: false,
    host_ended: false,
    passes_made: false,
    final_due: false,
    final_made: false,
};

/// Two numbers as cells.
pub fn two(first: u64, second: u64) -> Cells
    ensures { result ≡ first ∷ second ∷ [] }
{
    let mut values = Cells::new();
    values.push(first);
    values.push(second);
    values
}

#[cfg(test)]
mod hosts;
#[cfg(test)]
mod owners;
