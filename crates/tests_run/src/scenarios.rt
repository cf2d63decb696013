//! Scenarios by their texts.

ghost use Rattle.std.specs.Prelude.{IfSome};
ghost use Rattle.evac_model.specs.Scenarios.{IsRunnable};

use evac_model::Scenario;
use scenario::read_scenario;
use std::alloc::Global;

/// The scenario that the text is one of; none where there is no memory, or it is a text of none.
pub fn scenario_of(alloc: Global, text: &[u8]) -> Option<Scenario>
    ensures { IfSome result (λ s. IsRunnable s) }
{
    match read_scenario(alloc, text) {
        Ok(s) => Some(s),
        Err(_) => None,
    }
}
