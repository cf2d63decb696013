//! Reads the input of a replay.

ghost use Rattle.std.specs.Prelude.{◌≡◌, ◌≤◌, ◌⊎◌, IfOk, OnOk, IfErr, IsErr, IfSome, Ok, Err};
ghost use Rattle.evac_io.specs.Told.{IsAtEnd};
ghost use Rattle.evac_model.specs.declared.scenario.Scenario.{Scenario};
ghost use Rattle.evac_model.specs.Scenarios.{IsRunnable};
ghost use Rattle.evac.specs.Input.{IsAccepted, IsRefusedInput};
ghost use Rattle.evac.specs.Stops.{Stops};

use crate::stop::Stop;
use evac_io::{ReadAllFault, Source, read_all};
use evac_model::Scenario;
use scenario::{ScenarioError, read_scenario};
use std::alloc::Global;

/// The most bytes of an input.
const INPUT_LIMIT: u64 = 1 << 28;

/// The scenario that the source gives, read to the source's end.
pub fn read_input<S: Source>(alloc: Global, source: &mut S) -> Result<Scenario, Stop>
    ensures runnable { IfOk result (λ s. IsRunnable s) }
    ensures end { OnOk result (IsAtEnd (S.left source.new)) }
    ensures accepted { IfOk result (λ s. IfSome (S.left source.old) (λ bytes. IsAccepted bytes s)) }
    ensures stops { IfErr result (λ stop. Stops (S.left source.old) (S.faults source.old) (S.faults source.new) stop) }

    // An input that is accepted is read, unless a read fails or memory runs out.
    ensures complete { IfSome (S.left source.old) (λ bytes. (s : Scenario) → IsAccepted bytes s →
        (result ≡ Ok s) ⊎ ((result ≡ Err Stop.ReadFault) ⊎ (result ≡ Err Stop.OutOfMemory))) }
    ensures refused { IfSome (S.left source.old) (λ bytes. IsRefusedInput bytes → IsErr result) }
    ensures counts { S.faults source.old ≤ S.faults source.new }
{
    match read_all(alloc, source, INPUT_LIMIT) {
        Ok(bytes) => match read_scenario(alloc, bytes.as_slice()) {
            Ok(s) => Ok(s),
            Err(ScenarioError::Fault(fault)) => Err(Stop::Refused(fault)),
            Err(ScenarioError::OutOfMemory) => Err(Stop::OutOfMemory),
        },
        Err(ReadAllFault::Failed) => Err(Stop::ReadFault),
        Err(ReadAllFault::TooLong) => Err(Stop::TooLong),
        Err(ReadAllFault::OutOfMemory) => Err(Stop::OutOfMemory),
    }
}
