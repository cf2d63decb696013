//! The calls of a script, from those of a line.

ghost use Rattle.std.specs.Prelude.{◌≡◌, MatchOption};
ghost use Rattle.evac_model.specs.Calls.{IsCallFor};
ghost use Rattle.scenario.specs.Reading.{plain_call};
ghost use Rattle.scenario.specs.CellLimits.{NamesUpTo};

use crate::call_line::LineCall;
use evac_model::{Call, Geometry};

/// The call, if it names no cell and no count of cells above `most`.
fn call_up_to(most: u32, call: LineCall) -> Option<Call>
    ensures { MatchOption result (¬ NamesUpTo most (plain_call call)) (λ c. c ≡ plain_call call) }
{
    let most = most as u64;
    match call {
        LineCall::Alloc { kind } => Some(Call::Alloc { kind }),
        LineCall::Free => Some(Call::Free),
        LineCall::Read { first, count } if first <= most && count <= most => Some(Call::Read {
            first: first as u32,
            count: count as u32,
        }),
        LineCall::Write { first, values } if first <= most => Some(Call::Write {
            first: first as u32,
            values,
        }),
        LineCall::Add { cell, value } if cell <= most => Some(Call::Add {
            cell: cell as u32,
            value,
        }),
        LineCall::Pin => Some(Call::Pin),
        LineCall::Unpin => Some(Call::Unpin),
        _ => None,
    }
}

/// The call, if its cells are in a page of the machine.
pub fn call_of(geometry: &Geometry, call: LineCall) -> Option<Call>
    ensures { MatchOption result (¬ IsCallFor geometry.now (plain_call call)) (λ c. (c ≡ plain_call call) × IsCallFor geometry.now (plain_call call)) }
{
    let call = call_up_to(geometry.cells(), call)?;
    if !call.fits(geometry) {
        return None;
    }
    Some(call)
}
