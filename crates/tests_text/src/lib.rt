//! Tests of the plain machine, of the scenarios that are read, and of the reports that are written.
#![tactic(auto)]

ghost use Rattle.std.specs.Prelude.{◌≡◌};

use evac_model::{FrameNo, Kind, PageNo, StartPage};

/// A page of this kind that lies in this frame at the start.
pub fn start_page(page: u32, kind: Kind, frame: u32) -> StartPage
    ensures page { result.page.0 ≡ page }
    ensures kind { result.kind ≡ kind }
    ensures frame { result.frame.0 ≡ frame }
{
    StartPage {
        page: PageNo(page),
        kind,
        frame: FrameNo(frame),
    }
}

#[cfg(test)]
mod accepted_texts;
#[cfg(test)]
mod plain_machine;
#[cfg(test)]
mod refused_texts;
#[cfg(test)]
mod reports;
