//! Tests of the free runs and of the frame space, by machines whose frames are counted by hand.
#![tactic(auto)]

ghost use Rattle.std.specs.Prelude.{◌≡◌, IfOk};
ghost use Rattle.evac_model.specs.Geometry.{Sizes};

use evac_model::{Geometry, GeometryFault};

/// The sizes of a small machine, each block of which has 4 frames: 2 boot blocks have frames 0 to 7, and 4 managed
/// ones 8 to 23. So many of the managed blocks are plugged.
pub fn small_geometry(plugged: u32) -> Result<Geometry, GeometryFault>
    ensures { let sizes : Sizes = record { cells = 2; block = 4; boot = 2; managed = 4; plugged = plugged; pages = 8 } in
        IfOk result (λ g. g ≡ sizes) }
{
    Geometry::new(2, 4, 2, 4, plugged, 8)
}

#[cfg(test)]
mod runs;
#[cfg(test)]
mod spaces;
