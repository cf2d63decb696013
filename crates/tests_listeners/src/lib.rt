//! Tests of listeners and their registry, whose notices are worked by hand for a small machine.
#![tactic(auto)]

ghost use Rattle.std.specs.Prelude.{◌≡◌, IfOk};
ghost use Rattle.evac_model.specs.Geometry.{Sizes};

mod small;

use evac_model::{Geometry, GeometryFault};
pub use small::Small;

/// The sizes of a small machine with 4 managed blocks, so many of which are plugged at the start.
pub fn small_geometry(plugged: u32) -> Result<Geometry, GeometryFault>
    ensures { let sizes : Sizes = record { cells = 2; block = 4; boot = 2; managed = 4; plugged = plugged; pages = 8 } in
        IfOk result (λ g. g ≡ sizes) }
{
    Geometry::new(2, 4, 2, 4, plugged, 8)
}

#[cfg(test)]
mod maps;
#[cfg(test)]
mod registries;
