//! Which frames are drained.

ghost use Rattle.std.specs.Prelude.{◌≡◌};
ghost use Rattle.frame_cache.specs.Drained.{IsOfMachine, is_drained_of};

use buddy::Runs;
use evac_model::{BlockNo, FrameNo, Geometry, Kind};

/// The frames that a drain takes out of the caches.
#[derive(Clone, Copy, Debug)]
pub enum Drained {
    /// Those of a managed block.
    OfBlock(BlockNo),
    /// Those of the blocks that take a kind of page.
    OfKind(Kind),
}

/// Whether a frame is drained. The geometry is that of the runs.
pub fn is_drained(drained: &Drained, geometry: Geometry, runs: &Runs, frame: FrameNo) -> bool
    requires sizes { geometry ≡ runs.now.sizes }
    requires machine { IsOfMachine geometry drained.now }
    ensures { result ≡ is_drained_of runs.now.sizes runs.now.online drained.now frame.0 }
{
    match drained {
        Drained::OfBlock(block) => {
            let (first, last) = geometry.frames_of(*block);
            first.0 <= frame.0 && frame.0 <= last.0
        }
        Drained::OfKind(kind) => runs.fits(frame, *kind),
    }
}
