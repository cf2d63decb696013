//! What the scanner has copied.

use evac_model::{FrameNo, Listed};
use std::alloc::{AllocError, Global};
use std::collections::LinkedList;
use std::marker::Model;

/// The copy of one frame, as far as it goes: contracts see the cells copied so far, from the first on,
/// and for how many cells there are places.
#[derive(Drop)]
pub struct FrameCopy {
    pub(crate) cells: Vec<u64>,
    pub(crate) count: usize,
}

impl Model for FrameCopy {
    ghost use Rattle.std.specs.Prelude.{take, length};
    ghost use Rattle.core_state.specs.Copies.{Copied, copied_code};

    ghost Value = { Copied };

    ghost coded = { copied_code };

    ghost view = { λ a. record { cells = take a.count a.cells.items; places = length a.cells.items } };
}

/// The copy of each frame, by frame number.
pub type ImageSoFar = Listed<FrameCopy>;

/// A frame that was swept.
#[derive(Clone, Copy, Debug, PartialEq, Eq)]
pub struct Swept {
    /// The frame.
    pub frame: FrameNo,
    /// Its dirty word before the sweep.
    pub mark: u64,
    /// Whether it was new in its migration.
    pub fresh: bool,
}

/// The scanner's part of a view.
#[derive(Drop)]
pub struct Scan {
    /// The frame that was swept last. Its next cell to be copied is the first that its copy doesn't have.
    pub at: Option<FrameNo>,
    /// The copy of each frame so far.
    pub image: ImageSoFar,
    /// The frames swept in the pass under way, rising.
    pub swept: LinkedList<Swept, Global>,
    /// The number of passes begun, over shared words; 0 in a core.
    pub passes: u64,
}

impl FrameCopy {
    ghost use Rattle.std.specs.Prelude.{◌≡◌, ◌<◌, ◌++◌, ◌∷◌, [], length, IfOk};
    ghost use Rattle.core_state.specs.Copies.{nothing_copied};

    /// Places for so many cells, of which none is copied.
    pub(crate) fn nothing(alloc: Global, cells: usize) -> Result<FrameCopy, AllocError>
        ensures { IfOk result (λ copy. copy ≡ nothing_copied cells) }
    {
        Ok(FrameCopy {
            cells: vec![in alloc; 0; cells]?,
            count: 0,
        })
    }

    /// The number of cells copied so far.
    pub(crate) fn copied(&self) -> usize
        ensures { result ≡ length self.now.cells }
    {
        let count = self.count;
        let places = self.cells.len();
        if count < places { count } else { places }
    }

    /// Begins anew: no cell is copied.
    pub(crate) fn begin(&mut self)
        ensures { self.new ≡ record self.old { cells = [] } }
    {
        self.count = 0;
    }

    /// Has copied one cell more.
    pub(crate) fn push(&mut self, value: u64)
        requires { length self.old.cells < self.old.places }
        ensures { self.new ≡ record self.old { cells = self.old.cells ++ value ∷ [] } }
    {
        let count = self.count;
        self.cells[count] = value;
        self.count = count + 1;
    }
}
