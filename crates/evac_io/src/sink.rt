//! Where bytes go.

ghost use Rattle.std.specs.Prelude.{◌≡◌, ℕ, ◌<◌, ◌≤◌, List, Option, length, take, IfOk, OnOk, OnErr};
ghost use Rattle.evac_model.specs.Counts.{Rose};
ghost use Rattle.evac_io.specs.Told.{Takes};

use crate::Failed;

/// Where bytes go, modelled on std's `Write`.
pub trait Sink {
    /// The bytes that were taken so far, where they are told.
    ghost taken: { Self → Option (List ℕ) };

    /// How often a write has failed. The number stands still at the largest of 64 bits.
    ghost faults: { Self → ℕ };

    /// Takes bytes from the front of `piece`, and says how many they are: not 0, unless `piece`
    /// is empty.
    fn write(&mut self, piece: &[u8]) -> Result<usize, Failed>
        ensures bound { IfOk result (λ count. count ≤ length piece.now) }
        ensures some { IfOk result (λ count. 0 < length piece.now → 0 < count) }
        ensures takes { IfOk result (λ count. Takes (taken self.old) (taken self.new) (take count piece.now)) }

        // What was taken met no fault.
        ensures ok { OnOk result (faults self.new ≡ faults self.old) }

        ensures err { OnErr result (taken self.new ≡ taken self.old) }
        ensures cause { OnErr result (Rose (faults self.old) (faults self.new)) }
        ensures counts { faults self.old ≤ faults self.new };
}
