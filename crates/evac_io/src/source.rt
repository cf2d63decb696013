//! Where bytes come from.

ghost use Rattle.std.specs.Prelude.{◌≡◌, ℕ, ◌<◌, ◌≤◌, List, Option, length, take, IfOk, OnOk, OnErr};
ghost use Rattle.evac_model.specs.Counts.{Rose};
ghost use Rattle.evac_io.specs.Told.{Gives, IsAtEnd};

use crate::Failed;

/// Where bytes come from, modelled on std's `Read`.
pub trait Source {
    /// The bytes that are left, where they are told.
    ghost left: { Self → Option (List ℕ) };

    /// How often a read has failed. The number stands still at the largest of 64 bits.
    ghost faults: { Self → ℕ };

    /// Reads the next bytes into the front of `into`, and says how many they are.
    /// 0 says that no byte is left, unless `into` has no room.
    fn read(&mut self, into: &mut [u8]) -> Result<usize, Failed>
        ensures bound { IfOk result (λ count. count ≤ length into.new) }
        ensures gives { IfOk result (λ count. Gives (left self.old) (left self.new) (take count into.new)) }

        // 0 comes only at the end. That it does come there follows from `gives`.
        ensures end { IfOk result (λ count. count ≡ 0 → 0 < length into.new → IsAtEnd (left self.old)) }

        // What was given met no fault.
        ensures ok { OnOk result (faults self.new ≡ faults self.old) }

        ensures err { OnErr result (left self.new ≡ left self.old) }
        ensures cause { OnErr result (Rose (faults self.old) (faults self.new)) }
        ensures counts { faults self.old ≤ faults self.new };
}
