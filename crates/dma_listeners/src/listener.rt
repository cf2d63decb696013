//! Who is told of the plugged blocks.

ghost use Rattle.std.specs.Prelude.{◌≡◌, ◌↔◌, ℕ, ◌+◌, ◌<◌, ◌≤◌, List, Option, length, OnOk, OnErr, IsErr};
ghost use Rattle.evac_model.specs.Counts.{Rose, WhereTold};
ghost use Rattle.evac_model.specs.Numbers.{with_range, without_range};

use crate::Refused;
use evac_model::BlockNo;

/// Who maps plugged blocks for devices that access memory by themselves, modelled on QEMU's
/// `RamDiscardListener`.
pub trait Listener {
    /// The blocks that are mapped, rising.
    ghost mapped: { Self → List ℕ };

    /// How often blocks were refused. The number stands still at the largest of 64 bits.
    ghost refusals: { Self → ℕ };

    /// The most blocks that may be mapped, where it is told.
    ghost limit: { Self → Option ℕ };

    /// The number of blocks, from 0 on, of which the listener can be told.
    ghost room: { Self → ℕ };

    /// Maps the blocks of a range: `n` blocks from `first` on. Where the limit is told, the range
    /// is refused exactly where the blocks mapped and `n` more exceed it.
    fn populate(&mut self, first: BlockNo, n: u32) -> Result<(), Refused>
        requires { first.0 + n ≤ room self.old }
        ensures adds { OnOk result (mapped self.new ≡ with_range first.0 n (mapped self.old)) }
        ensures err { OnErr result (mapped self.new ≡ mapped self.old) }
        ensures cause { OnErr result (Rose (refusals self.old) (refusals self.new)) }
        ensures exact { WhereTold (limit self.old) (λ most. IsErr result ↔ (most < length (mapped self.old) + n)) }
        ensures counts { refusals self.old ≤ refusals self.new }
        ensures limit_kept { limit self.new ≡ limit self.old }
        ensures room_kept { room self.new ≡ room self.old };

    /// Unmaps the blocks of a range: `n` blocks from `first` on. It can't refuse.
    fn discard(&mut self, first: BlockNo, n: u32)
        requires { first.0 + n ≤ room self.old }
        ensures takes { mapped self.new ≡ without_range first.0 n (mapped self.old) }
        ensures counts { refusals self.old ≤ refusals self.new }
        ensures limit_kept { limit self.new ≡ limit self.old }
        ensures room_kept { room self.new ≡ room self.old };
}
