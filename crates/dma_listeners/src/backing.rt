//! What backs the blocks' memory.

ghost use Rattle.std.specs.Prelude.{◌≡◌, ◌↔◌, ℕ, ◌+◌, ◌≤◌, List, Option, OnErr, IsErr};
ghost use Rattle.std.specs.Option.{option_map};
ghost use Rattle.evac_model.specs.Counts.{Calls, after_call, IsListed, Rose, WhereTold};
ghost use Rattle.evac_model.specs.HostCommands.{BlockRange};
ghost use Rattle.dma_listeners.specs.Backings.{asked_more};

use crate::Failed;
use evac_model::BlockNo;

/// What backs the memory of the blocks and can give it back to the host, modelled on QEMU's
/// `ram_block_discard_range`.
pub trait Backing {
    /// How often a discard has failed. The number stands still at the largest of 64 bits.
    ghost faults: { Self → ℕ };

    /// The calls that fail and the number of calls made, where they are told.
    ghost told: { Self → Option Calls };

    /// The ranges that it was asked to give back, in order, where they are told.
    ghost asked: { Self → Option (List BlockRange) };

    /// The blocks that it backs: those below this number.
    ghost room: { Self → ℕ };

    /// Gives the memory of a range back to the host: `n` blocks from `first` on, all of which it backs.
    /// Where the calls that fail are told, it fails exactly at one of them.
    fn discard(&mut self, first: BlockNo, n: u32) -> Result<(), Failed>
        requires inside { first.0 + n ≤ room self.old }
        ensures cause { OnErr result (Rose (faults self.old) (faults self.new)) }
        ensures exact { WhereTold (told self.old) (λ calls. IsErr result ↔ IsListed calls) }
        ensures counts { faults self.old ≤ faults self.new }
        ensures told { told self.new ≡ option_map after_call (told self.old) }
        ensures asked { asked self.new ≡ asked_more first.0 n (asked self.old) }
        ensures room_kept { room self.new ≡ room self.old };
}
