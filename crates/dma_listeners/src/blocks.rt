//! One listener and the plugged blocks, one block a call.

ghost use Rattle.std.specs.Prelude.{◌≡◌, ℕ, ◌+◌, ◌<◌, ◌≤◌, true, false, [], length, OnOk, OnErr, IfErr};
ghost use Rattle.evac_model.specs.Counts.{Rose, WhereTold};
ghost use Rattle.evac_model.specs.Numbers.{is_in, with_range};
ghost use Rattle.evac_model.specs.Notices.{told_blocks};
ghost use Rattle.dma_listeners.specs.Drafts.{IsWritten};
ghost use Rattle.dma_listeners.specs.Listening.{blocks_below, exactly, without_blocks, IsChanged, IsRefused, Fits, Exceeds};

use crate::{Listener, Notice, NoticeDraft, Refused, Told};
use block_map::BlockMap;
use evac_model::BlockNo;

/// Tells a listener to discard each plugged block below `end`, rising.
pub(crate) fn discard_blocks<L: Listener>(listener: &mut L, plugged: &BlockMap, end: u32)
    requires { end ≤ L.room listener.old }
    ensures { IsChanged L.mapped L.refusals L.limit L.room (without_blocks (blocks_below plugged.now.plugged end)) listener.old listener.new }
{
    for b in 0..end {
        if plugged.plugged(BlockNo(b)) {
            listener.discard(BlockNo(b), 1);
        }
    }
}

// Tells a listener to map a block, where that is plugged.
fn populate_block<L: Listener>(
    listener: &mut L,
    plugged: &BlockMap,
    b: BlockNo,
) -> Result<(), Refused>
    requires { b.0 < L.room listener.old }
    ensures mapped { OnOk result (is_in b.0 plugged.now.plugged ≡ true → IsChanged L.mapped L.refusals L.limit L.room (with_range b.0 1) listener.old listener.new) }
    ensures fits { OnOk result (is_in b.0 plugged.now.plugged ≡ true → Fits L.mapped L.refusals L.limit L.room 1 listener.old) }
    ensures untold { OnOk result (is_in b.0 plugged.now.plugged ≡ false → listener.new ≡ listener.old) }
    ensures block { OnErr result (is_in b.0 plugged.now.plugged ≡ true) }
    ensures refused { OnErr result (IsRefused L.mapped L.refusals L.limit L.room listener.old listener.new) }
    ensures exceeds { OnErr result (Exceeds L.mapped L.refusals L.limit L.room 1 listener.old) }
{
    if plugged.plugged(b) {
        listener.populate(b, 1)
    } else {
        Ok(())
    }
}

/// Tells a listener that maps no block to map each plugged block below `end`, rising. Where it
/// refuses one, which is answered, it is told nothing more.
pub(crate) fn populate_blocks<L: Listener>(
    listener: &mut L,
    plugged: &BlockMap,
    end: u32,
) -> Result<(), BlockNo>
    requires room { end ≤ L.room listener.old }
    requires empty { L.mapped listener.old ≡ [] }
    ensures all { OnOk result (IsChanged L.mapped L.refusals L.limit L.room (exactly (blocks_below plugged.now.plugged end)) listener.old listener.new) }
    ensures some { IfErr result (λ b. IsChanged L.mapped L.refusals L.limit L.room (exactly (blocks_below plugged.now.plugged b.0)) listener.old listener.new) }
    ensures block { IfErr result (λ b. (b.0 < end) × (is_in b.0 plugged.now.plugged ≡ true)) }
    ensures cause { OnErr result (Rose (L.refusals listener.old) (L.refusals listener.new)) }
    ensures fits { OnOk result (WhereTold (L.limit listener.old) (λ most. length (blocks_below plugged.now.plugged end) ≤ most)) }
    ensures exceeds { IfErr result (λ b. WhereTold (L.limit listener.old) (λ most. length (blocks_below plugged.now.plugged b.0) ≡ most)) }
{
    for b in 0..end {
        if let Err(Refused) = populate_block(listener, plugged, BlockNo(b)) {
            return Err(BlockNo(b));
        }
    }
    Ok(())
}

/// Writes that the listener of a key was told the same of each plugged block below `end`.
pub(crate) fn write_blocks(
    notices: &mut NoticeDraft,
    key: Option<usize>,
    plugged: &BlockMap,
    end: u32,
    told: Told,
)
    requires { length (blocks_below plugged.now.plugged end) ≤ notices.old.room }
    ensures { IsWritten notices.old notices.new (told_blocks key (blocks_below plugged.now.plugged end) told) }
{
    for b in 0..end {
        if plugged.plugged(BlockNo(b)) {
            notices.push(Notice {
                key,
                first: BlockNo(b),
                n: 1,
                told,
            });
        }
    }
}
