//! The listeners of a slab, each under its key, told of a range by rising key.

ghost use Rattle.std.specs.Prelude.{◌≡◌, ℕ, ◌+◌, ◌*◌, ◌<◌, ◌≤◌, ◌∷◌, ◌++◌, [], Some, length, flat_map, IfSome, OnSome, OnOk, OnErr, IfErr};
ghost use Rattle.evac_model.specs.declared.device_journal.Told.TheVariants.{PopulateOk, PopulateRefused, Discard};
ghost use Rattle.evac_model.specs.DeviceBlocks.{device_blocks};
ghost use Rattle.evac_model.specs.Numbers.{with_range, without_range};
ghost use Rattle.evac_model.specs.Notices.{notice, told_each, told_blocks, unplug_all_notices};
ghost use Rattle.dma_listeners.specs.Drafts.{IsWritten};
ghost use Rattle.dma_listeners.specs.Listening.{blocks_below, without_blocks, IsChangedAt, IsRefusedAt, Fits, Exceeds};
ghost use Rattle.dma_listeners.specs.Registries.{listener_at, live_key, keys_below, EachListener, OthersKept, AreChangedBelow, AreStoppedAt, FitBelow};

use crate::blocks::{discard_blocks, write_blocks};
use crate::{Listener, Notice, NoticeDraft, Refused, Told};
use block_map::BlockMap;
use evac_model::BlockNo;
use slab::Slab;

// Tells the listener of a key, where there is one, to map a range.
fn populate_one<L: Listener>(
    listeners: &mut Slab<L>,
    key: usize,
    first: BlockNo,
    n: u32,
    notices: &mut NoticeDraft,
) -> Result<(), Refused>
    requires inside { IfSome (listener_at listeners.old.slots key) (λ l. first.0 + n ≤ L.room l) }
    requires room { length (live_key listeners.old.slots key) ≤ notices.old.room }
    ensures mapped { OnOk result (IsChangedAt L.mapped L.refusals L.limit L.room (with_range first.0 n) (listener_at listeners.old.slots key) (listener_at listeners.new.slots key)) }
    ensures refused { OnErr result (IsRefusedAt L.mapped L.refusals L.limit L.room (listener_at listeners.old.slots key) (listener_at listeners.new.slots key)) }
    ensures fits { OnOk result (IfSome (listener_at listeners.old.slots key) (Fits L.mapped L.refusals L.limit L.room n)) }
    ensures exceeds { OnErr result (IfSome (listener_at listeners.old.slots key) (Exceeds L.mapped L.refusals L.limit L.room n)) }
    ensures others { OthersKept key listeners.old.slots listeners.new.slots }
    ensures size { length listeners.new.slots ≡ length listeners.old.slots }
    ensures told { OnOk result (IsWritten notices.old notices.new (told_each (live_key listeners.old.slots key) first.0 n PopulateOk)) }
    ensures told_refused { OnErr result (IsWritten notices.old notices.new (notice (Some key) first.0 n PopulateRefused ∷ [])) }
{
    let Some(listener) = listeners.get_mut(key) else {
        return Ok(());
    };
    let answer = listener.populate(first, n);
    let told = if answer.is_ok() {
        Told::PopulateOk
    } else {
        Told::PopulateRefused
    };
    notices.push(Notice {
        key: Some(key),
        first,
        n,
        told,
    });
    answer
}

/// Tells each listener with a key below `end` to map a range, by rising key. Where one refuses, its
/// key is answered, and the rest are told nothing.
pub(crate) fn populate_each<L: Listener>(
    listeners: &mut Slab<L>,
    end: usize,
    first: BlockNo,
    n: u32,
    notices: &mut NoticeDraft,
) -> Result<(), usize>
    requires inside { EachListener (λ l. first.0 + n ≤ L.room l) listeners.old.slots }
    requires room { length (keys_below listeners.old.slots end) ≤ notices.old.room }
    ensures all { OnOk result (AreChangedBelow L.mapped L.refusals L.limit L.room (with_range first.0 n) end listeners.old.slots listeners.new.slots) }
    ensures some { IfErr result (λ key. (key < end) × AreStoppedAt L.mapped L.refusals L.limit L.room (with_range first.0 n) key listeners.old.slots listeners.new.slots) }
    ensures told { OnOk result (IsWritten notices.old notices.new (told_each (keys_below listeners.old.slots end) first.0 n PopulateOk)) }
    ensures told_some { IfErr result (λ key. IsWritten notices.old notices.new (told_each (keys_below listeners.old.slots key) first.0 n PopulateOk ++ notice (Some key) first.0 n PopulateRefused ∷ [])) }
    ensures fit { OnOk result (FitBelow L.mapped L.refusals L.limit L.room n end listeners.old.slots) }
    ensures fit_some { IfErr result (λ key. FitBelow L.mapped L.refusals L.limit L.room n key listeners.old.slots) }
    ensures exceeds { IfErr result (λ key. IfSome (listener_at listeners.old.slots key) (Exceeds L.mapped L.refusals L.limit L.room n)) }
{
    for key in 0..end {
        if let Err(Refused) = populate_one(listeners, key, first, n, notices) {
            return Err(key);
        }
    }
    Ok(())
}

// Tells the listener of a key, where there is one, to discard a range.
fn discard_one<L: Listener>(
    listeners: &mut Slab<L>,
    key: usize,
    first: BlockNo,
    n: u32,
    notices: &mut NoticeDraft,
)
    requires inside { IfSome (listener_at listeners.old.slots key) (λ l. first.0 + n ≤ L.room l) }
    requires room { length (live_key listeners.old.slots key) ≤ notices.old.room }
    ensures changed { IsChangedAt L.mapped L.refusals L.limit L.room (without_range first.0 n) (listener_at listeners.old.slots key) (listener_at listeners.new.slots key) }
    ensures others { OthersKept key listeners.old.slots listeners.new.slots }
    ensures size { length listeners.new.slots ≡ length listeners.old.slots }
    ensures told { IsWritten notices.old notices.new (told_each (live_key listeners.old.slots key) first.0 n Discard) }
{
    if let Some(listener) = listeners.get_mut(key) {
        listener.discard(first, n);
        notices.push(Notice {
            key: Some(key),
            first,
            n,
            told: Told::Discard,
        });
    }
}

/// Tells each listener with a key below `end` to discard a range, by rising key.
pub(crate) fn discard_each<L: Listener>(
    listeners: &mut Slab<L>,
    end: usize,
    first: BlockNo,
    n: u32,
    notices: &mut NoticeDraft,
)
    requires inside { EachListener (λ l. first.0 + n ≤ L.room l) listeners.old.slots }
    requires room { length (keys_below listeners.old.slots end) ≤ notices.old.room }
    ensures changed { AreChangedBelow L.mapped L.refusals L.limit L.room (without_range first.0 n) end listeners.old.slots listeners.new.slots }
    ensures told { IsWritten notices.old notices.new (told_each (keys_below listeners.old.slots end) first.0 n Discard) }
{
    for key in 0..end {
        discard_one(listeners, key, first, n, notices);
    }
}

// Tells the listener of a key, where there is one, to discard each plugged block, rising.
fn discard_blocks_one<L: Listener>(
    listeners: &mut Slab<L>,
    key: usize,
    plugged: &BlockMap,
    notices: &mut NoticeDraft,
)
    requires inside { IfSome (listener_at listeners.old.slots key) (λ l. device_blocks plugged.now.sizes ≤ L.room l) }
    requires room { OnSome (listener_at listeners.old.slots key) (length plugged.now.plugged ≤ notices.old.room) }
    ensures changed { IsChangedAt L.mapped L.refusals L.limit L.room (without_blocks plugged.now.plugged) (listener_at listeners.old.slots key) (listener_at listeners.new.slots key) }
    ensures others { OthersKept key listeners.old.slots listeners.new.slots }
    ensures size { length listeners.new.slots ≡ length listeners.old.slots }
    ensures told { IsWritten notices.old notices.new (flat_map (λ k. told_blocks (Some k) plugged.now.plugged Discard) (live_key listeners.old.slots key)) }
{
    let blocks = plugged.geometry().device_blocks();
    if let Some(listener) = listeners.get_mut(key) {
        discard_blocks(listener, plugged, blocks);
        write_blocks(notices, Some(key), plugged, blocks, Told::Discard);
    }
}

/// Tells each listener with a key below `end`, by rising key, to discard each plugged block, rising.
pub(crate) fn discard_blocks_each<L: Listener>(
    listeners: &mut Slab<L>,
    end: usize,
    plugged: &BlockMap,
    notices: &mut NoticeDraft,
)
    requires inside { EachListener (λ l. device_blocks plugged.now.sizes ≤ L.room l) listeners.old.slots }
    requires room { length (keys_below listeners.old.slots end) * length plugged.now.plugged ≤ notices.old.room }
    ensures changed { AreChangedBelow L.mapped L.refusals L.limit L.room (without_blocks plugged.now.plugged) end listeners.old.slots listeners.new.slots }
    ensures told { IsWritten notices.old notices.new (unplug_all_notices (keys_below listeners.old.slots end) plugged.now.plugged) }
{
    for key in 0..end {
        discard_blocks_one(listeners, key, plugged, notices);
    }
}
