//! The listeners of a device.

ghost use Rattle.std.specs.Prelude.{◌≡◌, ◌*◌, ◌<◌, ◌≤◌, true, length};
ghost use Rattle.evac_model.specs.DeviceBlocks.{device_blocks};
ghost use Rattle.evac_model.specs.Numbers.{is_in, IsRisingBelow};
ghost use Rattle.evac_model.specs.Notices.{refused_join_notices};
ghost use Rattle.dma_listeners.specs.Drafts.{IsWritten};

use crate::blocks::{discard_blocks, populate_blocks, write_blocks};
use crate::each::{discard_blocks_each, discard_each, populate_each};
use crate::{JoinFault, Listener, Notice, NoticeDraft, RefusedBy, Told};
use block_map::BlockMap;
use evac_model::BlockNo;
use slab::Slab;
use std::alloc::Global;
use std::marker::Model;

/// The listeners of a device, each under the key that it got when it joined, after QEMU's
/// `RamDiscardManager`. Contracts see the listener under each key from 0 on, or none.
///
/// Each call writes what it tells the listeners; the caller takes the room for these notices first.
/// Only a join takes memory of the registry's own.
#[derive(Drop)]
pub struct Registry<L> {
    listeners: Slab<L>,
}

impl<L> Model for Registry<L> {
    ghost use Rattle.std.specs.Prelude.{List, Option};

    ghost Value = { List (Option L) };

    ghost view = { λ r. r.listeners.slots };
}

impl<L: Listener> Registry<L> {
    ghost use Rattle.std.specs.Prelude.{◌≡◌, ℕ, ◌+◌, ◌*◌, ◌<◌, ◌≤◌, List, [], true, false, None, length, IfSome, IfNone, OnSome, IfOk, IfErr, OnOk, OnErr, IsSomeAnd, option_copied};
    ghost use Rattle.evac_model.specs.Counts.{WhereTold};
    ghost use Rattle.evac_model.specs.DeviceBlocks.{device_blocks};
    ghost use Rattle.evac_model.specs.Numbers.{with_range, without_range, IsRisingBelow};
    ghost use Rattle.evac_model.specs.DeviceAnswer.{are_unplugged};
    ghost use Rattle.evac_model.specs.Notices.{plug_notices, unplug_notices, unplug_all_notices, join_notices, leave_notices};
    ghost use Rattle.dma_listeners.specs.Drafts.{IsWritten};
    ghost use Rattle.dma_listeners.specs.Listening.{without_blocks, IsChanged, Fits, Exceeds};
    ghost use Rattle.dma_listeners.specs.Registries.{listener_at, is_live, live_keys, EachListener, OthersKept, MapExactly, refuser, AreChanged, AreRolledBack, FitBelow, HasJoined, IsNotJoined};

    /// No listener. It takes no memory.
    pub fn new(alloc: Global) -> Registry<L>
        ensures { result ≡ [] }
    {
        Registry {
            listeners: Slab::new(alloc),
        }
    }

    /// How many listeners there are.
    pub fn len(&self) -> usize
        ensures { result ≡ length (live_keys self.now) }
    {
        self.listeners.len()
    }

    /// The listener of a key; None exactly where there is none.
    pub fn listener(&self, key: usize) -> Option<&L>
        ensures { option_copied result ≡ listener_at self.now key }
    {
        self.listeners.get(key)
    }

    /// The least key from `from` on that has a listener; None exactly where there is none.
    pub fn next_key(&self, from: usize) -> Option<usize>
        ensures from { IfSome result (λ key. from ≤ key) }
        ensures live { IfSome result (λ key. is_live self.now key ≡ true) }
        ensures least { IfSome result (λ key. (k : ℕ) → from ≤ k → k < key → is_live self.now k ≡ false) }
        ensures none { IfNone result ((k : ℕ) → from ≤ k → is_live self.now k ≡ false) }
    {
        for key in from..self.listeners.capacity() {
            if self.listeners.contains(key) {
                return Some(key);
            }
        }
        None
    }

    /// Tells each listener, by rising key, to map `n` blocks from `first` on. Where one refuses, those
    /// told before are told to discard them, by rising key, and the rest are told nothing.
    pub fn populate(
        &mut self,
        first: BlockNo,
        n: u32,
        notices: &mut NoticeDraft,
    ) -> Result<(), RefusedBy>
        requires inside { EachListener (λ l. first.0 + n ≤ L.room l) self.old }
        requires room { 2 * length (live_keys self.old) ≤ notices.old.room }

        // Who was told what, and what each maps now.
        ensures told { IsWritten notices.old notices.new (plug_notices (live_keys self.old) first.0 n (refuser result)) }
        ensures mapped { OnOk result (AreChanged L.mapped L.refusals L.limit L.room (with_range first.0 n) self.old self.new) }
        ensures rolled_back { IfErr result (λ e. AreRolledBack L.mapped L.refusals L.limit L.room first.0 n e.key self.old self.new) }

        // Where limits are told, the first that the range exceeds refuses.
        ensures fit { OnOk result (EachListener (Fits L.mapped L.refusals L.limit L.room n) self.old) }
        ensures fit_before { IfErr result (λ e. FitBelow L.mapped L.refusals L.limit L.room n e.key self.old) }
        ensures exceeds { IfErr result (λ e. IfSome (listener_at self.old e.key) (Exceeds L.mapped L.refusals L.limit L.room n)) }

        // Those that mapped exactly the plugged blocks do so still.
        ensures exactly { OnOk result ((plugged : List ℕ) → MapExactly L.mapped plugged self.old → MapExactly L.mapped (with_range first.0 n plugged) self.new) }
        ensures room_kept { (k : ℕ) → EachListener (λ l. k ≤ L.room l) self.old → EachListener (λ l. k ≤ L.room l) self.new }
        ensures exactly_still { OnErr result ((region : ℕ) (plugged : List ℕ) → IsRisingBelow region plugged → first.0 + n ≤ region → are_unplugged plugged first.0 n ≡ true → MapExactly L.mapped plugged self.old → MapExactly L.mapped plugged self.new) }
    {
        let end = self.listeners.capacity();
        let Err(key) = populate_each(&mut self.listeners, end, first, n, notices) else {
            return Ok(());
        };
        discard_each(&mut self.listeners, key, first, n, notices);
        Err(RefusedBy { key })
    }

    /// Tells each listener, by rising key, to discard `n` blocks from `first` on.
    pub fn discard(&mut self, first: BlockNo, n: u32, notices: &mut NoticeDraft)
        requires inside { EachListener (λ l. first.0 + n ≤ L.room l) self.old }
        requires room { length (live_keys self.old) ≤ notices.old.room }
        ensures told { IsWritten notices.old notices.new (unplug_notices (live_keys self.old) first.0 n) }
        ensures discarded { AreChanged L.mapped L.refusals L.limit L.room (without_range first.0 n) self.old self.new }
        ensures room_kept { (k : ℕ) → EachListener (λ l. k ≤ L.room l) self.old → EachListener (λ l. k ≤ L.room l) self.new }
        ensures exactly { (plugged : List ℕ) → MapExactly L.mapped plugged self.old → MapExactly L.mapped (without_range first.0 n plugged) self.new }
    {
        let end = self.listeners.capacity();
        discard_each(&mut self.listeners, end, first, n, notices);
    }

    /// Tells each listener, by rising key, to discard each plugged block, rising, one a call.
    pub fn discard_all(&mut self, plugged: &BlockMap, notices: &mut NoticeDraft)
        requires inside { EachListener (λ l. device_blocks plugged.now.sizes ≤ L.room l) self.old }
        requires room { length (live_keys self.old) * length plugged.now.plugged ≤ notices.old.room }
        ensures told { IsWritten notices.old notices.new (unplug_all_notices (live_keys self.old) plugged.now.plugged) }
        ensures discarded { AreChanged L.mapped L.refusals L.limit L.room (without_blocks plugged.now.plugged) self.old self.new }
        ensures room_kept { (k : ℕ) → EachListener (λ l. k ≤ L.room l) self.old → EachListener (λ l. k ≤ L.room l) self.new }
        ensures exactly { MapExactly L.mapped plugged.now.plugged self.old → MapExactly L.mapped [] self.new }
    {
        let end = self.listeners.capacity();
        discard_blocks_each(&mut self.listeners, end, plugged, notices);
    }

    /// Tells a listener that maps no block to map each plugged block, rising, one a call, and keeps it
    /// under a key that no other has. Where it refuses one, it is told to discard those before, rising,
    /// and comes back; no key is used up. Room for it is taken first.
    pub fn join(
        &mut self,
        l: L,
        plugged: &BlockMap,
        notices: &mut NoticeDraft,
    ) -> Result<usize, JoinFault<L>>
        requires empty { L.mapped l ≡ [] }
        requires inside { device_blocks plugged.now.sizes ≤ L.room l }
        requires room { 2 * length plugged.now.plugged ≤ notices.old.room }
        ensures joined { IfOk result (λ key. HasJoined L.mapped L.refusals L.limit L.room plugged.now.plugged key l self.old self.new) }
        ensures told { IfOk result (λ key. IsWritten notices.old notices.new (join_notices key plugged.now.plugged)) }
        ensures fits { OnOk result (WhereTold (L.limit l) (λ most. length plugged.now.plugged ≤ most)) }
        ensures not_joined { IfErr result (IsNotJoined L.mapped L.refusals L.limit L.room plugged.now.plugged notices.old notices.new l) }
        ensures err { OnErr result (self.new ≡ self.old) }
        ensures room_kept { (k : ℕ) → k ≤ L.room l → EachListener (λ l. k ≤ L.room l) self.old → EachListener (λ l. k ≤ L.room l) self.new }
        ensures exactly { MapExactly L.mapped plugged.now.plugged self.old → MapExactly L.mapped plugged.now.plugged self.new }
    {
        if self.listeners.reserve(1).is_err() {
            return Err(JoinFault::OutOfMemory(l));
        }
        let mut listener = l;
        let blocks = plugged.geometry().device_blocks();
        match populate_blocks(&mut listener, plugged, blocks) {
            Ok(()) => {
                let key = self.listeners.insert_reserved(listener);
                write_blocks(notices, Some(key), plugged, blocks, Told::PopulateOk);
                Ok(key)
            }
            Err(b) => {
                discard_blocks(&mut listener, plugged, b.0);
                write_refused_join(notices, plugged, b);
                Err(JoinFault::Refused(listener))
            }
        }
    }

    /// Takes the listener of a key out and tells it to discard each plugged block, rising, one a call.
    /// None comes exactly where no listener has the key.
    pub fn leave(&mut self, key: usize, plugged: &BlockMap, notices: &mut NoticeDraft) -> Option<L>
        requires inside { IfSome (listener_at self.old key) (λ l. device_blocks plugged.now.sizes ≤ L.room l) }
        requires room { OnSome (listener_at self.old key) (length plugged.now.plugged ≤ notices.old.room) }
        ensures left { IfSome result (λ l. IsSomeAnd (listener_at self.old key) (λ was. IsChanged L.mapped L.refusals L.limit L.room (without_blocks plugged.now.plugged) was l)) }
        ensures told { OnSome result (IsWritten notices.old notices.new (leave_notices key plugged.now.plugged)) }
        ensures gone { listener_at self.new key ≡ None }
        ensures others { OthersKept key self.old self.new }
        ensures none { IfNone result ((listener_at self.old key ≡ None) × (self.new ≡ self.old) × (notices.new ≡ notices.old)) }
        ensures exactly { MapExactly L.mapped plugged.now.plugged self.old → MapExactly L.mapped plugged.now.plugged self.new }
        ensures room_kept { (k : ℕ) → EachListener (λ l. k ≤ L.room l) self.old → EachListener (λ l. k ≤ L.room l) self.new }
        ensures maps_none { MapExactly L.mapped plugged.now.plugged self.old → IfSome result (λ l. L.mapped l ≡ []) }
    {
        let mut listener = self.listeners.try_remove(key)?;
        let blocks = plugged.geometry().device_blocks();
        discard_blocks(&mut listener, plugged, blocks);
        write_blocks(notices, Some(key), plugged, blocks, Told::Discard);
        Some(listener)
    }
}

// Writes the calls of a join that was refused at a block.
fn write_refused_join(notices: &mut NoticeDraft, plugged: &BlockMap, b: BlockNo)
    requires block { is_in b.0 plugged.now.plugged ≡ true }
    requires inside { b.0 < device_blocks plugged.now.sizes }
    requires rising { IsRisingBelow (device_blocks plugged.now.sizes) plugged.now.plugged }
    requires room { 2 * length plugged.now.plugged ≤ notices.old.room }
    ensures { IsWritten notices.old notices.new (refused_join_notices plugged.now.plugged b.0) }
{
    write_blocks(notices, None, plugged, b.0, Told::PopulateOk);
    notices.push(Notice {
        key: None,
        first: b,
        n: 1,
        told: Told::PopulateRefused,
    });
    write_blocks(notices, None, plugged, b.0, Told::Discard);
}
