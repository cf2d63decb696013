//! A registry of DMA maps for a machine with 4 managed blocks.

ghost use Rattle.std.specs.Prelude.{◌≡◌, ◌+◌, ◌*◌, ◌≤◌, length, IfOk};
ghost use Rattle.std.proofs.Props.{props};
ghost use Rattle.dma_listeners.specs.Registries.{EachListener};

use block_map::BlockMap;
use dma_listeners::{
    BlockNo, DmaMap, JoinFault, NoticeDraft, Notices, OutOfMemory, RefusedBy, Registry,
};
use evac_model::Geometry;
use std::alloc::Global;

/// The plugged blocks and the listeners of a machine with 4 managed blocks. Each call gives its
/// notices beside its answer, or the want of memory.
#[derive(Drop)]
pub struct Small {
    registry: Registry<DmaMap>,
    plugged: BlockMap,
    alloc: Global,
    ghost four: { plugged.sizes.managed ≡ 4 },
    ghost roomy: { EachListener (λ l. 4 ≤ l.region) registry } by { Prim.hlevel props },
}

// The number of blocks, of which no more are plugged.
fn blocks(map: &BlockMap) -> u32
    ensures size { result ≡ map.now.sizes.managed }
    ensures few { length map.now.plugged ≤ result }
{
    map.geometry().managed()
}

// An empty list of notices, with room for so many of each of `count`.
fn draft(alloc: Global, count: usize, each: usize) -> Result<NoticeDraft, OutOfMemory>
    ensures { IfOk result (λ d. count * each ≤ d.room) }
{
    let mut notices = NoticeDraft::new(alloc);
    let more = count.checked_mul(each).ok_or(OutOfMemory)?;
    notices.reserve(more)?;
    Ok(notices)
}

impl Small {
    /// No listener yet.
    pub fn open(alloc: Global, g: Geometry) -> Result<Small, OutOfMemory>
        requires { g.managed ≡ 4 }
    {
        Ok(Small {
            registry: Registry::new(alloc),
            plugged: BlockMap::new(alloc, g)?,
            alloc,
        })
    }

    /// A DMA map with this limit joins: its key, or None where it refused.
    pub fn join(&mut self, limit: u32) -> Result<(Option<usize>, Notices), OutOfMemory> {
        let count = blocks(&self.plugged) as usize;
        let mut notices = draft(self.alloc, count, 2)?;
        let map = DmaMap::new(self.alloc, self.plugged.geometry(), limit)?;
        match self.registry.join(map, &self.plugged, &mut notices) {
            Ok(key) => Ok((Some(key), notices.into_notices())),
            Err(JoinFault::Refused(_)) => Ok((None, notices.into_notices())),
            Err(JoinFault::OutOfMemory(_)) => Err(OutOfMemory),
        }
    }

    /// The listener of a key leaves: whether there was one.
    pub fn leave(&mut self, key: usize) -> Result<(bool, Notices), OutOfMemory> {
        let count = blocks(&self.plugged) as usize;
        let mut notices = draft(self.alloc, count, 1)?;
        let left = self.registry.leave(key, &self.plugged, &mut notices);
        Ok((left.is_some(), notices.into_notices()))
    }

    /// Blocks are plugged, where no listener refuses.
    pub fn plug(
        &mut self,
        first: u32,
        n: u32,
    ) -> Result<(Result<(), RefusedBy>, Notices), OutOfMemory>
        requires { first + n ≤ 4 }
    {
        let mut notices = draft(self.alloc, self.registry.len(), 2)?;
        let answer = self.registry.populate(BlockNo(first), n, &mut notices);
        if answer.is_ok() {
            self.plugged.set(BlockNo(first), n);
        }
        Ok((answer, notices.into_notices()))
    }

    /// Blocks are unplugged.
    pub fn unplug(&mut self, first: u32, n: u32) -> Result<Notices, OutOfMemory>
        requires { first + n ≤ 4 }
    {
        let mut notices = draft(self.alloc, self.registry.len(), 1)?;
        self.registry.discard(BlockNo(first), n, &mut notices);
        self.plugged.clear(BlockNo(first), n);
        Ok(notices.into_notices())
    }

    /// All blocks are unplugged.
    pub fn unplug_all(&mut self) -> Result<Notices, OutOfMemory> {
        let count = blocks(&self.plugged);
        let mut notices = draft(self.alloc, self.registry.len(), count as usize)?;
        self.registry.discard_all(&self.plugged, &mut notices);
        self.plugged.clear(BlockNo(0), count);
        Ok(notices.into_notices())
    }

    /// Whether the listener of a key maps a block; None where there is no such listener.
    pub fn maps(&self, key: usize, b: u32) -> Option<bool> {
        self.registry.listener(key).map(|l| l.maps(BlockNo(b)))
    }

    /// The least key from a number on.
    pub fn next_key(&self, from: usize) -> Option<usize> {
        self.registry.next_key(from)
    }
}
