//! The device.

ghost use Rattle.std.specs.Prelude.{◌≡◌};

use crate::memory::Memory;
use crate::{Answer, Held, NoMemory, SizeFault};
use block_map::BlockMap;
use dma_listeners::{Backing, Listener, Registry};
use evac_model::{
    BlockNo, Config, DeviceAct, DeviceAction, Geometry, Notices, OutOfMemory, RequestBytes,
};
use mem_codec::read_request;
use std::alloc::Global;
use std::marker::Model;

/// A memory device, modelled on QEMU's virtio-mem. Contracts see the machine, the journal of the
/// device's actions, what backs the blocks and what holds the unplugged ones; the plugged blocks, the
/// requested size and the migration flag are what the journal leaves. Memory is taken for the
/// journal alone.
#[derive(Drop)]
pub struct Device<L, B: Backing, H: Held> {
    memory: Memory<B, H>,
    registry: Registry<L>,
    journal: Vec<DeviceAction>,
    alloc: Global,
}

/// All of a device but its journal, to be given back as one.
#[derive(Drop)]
struct Rest<L, B: Backing, H: Held> {
    memory: Memory<B, H>,
    registry: Registry<L>,
}

impl<L, B: Backing, H: Held> Model for Device<L, B, H> {
    ghost use Rattle.mem_device.specs.DeviceView.{DeviceView};

    ghost Value = { DeviceView B H };

    ghost use Rattle.mem_device.specs.DeviceInside.{IsDevice};

    ghost view = { λ a. record { sizes = a.memory.map.sizes; journal = a.journal.items; backing = a.memory.backing; hand = a.memory.hand } };

    ghost invariant = { λ a. IsDevice H.blocks H.room B.room a.memory a.registry a.journal.items };
}

impl<L: Listener, B: Backing, H: Held> Device<L, B, H> {
    ghost use Rattle.std.specs.Prelude.{◌≡◌, ◌≤◌, ◌++◌, ◌∷◌, [], ◌↔◌, length, Err, IfOk, IfErr, OnOk, OnErr};
    ghost use Rattle.evac_model.specs.DeviceAnswer.{request_in, config_of, unplugged_blocks, asks_backing, named_blocks};
    ghost use Rattle.evac_model.specs.HostCommands.{request_action, requested_blocks};
    ghost use Rattle.mem_device.specs.Answering.{IsAnswer, IsAsked, IsBack};
    ghost use Rattle.mem_device.specs.DeviceView.{device_state, requested_action, IsBadSize};

    /// Answers a request of at most 64 bytes (Virtio 1.2, 5.15.6). For an UNPLUG of a good range that
    /// is all plugged and for an UNPLUG_ALL, `held` has exactly the plugged blocks named, and else no
    /// block. The backing is asked once where the answer depends on it, to discard exactly the blocks that
    /// the request names, for an UNPLUG_ALL the whole region; and only where it fails then, or a
    /// migration is active, the answer is BUSY. Room for the journal is taken
    /// first; where there is none, the device is as it was.
    pub fn answer(&mut self, bytes: &[u8], held: H) -> Result<Answer<H>, NoMemory<H>>
        requires short { length bytes.now ≤ 64 }
        requires held { H.blocks held ≡ named_blocks self.old.sizes (device_state self.old).plugged (request_in bytes.now) }

        // The response, and the only action that the journal has more.
        ensures response { IfOk result (λ a. IsAnswer self.old.sizes (device_state self.old) (request_in bytes.now) (B.faults self.old.backing) (B.faults self.new.backing) (B.told self.old.backing) a.response) }
        ensures journal { IfOk result (λ a. self.new.journal ≡ self.old.journal ++ request_action bytes.now a.response ∷ []) }

        // Which blocks are whose.
        ensures back { IfOk result (λ a. IsBack H.blocks self.old.sizes (request_in bytes.now) a.response held a.back) }
        ensures hand { H.blocks self.new.hand ≡ unplugged_blocks self.new.sizes (device_state self.new).plugged }

        ensures asked { OnOk result (IsAsked B.told B.asked (requested_blocks self.old.sizes (request_in bytes.now)) (asks_backing self.old.sizes (device_state self.old) (request_in bytes.now)) self.old.backing self.new.backing) }
        ensures counts { B.faults self.old.backing ≤ B.faults self.new.backing }
        ensures sizes { self.new.sizes ≡ self.old.sizes }

        ensures err { OnErr result (self.new ≡ self.old) }
        ensures held_back { IfErr result (λ e. e.held ≡ held) }
    {
        if self.journal.reserve(1).is_err() {
            return Err(NoMemory { held });
        }
        let answer = self.memory.answer(read_request(bytes).ok(), held);
        let act = DeviceAct::Request {
            bytes: RequestBytes::from_slice(bytes),
            response: answer.response,
        };
        self.journal.push_reserved(DeviceAction {
            act,
            notices: Notices::from_vec(Vec::new(self.alloc)),
        });
        Ok(answer)
    }

    /// Sets the size that the device asks the driver to have plugged, in bytes. `BadSize` comes
    /// exactly where it is no multiple of the device block's size or is above the region's size.
    pub fn set_requested(&mut self, size: u64) -> Result<(), SizeFault>
        ensures journal { OnOk result (self.new.journal ≡ self.old.journal ++ requested_action size ∷ []) }
        ensures bad { (result ≡ Err SizeFault.BadSize) ↔ IsBadSize self.old.sizes size }
        ensures err { OnErr result (self.new ≡ self.old) }
        ensures sizes { self.new.sizes ≡ self.old.sizes }
        ensures backing { self.new.backing ≡ self.old.backing }
        ensures hand { self.new.hand ≡ self.old.hand }
    {
        let g = self.memory.map.geometry();
        if size % g.device_block_bytes() != 0 || size > g.region_bytes() {
            return Err(SizeFault::BadSize);
        }
        if self.journal.reserve(1).is_err() {
            return Err(SizeFault::OutOfMemory);
        }
        self.memory.requested = size;
        self.journal.push_reserved(DeviceAction {
            act: DeviceAct::Requested { size },
            notices: Notices::from_vec(Vec::new(self.alloc)),
        });
        Ok(())
    }

    /// The device's configuration (Virtio 1.2, 5.15.4). The node is 0, and the usable region is the
    /// whole one.
    pub fn config(&self) -> Config
        ensures { result ≡ config_of self.now.sizes (device_state self.now) }
    {
        let g = self.memory.map.geometry();
        // the region has a block
        let _blocks = g.device_blocks();
        Config {
            block_size: g.device_block_bytes(),
            node_id: 0,
            addr: g.device_address(BlockNo(0)),
            region_size: g.region_bytes(),
            usable_region_size: g.region_bytes(),
            plugged_size: self.memory.map.plugged_size(),
            requested_size: self.memory.requested,
        }
    }

    /// Whether a migration is active.
    pub fn migrating(&self) -> bool
        ensures { result ≡ (device_state self.now).migrating }
    {
        self.memory.migrating
    }

    /// The plugged blocks.
    pub fn plugged(&self) -> &BlockMap
        ensures plugged { result.now.plugged ≡ (device_state self.now).plugged }
        ensures sizes { result.now.sizes ≡ self.now.sizes }
    {
        &self.memory.map
    }

    /// The actions so far, in order.
    pub fn journal(&self) -> &[DeviceAction]
        ensures { result.now ≡ self.now.journal }
    {
        &self.journal
    }
}

impl<L: Listener + Drop, B: Backing + Drop, H: Held + Drop> Device<L, B, H> {
    ghost use Rattle.std.specs.Prelude.{◌≡◌, ◌≤◌, ◌-◌, [], IfOk};
    ghost use Rattle.std.specs.List.{range_with_len};
    ghost use Rattle.evac_model.specs.DeviceBlocks.{device_blocks, plugged_at_start};
    ghost use Rattle.evac_model.specs.DeviceAnswer.{unplugged_blocks};
    ghost use Rattle.mem_device.specs.DeviceView.{device_state};

    /// The device of a machine at its start: the lowest blocks are plugged, and as much is requested.
    /// `unplugged` holds exactly the blocks above these, and has room for every block, and `backing` backs
    /// every block. It fails where there is no memory for the map of the plugged blocks.
    pub fn open(
        alloc: Global,
        g: Geometry,
        backing: B,
        unplugged: H,
    ) -> Result<Device<L, B, H>, OutOfMemory>
        requires roomy { device_blocks g ≤ H.room unplugged }
        requires backed { device_blocks g ≤ B.room backing }
        requires unplugged { H.blocks unplugged ≡ range_with_len (plugged_at_start g) (device_blocks g - plugged_at_start g) }
        ensures { IfOk result (λ d. d ≡ record { sizes = g; journal = []; backing = backing; hand = unplugged }) }
    {
        let map = BlockMap::new(alloc, g)?;
        // the machine's limits, and the plugged blocks are rising
        let _ = map.geometry();
        let requested = map.plugged_size();
        Ok(Device {
            memory: Memory {
                map,
                requested,
                migrating: false,
                backing,
                hand: unplugged,
            },
            registry: Registry::new(alloc),
            journal: Vec::new(alloc),
            alloc,
        })
    }

    /// The actions so far, in order. The memory of the rest is given back, and none is taken.
    pub fn into_journal(self) -> Vec<DeviceAction>
        ensures { result.items ≡ self.journal }
    {
        let Device {
            memory,
            registry,
            journal,
            alloc: _,
        } = self;
        let _rest = Rest { memory, registry };
        journal
    }

    /// Closes the device, and gives what holds its unplugged blocks.
    pub fn close(self) -> H
        ensures hand { result ≡ self.hand }
        ensures unplugged { H.blocks result ≡ unplugged_blocks self.sizes (device_state self).plugged }
    {
        let Device {
            memory,
            registry: _,
            journal: _,
            alloc: _,
        } = self;
        let Memory {
            map: _,
            requested: _,
            migrating: _,
            backing: _,
            hand,
        } = memory;
        hand
    }
}
