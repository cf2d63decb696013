//! The memory that a device manages, and how it answers a request about it.

ghost use Rattle.std.specs.Prelude.{◌≡◌, ℕ, ◌+◌, ◌≤◌, ◌<◌, [], true, false, Some, IfOk, IfErr};
ghost use Rattle.evac_model.specs.declared.device.Request.TheVariants as requests;
ghost use Rattle.evac_model.specs.DeviceBlocks.{device_blocks};
ghost use Rattle.evac_model.specs.DeviceAnswer.{block_at, are_plugged, are_unplugged, named_blocks, asks_backing, plug_answer, state_answer, after_answer};
ghost use Rattle.evac_model.specs.HostCommands.{requested_blocks};
ghost use Rattle.mem_device.specs.Answering.{IsAnswer, IsAsked, IsBack, IsRefusal};
ghost use Rattle.mem_device.specs.Managed.{IsManaged, state_in, cause_answer, IsUnplugCause};

use crate::range::{is_plugged, is_unplugged, range_at, size_with};
use crate::{Answer, Held};
use block_map::BlockMap;
use dma_listeners::Backing;
use evac_model::{BlockNo, Request, Response};

/// The plugged blocks, the bytes that the host asks for, whether a migration is active, what backs
/// the blocks, and what holds the frames of those that aren't plugged.
#[derive(Drop)]
pub(crate) struct Memory<B, H> {
    pub(crate) map: BlockMap,
    pub(crate) requested: u64,
    pub(crate) migrating: bool,
    pub(crate) backing: B,
    pub(crate) hand: H,
}

// Why a PLUG isn't acknowledged, or else its first block.
fn plug_cause<B, H>(m: &Memory<B, H>, addr: u64, count: u16) -> Result<BlockNo, Response>
    ensures answer { plug_answer m.now.map.sizes (state_in m.now) false addr count ≡ cause_answer result }
    ensures refusal { IfErr result IsRefusal }
    ensures first { IfOk result (λ b. b.0 ≡ block_at m.now.map.sizes addr) }
    ensures inside { IfOk result (λ b. b.0 + count ≤ device_blocks m.now.map.sizes) }
    ensures unplugged { IfOk result (λ b. are_unplugged m.now.map.plugged b.0 count ≡ true) }
{
    let g = m.map.geometry();
    let Some(first) = range_at(&g, addr, count) else {
        return Err(Response::Error);
    };
    if size_with(&m.map, count) > m.requested {
        return Err(Response::Nack);
    }
    if !is_unplugged(&m.map, first, count as u32) {
        return Err(Response::Error);
    }
    if m.migrating {
        return Err(Response::Busy);
    }
    Ok(first)
}

// Why an UNPLUG doesn't get as far as the backing, or else its first block.
fn unplug_cause<B, H>(m: &Memory<B, H>, addr: u64, count: u16) -> Result<BlockNo, Response>
    ensures cause { IsUnplugCause m.now.map.sizes (state_in m.now) addr count result }
    ensures refusal { IfErr result IsRefusal }
    ensures first { IfOk result (λ b. b.0 ≡ block_at m.now.map.sizes addr) }
    ensures inside { IfOk result (λ b. b.0 + count ≤ device_blocks m.now.map.sizes) }
    ensures plugged { IfOk result (λ b. are_plugged m.now.map.plugged b.0 count ≡ true) }
{
    let g = m.map.geometry();
    let Some(first) = range_at(&g, addr, count) else {
        return Err(Response::Error);
    };
    if !is_plugged(&m.map, first, count as u32) {
        return Err(Response::Error);
    }
    if m.migrating {
        return Err(Response::Busy);
    }
    Ok(first)
}

impl<B: Backing, H: Held> Memory<B, H> {
    /// Answers a request, or bytes that are none. `held` has the plugged blocks that an UNPLUG or an
    /// UNPLUG_ALL names, and else no block.
    pub(crate) fn answer(&mut self, request: Option<Request>, held: H) -> Answer<H>
        requires managed { IsManaged H.blocks H.room B.room self.old }
        requires held { H.blocks held ≡ named_blocks self.old.map.sizes self.old.map.plugged request }
        ensures managed { IsManaged H.blocks H.room B.room self.new }
        ensures sizes { self.new.map.sizes ≡ self.old.map.sizes }
        ensures response { IsAnswer self.old.map.sizes (state_in self.old) request (B.faults self.old.backing) (B.faults self.new.backing) (B.told self.old.backing) result.response }
        ensures state { state_in self.new ≡ after_answer self.old.map.sizes (state_in self.old) request result.response }
        ensures asked { IsAsked B.told B.asked (requested_blocks self.old.map.sizes request) (asks_backing self.old.map.sizes (state_in self.old) request) self.old.backing self.new.backing }
        ensures counts { B.faults self.old.backing ≤ B.faults self.new.backing }
        ensures back { IsBack H.blocks self.old.map.sizes request result.response held result.back }
    {
        match request {
            None => Answer {
                response: Response::Error,
                back: held,
            },
            Some(Request::Plug { addr, count }) => self.plug(addr, count, held),
            Some(Request::Unplug { addr, count }) => self.unplug(addr, count, held),
            Some(Request::UnplugAll) => self.unplug_all(held),
            Some(Request::State { addr, count }) => Answer {
                response: self.state(addr, count),
                back: held,
            },
        }
    }

    // Answers a PLUG.
    fn plug(&mut self, addr: u64, count: u16, held: H) -> Answer<H>
        requires managed { IsManaged H.blocks H.room B.room self.old }
        requires held { H.blocks held ≡ [] }
        ensures managed { IsManaged H.blocks H.room B.room self.new }
        ensures sizes { self.new.map.sizes ≡ self.old.map.sizes }
        ensures response { result.response ≡ plug_answer self.old.map.sizes (state_in self.old) false addr count }
        ensures state { state_in self.new ≡ after_answer self.old.map.sizes (state_in self.old) (Some (requests.Plug addr count)) result.response }
        ensures backing { self.new.backing ≡ self.old.backing }
        ensures back { IsBack H.blocks self.old.map.sizes (Some (requests.Plug addr count)) result.response held result.back }
    {
        match plug_cause(self, addr, count) {
            Err(response) => Answer {
                response,
                back: held,
            },
            Ok(first) => {
                self.hand.merge(held);
                let back = self.hand.part(first, count as u32);
                self.map.set(first, count as u32);
                Answer {
                    response: Response::Ack { state: 0 },
                    back,
                }
            }
        }
    }

    // Answers an UNPLUG.
    fn unplug(&mut self, addr: u64, count: u16, held: H) -> Answer<H>
        requires managed { IsManaged H.blocks H.room B.room self.old }
        requires held { H.blocks held ≡ named_blocks self.old.map.sizes self.old.map.plugged (Some (requests.Unplug addr count)) }
        ensures managed { IsManaged H.blocks H.room B.room self.new }
        ensures sizes { self.new.map.sizes ≡ self.old.map.sizes }
        ensures response { IsAnswer self.old.map.sizes (state_in self.old) (Some (requests.Unplug addr count)) (B.faults self.old.backing) (B.faults self.new.backing) (B.told self.old.backing) result.response }
        ensures state { state_in self.new ≡ after_answer self.old.map.sizes (state_in self.old) (Some (requests.Unplug addr count)) result.response }
        ensures asked { IsAsked B.told B.asked (requested_blocks self.old.map.sizes (Some (requests.Unplug addr count))) (asks_backing self.old.map.sizes (state_in self.old) (Some (requests.Unplug addr count))) self.old.backing self.new.backing }
        ensures counts { B.faults self.old.backing ≤ B.faults self.new.backing }
        ensures back { IsBack H.blocks self.old.map.sizes (Some (requests.Unplug addr count)) result.response held result.back }
    {
        match unplug_cause(self, addr, count) {
            Err(response) => Answer {
                response,
                back: held,
            },
            Ok(first) => {
                if self.backing.discard(first, count as u32).is_err() {
                    return Answer {
                        response: Response::Busy,
                        back: held,
                    };
                }
                self.hand.merge(held);
                let back = self.hand.part(BlockNo(0), 0);
                self.map.clear(first, count as u32);
                Answer {
                    response: Response::Ack { state: 0 },
                    back,
                }
            }
        }
    }

    // Answers an UNPLUG_ALL.
    fn unplug_all(&mut self, held: H) -> Answer<H>
        requires managed { IsManaged H.blocks H.room B.room self.old }
        requires held { H.blocks held ≡ self.old.map.plugged }
        ensures managed { IsManaged H.blocks H.room B.room self.new }
        ensures sizes { self.new.map.sizes ≡ self.old.map.sizes }
        ensures response { IsAnswer self.old.map.sizes (state_in self.old) (Some requests.UnplugAll) (B.faults self.old.backing) (B.faults self.new.backing) (B.told self.old.backing) result.response }
        ensures state { state_in self.new ≡ after_answer self.old.map.sizes (state_in self.old) (Some requests.UnplugAll) result.response }
        ensures asked { IsAsked B.told B.asked (requested_blocks self.old.map.sizes (Some requests.UnplugAll)) (asks_backing self.old.map.sizes (state_in self.old) (Some requests.UnplugAll)) self.old.backing self.new.backing }
        ensures counts { B.faults self.old.backing ≤ B.faults self.new.backing }
        ensures back { IsBack H.blocks self.old.map.sizes (Some requests.UnplugAll) result.response held result.back }
    {
        let blocks = self.map.geometry().device_blocks();
        if self.map.plugged_size() == 0 {
            return Answer {
                response: Response::Ack { state: 0 },
                back: held,
            };
        }
        if self.migrating {
            return Answer {
                response: Response::Busy,
                back: held,
            };
        }
        if self.backing.discard(BlockNo(0), blocks).is_err() {
            return Answer {
                response: Response::Busy,
                back: held,
            };
        }
        self.hand.merge(held);
        let back = self.hand.part(BlockNo(0), 0);
        self.map.clear(BlockNo(0), blocks);
        Answer {
            response: Response::Ack { state: 0 },
            back,
        }
    }

    // Answers a STATE.
    fn state(&self, addr: u64, count: u16) -> Response
        ensures { result ≡ state_answer self.now.map.sizes (state_in self.now) addr count }
    {
        let g = self.map.geometry();
        match range_at(&g, addr, count) {
            None => Response::Error,
            Some(first) => Response::Ack {
                state: self.map.state(first, count as u32),
            },
        }
    }
}
