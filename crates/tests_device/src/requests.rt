//! What a device answers to requests, one alone or one after another.

ghost use Rattle.std.specs.Prelude.{◌≡◌, ◌+◌, ◌-◌, ◌^◌, ◌<◌, ◌≤◌, [], None, IfOk, IfSome};
ghost use Rattle.std.specs.List.{range_with_len};
ghost use Rattle.evac_model.specs.DeviceAnswer.{request_in};
ghost use Rattle.evac_model.specs.DeviceAnswer.{named_blocks};
ghost use Rattle.mem_device.specs.DeviceView.{device_state};

use crate::small_geometry;
use dma_listeners::{Failed, Refused};
use evac_model::{NumberList, Request, RequestBytes, count_up};
use mem_codec::read_request;
use mem_device::{
    Backing, BlockHand, BlockNo, Config, Device, DeviceAct, Held, Listener, Response, SizeFault,
    Slate, named_range, plugged_by, requested_blocks,
};
use std::alloc::{AllocError, Global};
use std::process::Abort;
use std::test::Fail;

// A listener that refuses everything. No device tells it anything yet.
#[derive(Drop)]
struct Deaf {
    refusals: u64,
}

impl Listener for Deaf {
    ghost mapped = { λ _. [] };

    ghost refusals = { λ d. d.refusals };

    ghost limit = { λ _. None };

    ghost room = { λ _. 0 };

    fn populate(&mut self, _first: BlockNo, _n: u32) -> Result<(), Refused> {
        self.refusals = self.refusals.saturating_add(1);
        Err(Refused)
    }

    fn discard(&mut self, _first: BlockNo, _n: u32) {}
}

// A backing that fails at each call, and whose count of faults stands at its end.
#[derive(Drop)]
struct Worn;

impl Backing for Worn {
    ghost faults = { λ _. 2 ^ 64 - 1 };

    ghost told = { λ _. None };

    ghost asked = { λ _. None };

    ghost room = { λ _. 65536 };

    fn discard(&mut self, _first: BlockNo, _n: u32) -> Result<(), Failed> {
        Err(Failed)
    }
}

// A backing that gives back one range alone.
#[derive(Drop)]
struct Picky {
    first: BlockNo,
    n: u32,
    faults: u64,
}

impl Backing for Picky {
    ghost faults = { λ p. p.faults };

    ghost told = { λ _. None };

    ghost asked = { λ _. None };

    ghost room = { λ _. 65536 };

    fn discard(&mut self, first: BlockNo, n: u32) -> Result<(), Failed> {
        if first.0 == self.first.0 && n == self.n {
            return Ok(());
        }
        self.faults = count_up(self.faults);
        Err(Failed)
    }
}

type SmallDevice = Device<Deaf, Slate, BlockHand>;

// The device of a small machine, whose backing fails at these calls.
fn small(alloc: Global, plugged: u32, fails: &[u64]) -> Result<SmallDevice, Fail>
    ensures { IfOk result (λ d. d.journal ≡ []) }
{
    let g = small_geometry(plugged)?;
    let backing = Slate::new(NumberList::from_vec(fails.to_vec(alloc)?));
    let unplugged = BlockHand::new(alloc, g, BlockNo(g.plugged()), g.managed() - g.plugged())?;
    let device = Device::open(alloc, g, backing, unplugged)?;
    Ok(device)
}

// The bytes of a request.
fn request(kind: u8, addr: u64, count: u16) -> [u8; 24] {
    let mut bytes = [0; 24];
    bytes[0] = kind;
    bytes[8..16].copy_from_slice(&addr.to_le_bytes());
    bytes[16..18].copy_from_slice(&count.to_le_bytes());
    bytes
}

// The range of the plugged blocks that a request names; None where they may be no range.
fn named<B: Backing>(device: &Device<Deaf, B, BlockHand>, bytes: &[u8]) -> Option<(BlockNo, u32)>
    ensures blocks { IfSome result (λ r. range_with_len r.0.0 r.1 ≡ named_blocks device.now.sizes (device_state device.now).plugged (request_in bytes.now)) }
    ensures inside { IfSome result (λ r. r.0.0 + r.1 ≤ device.now.sizes.managed) }
{
    if let Ok(Request::UnplugAll) = read_request(bytes) {
        return None;
    }
    Some(named_range(device.plugged(), bytes))
}

// What the device answers to any request but an UNPLUG_ALL.
fn ask<B: Backing>(
    alloc: Global,
    device: &mut Device<Deaf, B, BlockHand>,
    bytes: &[u8],
) -> Result<Option<Response>, Fail> {
    if bytes.len() > 64 {
        return Ok(None);
    }
    let Some((first, n)) = named(device, bytes) else {
        return Ok(None);
    };
    let held = BlockHand::new(alloc, device.plugged().geometry(), first, n)?;
    let answer = device.answer(bytes, held).map_err(|_| AllocError)?;
    Ok(Some(answer.response))
}

const ACK: Response = Response::Ack { state: 0 };

const UNPLUGGED: Response = Response::Ack { state: 1 };

const MIXED: Response = Response::Ack { state: 2 };

#[test]
fn each_request_from_the_start(rt: HostRuntime) -> Result<(), Fail> {
    let cases = [
        (0, 320, 1, Response::Nack),
        (0, 128, 1, Response::Nack),
        (0, 129, 1, Response::Error),
        (0, 128, 0, Response::Error),
        (1, 128, 1, ACK),
        (1, 192, 2, ACK),
        (1, 256, 2, Response::Error),
        (1, 320, 1, Response::Error),
        (1, 160, 1, Response::Error),
        (1, 128, 0, Response::Error),
        (3, 320, 2, Response::Error),
        (3, 128, 4, MIXED),
        (3, 128, 3, ACK),
        (3, 320, 1, UNPLUGGED),
        (3, 64, 1, Response::Error),
        (3, 384, 1, Response::Error),
        (3, 18_446_744_073_709_551_552, 1, Response::Error),
        (3, 128, 65_535, Response::Error),
        (4, 128, 1, Response::Error),
        (255, 128, 1, Response::Error),
    ];
    for (kind, addr, count, want) in cases {
        let mut device = small(rt.alloc(), 3, &[])?;
        let got = ask(rt.alloc(), &mut device, &request(kind, addr, count))?;
        assert_eq!(rt; got, Some(want), "{kind} {addr} {count}");
    }
    Ok(())
}

// A STATE of 4 blocks from 128 on, whose padding is set.
const PADDED: [u8; 24] = [
    3, 0, 255, 255, 255, 255, 255, 255, 128, 0, 0, 0, 0, 0, 0, 0, 4, 0, 255, 255, 255, 255, 255,
    255,
];

/// The device answers that these bytes are no request.
fn is_error(
    rt: &impl Abort,
    alloc: Global,
    device: &mut SmallDevice,
    bytes: &[u8],
) -> Result<(), Fail> {
    let got = ask(alloc, device, bytes)?;
    assert_eq!(rt; got, Some(Response::Error));
    Ok(())
}

#[test]
fn other_bytes(rt: HostRuntime) -> Result<(), Fail> {
    let mut device = small(rt.alloc(), 3, &[])?;
    is_error(&rt, rt.alloc(), &mut device, &[])?;
    is_error(&rt, rt.alloc(), &mut device, &[0])?;
    is_error(&rt, rt.alloc(), &mut device, &[0; 23])?;
    is_error(&rt, rt.alloc(), &mut device, &[0; 25])?;
    is_error(&rt, rt.alloc(), &mut device, &[0; 64])?;
    assert_eq!(rt; ask(rt.alloc(), &mut device, &PADDED)?, Some(MIXED));
    assert_eq!(rt; device.journal().len(), 6);
    Ok(())
}

#[test]
fn one_request_after_another(rt: HostRuntime) -> Result<(), Fail> {
    let mut device = small(rt.alloc(), 3, &[])?;
    assert_eq!(rt; device.set_requested(100), Err(SizeFault::BadSize));
    assert_eq!(rt; device.set_requested(320), Err(SizeFault::BadSize));
    assert_eq!(rt; device.set_requested(256), Ok(()));
    let cases = [
        (0, 128, 1, Response::Error),
        (0, 320, 1, ACK),
        (0, 320, 1, Response::Nack),
        (3, 128, 4, ACK),
        (1, 256, 2, ACK),
        (1, 256, 1, Response::Error),
        (3, 128, 4, MIXED),
        (0, 192, 2, Response::Error),
        (0, 256, 2, ACK),
        (3, 128, 4, ACK),
    ];
    for (kind, addr, count, want) in cases {
        let got = ask(rt.alloc(), &mut device, &request(kind, addr, count))?;
        assert_eq!(rt; got, Some(want), "{kind} {addr} {count}");
    }
    assert_eq!(rt; device.migrating(), false);
    assert_eq!(rt; device.plugged().plugged_size(), 256);
    assert_eq!(rt; device.journal().len(), 11);
    let bytes = RequestBytes::from_slice(&request(0, 320, 1));
    let Some(action) = device.journal().get(2) else {
        panic!(rt; "no third action");
    };
    let act = DeviceAct::Request {
        bytes,
        response: ACK,
    };
    assert_eq!(rt; action.act, act);
    assert!(rt; action.notices.is_empty());
    let mut hand = device.close();
    let _ = hand.part(BlockNo(0), 0);
    Ok(())
}

#[test]
fn a_backing_that_fails(rt: HostRuntime) -> Result<(), Fail> {
    let mut device = small(rt.alloc(), 3, &[2])?;
    let cases = [
        (1, 320, 1, Response::Error),
        (1, 128, 1, ACK),
        (0, 128, 0, Response::Error),
        (1, 192, 2, Response::Busy),
        (3, 192, 2, ACK),
        (1, 192, 2, ACK),
        (3, 128, 4, UNPLUGGED),
    ];
    for (kind, addr, count, want) in cases {
        let got = ask(rt.alloc(), &mut device, &request(kind, addr, count))?;
        assert_eq!(rt; got, Some(want), "{kind} {addr} {count}");
    }
    Ok(())
}

// The device of a small machine with 3 plugged blocks, over a worn backing.
fn small_worn(alloc: Global) -> Result<Device<Deaf, Worn, BlockHand>, Fail> {
    let g = small_geometry(3)?;
    let unplugged = BlockHand::new(alloc, g, BlockNo(3), 1)?;
    let device = Device::open(alloc, g, Worn, unplugged)?;
    Ok(device)
}

#[test]
fn a_worn_backing_is_asked_for_no_plug(rt: HostRuntime) -> Result<(), Fail> {
    let mut device = small_worn(rt.alloc())?;
    assert_eq!(rt; device.set_requested(256), Ok(()));
    let cases = [
        (0, 320, 1, ACK),
        (1, 320, 1, Response::Busy),
        (1, 320, 0, Response::Error),
        (3, 128, 4, ACK),
    ];
    for (kind, addr, count, want) in cases {
        let got = ask(rt.alloc(), &mut device, &request(kind, addr, count))?;
        assert_eq!(rt; got, Some(want), "{kind} {addr} {count}");
    }
    Ok(())
}

// The device of a small machine with 3 plugged blocks, whose backing gives back that range alone.
fn small_picky(alloc: Global, first: u32, n: u32) -> Result<Device<Deaf, Picky, BlockHand>, Fail>
    ensures { IfOk result (λ device. device.journal ≡ []) }
{
    let g = small_geometry(3)?;
    let unplugged = BlockHand::new(alloc, g, BlockNo(3), 1)?;
    let backing = Picky {
        first: BlockNo(first),
        n,
        faults: 0,
    };
    let device = Device::open(alloc, g, backing, unplugged)?;
    Ok(device)
}

#[test]
fn a_backing_is_asked_for_the_blocks_that_go(rt: HostRuntime) -> Result<(), Fail> {
    // the range that is given back, and what comes of an UNPLUG of the blocks 1 and 2
    let cases = [(1, 2, ACK), (0, 2, Response::Busy), (1, 1, Response::Busy)];
    for (first, n, want) in cases {
        let mut device = small_picky(rt.alloc(), first, n)?;
        let got = ask(rt.alloc(), &mut device, &request(1, 192, 2))?;
        assert_eq!(rt; got, Some(want), "{first} {n}");
    }
    Ok(())
}

#[test]
fn a_backing_is_asked_for_the_whole_region(rt: HostRuntime) -> Result<(), Fail> {
    for (first, n, want) in [(0, 4, ACK), (0, 3, Response::Busy)] {
        let mut device = small_picky(rt.alloc(), first, n)?;
        let got = ask_all(rt.alloc(), &mut device)?;
        assert_eq!(rt; got, want, "{first} {n}");
    }
    Ok(())
}

#[test]
fn blocks_named_and_plugged(rt: HostRuntime) -> Result<(), Fail> {
    let g = small_geometry(3)?;
    // the kind, the range, the blocks named, and how many of them an ACK plugged
    let cases = [
        (0, 320, 1, (3, 1), 1),
        (0, 128, 4, (0, 4), 4),
        (0, 129, 1, (0, 0), 0),
        (0, 320, 2, (0, 0), 0),
        (1, 192, 2, (1, 2), 0),
        (1, 64, 1, (0, 0), 0),
        (2, 0, 0, (0, 4), 0),
        (3, 256, 2, (2, 2), 0),
        (4, 128, 1, (0, 0), 0),
    ];
    for (kind, addr, count, (first, n), plugged) in cases {
        let bytes = request(kind, addr, count);
        assert_eq!(rt;
            requested_blocks(&g, &bytes),
            (BlockNo(first), n),
            "{kind} {addr} {count}"
        );
        assert_eq!(rt;
            plugged_by(&g, &bytes, &ACK).1,
            plugged,
            "{kind} {addr} {count}"
        );
        assert_eq!(rt;
            plugged_by(&g, &bytes, &Response::Busy).1,
            0,
            "{kind} {addr} {count}"
        );
    }
    assert_eq!(rt; plugged_by(&g, &request(0, 320, 1), &ACK), (BlockNo(3), 1));
    assert_eq!(rt; requested_blocks(&g, &[0; 23]), (BlockNo(0), 0));
    Ok(())
}

// Blocks 0 to 2 are plugged, and 3 isn't.
#[test]
fn plugged_blocks_named(rt: HostRuntime) -> Result<(), Fail> {
    let device = small(rt.alloc(), 3, &[])?;
    let cases = [
        (1, 192, 2, (1, 2)),
        (1, 128, 3, (0, 3)),
        (1, 256, 1, (2, 1)),
        (1, 256, 2, (0, 0)),
        (1, 320, 1, (0, 0)),
        (1, 160, 1, (0, 0)),
        (1, 192, 0, (0, 0)),
        (0, 320, 1, (0, 0)),
        (0, 128, 1, (0, 0)),
        (3, 128, 3, (0, 0)),
        (4, 128, 1, (0, 0)),
    ];
    for (kind, addr, count, (first, n)) in cases {
        let got = named(&device, &request(kind, addr, count));
        assert_eq!(rt; got, Some((BlockNo(first), n)), "{kind} {addr} {count}");
    }
    assert_eq!(rt; named(&device, &[1; 23]), Some((BlockNo(0), 0)));
    assert_eq!(rt; named(&device, &UNPLUG_ALL), None);
    Ok(())
}

const UNPLUG_ALL: [u8; 24] = [
    2, 0, 0, 0, 0, 0, 0, 0, 0, 0, 0, 0, 0, 0, 0, 0, 0, 0, 0, 0, 0, 0, 0, 0,
];

// What the device answers to an UNPLUG_ALL at the start.
fn ask_all<B: Backing>(
    alloc: Global,
    device: &mut Device<Deaf, B, BlockHand>,
) -> Result<Response, Fail>
    requires { device.old.journal ≡ [] }
{
    let g = device.plugged().geometry();
    let held = BlockHand::new(alloc, g, BlockNo(0), g.plugged())?;
    let answer = device.answer(&UNPLUG_ALL, held).map_err(|_| AllocError)?;
    Ok(answer.response)
}

#[test]
fn all_blocks(rt: HostRuntime) -> Result<(), Fail> {
    let cases = [
        (3, 9, ACK, 0),
        (3, 1, Response::Busy, 192),
        (0, 1, ACK, 0),
        (4, 2, ACK, 0),
    ];
    for (plugged, fails, want, left) in cases {
        let mut device = small(rt.alloc(), plugged, &[fails])?;
        assert_eq!(rt;
            ask_all(rt.alloc(), &mut device)?,
            want,
            "{plugged} {fails}"
        );
        assert_eq!(rt; device.plugged().plugged_size(), left, "{plugged} {fails}");
    }
    Ok(())
}

#[test]
fn configuration(rt: HostRuntime) -> Result<(), Fail> {
    let device = small(rt.alloc(), 4, &[])?;
    assert_eq!(rt;
        device.config(),
        Config {
            block_size: 64,
            node_id: 0,
            addr: 128,
            region_size: 256,
            usable_region_size: 256,
            plugged_size: 256,
            requested_size: 256,
        }
    );
    Ok(())
}
