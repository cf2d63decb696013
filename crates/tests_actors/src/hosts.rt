//! Commands of hosts, with the actions of each counted by hand.

ghost use Rattle.std.specs.Prelude.{◌≡◌, IfOk};

use crate::NOBODY;
use block_map::BlockMap;
use core_actors::{Action, BlockCall, DeviceCall, DeviceHeard, Heard, Host};
use evac_model::{
    BlockNo, CommandList, Config, Geometry, HostCommand, HostLine, HostResult, OutOfMemory,
    RequestBytes, Response,
};
use std::alloc::Global;
use std::process::Abort;
use std::test::Fail;

/// A request of a type for a range, whose address is below 2^16, and whose count is below 256.
fn request(kind: u8, address: [u8; 2], count: u8) -> RequestBytes {
    let mut bytes = [0; 24];
    bytes[0] = kind;
    bytes[8] = address[0];
    bytes[9] = address[1];
    bytes[16] = count;
    RequestBytes::from_slice(&bytes)
}

/// A STATE of all 4 blocks, from 128 on.
fn state() -> RequestBytes {
    request(3, [128, 0], 4)
}

/// A PLUG of blocks 2 and 3, from 256 on.
fn plug() -> RequestBytes {
    request(0, [0, 1], 2)
}

/// A byte, which is no request.
fn short() -> RequestBytes {
    RequestBytes::from_slice(&[0])
}

/// The device is sent these bytes.
fn send(bytes: RequestBytes) -> Action {
    Action::Device(DeviceCall::Request { bytes })
}

/// A block is put online.
fn online(block: u32) -> Action {
    let block = BlockNo(block);
    Action::Block(BlockCall::Online { block })
}

/// The device answered this.
fn answered(response: Response) -> Heard {
    Heard::Device(DeviceHeard::Answered(response))
}

/// What a line says: its number, what its command gave, and how many blocks it tried.
type LineParts = (u64, HostResult, usize);

/// What a line says, if there is one.
fn parts_of(line: &Option<HostLine>) -> Option<LineParts> {
    match line {
        Some(line) => Some((line.no, line.result, line.tried.len())),
        None => None,
    }
}

/// The line of a request that was answered so.
fn answer_line(no: u64, response: Response) -> Option<LineParts> {
    Some((no, HostResult::Answered(response), 0))
}

const CONFIG: Config = Config {
    block_size: 64,
    node_id: 0,
    addr: 128,
    region_size: 256,
    usable_region_size: 256,
    plugged_size: 128,
    requested_size: 256,
};

const CONFIG_LINE: LineParts = (0, HostResult::Config(CONFIG), 0);

const DONE: Response = Response::Ack { state: 0 };

const MIXED: Response = Response::Ack { state: 2 };

/// A host with these commands and the plugged blocks, at the start.
fn begun(alloc: Global, commands: &[HostCommand]) -> Result<(Host, BlockMap), Fail>
    ensures { IfOk result (λ x. x.1.sizes ≡ x.0.state.sizes) }
{
    let g = Geometry::new(2, 4, 2, 4, 2, 8)?;
    let commands = CommandList::from_vec(commands.to_vec(alloc)?);
    let map = BlockMap::new(alloc, g)?;
    let host = Host::new(alloc, g, commands, &map)?;
    Ok((host, map))
}

/// Tells the host what it hears, row by row, and compares what it does and the line that it gives with what is
/// wanted. It gives the line once. None of its commands unplugs, so it never looks at the plugged blocks.
fn follow(
    rt: &impl Abort,
    host: &mut Host,
    map: &BlockMap,
    table: &[(Heard, Action, Option<LineParts>)],
)
    requires { map.now.sizes ≡ host.old.state.sizes }
{
    for (heard, action, line) in table {
        assert_eq!(rt; host.next(*heard, NOBODY, map), Ok(*action));
        assert_eq!(rt; parts_of(&host.line()), *line);
        assert!(rt; host.line().is_none());
    }
}

#[test]
fn a_plug_that_is_done_puts_its_blocks_online(rt: HostRuntime) -> Result<(), Fail> {
    let commands = [
        HostCommand::Config,
        HostCommand::Request { bytes: state() },
        HostCommand::Request { bytes: plug() },
        HostCommand::Request { bytes: plug() },
        HostCommand::Request { bytes: short() },
    ];
    let config = Heard::Device(DeviceHeard::Config(CONFIG));
    let table = [
        (Heard::Start, Action::Device(DeviceCall::Config), None),
        (config, send(state()), Some(CONFIG_LINE)),
        (answered(MIXED), send(plug()), answer_line(1, MIXED)),
        (answered(DONE), online(2), None),
        (Heard::Nothing, online(3), None),
        (Heard::Nothing, send(plug()), answer_line(2, DONE)),
        (
            answered(Response::Nack),
            send(short()),
            answer_line(3, Response::Nack),
        ),
        (
            answered(Response::Error),
            Action::Ended,
            answer_line(4, Response::Error),
        ),
        (Heard::Nothing, Action::Ended, None),
    ];
    let (mut host, map) = begun(rt.alloc(), &commands)?;
    follow(&rt, &mut host, &map, &table);
    Ok(())
}

#[test]
fn a_host_without_commands_has_ended(rt: HostRuntime) -> Result<(), Fail> {
    let table = [
        (Heard::Start, Action::Ended, None),
        (Heard::Nothing, Action::Ended, None),
        (answered(DONE), Action::Ended, None),
    ];
    let (mut host, map) = begun(rt.alloc(), &[])?;
    follow(&rt, &mut host, &map, &table);
    Ok(())
}

/// The host hasn't ended, makes the actions of a table, one after another, and hears what they gave.
fn act(
    rt: &impl Abort,
    host: &mut Host,
    map: &BlockMap,
    table: &[(Action, Heard)],
) -> Result<(), OutOfMemory>
    requires { map.now.sizes ≡ host.old.state.sizes }
{
    for (want, heard) in table {
        assert!(rt; !host.has_ended());
        assert_eq!(rt; host.action(), *want);
        host.make_room()?;
        host.hear(heard, map);
    }
    Ok(())
}

#[test]
fn a_host_ends_with_its_last_command(rt: HostRuntime) -> Result<(), Fail> {
    let commands = [HostCommand::Config, HostCommand::Request { bytes: plug() }];
    let table = [
        (
            Action::Device(DeviceCall::Config),
            Heard::Device(DeviceHeard::Config(CONFIG)),
        ),
        (send(plug()), answered(DONE)),
        (online(2), Heard::Nothing),
        (online(3), Heard::Nothing),
    ];
    let (mut host, map) = begun(rt.alloc(), &commands)?;
    assert_eq!(rt; act(&rt, &mut host, &map, &table), Ok(()));
    assert!(rt; host.has_ended());
    assert_eq!(rt; host.action(), Action::Ended);
    assert_eq!(rt; parts_of(&host.line()), answer_line(1, DONE));
    Ok(())
}
