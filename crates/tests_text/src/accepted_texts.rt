//! Texts that are scenarios, and what is read of them.

use crate::start_page;
use evac_model::{
    Actor, Call, Cells, Drawn, HostCommand, Kind, LineCause, PageNo, RequestBytes, ScenarioFault,
    Turn,
};
use scenario::{ScenarioError, read_scenario};
use std::alloc::Global;
use std::process::Abort;
use std::test::Fail;

const MACHINE: &str = "machine 2 4 2 4 4 8\n";

/// Digits of requests that are read, and how many bytes they write.
const REQUESTS: [(&str, usize); 15] = [
    ("00", 1),
    ("9f", 1),
    (
        "000102030405060708090a0b0c0d0e0f101112131415161718191a1b1c1d1e1f202122232425262728292a2b2c2d2e2f303132333435363738393a3b3c3d3e3f",
        64,
    ),
    ("0100000000000000000000000000000000000000000000", 23),
    ("0200000000000000000000000000000000000000000000", 23),
    ("01000000000000000000000000000000000000000000000000", 25),
    ("02000000000000000000000000000000000000000000000000", 25),
    ("010000000000000000000000000000000000000000000000", 24),
    ("020000000000000000000000000000000000000000000000", 24),
    ("0100ffffffffffffffffffffffffffffffffffffffffffff", 24),
    ("010100000000000000000000000000000000000000000000", 24),
    ("020100000000000000000000000000000000000000000000", 24),
    ("000000000000000000000000000000000000000000000000", 24),
    ("030000000000000000000000000000000000000000000000", 24),
    ("0000ffffffffffffffffffffffffffffffffffffffffffff", 24),
];

#[test]
fn accepted(rt: HostRuntime) -> Result<(), Fail> {
    let text =
        "# a machine\r\nmachine 2 4 2 4 4 8\r\n\r\npage 7 movable 23\r\npage 0 unmovable 7\n3 write 7 0 18446744073709551615 0\n1 read 0 1 1\n3 read 6 0 2";
    let scenario = read_scenario(rt.alloc(), text.as_bytes())?;
    assert_eq!(rt;
        (scenario.geometry.cells(), scenario.geometry.pages()),
        (2, 8)
    );
    assert_eq!(rt;
        (scenario.geometry.plugged(), scenario.geometry.managed()),
        (4, 4)
    );
    assert_eq!(rt; scenario.online, None);
    let start = [
        start_page(7, Kind::Movable, 23),
        start_page(0, Kind::Unmovable, 7),
    ];
    assert_eq!(rt; scenario.start.as_slice(), start.as_slice());
    assert!(rt; scenario.fails.is_empty());
    let mut values = Cells::new();
    values.push(u64::MAX);
    values.push(0);
    let write = Call::Write { first: 0, values };
    let read = Call::Read { first: 0, count: 2 };
    let first = Call::Read { first: 1, count: 1 };
    assert_eq!(rt; scenario.owners.len(), 3);
    let scripts = scenario.owners.as_slice();
    assert_eq!(rt; scripts[0].as_slice(), [(PageNo(0), first)].as_slice());
    assert!(rt; scripts[1].is_empty());
    let third = [(PageNo(7), write), (PageNo(6), read)];
    assert_eq!(rt; scripts[2].as_slice(), third.as_slice());
    Ok(())
}

#[test]
fn eight_values_are_written(rt: HostRuntime) -> Result<(), Fail> {
    let text = "machine 16 4 2 4 4 8\n1 write 5 8 1 2 3 4 5 6 7 18446744073709551615\n1 read 5 0 8";
    let scenario = read_scenario(rt.alloc(), text.as_bytes())?;
    let values = Cells::from_slice(&[1, 2, 3, 4, 5, 6, 7, u64::MAX]);
    let script = [
        (PageNo(5), Call::Write { first: 8, values }),
        (PageNo(5), Call::Read { first: 0, count: 8 }),
    ];
    assert_eq!(rt; scenario.owners.len(), 1);
    assert_eq!(rt; scenario.owners.as_slice()[0].as_slice(), script.as_slice());
    Ok(())
}

// The machine has 65,536 frames, of which the boot blocks have the lower half.
#[test]
fn pages_lie_in_high_frames(rt: HostRuntime) -> Result<(), Fail> {
    let text =
        "#\r\r\nmachine 1 512 64 64 64 8\npage 3 movable 65535\npage 0 movable 65534\npage 1 unmovable 32767\n";
    let scenario = read_scenario(rt.alloc(), text.as_bytes())?;
    let start = [
        start_page(3, Kind::Movable, 65_535),
        start_page(0, Kind::Movable, 65_534),
        start_page(1, Kind::Unmovable, 32_767),
    ];
    assert_eq!(rt; scenario.start.as_slice(), start.as_slice());
    Ok(())
}

#[test]
fn online_counts_for_the_pages_behind_it(rt: HostRuntime) -> Result<(), Fail> {
    let text =
        "machine 2 4 2 4 4 8\npage 0 movable 8\npage 1 unmovable 7\nonline kernel\npage 2 unmovable 9\npage 3 movable 0\n";
    let scenario = read_scenario(rt.alloc(), text.as_bytes())?;
    assert_eq!(rt; scenario.online, Some(Kind::Unmovable));
    let start = [
        start_page(0, Kind::Movable, 8),
        start_page(1, Kind::Unmovable, 7),
        start_page(2, Kind::Unmovable, 9),
        start_page(3, Kind::Movable, 0),
    ];
    assert_eq!(rt; scenario.start.as_slice(), start.as_slice());
    Ok(())
}

#[test]
fn fails_are_kept_in_order(rt: HostRuntime) -> Result<(), Fail> {
    let text = "machine 2 4 2 4 4 8\nfail 1\nfail 1\n1 pin 0\nfail 65536\nhost config\nfail 7";
    let scenario = read_scenario(rt.alloc(), text.as_bytes())?;
    assert_eq!(rt; scenario.fails.as_slice(), [1, 1, 65_536, 7].as_slice());
    assert_eq!(rt; scenario.owners.len(), 1);
    assert_eq!(rt; scenario.host.len(), 1);
    Ok(())
}

#[test]
fn allocs_and_frees_are_read(rt: HostRuntime) -> Result<(), Fail> {
    let text =
        "machine 2 4 2 4 4 8\n1 alloc 0 movable\nonline movable\n1 x2 free 0\n1 alloc 7 unmovable";
    let scenario = read_scenario(rt.alloc(), text.as_bytes())?;
    assert_eq!(rt; scenario.online, Some(Kind::Movable));
    assert!(rt; scenario.start.is_empty());
    let movable = Call::Alloc {
        kind: Kind::Movable,
    };
    let unmovable = Call::Alloc {
        kind: Kind::Unmovable,
    };
    let script = [
        (PageNo(0), movable),
        (PageNo(0), Call::Free),
        (PageNo(0), Call::Free),
        (PageNo(7), unmovable),
    ];
    assert_eq!(rt; scenario.owners.len(), 1);
    assert_eq!(rt; scenario.owners.as_slice()[0].as_slice(), script.as_slice());
    Ok(())
}

fn turns(actor: Actor, count: u32) -> Turn {
    Turn { actor, count }
}

fn add() -> (PageNo, Call) {
    (PageNo(7), Call::Add { cell: 1, value: 5 })
}

#[test]
fn turns_and_counts_are_kept(rt: HostRuntime) -> Result<(), Fail> {
    let text =
        "machine 2 4 2 4 4 8\nturns 1 2*3 h*16777200\n2 x3 add 7 1 5\ndraw 18446744073709551615 0\n2 unpin 0\nturns s*12\n1 x1 pin 6\n";
    let scenario = read_scenario(rt.alloc(), text.as_bytes())?;
    let named = [
        turns(Actor::Owner(1), 1),
        turns(Actor::Owner(2), 3),
        turns(Actor::Host, 16_777_200),
        turns(Actor::Scanner, 12),
    ];
    assert_eq!(rt; scenario.named.as_slice(), named.as_slice());
    let drawn = Drawn {
        number: u64::MAX,
        count: 0,
    };
    assert_eq!(rt; scenario.drawn, Some(drawn));
    let second = [add(), add(), add(), (PageNo(0), Call::Unpin)];
    assert_eq!(rt; scenario.owners.len(), 2);
    let scripts = scenario.owners.as_slice();
    assert_eq!(rt; scripts[0].as_slice(), [(PageNo(6), Call::Pin)].as_slice());
    assert_eq!(rt; scripts[1].as_slice(), second.as_slice());
    Ok(())
}

#[test]
fn the_most_turns_and_calls_are_taken(rt: HostRuntime) -> Result<(), Fail> {
    let text =
        "machine 2 4 2 4 4 8\nturns h*16777215 16\ndraw 0 16777216\n16 x1048575 pin 7\n1 pin 0\n";
    let scenario = read_scenario(rt.alloc(), text.as_bytes())?;
    assert_eq!(rt; scenario.named.len(), 2);
    assert_eq!(rt; scenario.drawn.map(|d| d.count), Some(1 << 24));
    assert_eq!(rt; scenario.owners.len(), 16);
    assert_eq!(rt; scenario.owners.as_slice()[15].len(), 1_048_575);
    Ok(())
}

#[test]
fn commands_are_kept(rt: HostRuntime) -> Result<(), Fail> {
    let text =
        "machine 2 4 2 4 4 8\nhost request 0a\n1 pin 0\nhost config\nhost request 00ff9f\nhost config";
    let scenario = read_scenario(rt.alloc(), text.as_bytes())?;
    let commands = [
        HostCommand::Request {
            bytes: RequestBytes::from_slice(&[10]),
        },
        HostCommand::Config,
        HostCommand::Request {
            bytes: RequestBytes::from_slice(&[0, 255, 159]),
        },
        HostCommand::Config,
    ];
    assert_eq!(rt; scenario.host.as_slice(), commands.as_slice());
    assert_eq!(rt; scenario.owners.len(), 1);
    Ok(())
}

/// Each of these requests is read, and its bytes are those of its digits.
fn are_kept(rt: &impl Abort, alloc: Global, requests: &[(&str, usize)]) -> Result<(), Fail> {
    for (digits, count) in requests {
        let text = format!(in alloc; "{MACHINE}host request {digits}")?;
        let scenario = read_scenario(alloc, text.as_bytes())?;
        assert_eq!(rt; scenario.host.len(), 1);
        let HostCommand::Request { bytes } = scenario.host.as_slice()[0] else {
            panic!(rt; "{digits} is no request");
        };
        assert_eq!(rt; bytes.as_slice().len(), *count);
        let again = hex::encode(alloc, bytes.as_slice())?;
        assert_eq!(rt; again.as_str(), *digits);
    }
    Ok(())
}

#[test]
fn requests_are_kept(rt: HostRuntime) -> Result<(), Fail> {
    are_kept(&rt, rt.alloc(), &REQUESTS)
}

#[test]
fn the_most_commands_are_taken(rt: HostRuntime) -> Result<(), Fail> {
    let mut text = format!(in rt.alloc(); "{MACHINE}")?;
    for _ in 0..256 {
        text.push_str("host config\n")?;
    }
    let scenario = read_scenario(rt.alloc(), text.as_bytes())?;
    assert_eq!(rt; scenario.host.len(), 256);
    text.push_str("host request 00\n")?;
    let fault = ScenarioFault {
        line: 258,
        cause: LineCause::Count,
    };
    let result = read_scenario(rt.alloc(), text.as_bytes()).err();
    assert_eq!(rt; result, Some(ScenarioError::Fault(fault)));
    Ok(())
}
