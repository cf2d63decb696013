//! What the top call writes of scenarios that it replays.

use crate::replays::{replays, small_replays};
use std::test::Fail;

#[test]
fn a_write_is_read(rt: HostRuntime) -> Result<(), Fail> {
    let text =
        b"call 0 1 0 write 0 0 7 = ok\ncall 1 1 1 read 0 0 1 = 7\nplugged 0 1 2 3\npage 0 movable 0 0:7\nend\n";
    small_replays(
        &rt,
        rt.alloc(),
        b"page 0 movable 0\n1 write 0 0 7\n1 read 0 0 1\n",
        0,
        text,
    )
}

#[test]
fn a_machine_alone_has_its_plugged_blocks(rt: HostRuntime) -> Result<(), Fail> {
    replays(
        &rt,
        rt.alloc(),
        b"machine 2 4 2 4 2 8\n",
        0,
        b"plugged 0 1\nend\n",
    )
}

#[test]
fn two_owners_read_and_write(rt: HostRuntime) -> Result<(), Fail> {
    let lines =
        b"page 0 movable 0\npage 1 unmovable 3\n1 write 0 0 7\n2 read 0 0 2\n1 read 1 1 1\n2 write 1 1 9\n1 read 1 0 2\n";
    let text =
        b"call 0 1 0 write 0 0 7 = ok\ncall 1 2 0 read 0 0 2 = 7 0\ncall 2 1 1 read 1 1 1 = 0\ncall 3 1 2 read 1 0 2 = 0 0\ncall 4 2 1 write 1 1 9 = ok\nplugged 0 1 2 3\npage 0 movable 0 0:7\npage 1 unmovable 0 1:9\nend\n";
    small_replays(&rt, rt.alloc(), lines, 0, text)
}

/// Scenarios of one or two pages, and what they leave, counted turn by turn from the steps of each call.
const SCHEDULES: [(&[u8], &[u8]); 8] = [
    // the write holds the page: three takes of the read find it taken
    (
        b"page 0 movable 0\n1 write 0 0 7\n2 read 0 0 1\nturns 1 2*3 1*4\n",
        b"call 0 1 0 write 0 0 7 = ok\ncall 1 2 0 read 0 0 1 = 7\nplugged 0 1 2 3\npage 0 movable 0 0:7\nend\n",
    ),
    // the read holds the page
    (
        b"page 0 movable 0\n1 write 0 0 7\n2 read 0 0 1\nturns 2 1*3 2*3\n",
        b"call 0 2 0 read 0 0 1 = 0\ncall 1 1 0 write 0 0 7 = ok\nplugged 0 1 2 3\npage 0 movable 0 0:7\nend\n",
    ),
    // turns of the host, of the scanner and of an owner without a script do nothing
    (
        b"page 0 movable 0\n1 write 0 0 7\n2 read 0 0 1\nturns 16*5 h s*2\nturns 2 1*3 h*9 2*3\n",
        b"call 0 2 0 read 0 0 1 = 0\ncall 1 1 0 write 0 0 7 = ok\nplugged 0 1 2 3\npage 0 movable 0 0:7\nend\n",
    ),
    // tickets are drawn in the other order than calls end
    (
        b"page 0 movable 0\npage 1 movable 1\n1 write 0 0 7\n2 write 1 0 9\nturns 1 2*2 1*4\n",
        b"call 0 2 0 write 1 0 9 = ok\ncall 1 1 0 write 0 0 7 = ok\nplugged 0 1 2 3\npage 0 movable 0 0:7\npage 1 movable 0 0:9\nend\n",
    ),
    // the second add begins between the load and the store of the first
    (
        b"page 0 movable 0\n1 add 0 0 5\n2 add 0 0 5\nturns 1*3 2*2 1*3\n",
        b"call 0 1 0 add 0 0 5 = 0\ncall 1 2 0 add 0 0 5 = 5\nplugged 0 1 2 3\npage 0 movable 0 0:10\nend\n",
    ),
    // in rounds: the unpin takes the page in the third, the second pin in the sixth
    (
        b"page 0 movable 0\n1 x2 pin 0\n2 unpin 0\n",
        b"call 0 1 0 pin 0 = ok\ncall 1 2 0 unpin 0 = ok\ncall 2 1 1 pin 0 = ok\nplugged 0 1 2 3\npage 0 movable 1\nend\n",
    ),
    // calls on a page that isn't mapped, and an unpin without a pin
    (
        b"page 0 movable 0\n1 add 1 0 5\n1 unpin 0\n2 write 1 0 1 2\n2 pin 1\nturns 2*3\n",
        b"call 0 2 0 write 1 0 1 2 = notmapped\ncall 1 1 0 add 1 0 5 = notmapped\ncall 2 2 1 pin 1 = notmapped\ncall 3 1 1 unpin 0 = notpinned\nplugged 0 1 2 3\npage 0 movable 0\nend\n",
    ),
    // a sum goes round at 2^64
    (
        b"page 0 movable 0\n1 x2 add 0 1 18446744073709551615\n",
        b"call 0 1 0 add 0 1 18446744073709551615 = 0\ncall 1 1 1 add 0 1 18446744073709551615 = 18446744073709551615\nplugged 0 1 2 3\npage 0 movable 0 1:18446744073709551614\nend\n",
    ),
];

#[test]
fn schedules_leave_what_their_steps_leave(rt: HostRuntime) -> Result<(), Fail> {
    for (lines, text) in &SCHEDULES {
        small_replays(&rt, rt.alloc(), lines, 0, text)?;
    }
    Ok(())
}

/// Commands of the host, and what they leave.
const COMMANDS: [(&[u8], &[u8]); 5] = [
    // all 4 blocks of 64 bytes are plugged, and the region begins at 128
    (
        b"machine 2 4 2 4 4 8\nhost config\n",
        b"host 0 config = 4000000000000000000000000000000080000000000000000001000000000000000100000000000000010000000000000001000000000000\nplugged 0 1 2 3\nend\n",
    ),
    // 3 of 4 blocks are plugged and requested: a PLUG above that, an address inside a block, no block, a range past the
    // end, 23 bytes, type 4, and the states of all blocks, of the plugged ones and of the other
    (
        b"machine 2 4 2 4 3 8\nhost request 000000000000000040010000000000000100000000000000\nhost request 000000000000000081000000000000000100000000000000\nhost request 000000000000000080000000000000000000000000000000\nhost request 030000000000000040010000000000000200000000000000\nhost request 0000000000000000000000000000000000000000000000\nhost request 040000000000000080000000000000000100000000000000\nhost request 030000000000000080000000000000000400000000000000\nhost request 030000000000000080000000000000000300000000000000\nhost request 030000000000000040010000000000000100000000000000\n",
        b"host 0 request 000000000000000040010000000000000100000000000000 = 01000000000000000000\nhost 1 request 000000000000000081000000000000000100000000000000 = 03000000000000000000\nhost 2 request 000000000000000080000000000000000000000000000000 = 03000000000000000000\nhost 3 request 030000000000000040010000000000000200000000000000 = 03000000000000000000\nhost 4 request 0000000000000000000000000000000000000000000000 = 03000000000000000000\nhost 5 request 040000000000000080000000000000000100000000000000 = 03000000000000000000\nhost 6 request 030000000000000080000000000000000400000000000000 = 00000000000000000200\nhost 7 request 030000000000000080000000000000000300000000000000 = 00000000000000000000\nhost 8 request 030000000000000040010000000000000100000000000000 = 00000000000000000100\ndevice 0 request 000000000000000040010000000000000100000000000000 01000000000000000000\ndevice 1 request 000000000000000081000000000000000100000000000000 03000000000000000000\ndevice 2 request 000000000000000080000000000000000000000000000000 03000000000000000000\ndevice 3 request 030000000000000040010000000000000200000000000000 03000000000000000000\ndevice 4 request 0000000000000000000000000000000000000000000000 03000000000000000000\ndevice 5 request 040000000000000080000000000000000100000000000000 03000000000000000000\ndevice 6 request 030000000000000080000000000000000400000000000000 00000000000000000200\ndevice 7 request 030000000000000080000000000000000300000000000000 00000000000000000000\ndevice 8 request 030000000000000040010000000000000100000000000000 00000000000000000100\nplugged 0 1 2\nend\n",
    ),
    // the last address of 64 bits, below the region, a PLUG of a plugged block above the requested size, and 1 byte
    (
        b"machine 2 4 2 4 3 8\nhost request 0000000000000000ffffffffffffffff0100000000000000\nhost request 000000000000000040000000000000000100000000000000\nhost request 000000000000000080000000000000000100000000000000\nhost request ff\n",
        b"host 0 request 0000000000000000ffffffffffffffff0100000000000000 = 03000000000000000000\nhost 1 request 000000000000000040000000000000000100000000000000 = 03000000000000000000\nhost 2 request 000000000000000080000000000000000100000000000000 = 01000000000000000000\nhost 3 request ff = 03000000000000000000\ndevice 0 request 0000000000000000ffffffffffffffff0100000000000000 03000000000000000000\ndevice 1 request 000000000000000040000000000000000100000000000000 03000000000000000000\ndevice 2 request 000000000000000080000000000000000100000000000000 01000000000000000000\ndevice 3 request ff 03000000000000000000\nplugged 0 1 2\nend\n",
    ),
    // no block is plugged at the start
    (
        b"machine 2 4 2 4 0 8\nhost request 030000000000000080000000000000000400000000000000\n",
        b"host 0 request 030000000000000080000000000000000400000000000000 = 00000000000000000100\ndevice 0 request 030000000000000080000000000000000400000000000000 00000000000000000100\nplugged\nend\n",
    ),
    // the host's turns are among those of an owner, and the sections stand in their order
    (
        b"machine 2 4 2 4 3 8\n1 alloc 0 movable\nhost config\nhost request 030000000000000040010000000000000100000000000000\nhost config\nturns h 1*3 h*2 1*20 h*5\n",
        b"call 0 1 0 alloc 0 movable = ok\nhost 0 config = 40000000000000000000000000000000800000000000000000010000000000000001000000000000c000000000000000c000000000000000\nhost 1 request 030000000000000040010000000000000100000000000000 = 00000000000000000100\nhost 2 config = 40000000000000000000000000000000800000000000000000010000000000000001000000000000c000000000000000c000000000000000\nspace 0 lease 1 0 alloc 0 movable\ndevice 0 request 030000000000000040010000000000000100000000000000 00000000000000000100\nplugged 0 1 2\npage 0 movable 0\nend\n",
    ),
];

#[test]
fn commands_of_the_host_are_answered(rt: HostRuntime) -> Result<(), Fail> {
    for (input, text) in &COMMANDS {
        replays(&rt, rt.alloc(), input, 0, text)?;
    }
    Ok(())
}

/// Scenarios with allocs and frees, and what they leave, by journals counted by hand.
const LEASES: [(&[u8], &[u8]); 9] = [
    // the freed frame is in the cache of owner 1, and owner 2 takes the next run
    (
        b"machine 2 4 2 4 4 8\n1 alloc 0 movable\n1 write 0 0 5\n1 free 0\n2 alloc 0 movable\n2 read 0 0 2\nturns 1*18\n",
        b"call 0 1 0 alloc 0 movable = ok\ncall 1 1 1 write 0 0 5 = ok\ncall 2 1 2 free 0 = ok\ncall 3 2 0 alloc 0 movable = ok\ncall 4 2 1 read 0 0 2 = 0 0\nspace 0 lease 1 0 alloc 0 movable\nspace 1 return 1 0\nspace 2 lease 2 4 alloc 0 movable\nplugged 0 1 2 3\npage 0 movable 0\nend\n",
    ),
    // every frame is out
    (
        b"machine 1 2 1 1 1 5\npage 0 movable 0\npage 1 movable 1\npage 2 movable 2\npage 3 movable 3\n1 alloc 4 movable\n",
        b"call 0 1 0 alloc 4 movable = noframe 0\nplugged 0\npage 0 movable 0\npage 1 movable 0\npage 2 movable 0\npage 3 movable 0\nend\n",
    ),
    // a page that is mapped is not allocated: its frame goes back
    (
        b"machine 2 4 2 4 4 8\npage 0 movable 0\n1 alloc 0 movable\n1 x2 add 0 1 18446744073709551615\n",
        b"call 0 1 0 alloc 0 movable = mapped\ncall 1 1 1 add 0 1 18446744073709551615 = 0\ncall 2 1 2 add 0 1 18446744073709551615 = 18446744073709551615\nspace 0 lease 1 4 alloc 0 movable\nspace 1 return 1 4\nplugged 0 1 2 3\npage 0 movable 0 1:18446744073709551614\nend\n",
    ),
    // a mapped page without a frame left is mapped, and a free with a pin gives nothing back
    (
        b"machine 1 1 1 1 1 3\npage 0 movable 0\npage 1 movable 1\n1 alloc 0 movable\n1 pin 1\n1 free 1\n1 unpin 1\n1 free 1\n1 alloc 2 movable\n1 alloc 1 movable\n",
        b"call 0 1 0 alloc 0 movable = mapped\ncall 1 1 1 pin 1 = ok\ncall 2 1 2 free 1 = pinned\ncall 3 1 3 unpin 1 = ok\ncall 4 1 4 free 1 = ok\ncall 5 1 5 alloc 2 movable = ok\ncall 6 1 6 alloc 1 movable = noframe 2\nspace 0 return 1 1\nspace 1 lease 1 1 alloc 2 movable\nplugged 0\npage 0 movable 0\npage 2 movable 0\nend\n",
    ),
    // runs of order 2, 1 and 0, the smallest that fits first, and the caches behind them
    (
        b"machine 1 4 1 2 2 8\npage 0 movable 0\npage 1 movable 4\npage 2 movable 5\n1 alloc 3 movable\n2 alloc 4 movable\n3 alloc 5 movable\nturns 1*7 2*7 3*7\n",
        b"call 0 1 0 alloc 3 movable = ok\ncall 1 2 0 alloc 4 movable = ok\ncall 2 3 0 alloc 5 movable = ok\nspace 0 lease 1 8 alloc 3 movable\nspace 1 lease 2 2 alloc 4 movable\nspace 2 lease 3 6 alloc 5 movable\nplugged 0 1\npage 0 movable 0\npage 1 movable 0\npage 2 movable 0\npage 3 movable 0\npage 4 movable 0\npage 5 movable 0\nend\n",
    ),
    // no run is left: the caches are drained, and the lease is tried once more
    (
        b"machine 1 4 1 1 1 8\npage 0 movable 0\npage 1 movable 1\npage 2 movable 2\npage 3 movable 3\n1 alloc 4 movable\n2 alloc 5 movable\nturns 1*7 2*7\n",
        b"call 0 1 0 alloc 4 movable = ok\ncall 1 2 0 alloc 5 movable = ok\nspace 0 lease 1 4 alloc 4 movable\nspace 1 lease 2 6 alloc 5 movable\nplugged 0\npage 0 movable 0\npage 1 movable 0\npage 2 movable 0\npage 3 movable 0\npage 4 movable 0\npage 5 movable 0\nend\n",
    ),
    // unmovable pages get frames of boot blocks alone, whatever else is free
    (
        b"machine 1 2 1 1 1 8\npage 0 unmovable 0\n1 alloc 1 unmovable\n1 alloc 2 unmovable\n1 alloc 3 movable\n",
        b"call 0 1 0 alloc 1 unmovable = ok\ncall 1 1 1 alloc 2 unmovable = noframe 1\ncall 2 1 2 alloc 3 movable = ok\nspace 0 lease 1 1 alloc 1 unmovable\nspace 1 lease 1 2 alloc 3 movable\nplugged 0\npage 0 unmovable 0\npage 1 unmovable 0\npage 3 movable 0\nend\n",
    ),
    // but where managed blocks are online for the kernel's pages
    (
        b"machine 1 2 1 1 1 8\nonline kernel\npage 0 unmovable 0\npage 1 unmovable 2\n1 x3 alloc 2 unmovable\n1 alloc 3 unmovable\n",
        b"call 0 1 0 alloc 2 unmovable = ok\ncall 1 1 1 alloc 2 unmovable = mapped\ncall 2 1 2 alloc 2 unmovable = mapped\ncall 3 1 3 alloc 3 unmovable = ok\nspace 0 lease 1 1 alloc 2 unmovable\nspace 1 lease 1 3 alloc 2 unmovable\nspace 2 return 1 3\nspace 3 lease 1 3 alloc 2 unmovable\nspace 4 return 1 3\nspace 5 lease 1 3 alloc 3 unmovable\nplugged 0\npage 0 unmovable 0\npage 1 unmovable 0\npage 2 unmovable 0\npage 3 unmovable 0\nend\n",
    ),
    // frames of blocks that aren't plugged are leased to nobody
    (
        b"machine 1 1 1 3 1 8\npage 0 movable 0\n1 alloc 1 movable\n1 alloc 2 movable\n",
        b"call 0 1 0 alloc 1 movable = ok\ncall 1 1 1 alloc 2 movable = noframe 1\nspace 0 lease 1 1 alloc 1 movable\nplugged 0\npage 0 movable 0\npage 1 movable 0\nend\n",
    ),
];

#[test]
fn leases_and_returns_are_those_of_the_calls(rt: HostRuntime) -> Result<(), Fail> {
    for (input, text) in &LEASES {
        replays(&rt, rt.alloc(), input, 0, text)?;
    }
    Ok(())
}
