//! Requests that unplug blocks, by texts counted by hand: the blocks are emptied while owners go on, or stay, for a cause
//! that was met.

use crate::replays::{replays, small_replays};
use std::test::Fail;

#[test]
fn an_unplugged_block_is_emptied_and_plugged_again(rt: HostRuntime) -> Result<(), Fail> {
    let lines =
        b"page 0 movable 20\n1 write 0 1 9\nhost request 010000000000000040010000000000000100000000000000\nhost request 000000000000000040010000000000000100000000000000\nturns 1*5\n";
    let text =
        b"call 0 1 0 write 0 1 9 = ok\nhost 0 request 010000000000000040010000000000000100000000000000 = 00000000000000000000\ntried 3 emptied\nhost 1 request 000000000000000040010000000000000100000000000000 = 00000000000000000000\nspace 0 isolate 3\nspace 1 lease 0 0 move 0\nspace 2 return 0 20\nspace 3 offline 3\nspace 4 online 3\ndevice 0 request 010000000000000040010000000000000100000000000000 00000000000000000000\ndevice 1 request 000000000000000040010000000000000100000000000000 00000000000000000000\nplugged 0 1 2 3\npage 0 movable 0 1:9\nend\n";
    small_replays(&rt, rt.alloc(), lines, 0, text)
}

/// Page 0 is moved behind a read that holds it in the first round, and page 1 in that round.
#[test]
fn pages_are_moved_beside_a_reader(rt: HostRuntime) -> Result<(), Fail> {
    let lines =
        b"page 0 movable 20\npage 1 movable 22\n1 read 0 0 2\n1 write 1 0 7\nhost request 010000000000000040010000000000000100000000000000\nturns 1 h*4 1*4 h*60\n";
    let text =
        b"call 0 1 0 read 0 0 2 = 0 0\ncall 1 1 1 write 1 0 7 = ok\nhost 0 request 010000000000000040010000000000000100000000000000 = 00000000000000000000\ntried 3 emptied\nspace 0 isolate 3\nspace 1 lease 0 0 move 0\nspace 2 return 0 0\nspace 3 lease 0 0 move 1\nspace 4 return 0 22\nspace 5 lease 0 1 move 0\nspace 6 return 0 20\nspace 7 offline 3\ndevice 0 request 010000000000000040010000000000000100000000000000 00000000000000000000\nplugged 0 1 2\npage 0 movable 0\npage 1 movable 0 0:7\nend\n";
    small_replays(&rt, rt.alloc(), lines, 0, text)
}

#[test]
fn a_page_that_is_busy_in_five_rounds_stays(rt: HostRuntime) -> Result<(), Fail> {
    let lines =
        b"page 0 movable 20\n1 write 0 0 1\nhost request 010000000000000040010000000000000100000000000000\nturns 1 h*22\n";
    let text =
        b"call 0 1 0 write 0 0 1 = ok\nhost 0 request 010000000000000040010000000000000100000000000000 = unsent\ntried 3 busy 20 0 20485 20485 20485 20485 20485\nspace 0 isolate 3\nspace 1 lease 0 0 move 0\nspace 2 return 0 0\nspace 3 lease 0 0 move 0\nspace 4 return 0 0\nspace 5 lease 0 0 move 0\nspace 6 return 0 0\nspace 7 lease 0 0 move 0\nspace 8 return 0 0\nspace 9 lease 0 0 move 0\nspace 10 return 0 0\nspace 11 undo 3\nplugged 0 1 2 3\npage 0 movable 0 0:1\nend\n";
    small_replays(&rt, rt.alloc(), lines, 0, text)
}

/// Owner 1 has freed page 0, and its frame is still out: in each round the page's word maps no frame.
#[test]
fn a_freed_page_whose_frame_is_still_out_is_busy(rt: HostRuntime) -> Result<(), Fail> {
    let lines =
        b"page 0 movable 20\n1 free 0\nhost request 010000000000000040010000000000000100000000000000\nturns 1*4 h*27\n";
    let text =
        b"call 0 1 0 free 0 = ok\nhost 0 request 010000000000000040010000000000000100000000000000 = unsent\ntried 3 busy 20 0 1073741824 1073741824 1073741824 1073741824 1073741824\nspace 0 isolate 3\nspace 1 lease 0 0 move 0\nspace 2 return 0 0\nspace 3 lease 0 0 move 0\nspace 4 return 0 0\nspace 5 lease 0 0 move 0\nspace 6 return 0 0\nspace 7 lease 0 0 move 0\nspace 8 return 0 0\nspace 9 lease 0 0 move 0\nspace 10 return 0 0\nspace 11 undo 3\nspace 12 return 1 20\nplugged 0 1 2 3\nend\n";
    small_replays(&rt, rt.alloc(), lines, 0, text)
}

#[test]
fn a_pinned_page_stays(rt: HostRuntime) -> Result<(), Fail> {
    let lines =
        b"page 0 movable 20\n1 pin 0\nhost request 010000000000000040010000000000000100000000000000\nturns 1*3\n";
    let text =
        b"call 0 1 0 pin 0 = ok\nhost 0 request 010000000000000040010000000000000100000000000000 = unsent\ntried 3 pinned 20 0 1073762324\nspace 0 isolate 3\nspace 1 lease 0 0 move 0\nspace 2 return 0 0\nspace 3 undo 3\nplugged 0 1 2 3\npage 0 movable 1\nend\n";
    small_replays(&rt, rt.alloc(), lines, 0, text)
}

/// The block above was emptied, and is put online again.
#[test]
fn an_unmovable_page_refuses_the_isolation(rt: HostRuntime) -> Result<(), Fail> {
    let lines =
        b"online kernel\npage 7 unmovable 16\npage 0 movable 20\nhost request 010000000000000000010000000000000200000000000000\n";
    let text =
        b"host 0 request 010000000000000000010000000000000200000000000000 = unsent\ntried 3 emptied\ntried 2 unmovable 16 7\nspace 0 isolate 3\nspace 1 lease 0 0 move 0\nspace 2 return 0 20\nspace 3 offline 3\nspace 4 online 3\nplugged 0 1 2 3\npage 0 movable 0\npage 7 unmovable 0\nend\n";
    small_replays(&rt, rt.alloc(), lines, 0, text)
}

#[test]
fn a_page_without_a_target_stays(rt: HostRuntime) -> Result<(), Fail> {
    let input =
        b"machine 1 2 1 1 1 4\npage 0 movable 0\npage 1 movable 1\npage 2 movable 2\n1 alloc 3 movable\nhost request 020000000000000000000000000000000000000000000000\nturns h*2 1*4\n";
    let text =
        b"call 0 1 0 alloc 3 movable = noframe 1\nhost 0 request 020000000000000000000000000000000000000000000000 = unsent\ntried 0 no-target 2 2 1\nspace 0 isolate 0\nspace 1 undo 0\nplugged 0\npage 0 movable 0\npage 1 movable 0\npage 2 movable 0\nend\n";
    replays(&rt, rt.alloc(), input, 0, text)
}

#[test]
fn a_block_comes_online_again_where_the_backing_fails(rt: HostRuntime) -> Result<(), Fail> {
    let lines = b"fail 1\nhost request 010000000000000040010000000000000100000000000000\n";
    let text =
        b"host 0 request 010000000000000040010000000000000100000000000000 = 02000000000000000000\ntried 3 emptied\nspace 0 isolate 3\nspace 1 offline 3\nspace 2 online 3\ndevice 0 request 010000000000000040010000000000000100000000000000 02000000000000000000\nplugged 0 1 2 3\nend\n";
    small_replays(&rt, rt.alloc(), lines, 0, text)
}

/// A request for the state makes no call of the backing, and a call that is listed twice fails once.
#[test]
fn calls_of_the_backing_are_those_of_requests_that_unplug(rt: HostRuntime) -> Result<(), Fail> {
    let lines =
        b"fail 1\nfail 1\nhost request 030000000000000080000000000000000400000000000000\nhost request 010000000000000040010000000000000100000000000000\nhost request 010000000000000040010000000000000100000000000000\n";
    let text =
        b"host 0 request 030000000000000080000000000000000400000000000000 = 00000000000000000000\nhost 1 request 010000000000000040010000000000000100000000000000 = 02000000000000000000\ntried 3 emptied\nhost 2 request 010000000000000040010000000000000100000000000000 = 00000000000000000000\ntried 3 emptied\nspace 0 isolate 3\nspace 1 offline 3\nspace 2 online 3\nspace 3 isolate 3\nspace 4 offline 3\ndevice 0 request 030000000000000080000000000000000400000000000000 00000000000000000000\ndevice 1 request 010000000000000040010000000000000100000000000000 02000000000000000000\ndevice 2 request 010000000000000040010000000000000100000000000000 00000000000000000000\nplugged 0 1 2\nend\n";
    small_replays(&rt, rt.alloc(), lines, 0, text)
}

/// Block 1 is unplugged first. The second call of the backing fails, and the third doesn't.
#[test]
fn all_blocks_with_a_hole_come_online_again_where_the_backing_fails(
    rt: HostRuntime,
) -> Result<(), Fail> {
    let lines =
        b"fail 2\nhost request 0100000000000000c0000000000000000100000000000000\nhost request 020000000000000000000000000000000000000000000000\nhost request 020000000000000000000000000000000000000000000000\n";
    let text =
        b"host 0 request 0100000000000000c0000000000000000100000000000000 = 00000000000000000000\ntried 1 emptied\nhost 1 request 020000000000000000000000000000000000000000000000 = 02000000000000000000\ntried 3 emptied\ntried 2 emptied\ntried 0 emptied\nhost 2 request 020000000000000000000000000000000000000000000000 = 00000000000000000000\ntried 3 emptied\ntried 2 emptied\ntried 0 emptied\nspace 0 isolate 1\nspace 1 offline 1\nspace 2 isolate 3\nspace 3 offline 3\nspace 4 isolate 2\nspace 5 offline 2\nspace 6 isolate 0\nspace 7 offline 0\nspace 8 online 0\nspace 9 online 2\nspace 10 online 3\nspace 11 isolate 3\nspace 12 offline 3\nspace 13 isolate 2\nspace 14 offline 2\nspace 15 isolate 0\nspace 16 offline 0\ndevice 0 request 0100000000000000c0000000000000000100000000000000 00000000000000000000\ndevice 1 request 020000000000000000000000000000000000000000000000 02000000000000000000\ndevice 2 request 020000000000000000000000000000000000000000000000 00000000000000000000\nplugged\nend\n";
    small_replays(&rt, rt.alloc(), lines, 0, text)
}

#[test]
fn unplugging_an_unplugged_block_is_an_error(rt: HostRuntime) -> Result<(), Fail> {
    let lines =
        b"host request 010000000000000080000000000000000100000000000000\nhost request 010000000000000080000000000000000100000000000000\n";
    let text =
        b"host 0 request 010000000000000080000000000000000100000000000000 = 00000000000000000000\ntried 0 emptied\nhost 1 request 010000000000000080000000000000000100000000000000 = 03000000000000000000\nspace 0 isolate 0\nspace 1 offline 0\ndevice 0 request 010000000000000080000000000000000100000000000000 00000000000000000000\ndevice 1 request 010000000000000080000000000000000100000000000000 03000000000000000000\nplugged 1 2 3\nend\n";
    small_replays(&rt, rt.alloc(), lines, 0, text)
}

#[test]
fn all_blocks_are_unplugged_where_some_are_not_plugged(rt: HostRuntime) -> Result<(), Fail> {
    let input =
        b"machine 2 4 2 4 2 8\nhost request 020000000000000000000000000000000000000000000000\nhost request 020000000000000000000000000000000000000000000000\n";
    let text =
        b"host 0 request 020000000000000000000000000000000000000000000000 = 00000000000000000000\ntried 1 emptied\ntried 0 emptied\nhost 1 request 020000000000000000000000000000000000000000000000 = 00000000000000000000\nspace 0 isolate 1\nspace 1 offline 1\nspace 2 isolate 0\nspace 3 offline 0\ndevice 0 request 020000000000000000000000000000000000000000000000 00000000000000000000\ndevice 1 request 020000000000000000000000000000000000000000000000 00000000000000000000\nplugged\nend\n";
    replays(&rt, rt.alloc(), input, 0, text)
}
