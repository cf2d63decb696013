//! Texts that are no scenarios: the line that is refused, and its cause.

use evac_model::{LineCause, ScenarioFault};
use scenario::{ScenarioError, read_scenario};
use std::alloc::Global;
use std::process::Abort;
use std::test::Fail;

const MACHINE: &str = "machine 2 4 2 4 4 8\n";

/// Texts behind the machine line, and the cause by which their first line is refused.
const SECOND_LINES: [(&str, LineCause); 43] = [
    ("1 read 0 1 2", LineCause::Range),
    ("05 read 0 0 1", LineCause::Word),
    ("18446744073709551616 read 0 0 1", LineCause::Word),
    ("0 read 0 0 1", LineCause::Range),
    ("17 read 0 0 1", LineCause::Range),
    ("frob", LineCause::Word),
    ("1 frob 0", LineCause::Word),
    ("1", LineCause::Form),
    ("1 ", LineCause::Form),
    (" 1", LineCause::Form),
    ("online", LineCause::Form),
    ("online ", LineCause::Form),
    ("online both", LineCause::Form),
    ("online unmovable", LineCause::Form),
    ("online  kernel", LineCause::Form),
    ("online kernel x", LineCause::Form),
    ("online kernel movable", LineCause::Form),
    ("onlinekernel", LineCause::Word),
    ("fail", LineCause::Form),
    ("fail ", LineCause::Form),
    ("fail 01", LineCause::Form),
    ("fail  1", LineCause::Form),
    ("fail 1 2", LineCause::Form),
    ("fail one", LineCause::Form),
    ("fail 18446744073709551616", LineCause::Form),
    ("fails 1", LineCause::Word),
    ("fail 0", LineCause::Range),
    ("fail 65537", LineCause::Range),
    ("fail 4294967297", LineCause::Range),
    ("page 0 movable", LineCause::Form),
    ("page 0 movable 0 ", LineCause::Form),
    ("page  0 movable 0", LineCause::Form),
    ("page 0 movable 00", LineCause::Form),
    ("page 0 movable 0\r", LineCause::Form),
    ("1 write 0 0", LineCause::Form),
    ("1 write 0 0 1 2 3 4 5 6 7 8 9", LineCause::Form),
    ("page 8 movable 0", LineCause::Range),
    ("page 0 movable 24", LineCause::Range),
    ("page 0 unmovable 8", LineCause::Page),
    ("machine 2 4 2 4 4 8", LineCause::Order),
    ("1 read 0 18446744073709551615 1", LineCause::Range),
    ("1 read 0 0 4294967297", LineCause::Range),
    ("1 write 0 0 18446744073709551616", LineCause::Form),
];

/// The same of calls, and of counts of them.
const CALL_LINES: [(&str, LineCause); 43] = [
    ("1 alloc", LineCause::Form),
    ("1 alloc 0", LineCause::Form),
    ("1 alloc 0 kernel", LineCause::Form),
    ("1 alloc 0 movable 0", LineCause::Form),
    ("1 alloc movable 0", LineCause::Form),
    ("1 alloc 8 movable", LineCause::Range),
    ("1 alloc 99 movable", LineCause::Range),
    ("17 alloc 0 unmovable", LineCause::Range),
    ("1 free", LineCause::Form),
    ("1 free 0 movable", LineCause::Form),
    ("1 free 8", LineCause::Range),
    ("1 pin", LineCause::Form),
    ("1 pin 0 0", LineCause::Form),
    ("1 pin 8", LineCause::Range),
    ("17 pin 0", LineCause::Range),
    ("1 unpin 0 ", LineCause::Form),
    ("1 unpin 8", LineCause::Range),
    ("1 add 0 0", LineCause::Form),
    ("1 add 0 0 1 1", LineCause::Form),
    ("1 add 0 0 18446744073709551616", LineCause::Form),
    ("1 add 8 0 1", LineCause::Range),
    ("1 add 0 2 1", LineCause::Range),
    ("1 add 0 4294967296 1", LineCause::Range),
    ("1 x5 frob", LineCause::Word),
    ("1 xyz frob 0", LineCause::Word),
    ("1 x5 x5 pin 0", LineCause::Word),
    ("1 x0 free 0", LineCause::Range),
    ("1 xyz free 0", LineCause::Form),
    ("1 xyz pin 0", LineCause::Form),
    ("1 x5", LineCause::Form),
    ("1 x5 ", LineCause::Form),
    ("1 xyz", LineCause::Form),
    ("1 x pin 0", LineCause::Form),
    ("1 x05 pin 0", LineCause::Form),
    ("1 x5  pin 0", LineCause::Form),
    ("1 x5 pin 0 0", LineCause::Form),
    ("1 x0 pin", LineCause::Form),
    ("1 x18446744073709551616 pin 0", LineCause::Form),
    ("1 x0 pin 0", LineCause::Range),
    ("1 x1048577 pin 0", LineCause::Range),
    ("1 x4294967297 pin 0", LineCause::Range),
    ("0 x5 pin 0", LineCause::Range),
    ("1 x5 pin 8", LineCause::Range),
];

/// The same of turns.
const TURN_LINES: [(&str, LineCause); 29] = [
    ("turns", LineCause::Form),
    ("turns ", LineCause::Form),
    ("turns 1 ", LineCause::Form),
    ("turns  1", LineCause::Form),
    ("turns x", LineCause::Form),
    ("turns H", LineCause::Form),
    ("turns hs", LineCause::Form),
    ("turns 01", LineCause::Form),
    ("turns 1*", LineCause::Form),
    ("turns *3", LineCause::Form),
    ("turns 1*2*3", LineCause::Form),
    ("turns 1*2*", LineCause::Form),
    ("turns h*01", LineCause::Form),
    ("turns 1*18446744073709551616", LineCause::Form),
    ("turns 17 1*0 z", LineCause::Form),
    ("turns 0", LineCause::Range),
    ("turns 17", LineCause::Range),
    ("turns 4294967297", LineCause::Range),
    ("turns 1*0", LineCause::Range),
    ("turns h s*16777217", LineCause::Range),
    ("turns s*16777216 17", LineCause::Range),
    ("turns h*16777216 s", LineCause::Count),
    ("draw", LineCause::Form),
    ("draw 1", LineCause::Form),
    ("draw 1 2 3", LineCause::Form),
    ("draw 1 -2", LineCause::Form),
    ("draw 18446744073709551616 1", LineCause::Form),
    ("draw 1 16777217", LineCause::Range),
    ("draw 1 4294967296", LineCause::Range),
];

/// The same of the host's commands.
const COMMAND_LINES: [(&str, LineCause); 33] = [
    ("host", LineCause::Form),
    ("host ", LineCause::Form),
    ("host  config", LineCause::Form),
    ("host config ", LineCause::Form),
    ("host config 1", LineCause::Form),
    ("host frob", LineCause::Word),
    ("host Config", LineCause::Word),
    ("host requests 00", LineCause::Word),
    ("hosts config", LineCause::Word),
    ("host resize 64", LineCause::Later),
    ("host resize", LineCause::Later),
    ("host join 1", LineCause::Later),
    ("host leave 1", LineCause::Later),
    ("host migrate", LineCause::Later),
    ("host cancel", LineCause::Later),
    ("host finish", LineCause::Later),
    ("host request", LineCause::Form),
    ("host request ", LineCause::Form),
    ("host request  00", LineCause::Form),
    ("host request 0", LineCause::Form),
    ("host request 010", LineCause::Form),
    ("host request 0A", LineCause::Form),
    ("host request aBcd", LineCause::Form),
    ("host request 0g", LineCause::Form),
    ("host request 0x00", LineCause::Form),
    ("host request 00 ", LineCause::Form),
    ("host request 00 01", LineCause::Form),
    (
        "host request 000102030405060708090a0b0c0d0e0f101112131415161718191a1b1c1d1e1f202122232425262728292a2b2c2d2e2f303132333435363738393a3b3c3d3e3f40",
        LineCause::Form,
    ),
    (
        "host request 000102030405060708090a0b0c0d0e0f101112131415161718191a1b1c1d1e1f202122232425262728292a2b2c2d2e2f303132333435363738393a3b3c3d3e3f0",
        LineCause::Form,
    ),
    (
        "host request 010000000000000000000000000000000000000000000000 ",
        LineCause::Form,
    ),
    (
        "host request 020000000000000000000000000000000000000000000000 00",
        LineCause::Form,
    ),
    (
        "host request 0100fffffffffffffffffffffffffffffffffffffffffffF",
        LineCause::Form,
    ),
    (
        "host request 0100000000000000000000000000000000000000000000000",
        LineCause::Form,
    ),
];

/// Whole texts, the line that is refused, and its cause.
const TEXTS: [(&str, u64, LineCause); 43] = [
    ("", 0, LineCause::Empty),
    ("# nothing\n\n#\r\n", 0, LineCause::Empty),
    ("machine 3 4 2 4 4 8\n", 1, LineCause::Range),
    ("machine 4294967298 4 2 4 4 8\n", 1, LineCause::Range),
    ("# first\npage 0 movable 0\n", 2, LineCause::Order),
    (
        "machine 2 4 2 4 4 8\npage 0 movable 0\npage 0 movable 1\n",
        3,
        LineCause::Page,
    ),
    (
        "machine 2 4 2 4 4 8\npage 0 movable 0\npage 1 movable 0\n",
        3,
        LineCause::Page,
    ),
    (
        "machine 2 4 2 4 2 8\npage 0 movable 15\npage 1 movable 16\n",
        3,
        LineCause::Page,
    ),
    (
        "machine 2 4 2 4 4 8\n\n1 read 0 0 1\n# more\n1 write 0 1 7 8\n",
        5,
        LineCause::Range,
    ),
    ("online kernel\nmachine 2 4 2 4 4 8\n", 1, LineCause::Order),
    ("online both\nmachine 2 4 2 4 4 8\n", 1, LineCause::Form),
    (
        "machine 2 4 2 4 4 8\nonline kernel\nonline kernel\n",
        3,
        LineCause::Order,
    ),
    (
        "machine 2 4 2 4 4 8\nonline movable\n# more\nonline kernel\n",
        4,
        LineCause::Order,
    ),
    (
        "machine 2 4 2 4 4 8\nonline movable\nonline both\n",
        3,
        LineCause::Form,
    ),
    (
        "machine 2 4 2 4 4 8\nonline movable\npage 0 unmovable 8\n",
        3,
        LineCause::Page,
    ),
    (
        "machine 2 4 2 4 4 8\npage 0 unmovable 8\nonline kernel\n",
        2,
        LineCause::Page,
    ),
    (
        "machine 2 4 2 4 2 8\nonline kernel\npage 0 unmovable 16\n",
        3,
        LineCause::Page,
    ),
    ("turns\n", 1, LineCause::Form),
    ("turns 0\n", 1, LineCause::Order),
    ("draw 1 16777217\n", 1, LineCause::Order),
    ("1 x0 pin 0\n", 1, LineCause::Order),
    (
        "machine 2 4 2 4 4 8\ndraw 1 0\ndraw 1\n",
        3,
        LineCause::Form,
    ),
    (
        "machine 2 4 2 4 4 8\ndraw 1 0\nturns 1\ndraw 1 16777217\n",
        4,
        LineCause::Order,
    ),
    (
        "machine 2 4 2 4 4 8\nturns h*16777215 16\nturns 1\n",
        3,
        LineCause::Count,
    ),
    (
        "machine 2 4 2 4 4 8\nturns h*16777216\nturns 1*0\n",
        3,
        LineCause::Range,
    ),
    (
        "machine 2 4 2 4 4 8\n16 x1048576 pin 7\nturns 1\n1 pin 0\n",
        4,
        LineCause::Count,
    ),
    (
        "machine 2 4 2 4 4 8\n1 x1048575 add 0 1 9\n2 x2 unpin 0\n",
        3,
        LineCause::Count,
    ),
    ("host config\nmachine 2 4 2 4 4 8\n", 1, LineCause::Order),
    // of two carriage returns before a line feed one is the line's
    ("machine 2 4 2 4 4 8\r\r\n", 1, LineCause::Form),
    ("machine 2 4 2 4 4 8\n1 pin 0\r\r\n", 2, LineCause::Form),
    ("machine 2 4 2 4 4 8\r\n\r\r\n", 2, LineCause::Word),
    // the highest frame, and the highest that a page of the kernel may have
    (
        "machine 1 512 64 64 64 8\npage 0 movable 65535\npage 1 movable 65535\n",
        3,
        LineCause::Page,
    ),
    (
        "machine 1 512 64 64 64 8\npage 0 movable 65535\npage 1 movable 65536\n",
        3,
        LineCause::Range,
    ),
    (
        "machine 1 512 64 64 64 8\npage 0 unmovable 32767\npage 1 unmovable 32768\n",
        3,
        LineCause::Page,
    ),
    ("host request 00\n", 1, LineCause::Order),
    ("host cancel\n", 1, LineCause::Later),
    ("host frob\n", 1, LineCause::Word),
    ("host request 0\n", 1, LineCause::Form),
    (
        "host request 010000000000000000000000000000000000000000000000\n",
        1,
        LineCause::Order,
    ),
    ("fail 1\nmachine 2 4 2 4 4 8\n", 1, LineCause::Order),
    ("fail 0\n", 1, LineCause::Order),
    ("fail 01\n", 1, LineCause::Form),
    (
        "machine 2 4 2 4 4 8\nfail 1\nfail 65536\nfail 65537\n",
        4,
        LineCause::Range,
    ),
];

/// Each of these texts is refused at the line behind the machine line, for its cause.
fn are_refused(rt: &impl Abort, alloc: Global, lines: &[(&str, LineCause)]) -> Result<(), Fail> {
    for (text, cause) in lines {
        let whole = format!(in alloc; "{MACHINE}{text}")?;
        let fault = ScenarioFault {
            line: 2,
            cause: *cause,
        };
        let result = read_scenario(alloc, whole.as_bytes()).err();
        assert_eq!(rt; result, Some(ScenarioError::Fault(fault)), "at {text}");
    }
    Ok(())
}

#[test]
fn second_lines(rt: HostRuntime) -> Result<(), Fail> {
    are_refused(&rt, rt.alloc(), &SECOND_LINES)
}

#[test]
fn lines_of_calls(rt: HostRuntime) -> Result<(), Fail> {
    are_refused(&rt, rt.alloc(), &CALL_LINES)
}

#[test]
fn lines_of_turns(rt: HostRuntime) -> Result<(), Fail> {
    are_refused(&rt, rt.alloc(), &TURN_LINES)
}

#[test]
fn lines_of_commands(rt: HostRuntime) -> Result<(), Fail> {
    are_refused(&rt, rt.alloc(), &COMMAND_LINES)
}

#[test]
fn whole_texts(rt: HostRuntime) {
    for (text, line, cause) in TEXTS {
        let fault = ScenarioFault { line, cause };
        let result = read_scenario(rt.alloc(), text.as_bytes()).err();
        assert_eq!(rt; result, Some(ScenarioError::Fault(fault)), "at {text}");
    }
}
