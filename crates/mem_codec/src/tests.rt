//! Byte strings made by hand, read and written.

use crate::*;

const PLUG: [u8; 24] = [
    0, 0, 0, 0, 0, 0, 0, 0, 0x40, 1, 0, 0, 0, 0, 0, 0, 1, 0, 0, 0, 0, 0, 0, 0,
];

const UNPLUG: [u8; 24] = [
    1, 0, 0, 0, 0, 0, 0, 0, 0x40, 1, 0, 0, 0, 0, 0, 0, 1, 0, 0, 0, 0, 0, 0, 0,
];

const UNPLUG_ALL: [u8; 24] = [
    2, 0, 0, 0, 0, 0, 0, 0, 0, 0, 0, 0, 0, 0, 0, 0, 0, 0, 0, 0, 0, 0, 0, 0,
];

const STATE: [u8; 24] = [
    3, 0, 0, 0, 0, 0, 0, 0, 0x80, 0, 0, 0, 0, 0, 0, 0, 4, 0, 0, 0, 0, 0, 0, 0,
];

#[test]
fn requests(rt: HostRuntime) {
    let cases = [
        (
            PLUG,
            Request::Plug {
                addr: 320,
                count: 1,
            },
        ),
        (
            UNPLUG,
            Request::Unplug {
                addr: 320,
                count: 1,
            },
        ),
        (UNPLUG_ALL, Request::UnplugAll),
        (
            STATE,
            Request::State {
                addr: 128,
                count: 4,
            },
        ),
    ];
    for (bytes, request) in cases {
        assert_eq!(rt; read_request(&bytes), Ok(request));
        let mut out = [255; 24];
        write_request(request, &mut out);
        assert_eq!(rt; out, bytes);
    }
}

#[test]
fn requests_with_other_bytes(rt: HostRuntime) {
    let mut padded = PLUG;
    padded[2..8].fill(255);
    padded[18..24].fill(255);
    assert_eq!(rt;
        read_request(&padded),
        Ok(Request::Plug {
            addr: 320,
            count: 1
        })
    );
    let mut all = PLUG;
    all[0] = 2;
    assert_eq!(rt; read_request(&all), Ok(Request::UnplugAll));
    let mut above = PLUG;
    above[0] = 4;
    assert_eq!(rt; read_request(&above), Err(RequestFault::Kind));
    above[0] = 0;
    above[1] = 1;
    assert_eq!(rt; read_request(&above), Err(RequestFault::Kind));
    assert_eq!(rt; read_request(&[0; 23]), Err(RequestFault::Length));
    assert_eq!(rt; read_request(&[255; 25]), Err(RequestFault::Length));
}

#[test]
fn responses(rt: HostRuntime) {
    let cases = [
        ([0, 0, 0, 0, 0, 0, 0, 0, 0, 0], Response::Ack { state: 0 }),
        ([0, 0, 0, 0, 0, 0, 0, 0, 2, 0], Response::Ack { state: 2 }),
        ([1, 0, 0, 0, 0, 0, 0, 0, 0, 0], Response::Nack),
        ([2, 0, 0, 0, 0, 0, 0, 0, 0, 0], Response::Busy),
        ([3, 0, 0, 0, 0, 0, 0, 0, 0, 0], Response::Error),
    ];
    for (bytes, response) in cases {
        assert_eq!(rt; read_response(&bytes), Ok(response));
    }
    let mut out = [255; 10];
    write_response(Response::Ack { state: 2 }, &mut out);
    assert_eq!(rt; out, [0, 0, 0, 0, 0, 0, 0, 0, 2, 0]);
    write_response(Response::Nack, &mut out);
    assert_eq!(rt; out, [1, 0, 0, 0, 0, 0, 0, 0, 0, 0]);
}

#[test]
fn response_faults(rt: HostRuntime) {
    let cases = [
        ([4, 0, 0, 0, 0, 0, 0, 0, 3, 0], ResponseFault::Kind),
        ([1, 0, 0, 0, 0, 0, 0, 0, 1, 0], ResponseFault::State),
        ([0, 0, 0, 0, 0, 0, 0, 0, 3, 0], ResponseFault::State),
        ([0, 0, 0, 0, 0, 0, 0, 0, 0, 1], ResponseFault::State),
    ];
    for (bytes, fault) in cases {
        assert_eq!(rt; read_response(&bytes), Err(fault));
    }
    assert_eq!(rt; read_response(&[4; 9]), Err(ResponseFault::Length));
}

#[test]
fn configurations(rt: HostRuntime) {
    let config = Config {
        block_size: 64,
        node_id: 0,
        addr: 128,
        region_size: 256,
        usable_region_size: 256,
        plugged_size: 256,
        requested_size: 256,
    };
    let bytes = [
        0x40, 0, 0, 0, 0, 0, 0, 0, 0, 0, 0, 0, 0, 0, 0, 0, 0x80, 0, 0, 0, 0, 0, 0, 0, 0, 1, 0, 0,
        0, 0, 0, 0, 0, 1, 0, 0, 0, 0, 0, 0, 0, 1, 0, 0, 0, 0, 0, 0, 0, 1, 0, 0, 0, 0, 0, 0,
    ];
    assert_eq!(rt; read_config(&bytes), Ok(config));
    let mut out = [255; 56];
    write_config(&config, &mut out);
    assert_eq!(rt; out, bytes);
    assert_eq!(rt; read_config(&[0; 55]), Err(ConfigFault::Length));
}
