//! Each call once on its happy path, and sources and sinks that end or fail in mid-text.

use crate::numbers;
use evac_io::{
    ByteList, Failed, MemSink, MemSource, ReadAllFault, Source, SureSink, SureSource, read_all,
    write_all,
};
use std::alloc::{AllocError, Global};
use std::test::Fail;

const TEXT: &[u8] = b"seven bytes";

fn text(alloc: Global) -> Result<ByteList, AllocError> {
    Ok(ByteList::from_vec(TEXT.to_vec(alloc)?))
}

#[test]
fn reads_up_to_the_limit(rt: HostRuntime) -> Result<(), Fail> {
    let alloc = rt.alloc();
    let cases = [
        (10, Err(ReadAllFault::TooLong)),
        (11, Ok(11)),
        (u64::MAX, Ok(11)),
    ];
    for (limit, want) in cases {
        let mut source = SureSource::new(text(alloc)?);
        let got = read_all(alloc, &mut source, limit).map(|bytes| bytes.len());
        assert_eq!(rt; got, want, "at {limit}");
    }
    let mut source = SureSource::new(text(alloc)?);
    let bytes = read_all(alloc, &mut source, 20)?;
    assert_eq!(rt; bytes.as_slice(), TEXT);
    assert_eq!(rt; bytes.is_empty(), false);
    assert_eq!(rt; bytes.into_vec().as_slice(), TEXT);
    Ok(())
}

#[test]
fn a_listed_read_fails(rt: HostRuntime) -> Result<(), Fail> {
    let alloc = rt.alloc();
    // The first read gives all bytes, the second none.
    let cases = [
        (1, Err(ReadAllFault::Failed)),
        (2, Err(ReadAllFault::Failed)),
        (3, Ok(11)),
    ];
    for (fails, want) in cases {
        let mut source = MemSource::new(text(alloc)?, numbers(alloc, &[9, fails])?);
        let got = read_all(alloc, &mut source, 11).map(|bytes| bytes.len());
        assert_eq!(rt; got, want, "at {fails}");
    }
    Ok(())
}

#[test]
fn calls_are_listed_in_any_order_and_again(rt: HostRuntime) -> Result<(), Fail> {
    let alloc = rt.alloc();
    // The calls 1, 3 and 4 fail, and 0 is the number of no call.
    let lists = [[1, 3, 4, 9, 9, 9], [4, 3, 9, 1, 0, 0], [3, 1, 3, 4, 1, 3]];
    let want = [
        Err(Failed),
        Ok(4),
        Err(Failed),
        Err(Failed),
        Ok(4),
        Ok(3),
        Ok(0),
    ];
    for fails in lists {
        let mut source = MemSource::new(text(alloc)?, numbers(alloc, &fails)?);
        for got in want {
            let mut piece = [0; 4];
            assert_eq!(rt; source.read(&mut piece), got, "of {fails:?}");
        }
    }
    Ok(())
}

#[test]
fn a_sink_keeps_what_has_room(rt: HostRuntime) -> Result<(), Fail> {
    let alloc = rt.alloc();
    let cases = [
        (11, 2, Ok(()), 11),
        (12, 9, Ok(()), 11),
        (5, 9, Err(Failed), 5),
        (0, 9, Err(Failed), 0),
        (11, 1, Err(Failed), 0),
    ];
    for (room, fails, want, kept) in cases {
        let mut sink = MemSink::new(alloc, room, numbers(alloc, &[fails])?).map_err(
            |_| AllocError,
        )?;
        let got = write_all(&mut sink, TEXT);
        assert_eq!(rt; got, want, "at {room} and {fails}");
        assert!(rt; kept <= TEXT.len());
        assert_eq!(rt; sink.bytes(), &TEXT[..kept], "at {room} and {fails}");
    }
    Ok(())
}

#[test]
fn sinks_with_no_list(rt: HostRuntime) -> Result<(), Fail> {
    let mut sink = MemSink::with_room(rt.alloc(), 11)?;
    write_all(&mut sink, TEXT)?;
    assert_eq!(rt; sink.bytes(), TEXT);
    let mut sure = SureSink::new();
    write_all(&mut sure, TEXT)?;
    assert_eq!(rt; sure.count(), 11);
    assert_eq!(rt; MemSink::with_room(rt.alloc(), u64::MAX).is_err(), true);
    Ok(())
}

#[test]
fn numbers_come_back(rt: HostRuntime) -> Result<(), Fail> {
    let list = numbers(rt.alloc(), &[3, 1])?;
    assert_eq!(rt; list.len(), 2);
    assert_eq!(rt; list.is_empty(), false);
    assert_eq!(rt; list.as_slice(), [3, 1].as_slice());
    assert_eq!(rt; list.into_vec().as_slice(), [3, 1].as_slice());
    Ok(())
}
