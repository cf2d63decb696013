//! Slates, call by call.

use crate::*;
use std::test::Fail;

#[test]
fn a_slate_fails_at_the_listed_calls(rt: HostRuntime) -> Result<(), Fail> {
    // in their order, in another one, and listed again
    for fails in [[2, 4, 9, 9], [9, 4, 0, 2], [4, 2, 4, 2]] {
        let mut slate = Slate::new(NumberList::from_vec(fails.as_slice().to_vec(rt.alloc())?));
        for want in [Ok(()), Err(Failed), Ok(()), Err(Failed), Ok(())] {
            assert_eq!(rt; slate.discard(BlockNo(0), 1), want);
        }
    }
    Ok(())
}

#[test]
fn a_sure_slate_never_fails(rt: HostRuntime) {
    let mut slate = SureSlate::new();
    for b in [0, 3, 65_535] {
        assert_eq!(rt; slate.discard(BlockNo(b), 1), Ok(()));
    }
}
