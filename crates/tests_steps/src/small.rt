//! A core of a small machine.

ghost use Rattle.std.specs.Prelude.{IfOk, IfSome};
ghost use Rattle.core_state.specs.CoreState.{IsSound};

use core_state::Core;
use evac_model::{FrameNo, Geometry, Kind, OutOfMemory, PageNo, StartPage};
use std::alloc::Global;

/// One page of two, in frame 1 of six.
const START: [StartPage; 1] = [StartPage {
    page: PageNo(0),
    kind: Kind::Movable,
    frame: FrameNo(1),
}];

/// A core of a machine with frames of two cells in blocks of two frames: a boot block, and two managed
/// ones, one of them plugged. Page 0 is mapped to frame 1, page 1 is unmapped. Two owners have so many
/// tickets. The words are the next ticket, 2 entry words, 6 dirty words and 12 cells; the seats are the
/// driver, the owners, the scanner, and who keeps the free frames, 0, 2 and 3, and the unplugged ones, 4
/// and 5.
pub fn opened(alloc: Global, first: u32, second: u32) -> Result<Option<Core>, OutOfMemory>
    ensures { IfOk result (λ made. IfSome made (λ core. IsSound core)) }
{
    let Ok(g) = Geometry::new(2, 2, 1, 2, 1, 2) else {
        return Ok(None);
    };
    let budgets = [first as u64, second as u64];
    Ok(Some(Core::open(alloc, g, &START, &budgets)?))
}
