//! Small machines, and what their actors do one after another.

ghost use Rattle.std.specs.Prelude.{◌≡◌, IfOk};
ghost use Rattle.evac_model.specs.Geometry.{Sizes, IsWithinLimits};

use crate::{Act, make};
use evac_model::{
    FrameNo, Geometry, GeometryFault, Kind, NumberList, PageNo, SpaceAction, StartPage,
};
use machine::{Heard, Machine};
use std::alloc::Global;
use std::process::Abort;
use std::test::Fail;

/// Two cells in a page, and blocks of two frames: the boot block has frames 0 and 1, the managed blocks 0 to 3 have 2 to
/// 9, and block 3 isn't plugged. A block has 32 bytes; block 0 begins at 32, block 3 at 128. There are six pages.
fn sizes() -> Result<Geometry, GeometryFault>
    ensures { let sizes : Sizes = record { cells = 2; block = 2; boot = 1; managed = 4; plugged = 3; pages = 6 } in
        IfOk result (λ g. (g ≡ sizes) × IsWithinLimits sizes) }
{
    Geometry::new(2, 2, 1, 4, 3, 6)
}

/// Page 0 in frame 3, of block 0, and an unmovable page 1 in frame 4, of block 1.
const START: [StartPage; 2] = [
    StartPage {
        page: PageNo(0),
        kind: Kind::Movable,
        frame: FrameNo(3),
    },
    StartPage {
        page: PageNo(1),
        kind: Kind::Unmovable,
        frame: FrameNo(4),
    },
];

/// A machine with these two pages, whose managed blocks are online for both kinds, and with an owner that has three
/// calls. The seats are 0 the driver's, 1 the owner's, 2 the scanner's, and 3 and 4 those of who keeps the free and the
/// unplugged frames. The words are the next ticket, 6 entry words, 10 dirty words and 20 cells.
pub(crate) fn paged(alloc: Global) -> Result<Machine, Fail> {
    let g = sizes()?;
    let none = NumberList::from_vec(Vec::new(alloc));
    Ok(Machine::open(alloc, g, Kind::Unmovable, &START, &[3], none)?)
}

/// The same machine without pages, whose device's backing fails at these calls.
pub(crate) fn failing(alloc: Global, fails: &[u64]) -> Result<Machine, Fail> {
    let g = sizes()?;
    let fails = NumberList::from_vec(fails.to_vec(alloc)?);
    Ok(Machine::open(alloc, g, Kind::Unmovable, &[], &[3], fails)?)
}

/// The one whose backing never fails.
pub(crate) fn bare(alloc: Global) -> Result<Machine, Fail> {
    failing(alloc, &[])
}

/// The actors make the actions of a table, one after another, and hear what is wanted.
pub(crate) fn follow(rt: &impl Abort, m: &mut Machine, table: &[(Act, Heard)]) {
    for (act, want) in table {
        assert_eq!(rt; make(m, act), Some(*want), "{act:?}");
    }
}

/// The actors may make the actions of a table now, or may not, as is wanted.
pub(crate) fn compare(rt: &impl Abort, m: &Machine, table: &[(Act, bool)]) {
    for (act, want) in table {
        assert_eq!(rt; m.may_make(act.seat, &act.action), *want, "{act:?}");
    }
}

/// Whether a seat has a frame in hand.
fn has_frame(m: &Machine, seat: usize, frame: usize) -> bool {
    let Some(view) = m.core().snapshot().views.as_slice().get(seat) else {
        return false;
    };
    match view.hand.as_slice().get(frame) {
        Some(place) => place.is_some(),
        None => false,
    }
}

/// A seat has exactly these of the ten frames in hand.
pub(crate) fn expect_hand(rt: &impl Abort, m: &Machine, seat: usize, want: &[usize]) {
    for frame in 0..10 {
        assert_eq!(rt; has_frame(m, seat, frame), want.contains(&frame), "{frame}");
    }
}

/// The words at these places of the table are these.
pub(crate) fn expect_words(rt: &impl Abort, m: &Machine, table: &[(usize, u64)]) {
    for (place, want) in table {
        let word = m.core().snapshot().words.as_slice().get(*place);
        assert_eq!(rt; word, Some(want), "{place}");
    }
}

/// The frame space has made exactly these actions, and the device so many.
pub(crate) fn expect_journals(rt: &impl Abort, m: Machine, space: &[SpaceAction], device: usize) {
    let (_, journals) = m.into_parts();
    assert_eq!(rt; journals.space.as_slice(), space);
    assert_eq!(rt; journals.device.len(), device);
}
