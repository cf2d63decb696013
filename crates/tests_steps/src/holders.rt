//! Owners that hold a page, and what they may end there.

ghost use Rattle.std.specs.Prelude.{◌≤◌, IfOk, length};
ghost use Rattle.core_state.specs.CoreState.{IsSound};

use crate::play::{core, give, load, make_all, make_some, map, mapping, mark, step, store, take};
use crate::{Act, allows};
use core_state::{CallDone, Core, MoveStep, Step};
use evac_model::{Call, Cells, Kind, Reply};
use std::alloc::Global;
use std::test::Fail;

/// What an owner does to the mapping of the page that it holds.
#[derive(Clone, Copy, Debug)]
pub(crate) enum Mapping {
    /// Nothing.
    Kept,
    /// It maps the page to frame 2.
    Mapped,
    /// It unmaps the page.
    Unmapped,
    /// It unmaps the page, and maps it to frame 2.
    Anew,
}

/// What an owner does to a page that it holds: it loads some cells, then changes the mapping, and then stores
/// values in some cells.
#[derive(Clone, Copy, Debug)]
pub(crate) struct Taken {
    pub(crate) page: u32,
    pub(crate) loads: [bool; 2],
    pub(crate) mapping: Mapping,
    pub(crate) stores: [Option<u64>; 2],
}

// The page that is mapped.
pub(crate) const MAPPED: Taken = Taken {
    page: 0,
    loads: [false, false],
    mapping: Mapping::Kept,
    stores: [None, None],
};

// The page that isn't.
pub(crate) const UNMAPPED: Taken = Taken { page: 1, ..MAPPED };

// The same, once it is mapped.
pub(crate) const NEW: Taken = Taken {
    mapping: Mapping::Mapped,
    ..UNMAPPED
};

// The mapped page, once it is unmapped.
pub(crate) const FREED: Taken = Taken {
    mapping: Mapping::Unmapped,
    ..MAPPED
};

// The mapped page, once it is unmapped and mapped again.
pub(crate) const ANEW: Taken = Taken {
    mapping: Mapping::Anew,
    ..MAPPED
};

/// The mapped page, of which some cells are loaded.
pub(crate) fn loaded(first: bool, second: bool) -> Taken {
    Taken {
        loads: [first, second],
        ..MAPPED
    }
}

/// A page, with these values stored afterwards.
pub(crate) fn stored(taken: Taken, first: Option<u64>, second: Option<u64>) -> Taken {
    Taken {
        stores: [first, second],
        ..taken
    }
}

pub(crate) fn values(numbers: &[u64]) -> Reply
    requires { length numbers.now ≤ 8 }
{
    Reply::Values(Cells::from_slice(numbers))
}

pub(crate) fn write(first: u32, numbers: &[u64]) -> Call
    requires { length numbers.now ≤ 8 }
{
    Call::Write {
        first,
        values: Cells::from_slice(numbers),
    }
}

pub(crate) fn read(first: u32, count: u32) -> Call {
    Call::Read { first, count }
}

pub(crate) fn add(cell: u32, value: u64) -> Call {
    Call::Add { cell, value }
}

pub(crate) fn alloc_of(kind: Kind) -> Call {
    Call::Alloc { kind }
}

/// The end of a call.
pub(crate) fn end(seat: u32, call: Call, reply: Reply) -> Act {
    let done = Some(CallDone { call, reply });
    step(seat, Step::Release { done })
}

/// A draw.
pub(crate) fn draw(seat: u32) -> Act {
    step(seat, Step::Draw)
}

/// An unmap.
pub(crate) fn unmap(seat: u32) -> Act {
    mapping(seat, MoveStep::Unmap)
}

/// Owner 1 gets frame 2, and stores zeros in it; owner 2 writes both cells of page 0.
fn before(cells: [u64; 2]) -> [Act; 10] {
    let [first, second] = cells;
    [
        give(4, 1, 2),
        store(1, 2, 0, 0),
        store(1, 2, 1, 0),
        mark(1, 2),
        take(2, 0),
        draw(2),
        store(2, 1, 0, first),
        store(2, 1, 1, second),
        mark(2, 1),
        end(2, write(0, &[first, second]), Reply::Done),
    ]
}

/// An act that is made only where this is so.
fn act_if(so: bool, act: Act) -> Option<Act> {
    if so { Some(act) } else { None }
}

/// Whether the page is unmapped, and whether it is mapped then.
fn changes(mapping: Mapping) -> [bool; 2] {
    match mapping {
        Mapping::Kept => [false, false],
        Mapping::Mapped => [false, true],
        Mapping::Unmapped => [true, false],
        Mapping::Anew => [true, true],
    }
}

/// What owner 1 does to the page: it takes it and draws a ticket, loads, changes the mapping and stores. Stores go to
/// frame 2 where the page was mapped to it.
fn acts_on(taken: &Taken) -> [Option<Act>; 10] {
    let [load_first, load_second] = taken.loads;
    let [unmaps, maps] = changes(taken.mapping);
    let [first, second] = taken.stores;
    let frame = if maps { 2 } else { 1 };
    [
        Some(take(1, taken.page)),
        Some(draw(1)),
        act_if(load_first, load(1, 0)),
        act_if(load_second, load(1, 1)),
        act_if(unmaps, unmap(1)),
        act_if(maps, map(1, 2)),
        act_if(first.is_some(), store(1, frame, 0, first.unwrap_or(0))),
        act_if(first.is_some(), mark(1, frame)),
        act_if(second.is_some(), store(1, frame, 1, second.unwrap_or(0))),
        act_if(second.is_some(), mark(1, frame)),
    ]
}

/// Owner 1 holds a page, with a ticket drawn, after owner 2 wrote these cells in page 0.
pub(crate) fn holder(alloc: Global, cells: [u64; 2], taken: &Taken) -> Result<Core, Fail>
    ensures { IfOk result (λ core. IsSound core) }
{
    let mut core = core(alloc, 1, 1)?;
    make_all(&mut core, &before(cells))?;
    make_some(&mut core, &acts_on(taken))?;
    Ok(core)
}

/// Whether the owner that holds the page so may let it go with this entry.
pub(crate) fn may_end(
    alloc: Global,
    cells: [u64; 2],
    taken: &Taken,
    call: Call,
    reply: Reply,
) -> Result<bool, Fail> {
    let core = holder(alloc, cells, taken)?;
    Ok(allows(&core, end(1, call, reply)))
}

/// Owner 1 holds page 0, with a ticket drawn, after owner 2 pinned it so often.
pub(crate) fn pinned(alloc: Global, pins: u32) -> Result<Core, Fail>
    ensures { IfOk result (λ core. IsSound core) }
{
    let mut core = core(alloc, 1, pins)?;
    let pin = [take(2, 0), draw(2), end(2, Call::Pin, Reply::Done)];
    for _pin in 0..pins {
        make_all(&mut core, &pin)?;
    }
    make_all(&mut core, &[take(1, 0), draw(1)])?;
    Ok(core)
}
