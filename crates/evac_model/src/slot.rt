//! One place of the plain slow machine: the page of one number, mapped or not.

ghost use Rattle.std.specs.Prelude.{◌≡◌, ◌+◌, ◌%◌, ◌^◌, ◌<◌, ◌≤◌, length, take, drop, slice_index, slice_set};
ghost use Rattle.evac_model.specs.Answer.{written};

use crate::call::Call;
use crate::cells::Cells;
use crate::geometry::Geometry;
use crate::names::Kind;
use crate::reply::Reply;
use std::alloc::{AllocError, Global};

/// The memory of one page number. Where the page is unmapped, only the number of cells counts.
#[derive(Drop)]
pub struct Slot {
    pub mapped: bool,
    pub kind: Kind,
    pub pins: u8,
    pub cells: Vec<u64>,
}

/// The cells from `first` on, `count` of them.
fn read_cells(cells: &[u64], first: u32, count: u32) -> Cells
    requires most { count ≤ 8 }
    requires within { first + count ≤ length cells.now }
    ensures { result ≡ take count (drop first cells.now) }
{
    let first = first as usize;
    Cells::from_slice(&cells[first..first + count as usize])
}

/// Stores values in the cells from `first` on.
fn write_cells(cells: &mut [u64], first: u32, values: &Cells)
    requires { first + length values.now ≤ length cells.old }
    ensures { cells.new ≡ written first values.now cells.old }
{
    let first = first as usize;
    cells[first..first + values.len()].copy_from_slice(values.as_slice());
}

/// Adds to a cell modulo 2^64, and says what it had before.
fn add_to_cell(cells: &mut [u64], cell: u32, value: u64) -> u64
    requires { cell < length cells.old }
    ensures before { result ≡ slice_index cells.old cell }
    ensures after { cells.new ≡ slice_set cells.old cell ((slice_index cells.old cell + value) % 2 ^ 64) }
{
    let old = cells[cell as usize];
    cells[cell as usize] = old.wrapping_add(value);
    old
}

impl Slot {
    ghost use Rattle.std.specs.Prelude.{None, Some, IfOk};
    ghost use Rattle.evac_model.specs.Calls.{IsCallFor};
    ghost use Rattle.evac_model.specs.Page.{new_page};
    ghost use Rattle.evac_model.specs.Slots.{page_of, IsSlot, IsEmptySlot, IsAnswered};

    /// An unmapped page with memory for its cells.
    pub fn new(alloc: Global, cells: usize) -> Result<Slot, AllocError>
        ensures { IfOk result (λ s. IsEmptySlot cells s) }
    {
        Ok(Slot {
            mapped: false,
            kind: Kind::Movable,
            pins: 0,
            cells: vec![in alloc; 0; cells]?,
        })
    }

    /// Maps the page, with zeros in its cells and no pins.
    pub fn map(&mut self, kind: Kind)
        ensures page { page_of self.new ≡ Some (new_page (length self.old.cells.items) kind) }
        ensures slot { IsSlot (length self.old.cells.items) self.new }
    {
        self.mapped = true;
        self.kind = kind;
        self.pins = 0;
        self.cells.fill(0);
    }

    fn alloc(&mut self, kind: Kind, no_frame: Option<u64>) -> Reply
        requires { self.old.pins ≤ 63 }
        ensures { IsAnswered self.old self.new (Call.Alloc kind) no_frame result }
    {
        if self.mapped {
            return Reply::Mapped;
        }
        if let Some(at) = no_frame {
            return Reply::NoFrame { at };
        }
        self.map(kind);
        Reply::Done
    }

    fn free(&mut self, no_frame: Option<u64>) -> Reply
        requires { self.old.pins ≤ 63 }
        ensures { IsAnswered self.old self.new Call.Free no_frame result }
    {
        if !self.mapped {
            return Reply::NotMapped;
        }
        if self.pins > 0 {
            return Reply::Pinned;
        }
        self.mapped = false;
        Reply::Done
    }

    fn read(&self, first: u32, count: u32, no_frame: Option<u64>) -> Reply
        requires pins { self.now.pins ≤ 63 }
        requires most { count ≤ 8 }
        requires within { first + count ≤ length self.now.cells.items }
        ensures { IsAnswered self.now self.now (Call.Read first count) no_frame result }
    {
        if !self.mapped {
            return Reply::NotMapped;
        }
        Reply::Values(read_cells(&self.cells, first, count))
    }

    fn write(&mut self, first: u32, values: &Cells, no_frame: Option<u64>) -> Reply
        requires pins { self.old.pins ≤ 63 }
        requires within { first + length values.now ≤ length self.old.cells.items }
        ensures { IsAnswered self.old self.new (Call.Write first values.now) no_frame result }
    {
        if !self.mapped {
            return Reply::NotMapped;
        }
        write_cells(&mut self.cells, first, values);
        Reply::Done
    }

    fn add(&mut self, cell: u32, value: u64, no_frame: Option<u64>) -> Reply
        requires pins { self.old.pins ≤ 63 }
        requires within { cell < length self.old.cells.items }
        ensures { IsAnswered self.old self.new (Call.Add cell value) no_frame result }
    {
        if !self.mapped {
            return Reply::NotMapped;
        }
        Reply::Old(add_to_cell(&mut self.cells, cell, value))
    }

    fn pin(&mut self, no_frame: Option<u64>) -> Reply
        requires { self.old.pins ≤ 63 }
        ensures { IsAnswered self.old self.new Call.Pin no_frame result }
    {
        if !self.mapped {
            return Reply::NotMapped;
        }
        if self.pins == 63 {
            return Reply::PinLimit;
        }
        self.pins += 1;
        Reply::Done
    }

    fn unpin(&mut self, no_frame: Option<u64>) -> Reply
        requires { self.old.pins ≤ 63 }
        ensures { IsAnswered self.old self.new Call.Unpin no_frame result }
    {
        if !self.mapped {
            return Reply::NotMapped;
        }
        if self.pins == 0 {
            return Reply::NotPinned;
        }
        self.pins -= 1;
        Reply::Done
    }

    /// Answers a call that fits the machine.
    pub fn answer(&mut self, geometry: &Geometry, call: &Call, no_frame: Option<u64>) -> Reply
        requires slot { IsSlot geometry.now.cells self.old }
        requires call { IsCallFor geometry.now call.now }
        ensures { IsAnswered self.old self.new call.now no_frame result }
    {
        match call {
            Call::Alloc { kind } => self.alloc(*kind, no_frame),
            Call::Free => self.free(no_frame),
            Call::Read { first, count } => self.read(*first, *count, no_frame),
            Call::Write { first, values } => self.write(*first, values, no_frame),
            Call::Add { cell, value } => self.add(*cell, *value, no_frame),
            Call::Pin => self.pin(no_frame),
            Call::Unpin => self.unpin(no_frame),
        }
    }
}
