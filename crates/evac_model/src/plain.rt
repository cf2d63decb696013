//! The plain slow machine, the executable twin of the definition of each call's answer.

ghost use Rattle.std.specs.Prelude.{◌≡◌, IfOk, length, map};
ghost use Rattle.std.specs.List.{AllByRecursion};
ghost use Rattle.evac_model.specs.State.{start_state};
ghost use Rattle.evac_model.specs.StartPages.{AreStartPages};
ghost use Rattle.evac_model.specs.Slots.{page_of, IsSlot, IsEmptySlot};
ghost use Rattle.evac_model.specs.Tables.{table_map};

use crate::call::Call;
use crate::geometry::Geometry;
use crate::names::{OutOfMemory, PageNo};
use crate::reply::Reply;
use crate::scenario::StartPage;
use crate::slot::Slot;
use std::alloc::{AllocError, Global};
use std::marker::Model;

/// The plain slow machine: pages that have no frame and never move. It has memory for the cells
/// of each page number, mapped or not.
#[derive(Drop)]
pub struct Plain {
    geometry: Geometry,
    slots: Vec<Slot>,
}

impl Model for Plain {
    ghost use Rattle.evac_model.specs.PlainMachine.{PlainMachine, machine_code};

    ghost Value = { PlainMachine };

    ghost coded = { machine_code };

    ghost use Rattle.evac_model.specs.PlainInside.{machine_of, IsPlainInside};

    ghost view = { machine_of };

    ghost invariant = { IsPlainInside };
}

/// Slots of unmapped pages, with memory for their cells.
fn empty_slots(alloc: Global, geometry: &Geometry) -> Result<Vec<Slot>, AllocError>
    ensures count { IfOk result (λ v. length v.items ≡ geometry.now.pages) }
    ensures each { IfOk result (λ v. AllByRecursion (IsEmptySlot geometry.now.cells) v.items) }
{
    let pages = geometry.pages() as usize;
    let cells = geometry.cells() as usize;
    let mut slots = Vec::with_capacity(alloc, pages)?;
    for _page in 0..pages {
        slots.push(Slot::new(alloc, cells)?)?;
    }
    Ok(slots)
}

/// Maps the start pages, the last one first.
fn map_start(slots: &mut [Slot], geometry: &Geometry, start: &[StartPage])
    requires count { length slots.old ≡ geometry.now.pages }
    requires empty { AllByRecursion (IsEmptySlot geometry.now.cells) slots.old }
    requires start { AreStartPages geometry.now start.now }
    ensures each { AllByRecursion (IsSlot geometry.now.cells) slots.new }
    ensures state { table_map (map page_of slots.new) ≡ start_state geometry.now.cells start.now }
{
    let mut left = start.len();
    while left > 0 {
        left -= 1;
        let page = start[left];
        let slot = &mut slots[page.page.0 as usize];
        slot.map(page.kind);
    }
}

impl Plain {
    ghost use Rattle.std.specs.Prelude.{◌≡◌, ◌<◌, ◌↔◌, ℕ, Some, IfOk};
    ghost use Rattle.evac_model.specs.StartPages.{AreStartPages};
    ghost use Rattle.evac_model.specs.State.{page_at, with_page, start_state};
    ghost use Rattle.evac_model.specs.Answer.{answer};
    ghost use Rattle.evac_model.specs.Calls.{IsCallFor};
    ghost use Rattle.evac_model.specs.Laws.{AsksForFrame};

    /// The machine of a start, whose pages are in `start` with distinct numbers. It takes 8 bytes for
    /// each cell of each page number, and a little more: 256 MiB at the limits of 65,536 pages and
    /// 512 cells in a page.
    pub fn new(alloc: Global, geometry: Geometry, start: &[StartPage]) -> Result<Plain, OutOfMemory>
        requires { AreStartPages geometry start.now }
        ensures sizes { IfOk result (λ p. p.sizes ≡ geometry) }
        ensures state { IfOk result (λ p. p.state ≡ start_state geometry.cells start.now) }
    {
        let mut slots = empty_slots(alloc, &geometry)?;
        map_start(&mut slots, &geometry, start);
        Ok(Plain { geometry, slots })
    }

    /// Answers a call on a page of the machine. `no_frame` is the place of a refused lease of a
    /// frame, where there was one. It takes no memory.
    pub fn apply(&mut self, page: PageNo, call: &Call, no_frame: Option<u64>) -> Reply
        requires page { page.0 < self.old.sizes.pages }
        requires call { IsCallFor self.old.sizes call.now }
        ensures reply { result ≡ (answer self.old.sizes.cells (page_at self.old.state page.0) call.now no_frame).0 }
        ensures no_frame { (at : ℕ) → (result ≡ Reply.NoFrame at) ↔ (AsksForFrame (page_at self.old.state page.0) call.now × (no_frame ≡ Some at)) }
        ensures state { self.new.state ≡ with_page self.old.state page.0 (answer self.old.sizes.cells (page_at self.old.state page.0) call.now no_frame).1 }
        ensures sizes { self.new.sizes ≡ self.old.sizes }
    {
        let geometry = self.geometry;
        let slot = &mut self.slots[page.0 as usize];
        slot.answer(&geometry, call, no_frame)
    }
}
