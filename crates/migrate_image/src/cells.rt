//! The cells of a frame.

ghost use Rattle.std.specs.Prelude.{◌≡◌, [], ◌++◌, OnOk};
ghost use Rattle.std.specs.List.{flat_map};
ghost use Rattle.migrate_image.specs.Fields.{le64};
ghost use Rattle.migrate_image.specs.Reading.{Gives, cells_at};

use crate::fault::ImageFault;
use crate::field::{put_u64, u64_at};
use evac_model::OutOfMemory;
use std::alloc::Global;

/// So many cells, and the bytes behind them.
pub fn cells_of(alloc: Global, count: u32, bytes: &[u8]) -> Result<(Vec<u64>, &[u8]), ImageFault>
    ensures { Gives (λ x. (x.0.items, x.1.now)) result (cells_at [] count bytes.now) }
{
    let mut cells = Vec::with_capacity(alloc, count as usize)?;
    let mut rest = bytes;
    for _ in 0..count {
        let (cell, after) = u64_at(rest)?;
        cells.push(cell)?;
        rest = after;
    }
    Ok((cells, rest))
}

/// Writes the cells.
pub fn put_cells(out: &mut Vec<u8>, cells: &[u64]) -> Result<(), OutOfMemory>
    ensures { OnOk result (out.new.items ≡ out.old.items ++ flat_map le64 cells.now) }
{
    for cell in cells {
        put_u64(out, *cell)?;
    }
    Ok(())
}
