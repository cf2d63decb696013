//! What is plugged, and the pages as the words show them.

ghost use Rattle.std.specs.Prelude.{◌≡◌, ◌+◌, ◌<◌, ◌≤◌, ◌++◌, ℕ, length, IfOk, OnOk};
ghost use Rattle.evac_words.specs.Table.{table_length};
ghost use Rattle.core_state.specs.Room.{IsSmall};
ghost use Rattle.core_state.specs.Words.{cells_of_frame};
ghost use Rattle.report.specs.FinalPages.{final_page};
ghost use Rattle.replay.specs.Runs.{shown_page, shown_below};
ghost use Rattle.report.specs.ReportOf.{block_list};
ghost use Rattle.replay.specs.Shown.{MapsInside};

use block_map::BlockMap;
use core_state::Opening;
use evac_model::{BlockNo, Kind, Listed, PageNo};
use evac_words::{cell_index, entry_index, unpack};
use report::FinalPage;
use std::alloc::{AllocError, Global};

/// The plugged blocks, rising.
pub(crate) fn plugged_blocks(alloc: Global, map: &BlockMap) -> Result<Vec<BlockNo>, AllocError>
    ensures { IfOk result (λ blocks. blocks.items ≡ block_list map.now.plugged) }
{
    let managed = map.geometry().managed();
    let mut blocks = Vec::new(alloc);
    for b in 0..managed {
        if map.plugged(BlockNo(b)) {
            blocks.push(BlockNo(b))?;
        }
    }
    Ok(blocks)
}

/// The cells of a frame.
fn frame_cells<'a>(o: &Opening, words: &'a [u64], frame: u32) -> &'a [u64]
    requires small { IsSmall o.now }
    requires cells { 0 < o.now.cells }
    requires long { length words.now ≡ table_length o.now.pages o.now.frames o.now.cells }
    requires frame { frame < o.now.frames }
    ensures { result.now ≡ cells_of_frame o.now words.now frame }
{
    let first = cell_index(o.pages, o.frames, o.cells, frame, 0) as usize;
    &words[first..first + o.cells as usize]
}

/// Adds a page to the final pages, if it is mapped.
fn push_page(
    alloc: Global,
    pages: &mut Vec<FinalPage>,
    o: &Opening,
    words: &[u64],
    page: u32,
) -> Result<(), AllocError>
    requires inside { MapsInside o.now words.now }
    requires page { page < o.now.pages }
    ensures { OnOk result (pages.new.items ≡ pages.old.items ++ final_page page (shown_page o.now words.now page)) }
{
    let flags = unpack(words[entry_index(page) as usize]);
    if flags.mapped {
        let kind = if flags.unmovable {
            Kind::Unmovable
        } else {
            Kind::Movable
        };
        let cells = Vec::from_slice(alloc, frame_cells(o, words, flags.frame))?;
        pages.push(FinalPage {
            page: PageNo(page),
            kind,
            pins: flags.pins,
            cells: Listed::from_vec(cells),
        })?;
    }
    Ok(())
}

/// The pages that are mapped, by rising page number.
pub(crate) fn final_pages(
    alloc: Global,
    o: &Opening,
    words: &[u64],
) -> Result<Vec<FinalPage>, AllocError>
    requires inside { MapsInside o.now words.now }
    ensures { IfOk result (λ pages. pages.items ≡ shown_below o.now words.now o.now.pages) }
{
    let mut pages = Vec::new(alloc);
    for page in 0..o.pages {
        push_page(alloc, &mut pages, o, words, page)?;
    }
    Ok(pages)
}
