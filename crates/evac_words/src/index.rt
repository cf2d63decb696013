//! Where the words of the table lie: word 0 is the next ticket, then come one entry word for each
//! page, one dirty word for each frame, and the cells, frame by frame.

ghost use Rattle.std.specs.Prelude.{◌≡◌, ◌*◌, ◌^◌, ◌<◌, ◌≤◌};
ghost use Rattle.evac_words.specs.Table.{entry_index, dirty_index, cell_index};

/// The index of the entry word of a page, below 65,536.
pub fn entry_index(page: u32) -> u32
    requires { page < 65536 }
    ensures { result ≡ entry_index page }
{
    1 + page
}

/// The index of the dirty word of a frame, where there are so many pages, at most 65,536. The frame
/// is below 65,536.
pub fn dirty_index(pages: u32, frame: u32) -> u32
    requires pages_fit { pages ≤ 65536 }
    requires frame_fits { frame < 65536 }
    ensures { result ≡ dirty_index pages frame }
{
    1 + pages + frame
}

/// The index of a cell of a frame, where there are so many pages and frames, at most 65,536 of each,
/// and so many cells to a frame, at most 2^22 in all.
pub fn cell_index(pages: u32, frames: u32, cells: u32, frame: u32, cell: u32) -> u32
    requires pages_fit { pages ≤ 65536 }
    requires frames_fit { frames ≤ 65536 }
    requires cells_fit { frames * cells ≤ 2 ^ 22 }
    requires frame_fits { frame < frames }
    requires cell_fits { cell < cells }
    ensures { result ≡ cell_index pages frames cells frame cell }
{
    1 + pages + frames + frame * cells + cell
}
