//! Searches among the frames that are out.

ghost use Rattle.std.specs.Prelude.{◌≡◌, ◌+◌, ◌≤◌, length, filter};
ghost use Rattle.page_blocks.specs.Marks.{frames_out, first_page, is_unmovable, isolation};

use crate::holder::Holder;
use evac_model::{FrameNo, PageNo, Unmovable};

/// The first of `n` frames from `first` on that is out, and the page that it is out for.
pub fn first_out(out: &[Option<Holder>], first: FrameNo, n: u32) -> Option<(FrameNo, PageNo)>
    requires range { first.0 + n ≤ length out.now }
    requires few { length out.now ≤ 65536 }
    ensures { result ≡ first_page (frames_out out.now first.0 n) }
{
    for frame in first.0..first.0 + n {
        if let Some(holder) = &out[frame as usize] {
            return Some((FrameNo(frame), holder.page()));
        }
    }
    None
}

/// Refuses the isolation of `n` frames from `first` on, at the first of them that is out for an
/// unmovable page.
pub fn check_movable(out: &[Option<Holder>], first: FrameNo, n: u32) -> Result<(), Unmovable>
    requires range { first.0 + n ≤ length out.now }
    requires few { length out.now ≤ 65536 }
    ensures { result ≡ isolation (filter is_unmovable (frames_out out.now first.0 n)) }
{
    for frame in first.0..first.0 + n {
        if let Some(holder) = &out[frame as usize] {
            if holder.is_unmovable() {
                return Err(Unmovable {
                    frame: FrameNo(frame),
                    page: holder.page(),
                });
            }
        }
    }
    Ok(())
}
