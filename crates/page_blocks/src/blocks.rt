//! The marks of a machine's blocks and frames.

ghost use Rattle.std.specs.Prelude.{◌≡◌, None, replicate, IfOk};

use crate::holder::Holder;
use crate::scan::{check_movable, first_out};
use evac_model::{BlockNo, FrameNo, Geometry, Kind, OutOfMemory, PageNo, Unmovable};
use std::alloc::{AllocError, Global};
use std::marker::Model;

/// Which frames are out, for which page and kind, and which managed blocks are isolated, after
/// Linux's pageblocks, whose isolation is the migrate type `MIGRATE_ISOLATE`. Memory for a mark of
/// each managed block and for what each frame is out for is taken once, by `new`.
#[derive(Debug, Drop)]
pub struct Blocks {
    geometry: Geometry,
    marks: Vec<bool>,
    out: Vec<Option<Holder>>,
}

impl Model for Blocks {
    ghost use Rattle.page_blocks.specs.Marks.{Marks, blocks_marked};
    ghost use Rattle.page_blocks.specs.BlocksInside.{IsKept};

    ghost Value = { Marks };

    ghost view = { λ m. record { sizes = m.geometry; isolated = blocks_marked m.marks.items m.geometry.managed; out = m.out.items } };

    ghost invariant = { λ m. IsKept m.geometry m.marks.items m.out.items };
}

// So many places, all empty.
fn empty_places<T: Drop>(alloc: Global, count: usize) -> Result<Vec<Option<T>>, AllocError>
    ensures { IfOk result (λ v. v.items ≡ replicate count None) }
{
    let mut places = Vec::with_capacity(alloc, count)?;
    for _place in 0..count {
        places.push(None)?;
    }
    Ok(places)
}

impl Blocks {
    ghost use Rattle.std.specs.Prelude.{◌≡◌, ◌<◌, [], length, filter, replicate, None, Some, IsTrue, IfOk, OnOk, OnErr, slice_index_or, slice_set};
    ghost use Rattle.std.specs.Option.{ForSome};
    ghost use Rattle.evac_model.specs.Geometry.{IsWithinLimits, frame_count};
    ghost use Rattle.evac_model.specs.Numbers.{is_in, IsRisingBelow};
    ghost use Rattle.evac_model.specs.SpaceJournal.{is_frame_of, is_frame_in, with_block, without_block};
    ghost use Rattle.page_blocks.specs.Marks.{block_frames_out, first_page, frames_out_after, is_unmovable, isolation, page_and_kind};

    /// The marks of a machine at their start: no block is isolated, and no frame is out. It fails
    /// where there is no memory for them.
    pub fn new(alloc: Global, g: Geometry) -> Result<Blocks, OutOfMemory>
        ensures sizes { IfOk result (λ m. m.sizes ≡ g) }
        ensures isolated { IfOk result (λ m. m.isolated ≡ []) }
        ensures out { IfOk result (λ m. m.out ≡ replicate (frame_count g) None) }
    {
        let marks = vec![in alloc; false; g.managed() as usize]?;
        let out = empty_places(alloc, g.frames() as usize)?;
        Ok(Blocks {
            geometry: g,
            marks,
            out,
        })
    }

    /// The sizes of the machine.
    pub fn geometry(&self) -> Geometry
        ensures sizes { result ≡ self.now.sizes }
        ensures within { IsWithinLimits self.now.sizes }
        ensures rising { IsRisingBelow self.now.sizes.managed self.now.isolated }
        ensures frames { length self.now.out ≡ frame_count self.now.sizes }
    {
        self.geometry
    }

    /// Isolates a managed block, after Linux's `start_isolate_page_range`: it fails at the first
    /// frame of the block that is out for an unmovable page, and then changes nothing. A block that
    /// is isolated already stays so. It looks at the frames of the block.
    pub fn isolate(&mut self, b: BlockNo) -> Result<(), Unmovable>
        requires { b.0 < self.old.sizes.managed }
        ensures refused { result ≡ isolation (filter is_unmovable (block_frames_out self.old b.0)) }
        ensures ok { OnOk result (self.new ≡ record self.old { isolated = with_block self.old.sizes b.0 self.old.isolated }) }
        ensures err { OnErr result (self.new ≡ self.old) }
    {
        let (first, _) = self.geometry.frames_of(b);
        check_movable(&self.out, first, self.geometry.block())?;
        self.marks[b.0 as usize] = true;
        Ok(())
    }

    /// Takes the isolation of a managed block back, after Linux's `undo_isolate_page_range`. A block
    /// that isn't isolated stays so.
    pub fn undo(&mut self, b: BlockNo)
        requires { b.0 < self.old.sizes.managed }
        ensures { self.new ≡ record self.old { isolated = without_block b.0 self.old.isolated } }
    {
        self.marks[b.0 as usize] = false;
    }

    /// Whether a block is isolated. A block that isn't a managed one is not.
    pub fn isolated(&self, b: BlockNo) -> bool
        ensures { result ≡ is_in b.0 self.now.isolated }
    {
        b.0 < self.geometry.managed() && self.marks[b.0 as usize]
    }

    /// Whether a frame is of an isolated block. The frame of a boot block is not.
    pub fn is_isolated_frame(&self, frame: FrameNo) -> bool
        requires { frame.0 < frame_count self.now.sizes }
        ensures { result ≡ is_frame_in self.now.sizes self.now.isolated frame.0 }
    {
        let block = frame.0 / self.geometry.block();
        let boot = self.geometry.boot();
        boot <= block && self.marks[(block - boot) as usize]
    }

    /// Marks a frame as out for a page of that kind, whatever it was out for before.
    pub fn set_out(&mut self, frame: FrameNo, page: PageNo, kind: Kind)
        requires { frame.0 < frame_count self.old.sizes }
        ensures { self.new ≡ record self.old { out = slice_set self.old.out frame.0 (Some (record { page = page.0; kind = kind })) } }
    {
        self.out[frame.0 as usize] = Some(Holder::new(page, kind));
    }

    /// Marks a frame as not out. A frame that isn't out stays so.
    pub fn clear_out(&mut self, frame: FrameNo)
        requires { frame.0 < frame_count self.old.sizes }
        ensures { self.new ≡ record self.old { out = slice_set self.old.out frame.0 None } }
    {
        self.out[frame.0 as usize] = None;
    }

    /// The page and the kind that a frame is out for, if it is out. A number that is no frame's is not.
    pub fn out_at(&self, frame: FrameNo) -> Option<(PageNo, Kind)>
        ensures { result ≡ page_and_kind (slice_index_or self.now.out frame.0 None) }
    {
        match self.out.get(frame.0 as usize) {
            Some(Some(holder)) => Some((holder.page(), holder.kind())),
            _ => None,
        }
    }

    /// The first frame of a managed block that is out, and the page that it is out for; where a frame
    /// is given, the first one of the block behind it. None exactly where there is none. It looks at the
    /// frames of the block.
    pub fn out_after(&self, b: BlockNo, after: Option<FrameNo>) -> Option<(FrameNo, PageNo)>
        requires block { b.0 < self.now.sizes.managed }
        requires after { ForSome after (λ frame. frame.0 < frame_count self.now.sizes) }
        ensures { result ≡ first_page (frames_out_after self.now b.0 after) }
    {
        let (first, last) = self.geometry.frames_of(b);
        match after {
            None => first_out(&self.out, first, self.geometry.block()),
            Some(frame) => {
                let from = first.0.max(frame.0 + 1);
                first_out(&self.out, FrameNo(from), (last.0 + 1).saturating_sub(from))
            }
        }
    }
}
