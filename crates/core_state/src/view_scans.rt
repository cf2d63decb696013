//! What a step of the scanner changes in the view of its seat.

ghost use Rattle.std.specs.Prelude.{◌≡◌, ◌+◌, ◌<◌, length};
ghost use Rattle.core_state.specs.declared.keeper.Keeper.TheVariants.{OneOwner};

use crate::pool::push_from;
use crate::scan::{Scan, Swept};
use crate::view::View;
use evac_model::FrameNo;
use std::alloc::Global;
use std::collections::LinkedList;

impl Scan {
    ghost use Rattle.std.specs.Prelude.{◌++◌, ◌∷◌, [], if◌then◌else◌};
    ghost use Rattle.core_state.specs.Image.{copy_of};
    ghost use Rattle.core_state.specs.Room.{HasNode, HasPlace};
    ghost use Rattle.core_state.specs.ScanSteps.{begins_pass, after_sweep, with_cell};

    /// Whether a sweep of the frame begins a new pass.
    fn begins_pass(&self, frame: FrameNo) -> bool
        ensures { result ≡ begins_pass self.now.at frame.0 }
    {
        match self.at {
            None => true,
            Some(at) => frame.0 <= at.0,
        }
    }

    /// Notes a frame that was swept, in a node of the pool. Where it begins a new pass, the nodes of the
    /// last one go to the pool before.
    fn note(&mut self, pool: &mut LinkedList<Swept, Global>, swept: Swept)
        requires { HasNode pool.old swept.frame.0 self.old }
        ensures scan { self.new ≡ record self.old { swept = (if begins_pass self.old.at swept.frame.0 then [] else self.old.swept) ++ swept ∷ [] } }
        ensures nodes { length pool.new + length self.new.swept ≡ length pool.old + length self.old.swept }
    {
        if self.begins_pass(swept.frame) {
            let _ = pool.append(&mut self.swept);
        }
        push_from(pool, &mut self.swept, swept);
    }

    /// Has swept a frame, whose dirty word was found so.
    fn sweep(
        &mut self,
        pool: &mut LinkedList<Swept, Global>,
        frame: FrameNo,
        fresh: bool,
        found: u64,
    )
        requires frame { frame.0 < length self.old.image }
        requires node { HasNode pool.old frame.0 self.old }
        ensures scan { self.new ≡ after_sweep OneOwner self.old frame fresh found }
        ensures nodes { length pool.new + length self.new.swept ≡ length pool.old + length self.old.swept }
    {
        self.note(
            pool,
            Swept {
                frame,
                mark: found,
                fresh,
            },
        );
        if found == 1 || fresh {
            self.image.item_mut(frame.0 as usize).begin();
        }
        self.at = Some(frame);
    }

    /// Has copied the next cell of the frame swept last.
    fn copy(&mut self, found: u64)
        requires { HasPlace self.old }
        ensures { self.new ≡ with_cell self.old self.old.at found }
    {
        if let Some(at) = self.at {
            self.image.item_mut(at.0 as usize).push(found);
        }
    }

    /// The number of cells of a frame that were copied so far.
    pub(crate) fn copied(&self, frame: FrameNo) -> usize
        ensures { result ≡ length (copy_of self.now frame.0) }
    {
        match self.image.as_slice().get(frame.0 as usize) {
            Some(copy) => copy.copied(),
            None => 0,
        }
    }
}

impl View {
    ghost use Rattle.std.specs.Prelude.{IsSomeAnd};
    ghost use Rattle.core_state.specs.declared.step.ScanStep.{ScanStep};
    ghost use Rattle.core_state.specs.Room.{HasNode, HasPlace, swept_in};
    ghost use Rattle.core_state.specs.ScanSteps.{view_after_scan};

    /// Has swept a frame, whose dirty word was found so.
    pub(crate) fn sweep(
        &mut self,
        pool: &mut LinkedList<Swept, Global>,
        frame: FrameNo,
        fresh: bool,
        found: u64,
    )
        requires frame { IsSomeAnd self.old.scan (λ s. frame.0 < length s.image) }
        requires node { IsSomeAnd self.old.scan (HasNode pool.old frame.0) }
        ensures view { self.new ≡ view_after_scan OneOwner self.old (ScanStep.Sweep frame fresh) found }
        ensures nodes { length pool.new + swept_in self.new.scan ≡ length pool.old + swept_in self.old.scan }
    {
        if let Some(scan) = &mut self.scan {
            scan.sweep(pool, frame, fresh, found);
        }
    }

    /// Has copied the next cell of the frame swept last.
    pub(crate) fn copy(&mut self, found: u64)
        requires { IsSomeAnd self.old.scan HasPlace }
        ensures { self.new ≡ view_after_scan OneOwner self.old ScanStep.Copy found }
    {
        if let Some(scan) = &mut self.scan {
            scan.copy(found);
        }
    }
}
