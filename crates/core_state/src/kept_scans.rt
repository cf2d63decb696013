//! What the steps of the scanner change in what a core keeps.

ghost use Rattle.std.specs.Prelude.{◌≡◌, ◌<◌, ◌≤◌, length};
ghost use Rattle.core_state.specs.declared.keeper.Keeper.TheVariants.{OneOwner};

use crate::kept::{Kept, word_at, write_word};
use crate::opening::Opening;
use crate::step::ScanStep;
use evac_model::FrameNo;
use evac_words::{cell_index, dirty_index};

impl Kept {
    ghost use Rattle.core_state.specs.declared.step.ScanStep.{ScanStep};
    ghost use Rattle.core_state.specs.Sound.{Sound};
    ghost use Rattle.core_state.specs.Room.{IsSmall, HasRoom};
    ghost use Rattle.core_state.specs.Views.{view_of};
    ghost use Rattle.core_state.specs.ScanSteps.{AllowedScan, scan_index};
    ghost use Rattle.core_state.specs.Stepped.{scan_found, snapshot_after_scan};

    /// Clears the dirty word of a frame, and gives the word as it was.
    fn sweep(&mut self, seat: usize, frame: FrameNo, fresh: bool) -> u64
        requires seat { seat < length self.old.snapshot.views }
        requires sound { Sound self.old.opening self.old.snapshot.words self.old.snapshot.views }
        requires room { HasRoom self.old.opening self.old.snapshot.views self.old.room }
        requires may { AllowedScan self.old.opening (view_of self.old.snapshot.views seat) (ScanStep.Sweep frame fresh) }
        ensures found { result ≡ scan_found self.old.opening self.old.snapshot.words (view_of self.old.snapshot.views seat) (ScanStep.Sweep frame fresh) }
        ensures snapshot { self.new.snapshot ≡ snapshot_after_scan OneOwner self.old.opening self.old.snapshot seat (ScanStep.Sweep frame fresh) }
        ensures opening { self.new.opening ≡ self.old.opening }
        ensures room { HasRoom self.new.opening self.new.snapshot.views self.new.room }
        ensures notices { self.new.room.notices ≡ self.old.room.notices }
    {
        let index = dirty_index(self.opening.pages, frame.0) as usize;
        let found = word_at(&self.snapshot.words, index);
        write_word(&mut self.snapshot.words, index, 0);
        let view = self.snapshot.views.item_mut(seat);
        view.sweep(&mut self.room.swept, frame, fresh, found);
        found
    }

    /// The index of the next cell of the frame swept last.
    fn next_cell(&self, seat: usize) -> usize
        requires seat { seat < length self.now.snapshot.views }
        requires small { IsSmall self.now.opening }
        requires may { AllowedScan self.now.opening (view_of self.now.snapshot.views seat) ScanStep.Copy }
        ensures { result ≡ scan_index self.now.opening (view_of self.now.snapshot.views seat).scan ScanStep.Copy }
    {
        let Opening {
            cells,
            frames,
            pages,
            ..
        } = &self.opening;
        match &self.snapshot.views.as_slice()[seat].scan {
            None => 0,
            Some(scan) => match scan.at {
                None => 0,
                Some(at) => {
                    let cell = scan.copied(at) as u32;
                    cell_index(*pages, *frames, *cells, at.0, cell) as usize
                }
            },
        }
    }

    /// Copies the next cell of the frame swept last, and gives what it had.
    fn copy(&mut self, seat: usize) -> u64
        requires seat { seat < length self.old.snapshot.views }
        requires sound { Sound self.old.opening self.old.snapshot.words self.old.snapshot.views }
        requires room { HasRoom self.old.opening self.old.snapshot.views self.old.room }
        requires may { AllowedScan self.old.opening (view_of self.old.snapshot.views seat) ScanStep.Copy }
        ensures found { result ≡ scan_found self.old.opening self.old.snapshot.words (view_of self.old.snapshot.views seat) ScanStep.Copy }
        ensures snapshot { self.new.snapshot ≡ snapshot_after_scan OneOwner self.old.opening self.old.snapshot seat ScanStep.Copy }
        ensures opening { self.new.opening ≡ self.old.opening }
        ensures room { HasRoom self.new.opening self.new.snapshot.views self.new.room }
        ensures notices { self.new.room.notices ≡ self.old.room.notices }
    {
        let index = self.next_cell(seat);
        let found = word_at(&self.snapshot.words, index);
        self.snapshot.views.item_mut(seat).copy(found);
        found
    }

    /// Makes a step of the scanner, and gives the word that it found.
    pub(crate) fn scan_step(&mut self, seat: usize, step: ScanStep) -> u64
        requires seat { seat < length self.old.snapshot.views }
        requires sound { Sound self.old.opening self.old.snapshot.words self.old.snapshot.views }
        requires room { HasRoom self.old.opening self.old.snapshot.views self.old.room }
        requires may { AllowedScan self.old.opening (view_of self.old.snapshot.views seat) step }
        ensures found { result ≡ scan_found self.old.opening self.old.snapshot.words (view_of self.old.snapshot.views seat) step }
        ensures snapshot { self.new.snapshot ≡ snapshot_after_scan OneOwner self.old.opening self.old.snapshot seat step }
        ensures opening { self.new.opening ≡ self.old.opening }
        ensures room { HasRoom self.new.opening self.new.snapshot.views self.new.room }
        ensures notices { self.new.room.notices ≡ self.old.room.notices }
    {
        match step {
            ScanStep::Sweep { frame, fresh } => self.sweep(seat, frame, fresh),
            ScanStep::Copy => self.copy(seat),
        }
    }
}
