//! The evacuation of a block.

ghost use Rattle.std.specs.Prelude.{◌≡◌};
ghost use Rattle.evacuate.specs.Tale as tale;

use crate::action::EvacAction;
use crate::answers::answers;
use crate::found::is_pinned;
use crate::seen::EvacSeen;
use crate::stage::{Attempt, Stage};
use crate::words::{FRAMES, five_words, keep_word, no_words};
use evac_model::{BlockNo, FrameNo, Geometry, MoveLease};
use std::marker::Model;

/// An evacuation of a managed block. It isolates the block and makes up to five rounds over the
/// frames that are out in it: it leases a target for each frame's page and tries to move the page.
/// A round in which no page was busy ends it. It keeps the words found in a fixed array, and takes
/// no memory. `docs/EVACUATION.md` says what it does and when it fails.
#[derive(Debug, Drop)]
pub struct Evacuation {
    geometry: Geometry,
    block: BlockNo,
    stage: Stage,
    round: u32,
    busy: Option<MoveLease>,
    words: [[u64; 5]; FRAMES],
}

impl Model for Evacuation {
    ghost use Rattle.evacuate.specs.Evacuating.{Evacuating};
    ghost use Rattle.evacuate.specs.EvacuationInside.{IsEvacuationInside};

    ghost Value = { Evacuating };

    ghost view = { λ e. record { sizes = e.geometry; block = e.block; stage = e.stage; round = e.round; busy = e.busy; words = e.words } };

    ghost invariant = { λ e. IsEvacuationInside e.geometry e.block e.stage e.round e.busy };
}

/// The frame that is given back: the old frame of a page that was moved, else the target.
fn frame_back(attempt: &Attempt) -> FrameNo
    ensures { result ≡ tale.frame_back attempt.now }
{
    match attempt.found {
        None => attempt.lease.from,
        Some(_) => attempt.lease.target,
    }
}

impl Evacuation {
    ghost use Rattle.std.specs.Prelude.{◌≡◌, ◌+◌, ◌*◌, ◌<◌, ◌≤◌, true, length};
    ghost use Rattle.evac_model.specs.declared.evacuation.EvacCause.{EvacCause};
    ghost use Rattle.evac_model.specs.SpaceJournal.{is_frame_of};
    ghost use Rattle.evacuate.specs.Tale as tale;
    ghost use Rattle.evacuate.specs.Evacuating as spec;
    ghost use Rattle.evacuate.specs.UnderWay.{GoesBy, GoesOnBy, LeasedWasBusy, HasEmptied, HasFailed, log_of};

    /// The evacuation of a managed block, before its first action.
    pub fn new(g: Geometry, b: BlockNo) -> Evacuation
        requires { b.0 < g.managed }
        ensures start { result ≡ spec.evacuation_at_start g b }
        ensures goes_by { GoesBy result tale.nothing_tried }
    {
        // The limits of the geometry bound the frames of a block.
        let _frames = g.block();
        Evacuation {
            geometry: g,
            block: b,
            stage: Stage::Isolating,
            round: 0,
            busy: None,
            words: no_words(),
        }
    }

    /// The block.
    pub fn block(&self) -> BlockNo
        ensures block { result ≡ self.now.block }
        ensures managed { result.0 < self.now.sizes.managed }
    {
        self.block
    }

    /// The action that the evacuation waits for: what `next` gave last, or the first one.
    pub fn action(&self) -> EvacAction
        ensures { result ≡ spec.action_of self.now }
    {
        let block = self.block;
        match &self.stage {
            Stage::Isolating => EvacAction::Isolate { block },
            Stage::Leasing { after } => EvacAction::Lease {
                block,
                after: *after,
            },
            Stage::Moving { lease } => EvacAction::Move(*lease),
            Stage::Returning { attempt } => EvacAction::GiveBack {
                frame: frame_back(attempt),
            },
            Stage::Undoing { .. } => EvacAction::Undo { block },
            Stage::Emptied => EvacAction::Emptied,
            Stage::Failed { cause } => EvacAction::Failed(*cause),
        }
    }

    /// The place of a frame in the block.
    fn place_of(&self, frame: FrameNo) -> u32
        requires { is_frame_of self.now.sizes self.now.block.0 frame.0 ≡ true }
        ensures place { result ≡ spec.place_of self.now.sizes self.now.block frame }
        ensures few { result < 512 }
    {
        // The limits of the geometry bound the frames of a block.
        let _frames = self.geometry.block();
        let (first, _) = self.geometry.frames_of(self.block);
        frame.0 - first.0
    }

    /// No later frame of the block is out: the round is over.
    fn end_round(&mut self)
        ensures { self.new ≡ spec.round_ended self.old self.old.busy }
    {
        match self.busy {
            None => self.stage = Stage::Emptied,
            Some(lease) => {
                if self.round < 4 {
                    self.round += 1;
                    self.busy = None;
                    self.stage = Stage::Leasing { after: None };
                } else {
                    let place = self.place_of(lease.from);
                    self.stage = Stage::busy(lease, five_words(&self.words, place));
                }
            }
        }
    }

    /// The target of a page that wasn't moved is given back.
    fn end_refused(&mut self, lease: MoveLease, word: u64)
        requires { is_frame_of self.old.sizes self.old.block.0 lease.from.0 ≡ true }
        ensures { self.new ≡ spec.not_moved self.old lease word }
    {
        if is_pinned(word, lease.from) {
            self.stage = Stage::pinned(lease, word);
        } else {
            let place = self.place_of(lease.from);
            keep_word(&mut self.words, place, self.round, word);
            self.busy = self.busy.or(Some(lease));
            self.stage = Stage::Leasing {
                after: Some(lease.from),
            };
        }
    }

    /// The frame of an attempt is given back.
    fn end_attempt(&mut self, attempt: Attempt)
        requires { is_frame_of self.old.sizes self.old.block.0 attempt.lease.from.0 ≡ true }
        ensures { self.new ≡ spec.attempt_over self.old attempt.lease attempt.found }
    {
        match attempt.found {
            None => {
                self.stage = Stage::Leasing {
                    after: Some(attempt.lease.from),
                }
            }
            Some(word) => self.end_refused(attempt.lease, word),
        }
    }

    /// Takes in an answer that fits.
    fn hear(&mut self, seen: &EvacSeen)
        requires { spec.is_answer self.old seen.now ≡ true }
        ensures { self.new ≡ spec.after_answer self.old self.old.stage seen.now }
    {
        let stage = self.stage;
        match (&stage, seen) {
            (Stage::Isolating, EvacSeen::Isolated) => self.stage = Stage::Leasing { after: None },
            (Stage::Isolating, EvacSeen::Refused { frame, page }) => {
                self.stage = Stage::refused(*frame, *page)
            }
            (Stage::Leasing { .. }, EvacSeen::Leased(lease)) => {
                self.stage = Stage::Moving { lease: *lease }
            }
            (Stage::Leasing { .. }, EvacSeen::NoneLeft) => self.end_round(),
            (Stage::Leasing { .. }, EvacSeen::NoTarget { from, page, at }) => {
                self.stage = Stage::without_target(*from, *page, *at)
            }
            (Stage::Moving { lease }, EvacSeen::Moved) => self.stage = Stage::tried(*lease, None),
            (Stage::Moving { lease }, EvacSeen::Found { word }) => {
                self.stage = Stage::tried(*lease, Some(*word))
            }
            (Stage::Returning { attempt }, EvacSeen::Done) => self.end_attempt(*attempt),
            (Stage::Undoing { cause }, EvacSeen::Done) => {
                self.stage = Stage::Failed { cause: *cause }
            }
            _ => {}
        }
    }

    /// What the evacuation does next, after `seen` was told of its last action. What doesn't answer
    /// that action changes nothing, and the action is given again: so `Start` gives the first one.
    pub fn next(&mut self, seen: EvacSeen) -> EvacAction
        ensures state { self.new ≡ spec.evacuation_after self.old seen }
        ensures action { result ≡ spec.action_of self.new }
        ensures goes_on { (t : tale.Tale) → GoesBy self.old t → spec.is_answer self.old seen ≡ true → LeasedWasBusy t seen → GoesOnBy self.old self.new t seen }
        ensures emptied { (t : tale.Tale) → result ≡ EvacAction.Emptied → GoesBy self.new t → HasEmptied self.new.block t (log_of self.new t) }
        ensures failed { (t : tale.Tale) (cause : EvacCause) → result ≡ EvacAction.Failed cause → GoesBy self.new t → HasFailed self.new.sizes self.new.block t (log_of self.new t) cause }
        ensures few { (t : tale.Tale) → GoesBy self.new t → length (log_of self.new t) ≤ 15 * self.new.sizes.block + 7 }
    {
        if answers(self.geometry, self.block, &self.stage, &seen) {
            self.hear(&seen);
        }
        self.action()
    }
}
