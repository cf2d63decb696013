//! The frame space.

ghost use Rattle.std.specs.Prelude.{◌≡◌};
ghost use Rattle.evac_model.specs.declared.space.IsolateFault.{IsolateFault};

use crate::kept::Kept;
use evac_model::{
    BlockNo, FrameNo, Geometry, IsolateFault, Kind, LeaseFault, MoveLease, MoveLeaseFault,
    NotEmpty, OutOfMemory, PageNo, SpaceAction, StartPage, Unmovable,
};
use std::alloc::Global;
use std::marker::Model;

/// Who gets which frame of a machine, and which blocks are isolated and offline. Contracts see the
/// space at its opening and the actions since, from which everything else follows. There is memory
/// for each return, undo, offline and online that may follow: only leases and isolations take more.
#[derive(Debug, Drop)]
pub struct Space {
    kept: Kept,
    // what the space was opened with: contracts see it as the opening, and no call reads it
    start: Vec<StartPage>,
    journal: Vec<SpaceAction>,
    // how many actions may follow without another lease or isolation
    owed: usize,
}

impl Model for Space {
    ghost use Rattle.std.specs.Prelude.{vec_len, vec_capacity};
    ghost use Rattle.space.specs.JournaledSpace.{JournaledSpace};
    ghost use Rattle.space.specs.KeptJournal.{journaled, IsLeftBy};

    ghost Value = { JournaledSpace };

    ghost view = { λ a. journaled a.kept a.start.items a.journal.items };

    ghost invariant = { λ a. IsLeftBy (journaled a.kept a.start.items a.journal.items) a.kept (vec_len a.journal) a.owed (vec_capacity a.journal) };
}

/// All of a space but its journal, to be given back as one.
#[derive(Drop)]
struct Rest {
    kept: Kept,
    start: Vec<StartPage>,
}

/// The fault that a frame out for an unmovable page makes.
fn unmovable(refused: Unmovable) -> IsolateFault
    ensures { result ≡ IsolateFault.Unmovable refused.frame refused.page }
{
    IsolateFault::Unmovable {
        frame: refused.frame,
        page: refused.page,
    }
}

impl Space {
    ghost use Rattle.std.specs.Prelude.{◌≡◌, ◌≢◌, ℕ, ◌<◌, ◌≤◌, [], true, false, length, Option, None, Some, Ok, Err, IfOk, IfErr, OnOk, OnErr};
    ghost use Rattle.evac_model.specs.Geometry.{IsWithinLimits, frame_count};
    ghost use Rattle.evac_model.specs.Numbers.{is_in};
    ghost use Rattle.evac_model.specs.SpaceJournal.{space_at_start, out_for, IsPossible, IsPossibleJournal};
    ghost use Rattle.evac_model.specs.declared.space.SpaceAction.{SpaceAction};
    ghost use Rattle.evac_model.specs.declared.evacuation.MoveLease.{MoveLease};
    ghost use Rattle.evac_model.specs.declared.names.FrameNo.{FrameNo};
    ghost use Rattle.evac_model.specs.declared.names.Kind.{Kind};
    ghost use Rattle.evac_model.specs.declared.names.PageNo.{PageNo};
    ghost use Rattle.evac_model.specs.declared.space.LeaseFault.{LeaseFault};
    ghost use Rattle.page_blocks.specs.Marks.{page_and_kind};
    ghost use Rattle.evac_model.specs.declared.space.MoveLeaseFault.{MoveLeaseFault};
    ghost use Rattle.space.specs.JournaledSpace.{space_state, with_action, IsLeasableFor, AreStartFrames};
    ghost use Rattle.space.specs.SpaceInside.{IsSpace};
    ghost use Rattle.space.specs.Refusals.{frames_out_of, first_unmovable, next_out, IsRefusedBy, emptiness};

    /// Opens the space of a machine: the frames of the start pages are out, the blocks that aren't
    /// plugged are offline, and all other frames are free. It looks at each frame a few times.
    pub fn open(
        alloc: Global,
        g: Geometry,
        online: Kind,
        start: &[StartPage],
    ) -> Result<Space, OutOfMemory>
        requires { AreStartFrames g online start.now }
        ensures { IfOk result (λ sp. sp ≡ record { sizes = g; online = online; opening = space_at_start g start.now; journal = [] }) }
    {
        let kept = Kept::open(alloc, &g, online, start)?;
        let owed = kept.count_out() + (g.managed() - g.plugged()) as usize;
        let start = start.to_vec(alloc)?;
        let journal = Vec::with_capacity(alloc, owed)?;
        Ok(Space {
            kept,
            start,
            journal,
            owed,
        })
    }

    /// The sizes of the machine.
    pub fn geometry(&self) -> Geometry
        ensures sizes { result ≡ self.now.sizes }
        ensures within { IsWithinLimits self.now.sizes }
        ensures space { IsSpace self.now.sizes self.now.online (space_state self.now) }
    {
        self.kept.geometry()
    }

    /// The actions so far, in order.
    pub fn journal(&self) -> &[SpaceAction]
        ensures actions { result.now ≡ self.now.journal }
        ensures possible { IsPossibleJournal self.now.sizes self.now.online self.now.opening self.now.journal }
    {
        &self.journal
    }

    /// The actions so far, in order. The memory of the rest is given back, and none is taken.
    pub fn into_journal(self) -> Vec<SpaceAction>
        ensures { result.items ≡ self.journal }
    {
        let Space {
            kept,
            start,
            journal,
            owed: _,
        } = self;
        let _rest = Rest { kept, start };
        journal
    }

    /// The page and the kind that a frame is out for, if it is out. A number that is no frame's is not.
    pub fn out_at(&self, frame: FrameNo) -> Option<(PageNo, Kind)>
        ensures { result ≡ page_and_kind (out_for (space_state self.now) frame.0) }
    {
        self.kept.out_at(frame)
    }

    /// The first frame of a managed block that is out, and the page that it is out for; where a frame is given,
    /// the first one of the block behind it. It looks at the frames of the block.
    pub fn out_after(&self, b: BlockNo, after: Option<FrameNo>) -> Option<(FrameNo, PageNo)>
        requires { b.0 < self.now.sizes.managed }
        ensures { result ≡ next_out self.now.sizes (space_state self.now) b.0 after }
    {
        self.kept.out_after(b, after)
    }

    /// Whether a block is isolated. A block that isn't a managed one is not.
    pub fn is_isolated(&self, b: BlockNo) -> bool
        ensures { result ≡ is_in b.0 (space_state self.now).isolated }
    {
        self.kept.is_isolated(b)
    }

    /// Whether a block is offline. A block that isn't a managed one is not.
    pub fn is_offline(&self, b: BlockNo) -> bool
        ensures { result ≡ is_in b.0 (space_state self.now).offline }
    {
        self.kept.is_offline(b)
    }

    /// Leases a frame for a page of that kind to a caller: the driver, 0, or an owner, 1 to 16. It is
    /// the frame that the rules of the journal choose. It fails where no frame that takes the page is
    /// free, which says how long the journal was then, or where there is no memory.
    pub fn lease(&mut self, who: u32, page: PageNo, kind: Kind) -> Result<FrameNo, LeaseFault>
        requires caller { who ≤ 16 }
        requires page { page.0 < self.old.sizes.pages }
        ensures leased { IfOk result (λ frame. self.new ≡ with_action (SpaceAction.Lease who frame page kind) self.old) }
        ensures possible { IfOk result (λ frame. IsPossible self.old.sizes self.old.online (space_state self.old) (SpaceAction.Lease who frame page kind)) }
        ensures free { IfOk result (λ frame. IsLeasableFor self.old kind frame.0) }

        ensures at { (at : ℕ) → result ≡ Err (LeaseFault.NoFrame at) → at ≡ length self.old.journal }
        ensures none_free { (at frame : ℕ) → result ≡ Err (LeaseFault.NoFrame at) → ¬ IsLeasableFor self.old kind frame }
        ensures err { OnErr result (self.new ≡ self.old) }
    {
        if self.journal.reserve(self.owed + 2).is_err() {
            return Err(LeaseFault::OutOfMemory);
        }
        match self.kept.lease(who, page, &kind) {
            None => Err(LeaseFault::NoFrame {
                at: self.journal.len() as u64,
            }),
            Some(frame) => {
                self.owed += 1;
                self.journal.push_reserved(SpaceAction::Lease {
                    who,
                    frame,
                    page,
                    kind,
                });
                Ok(frame)
            }
        }
    }

    /// Leases a target to the driver for the page of the first frame that is out in an isolated block,
    /// or of the first one behind a frame, after Linux's `alloc_migration_target`. It is the frame that the
    /// rules of the journal choose for a movable page, the only kind in an isolated block. `None` comes where
    /// no such frame is out. It fails where no frame that takes the page is free, which says how long the
    /// journal was then, or where there is no memory. It looks at the frames of the block.
    pub fn lease_for_move(
        &mut self,
        b: BlockNo,
        after: Option<FrameNo>,
    ) -> Result<Option<MoveLease>, MoveLeaseFault>
        requires { is_in b.0 (space_state self.old).isolated ≡ true }
        ensures next { (lease : MoveLease) → result ≡ Ok (Some lease) → next_out self.old.sizes (space_state self.old) b.0 after ≡ Some (lease.from, lease.page) }
        ensures leased { (lease : MoveLease) → result ≡ Ok (Some lease) → self.new ≡ with_action (SpaceAction.MoveLease lease.target lease.page) self.old }
        ensures possible { (lease : MoveLease) → result ≡ Ok (Some lease) → IsPossible self.old.sizes self.old.online (space_state self.old) (SpaceAction.MoveLease lease.target lease.page) }
        ensures free { (lease : MoveLease) → result ≡ Ok (Some lease) → IsLeasableFor self.old Kind.Movable lease.target.0 }

        ensures none { result ≡ Ok None → next_out self.old.sizes (space_state self.old) b.0 after ≡ None }
        ensures same { result ≡ Ok None → self.new ≡ self.old }

        ensures no_target { (from : FrameNo) (page : PageNo) (at : ℕ) → result ≡ Err (MoveLeaseFault.NoTarget from page at) → next_out self.old.sizes (space_state self.old) b.0 after ≡ Some (from, page) }
        ensures at { (from : FrameNo) (page : PageNo) (at : ℕ) → result ≡ Err (MoveLeaseFault.NoTarget from page at) → at ≡ length self.old.journal }
        ensures none_free { (from : FrameNo) (page : PageNo) (at frame : ℕ) → result ≡ Err (MoveLeaseFault.NoTarget from page at) → ¬ IsLeasableFor self.old Kind.Movable frame }
        ensures err { OnErr result (self.new ≡ self.old) }
    {
        let Some((from, page)) = self.kept.out_after(b, after) else {
            return Ok(None);
        };
        if self.journal.reserve(self.owed + 2).is_err() {
            return Err(MoveLeaseFault::OutOfMemory);
        }
        match self.kept.lease(0, page, &Kind::Movable) {
            None => Err(MoveLeaseFault::NoTarget {
                from,
                page,
                at: self.journal.len() as u64,
            }),
            Some(target) => {
                self.owed += 1;
                self.journal.push_reserved(SpaceAction::MoveLease {
                    frame: target,
                    page,
                });
                Ok(Some(MoveLease { from, page, target }))
            }
        }
    }

    /// Takes a frame back from a caller: the driver, 0, or an owner, 1 to 16. In an isolated block it
    /// is kept aside; else it goes into the caller's cache, and where 8 were there, the one that was
    /// put first is free again. It takes no memory.
    pub fn give_back(&mut self, who: u32, frame: FrameNo)
        requires caller { who ≤ 16 }
        requires out { out_for (space_state self.old) frame.0 ≢ None }
        ensures returned { self.new ≡ with_action (SpaceAction.Return who frame) self.old }
        ensures possible { IsPossible self.old.sizes self.old.online (space_state self.old) (SpaceAction.Return who frame) }
    {
        self.kept.give_back(who, frame);
        self.owed -= 1;
        self.journal
            .push_reserved(SpaceAction::Return { who, frame });
    }

    /// Isolates a block, after Linux's `start_isolate_page_range`: no frame of it is leased from then
    /// on. It fails at the first frame of the block that is out for an unmovable page, or where there
    /// is no memory.
    pub fn isolate(&mut self, b: BlockNo) -> Result<(), IsolateFault>
        requires managed { b.0 < self.old.sizes.managed }
        requires there { is_in b.0 (space_state self.old).isolated ≡ false }
        ensures ok { OnOk result (self.new ≡ with_action (SpaceAction.Isolate b) self.old) }
        ensures possible { OnOk result (IsPossible self.old.sizes self.old.online (space_state self.old) (SpaceAction.Isolate b)) }

        ensures movable { OnOk result (first_unmovable self.old.sizes (space_state self.old) b.0 ≡ None) }
        ensures unmovable { IfErr result (IsRefusedBy (first_unmovable self.old.sizes (space_state self.old) b.0)) }
        ensures err { OnErr result (self.new ≡ self.old) }
    {
        if self.journal.reserve(self.owed + 3).is_err() {
            return Err(IsolateFault::OutOfMemory);
        }
        if let Err(refused) = self.kept.isolate(b) {
            return Err(unmovable(refused));
        }
        self.owed += 2;
        self.journal
            .push_reserved(SpaceAction::Isolate { block: b });
        Ok(())
    }

    /// Takes the isolation of a block back, after Linux's `undo_isolate_page_range`: its frames that
    /// aren't out are free again, those given back since among them. It takes no memory.
    pub fn undo(&mut self, b: BlockNo)
        requires isolated { is_in b.0 (space_state self.old).isolated ≡ true }
        requires there { is_in b.0 (space_state self.old).offline ≡ false }
        ensures undone { self.new ≡ with_action (SpaceAction.Undo b) self.old }
        ensures possible { IsPossible self.old.sizes self.old.online (space_state self.old) (SpaceAction.Undo b) }
    {
        self.kept.undo(b);
        self.owed -= 2;
        self.journal.push_reserved(SpaceAction::Undo { block: b });
    }

    /// Takes an isolated block away, after Linux's `offline_pages`. It fails at the first frame of the
    /// block that is out, and then changes nothing. It takes no memory.
    pub fn offline(&mut self, b: BlockNo) -> Result<(), NotEmpty>
        requires isolated { is_in b.0 (space_state self.old).isolated ≡ true }
        requires there { is_in b.0 (space_state self.old).offline ≡ false }
        ensures empty { result ≡ emptiness (frames_out_of self.old.sizes (space_state self.old) b.0) }
        ensures ok { OnOk result (self.new ≡ with_action (SpaceAction.Offline b) self.old) }
        ensures possible { OnOk result (IsPossible self.old.sizes self.old.online (space_state self.old) (SpaceAction.Offline b)) }
        ensures err { OnErr result (self.new ≡ self.old) }
    {
        self.kept.take_offline(b)?;
        self.owed -= 1;
        self.journal
            .push_reserved(SpaceAction::Offline { block: b });
        Ok(())
    }

    /// Gives an offline block back, after Linux's `online_pages`: all its frames are free. It takes no
    /// memory.
    pub fn online(&mut self, b: BlockNo)
        requires { is_in b.0 (space_state self.old).offline ≡ true }
        ensures given { self.new ≡ with_action (SpaceAction.Online b) self.old }
        ensures possible { IsPossible self.old.sizes self.old.online (space_state self.old) (SpaceAction.Online b) }
    {
        self.kept.bring_online(b);
        self.owed -= 1;
        self.journal.push_reserved(SpaceAction::Online { block: b });
    }
}
