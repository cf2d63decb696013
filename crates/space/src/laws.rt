//! Laws of spaces and their journals, in the subject's own words. Each function has an empty body: its
//! contract is the law.

ghost use Rattle.std.specs.Prelude.{◌≡◌, ◌≢◌, ◌↔◌, ℕ, false, true, List, [], ◌∷◌, ◌++◌, None, Some};
ghost use Rattle.evac_model.specs.declared.names.Kind.{Kind};
ghost use Rattle.evac_model.specs.declared.scenario.StartPage.{StartPage};
ghost use Rattle.evac_model.specs.declared.space.SpaceAction.{SpaceAction};
ghost use Rattle.evac_model.specs.Geometry.{Sizes, IsWithinLimits};
ghost use Rattle.evac_model.specs.FreeRuns.{fits};
ghost use Rattle.evac_model.specs.SpaceJournal.{SpaceState, Out, Leased, lease_of, after_lease, after_action, space_after, space_at_start, out_for, is_frame_in, IsPossible, IsPossibleJournal};
ghost use Rattle.space.specs.JournaledSpace.{JournaledSpace, space_state, IsLeasableFor, AreStartFrames};
ghost use Rattle.space.specs.SpaceInside.{IsSpace};

/// What always holds of a space holds behind a lease, too.
pub fn leases_keep_spaces()
    ensures { (s : Sizes) (online : Kind) (st : SpaceState) (who page : ℕ) (kind : Kind) (l : Leased) → IsWithinLimits s → IsSpace s online st → lease_of s online st who kind ≡ Some l → IsSpace s online (after_lease st (Some l) page kind) }
{}

/// A leased frame was free for the page.
pub fn leased_frames_are_free()
    ensures { (v : JournaledSpace) (who : ℕ) (kind : Kind) (l : Leased) → IsWithinLimits v.sizes → IsSpace v.sizes v.online (space_state v) → lease_of v.sizes v.online (space_state v) who kind ≡ Some l → IsLeasableFor v kind l.frame }
{}

/// A lease is refused exactly where no frame is free for the page.
pub fn refused_leases_have_no_frame()
    ensures { (v : JournaledSpace) (who : ℕ) (kind : Kind) → IsWithinLimits v.sizes → IsSpace v.sizes v.online (space_state v) → (lease_of v.sizes v.online (space_state v) who kind ≡ None) ↔ ((frame : ℕ) → ¬ IsLeasableFor v kind frame) }
{}

/// What always holds of a space holds at its opening.
pub fn openings_are_spaces()
    ensures { (s : Sizes) (online : Kind) (start : List StartPage) → IsWithinLimits s → AreStartFrames s online start → IsSpace s online (space_at_start s start) }
{}

/// What always holds of a space holds behind each action that it may take, and behind a journal of such
/// actions.
pub fn spaces_stay_spaces()
    ensures action { (s : Sizes) (online : Kind) (st : SpaceState) (a : SpaceAction) → IsWithinLimits s → IsSpace s online st → IsPossible s online st a → IsSpace s online (after_action s online st a) }
    ensures journal { (s : Sizes) (online : Kind) (st : SpaceState) (journal : List SpaceAction) → IsWithinLimits s → IsSpace s online st → IsPossibleJournal s online st journal → IsSpace s online (space_after s online st journal) }
{}

/// A frame that is out lies in no offline block.
pub fn no_frame_out_is_offline()
    ensures { (s : Sizes) (online : Kind) (st : SpaceState) (journal : List SpaceAction) (frame : ℕ) → IsWithinLimits s → IsSpace s online st → IsPossibleJournal s online st journal → out_for (space_after s online st journal) frame ≢ None → is_frame_in s (space_after s online st journal).offline frame ≡ false }
{}

/// A frame that is out lies in a block that takes pages of its kind.
pub fn frames_out_fit()
    ensures { (s : Sizes) (online : Kind) (st : SpaceState) (journal : List SpaceAction) (frame : ℕ) (x : Out) → IsWithinLimits s → IsSpace s online st → IsPossibleJournal s online st journal → out_for (space_after s online st journal) frame ≡ Some x → fits s online x.kind frame ≡ true }
{}

/// A frame that is out and lies in an isolated block is out for a movable page.
pub fn frames_out_in_isolated_blocks_are_movable()
    ensures { (s : Sizes) (online : Kind) (st : SpaceState) (journal : List SpaceAction) (frame : ℕ) (x : Out) → IsWithinLimits s → IsSpace s online st → IsPossibleJournal s online st journal → is_frame_in s (space_after s online st journal).isolated frame ≡ true → out_for (space_after s online st journal) frame ≡ Some x → x.kind ≡ Kind.Movable }
{}

/// A journal goes on with an action exactly where the space that it leaves may take it.
pub fn journals_go_on()
    ensures state { (s : Sizes) (online : Kind) (st : SpaceState) (journal : List SpaceAction) (a : SpaceAction) → space_after s online st (journal ++ a ∷ []) ≡ after_action s online (space_after s online st journal) a }
    ensures possible { (s : Sizes) (online : Kind) (st : SpaceState) (journal : List SpaceAction) (a : SpaceAction) → IsPossibleJournal s online st (journal ++ a ∷ []) ↔ (IsPossibleJournal s online st journal × IsPossible s online (space_after s online st journal) a) }
{}
