//! Laws of actions. Each function has an empty body: its contract is the law.

ghost use Rattle.std.specs.Prelude.{◌≡◌, ℕ, ◌<◌, false, List};
ghost use Rattle.evac_model.specs.declared.names.Kind.{Kind};
ghost use Rattle.evac_model.specs.declared.scenario.StartPage.{StartPage};
ghost use Rattle.evac_model.specs.Geometry.{Sizes};
ghost use Rattle.evac_model.specs.SpaceJournal.{is_frame_in};
ghost use Rattle.evac_words.specs.Word.{mapped_bit, frame_of};
ghost use Rattle.core_state.specs.CoreOpens.{opening_words};
ghost use Rattle.core_state.specs.Words.{entry_word_of};
ghost use Rattle.machine.specs.declared.action.Action.{Action};
ghost use Rattle.machine.specs.CellNumbers.{HaveNumbersInCells};
ghost use Rattle.machine.specs.Consistent.{IsSetting, IsConsistent};
ghost use Rattle.machine.specs.Made.{made};
ghost use Rattle.machine.specs.MayMake.{MayMake};
ghost use Rattle.machine.specs.Start.{MayStart, setting_at_start, world_at_start};
ghost use Rattle.machine.specs.World.{Setting, World, unplugged_now};

/// A machine that may start so is consistent at its start.
pub fn starts_are_consistent()
    ensures set { (s : Sizes) (online : Kind) (start : List StartPage) (budgets fails : List ℕ) → MayStart s online start budgets → IsSetting (setting_at_start s online start budgets fails) }
    ensures world { (s : Sizes) (online : Kind) (start : List StartPage) (budgets fails : List ℕ) → MayStart s online start budgets → IsConsistent (setting_at_start s online start budgets fails) (world_at_start s start budgets) }
{}

/// Each action that its actor may make keeps the world consistent.
pub fn actions_keep_consistency()
    ensures { (c : Setting) (seat : ℕ) (w : World) (action : Action) → IsSetting c → IsConsistent c w → MayMake c seat w action → IsConsistent c (made c seat w action).world }
{}

/// Between any two actions, no mapped page lies in an unplugged block.
pub fn mapped_pages_are_plugged()
    ensures { (c : Setting) (w : World) (page : ℕ) → IsSetting c → IsConsistent c w → page < c.sizes.pages → mapped_bit (entry_word_of w.snapshot.words page) ≡ 1 → is_frame_in c.sizes (unplugged_now c w) (frame_of (entry_word_of w.snapshot.words page)) ≡ false }
{}

/// Each cell of each frame has a number of 64 bits, at the start and after each action that its actor may make.
pub fn cells_have_64_bits()
    ensures start { (s : Sizes) (online : Kind) (start : List StartPage) (budgets fails : List ℕ) → MayStart s online start budgets → HaveNumbersInCells (setting_at_start s online start budgets fails) (opening_words s start) }
    ensures action { (c : Setting) (seat : ℕ) (w : World) (action : Action) → IsSetting c → IsConsistent c w → MayMake c seat w action → HaveNumbersInCells c w.snapshot.words → HaveNumbersInCells c (made c seat w action).world.snapshot.words }
{}
