//! Laws of the steps on mappings and of hand-overs. Each function has an empty body: its contract is the
//! law.

ghost use Rattle.std.specs.Prelude.{◌≢◌, ℕ, List};
ghost use Rattle.core_state.specs.declared.keeper.Keeper.{Keeper};
ghost use Rattle.core_state.specs.declared.opening.Opening.{Opening};
ghost use Rattle.core_state.specs.declared.step.MoveStep.{MoveStep};
ghost use Rattle.core_state.specs.declared.view.View.{View};
ghost use Rattle.core_state.specs.Parts.{Shaped, Turn, Tickets, Bounds};
ghost use Rattle.core_state.specs.Seats.{Seats};
ghost use Rattle.core_state.specs.Frames.{Frames};
ghost use Rattle.core_state.specs.Pages.{Pages};
ghost use Rattle.core_state.specs.NoticedWords.{NoticedWords};
ghost use Rattle.core_state.specs.Image.{Image};
ghost use Rattle.core_state.specs.Sound.{Sound};
ghost use Rattle.core_state.specs.Views.{Has};
ghost use Rattle.core_state.specs.MoveSteps.{AllowedMove};
ghost use Rattle.core_state.specs.Stepped.{words_after_move};
ghost use Rattle.core_moves.specs.Moved.{FramesFit, views_after_move};
ghost use Rattle.core_state.specs.HandOvers.{MayHandOver, views_after_hand_over};

/// A word is taken exactly where one view holds its page, and that view has the word as it is: each
/// step on a mapping that is allowed keeps this, and the right to move.
pub fn moves_keep_turn()
    ensures { (k : Keeper) (o : Opening) (words : List ℕ) (views : List View) (seat : ℕ) (v : View) (step : MoveStep) → Has views seat v → Shaped o words → Turn o words views → AllowedMove k o v step → Turn o (words_after_move words v step) (views_after_move k views seat v step) }
{}

/// The tickets are the numbers from the first ticket and below word 0, each once: each step on a mapping
/// keeps this.
pub fn moves_keep_tickets()
    ensures { (k : Keeper) (o : Opening) (words : List ℕ) (views : List View) (seat : ℕ) (v : View) (step : MoveStep) → Has views seat v → Shaped o words → Turn o words views → Tickets o words views → AllowedMove k o v step → Tickets o (words_after_move words v step) (views_after_move k views seat v step) }
{}

/// The bounds of pages stay: each step on a mapping keeps what holds of them, where each frame has room
/// in an entry word.
pub fn moves_keep_bounds()
    ensures { (k : Keeper) (o : Opening) (words : List ℕ) (views : List View) (seat : ℕ) (v : View) (step : MoveStep) → Has views seat v → FramesFit o → Shaped o words → Turn o words views → Tickets o words views → Bounds o words views → AllowedMove k o v step → Bounds o (words_after_move words v step) (views_after_move k views seat v step) }
{}

/// Each frame is mapped once or in one hand, and what a view stored in a frame in hand stands there:
/// each step on a mapping that is allowed keeps this.
pub fn moves_keep_frames()
    ensures { (k : Keeper) (o : Opening) (words : List ℕ) (views : List View) (seat : ℕ) (v : View) (step : MoveStep) → Has views seat v → FramesFit o → Shaped o words → Turn o words views → Frames o words views → Pages o words views → AllowedMove k o v step → Frames o (words_after_move words v step) (views_after_move k views seat v step) }
{}

/// Every reply is the answer to its call in ticket order, and a page is as its entries and its holder
/// left it: each step on a mapping that is allowed keeps this.
pub fn moves_keep_pages()
    ensures { (k : Keeper) (o : Opening) (words : List ℕ) (views : List View) (seat : ℕ) (v : View) (step : MoveStep) → Has views seat v → FramesFit o → Shaped o words → Turn o words views → Frames o words views → Tickets o words views → Bounds o words views → Pages o words views → AllowedMove k o v step → Pages o (words_after_move words v step) (views_after_move k views seat v step) }
{}

/// What holds of noticed words goes on to hold: each step on a mapping that is allowed keeps it.
pub fn moves_keep_noticed_words()
    ensures { (k : Keeper) (o : Opening) (words : List ℕ) (views : List View) (seat : ℕ) (v : View) (step : MoveStep) → Has views seat v → Shaped o words → Turn o words views → Tickets o words views → Bounds o words views → Pages o words views → NoticedWords o words views → AllowedMove k o v step → NoticedWords o (words_after_move words v step) (views_after_move k views seat v step) }
{}

/// What was copied of a frame that is clean and unmarked nowhere are the first of its cells: each step
/// on a mapping that is allowed keeps this.
pub fn moves_keep_image()
    ensures { (k : Keeper) (o : Opening) (words : List ℕ) (views : List View) (seat : ℕ) (v : View) (step : MoveStep) → Has views seat v → Shaped o words → Turn o words views → Frames o words views → Image o words views → AllowedMove k o v step → Image o (words_after_move words v step) (views_after_move k views seat v step) }
{}

/// Each view is that of a seat of the machine, with its places, or the one that a joined seat is left with,
/// and one at most has the journal of the frame space: each step on a mapping that is allowed keeps this.
pub fn moves_keep_seats()
    ensures { (k : Keeper) (o : Opening) (views : List View) (seat : ℕ) (v : View) (step : MoveStep) → Has views seat v → Seats o views → AllowedMove k o v step → Seats o (views_after_move k views seat v step) }
{}

/// Each step on a mapping that is allowed keeps a sound snapshot sound, where each frame has room in an
/// entry word.
pub fn moves_keep_sound()
    ensures { (k : Keeper) (o : Opening) (words : List ℕ) (views : List View) (seat : ℕ) (v : View) (step : MoveStep) → Has views seat v → FramesFit o → Sound o words views → AllowedMove k o v step → Sound o (words_after_move words v step) (views_after_move k views seat v step) }
{}

/// A hand-over that is allowed keeps a sound snapshot sound.
pub fn hand_overs_keep_sound()
    ensures { (o : Opening) (words : List ℕ) (views : List View) (from to : ℕ) (giver receiver : View) (first n : ℕ) → Has views from giver → Has views to receiver → from ≢ to → Sound o words views → MayHandOver o giver receiver first n → Sound o words (views_after_hand_over views from to giver receiver first n) }
{}
