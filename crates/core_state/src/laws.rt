//! Laws of the definitions. Each function has an empty body: its contract is the law.

ghost use Rattle.std.specs.Prelude.{◌≡◌, ◌<◌, ℕ, List};
ghost use Rattle.evac_model.specs.declared.entry.Entry.{Entry};
ghost use Rattle.evac_model.specs.State.{PlainState, page_at};
ghost use Rattle.evac_model.specs.History.{after_entries, IsLegalFrom};
ghost use Rattle.core_state.specs.declared.keeper.Keeper.{Keeper};
ghost use Rattle.core_state.specs.declared.opening.Opening.{Opening};
ghost use Rattle.core_state.specs.declared.step.Step.{Step};
ghost use Rattle.core_state.specs.declared.view.View.{View};
ghost use Rattle.core_state.specs.Parts.{Shaped, Turn, Tickets, Bounds};
ghost use Rattle.core_state.specs.Seats.{Seats};
ghost use Rattle.core_state.specs.Frames.{Frames};
ghost use Rattle.core_state.specs.Words.{entry_word_of};
ghost use Rattle.core_state.specs.Pages.{FreeShows, Pages};
ghost use Rattle.core_state.specs.NoticedWords.{NoticedWords};
ghost use Rattle.core_state.specs.Views.{Has};
ghost use Rattle.core_state.specs.Image.{Image};
ghost use Rattle.core_state.specs.Sound.{Sound};
ghost use Rattle.core_state.specs.Histories.{IsOpeningState, IsHistoryOf, AllLetGo};
ghost use Rattle.core_state.specs.Opens.{Opens};
ghost use Rattle.core_state.specs.Steps.{Allowed};
ghost use Rattle.core_state.specs.Stepped.{words_after, views_after};

/// A word is taken exactly where one view holds its page, and that view has the word as it is: each
/// step of a call that is allowed keeps this, and the right to move.
pub fn steps_keep_turn()
    ensures { (k : Keeper) (o : Opening) (words : List ℕ) (views : List View) (seat : ℕ) (v : View) (step : Step) → Has views seat v → Shaped o words → Turn o words views → Allowed o v step → Turn o (words_after o words v step) (views_after k o words views seat v step) }
{}

/// The tickets of all entries and of all calls under way are the numbers from the first ticket and
/// below word 0, each once, and the budget is shared out: each step of a call that is allowed keeps this.
pub fn steps_keep_tickets()
    ensures { (k : Keeper) (o : Opening) (words : List ℕ) (views : List View) (seat : ℕ) (v : View) (step : Step) → Has views seat v → Shaped o words → Tickets o words views → Allowed o v step → Tickets o (words_after o words v step) (views_after k o words views seat v step) }
{}

/// A page's bound is one more than the greatest ticket among its entries, or its opening bound, and a
/// holder's ticket isn't below it: each step of a call that is allowed keeps this.
pub fn steps_keep_bounds()
    ensures { (k : Keeper) (o : Opening) (words : List ℕ) (views : List View) (seat : ℕ) (v : View) (step : Step) → Has views seat v → Shaped o words → Turn o words views → Tickets o words views → Bounds o words views → Allowed o v step → Bounds o (words_after o words v step) (views_after k o words views seat v step) }
{}

/// Every reply is the answer to its call in ticket order, and the flags and cells of a page are those
/// after its entries, changed by its holder since the take: each step of a call that is allowed keeps
/// this.
pub fn steps_keep_pages()
    ensures { (k : Keeper) (o : Opening) (words : List ℕ) (views : List View) (seat : ℕ) (v : View) (step : Step) → Has views seat v → Shaped o words → Turn o words views → Frames o words views → Tickets o words views → Bounds o words views → Pages o words views → Allowed o v step → Pages o (words_after o words v step) (views_after k o words views seat v step) }
{}

/// Each noticed word has an entry's bound and, where it wasn't taken, the flags of its page then; one
/// that a mover found taken is followed by an entry or by a call under way: each step of a call that is
/// allowed keeps this.
pub fn steps_keep_noticed_words()
    ensures { (k : Keeper) (o : Opening) (words : List ℕ) (views : List View) (seat : ℕ) (v : View) (step : Step) → Has views seat v → Shaped o words → Turn o words views → Tickets o words views → Bounds o words views → Pages o words views → NoticedWords o words views → Allowed o v step → NoticedWords o (words_after o words v step) (views_after k o words views seat v step) }
{}

/// Each frame is mapped once or in one hand, and what a view stored in a frame in hand stands there:
/// each step of a call that is allowed keeps this.
pub fn steps_keep_frames()
    ensures { (k : Keeper) (o : Opening) (words : List ℕ) (views : List View) (seat : ℕ) (v : View) (step : Step) → Has views seat v → Shaped o words → Turn o words views → Frames o words views → Allowed o v step → Frames o (words_after o words v step) (views_after k o words views seat v step) }
{}

/// What was copied of a frame that is clean and unmarked nowhere are the first of its cells: each step
/// of a call that is allowed keeps this.
pub fn steps_keep_image()
    ensures { (k : Keeper) (o : Opening) (words : List ℕ) (views : List View) (seat : ℕ) (v : View) (step : Step) → Has views seat v → Shaped o words → Turn o words views → Frames o words views → Image o words views → Allowed o v step → Image o (words_after o words v step) (views_after k o words views seat v step) }
{}

/// Each view is that of a seat of the machine, with its places, or the one that a joined seat is left with,
/// and one at most has the journal of the frame space: each step of a call that is allowed keeps this.
pub fn steps_keep_seats()
    ensures { (k : Keeper) (o : Opening) (words : List ℕ) (views : List View) (seat : ℕ) (v : View) (step : Step) → Has views seat v → Seats o views → Allowed o v step → Seats o (views_after k o words views seat v step) }
{}

/// Each step of a call that is allowed keeps a sound snapshot sound.
pub fn steps_keep_sound()
    ensures { (k : Keeper) (o : Opening) (words : List ℕ) (views : List View) (seat : ℕ) (v : View) (step : Step) → Has views seat v → Sound o words views → Allowed o v step → Sound o (words_after o words v step) (views_after k o words views seat v step) }
{}

/// Each opening is sound.
pub fn openings_are_sound()
    ensures { (o : Opening) (words : List ℕ) (views : List View) → Opens o words views → Sound o words views }
{}

/// The entries of a sound snapshot, in the order of their tickets, are a legal history from the opening's
/// pages.
pub fn histories_are_legal()
    ensures { (o : Opening) (words : List ℕ) (views : List View) (start : PlainState) (entries : List Entry) → Sound o words views → IsOpeningState o start → IsHistoryOf o words views entries → IsLegalFrom o.cells o.first start entries }
{}

/// Where no view of a sound snapshot holds a page, the words and the cells are those of the state after
/// its history.
pub fn words_show_the_history()
    ensures { (o : Opening) (words : List ℕ) (views : List View) (start : PlainState) (entries : List Entry) → Sound o words views → IsOpeningState o start → IsHistoryOf o words views entries → AllLetGo views → (page : ℕ) → page < o.pages → FreeShows o words (entry_word_of words page) (page_at (after_entries o.cells start entries) page) }
{}
