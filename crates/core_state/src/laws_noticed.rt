//! Laws of the words that takes found, over the plain history. Each function has an empty body: its
//! contract is the law.

ghost use Rattle.std.specs.Prelude.{◌≡◌, ℕ, List};
ghost use Rattle.evac_model.specs.declared.entry.Entry.{Entry};
ghost use Rattle.evac_model.specs.State.{PlainState};
ghost use Rattle.evac_words.specs.Word.{taken_bit};
ghost use Rattle.core_state.specs.declared.noticed.Notice.{Notice};
ghost use Rattle.core_state.specs.declared.opening.Opening.{Opening};
ghost use Rattle.core_state.specs.declared.view.View.{View};
ghost use Rattle.core_state.specs.Views.{Has};
ghost use Rattle.core_state.specs.Sound.{Sound};
ghost use Rattle.core_state.specs.Histories.{IsOpeningState, IsHistoryOf, AllLetGo};
ghost use Rattle.core_state.specs.Rearranged.{HasNotice};
ghost use Rattle.core_state.specs.NoticedHistory.{WasNoticed, AnsweredSince, TellsHistory};

/// Each noticed word of a sound snapshot has the bound that an entry of its page left, or the opening's;
/// and one that wasn't taken has the mapping, the kind and the pins of the page, as the entries of the
/// history with tickets below its bound leave it.
pub fn noticed_words_tell_the_history()
    ensures { (o : Opening) (words : List ℕ) (views : List View) (start : PlainState) (entries : List Entry) (i : ℕ) (v : View) (c : Notice) → Sound o words views → IsOpeningState o start → IsHistoryOf o words views entries → Has views i v → WasNoticed v c → TellsHistory o start entries c }
{}

/// Where no view of a sound snapshot holds a page, each word that a take by the right to move found
/// taken is followed in the history by an entry of its page, with a ticket not below the word's bound.
pub fn taken_words_are_followed()
    ensures { (o : Opening) (words : List ℕ) (views : List View) (entries : List Entry) (i : ℕ) (v : View) (c : Notice) → Sound o words views → IsHistoryOf o words views entries → AllLetGo views → Has views i v → HasNotice v c → taken_bit c.word ≡ 1 → AnsweredSince entries c }
{}
