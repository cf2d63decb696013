//! Laws of the definitions, in the subject's own words. Each function has an empty body: its
//! contract is the law.

ghost use Rattle.std.specs.Prelude.{◌≡◌, ◌↔◌, ℕ, Bool, true, nat_lt, ◌&&◌, ◌++◌, ◌∷◌, [], List, Contains, Option, None, Some, IfSome, length};
ghost use Rattle.std.specs.List.{slice_get, AllByRecursion};
ghost use Rattle.std.specs.List.Sorted.{IsStrictlyIncreasing};
ghost use Rattle.evac_model.specs.Numbers.{numbers_where, is_in, rising};
ghost use Rattle.evac_model.specs.declared.call.Call.{Call};
ghost use Rattle.evac_model.specs.declared.entry.Entry.{Entry};
ghost use Rattle.evac_model.specs.declared.scenario.StartPage.{StartPage};
ghost use Rattle.evac_model.specs.Geometry.{Sizes};
ghost use Rattle.evac_model.specs.Page.{Page, IsPage};
ghost use Rattle.evac_model.specs.State.{PlainState, page_at, start_state};
ghost use Rattle.evac_model.specs.Answer.{answer};
ghost use Rattle.evac_model.specs.Calls.{IsCallFor};
ghost use Rattle.evac_model.specs.History.{answer_in, after_entry, after_entries, IsLegal};
ghost use Rattle.evac_model.specs.Laws.{AsksForFrame, IsRefusal};
ghost use Rattle.evac_model.specs.Examples.{RunsOfSmall, LeasesOfSmall, AnswersOfSmall};
ghost use Rattle.evac_model.specs.PairingExamples.{PairingsOfSmall};

/// A refused lease counts for a call that asks for a frame alone: any other call has one answer.
pub fn lease_counts_for_alloc_alone()
    ensures { (n : ℕ) (page : Page) (call : Call) (refused : Option ℕ) → ¬ AsksForFrame page call → answer n page call refused ≡ answer n page call None }
{}

/// A refusal leaves the page as it was.
pub fn refusal_changes_nothing()
    ensures { (n : ℕ) (page : Page) (call : Call) (refused : Option ℕ) → IsRefusal (answer n page call refused).0 → (answer n page call refused).1 ≡ page }
{}

/// Entry i of a legal history has ticket i.
pub fn legal_tickets()
    ensures { (n : ℕ) (start : PlainState) (entries : List Entry) → IsLegal n start entries → (i : ℕ) (e : Entry) → slice_get entries i ≡ Some e → e.ticket ≡ i }
{}

/// An entry with the next ticket, whose reply is its answer, makes a longer legal history.
pub fn legal_push()
    ensures { (n : ℕ) (start : PlainState) (entries : List Entry) (e : Entry) → IsLegal n start entries → e.ticket ≡ length entries → (answer_in n (after_entries n start entries) e).0 ≡ e.reply → IsLegal n start (entries ++ e ∷ []) }
{}

/// Pages keep the machine's number of cells, and at most 63 pins, under calls that fit it.
pub fn pages_stay_in_size()
    ensures { (s : Sizes) (start : List StartPage) (entries : List Entry) → AllByRecursion (λ e. IsCallFor s e.call) entries → (page : ℕ) → IfSome (page_at (after_entries s.cells (start_state s.cells start) entries) page) (IsPage s.cells) }
{}

/// The numbers below n that pass a test are rising, and are those numbers and no others.
pub fn numbers_that_pass()
    ensures rising { (test : ℕ → Bool) (n : ℕ) → IsStrictlyIncreasing (numbers_where test n) }
    ensures those { (test : ℕ → Bool) (n b : ℕ) → is_in b (numbers_where test n) ≡ (nat_lt b n && test b) }
{}

/// `is_in` says whether a number is one of a list's.
pub fn is_in_contains()
    ensures { (xs : List ℕ) (b : ℕ) → (is_in b xs ≡ true) ↔ Contains xs b }
{}

/// The numbers of a list, each once and rising, are those of the list: so a call is listed just where
/// the list that was handed over has its number.
pub fn rising_contains()
    ensures { (xs : List ℕ) (b : ℕ) → Contains (rising xs) b ↔ Contains xs b }
{}

/// The free runs of a small machine, worked out by hand, and which are chosen.
pub fn runs_of_a_small_machine()
    ensures { RunsOfSmall }
{}

/// The caches and the free frames behind a journal, worked out by hand.
pub fn leases_of_a_small_machine()
    ensures { LeasesOfSmall }
{}

/// The answers of a small machine's device to requests at each edge, worked out by hand.
pub fn answers_of_a_small_machine()
    ensures { AnswersOfSmall }
{}

/// Which actions are those of a history's calls, and where a lease was refused, worked out by hand.
pub fn pairings_of_a_small_machine()
    ensures { PairingsOfSmall }
{}
