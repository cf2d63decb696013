//! What a listener maps is what the notices of its key leave: laws of the definitions. Each function
//! has an empty body: its contract is the law.

ghost use Rattle.std.specs.Prelude.{◌≡◌, ℕ, ◌<◌, ◌≤◌, Bool, true, None, Some, List};
ghost use Rattle.evac_model.specs.Numbers.{numbers_where, with_range, without_range};
ghost use Rattle.evac_model.specs.Notices.{plug_notices, unplug_notices};
ghost use Rattle.evac_model.specs.MappedExactly.{mapped_after};

/// The notices of a PLUG leave the range mapped, under each key that has a listener.
pub fn plug_notices_map()
    ensures { (live : ℕ → Bool) (end first n key : ℕ) (blocks : List ℕ) → live key ≡ true → key < end → mapped_after key (plug_notices (numbers_where live end) first n None) blocks ≡ with_range first n blocks }
{}

/// Those of a PLUG that was refused leave it mapped and discarded under the keys before, and leave
/// the others' blocks as they were.
pub fn refused_notices_map_nothing()
    ensures before { (live : ℕ → Bool) (end first n refused key : ℕ) (blocks : List ℕ) → refused < end → live key ≡ true → key < refused → mapped_after key (plug_notices (numbers_where live end) first n (Some refused)) blocks ≡ without_range first n (with_range first n blocks) }
    ensures behind { (live : ℕ → Bool) (end first n refused key : ℕ) (blocks : List ℕ) → refused < end → refused ≤ key → mapped_after key (plug_notices (numbers_where live end) first n (Some refused)) blocks ≡ blocks }
{}

/// Those of an UNPLUG leave the range discarded.
pub fn unplug_notices_discard()
    ensures { (live : ℕ → Bool) (end first n key : ℕ) (blocks : List ℕ) → live key ≡ true → key < end → mapped_after key (unplug_notices (numbers_where live end) first n) blocks ≡ without_range first n blocks }
{}
