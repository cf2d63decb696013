//! Laws of free runs, in the subject's own words. Each function has an empty body: its contract is
//! the law.

ghost use Rattle.std.specs.Prelude.{◌≡◌, ◌↔◌, ℕ, ◌<◌, ◌≤◌, true, false, List, Some, None};
ghost use Rattle.std.specs.List.{range_with_len};
ghost use Rattle.evac_model.specs.declared.names.Kind.{Kind};
ghost use Rattle.evac_model.specs.Geometry.{Sizes, IsWithinLimits, frame_count};
ghost use Rattle.evac_model.specs.Numbers.{is_in};
ghost use Rattle.evac_model.specs.FreeRuns.{fits, is_all_free, is_free_run, chosen_run};
ghost use Rattle.buddy.specs.Choice.{first_choice};
ghost use Rattle.buddy.specs.Laws.{HasParts, lowest_in_parts, IsBest, IsInRun, IsInside, IsInFreeRun};

/// The chosen run is the lowest free run of the first order that has one, where the boot blocks'
/// frames are searched first.
pub fn the_choice_is_the_lowest()
    ensures { (s : Sizes) (online kind : Kind) (free : List ℕ) (order top boot_order managed_order : ℕ) → HasParts s top boot_order managed_order → chosen_run s online free order kind ≡ first_choice (lowest_in_parts s online kind free top boot_order managed_order) (range_with_len order 10) }
{}

/// No run is chosen just if no run of that order is all free, in a block that takes the kind.
pub fn no_choice_means_none_is_free()
    ensures { (s : Sizes) (online kind : Kind) (free : List ℕ) (order : ℕ) → IsWithinLimits s → (chosen_run s online free order kind ≡ None) ↔ ((first : ℕ) → fits s online kind first ≡ true → is_all_free s free order first ≡ false) }
{}

/// A run whose frames are all free and that holds a free run is that free run.
pub fn free_runs_are_maximal()
    ensures { (s : Sizes) (free : List ℕ) (k n j m : ℕ) → IsWithinLimits s → is_free_run s free k n ≡ true → is_all_free s free j m ≡ true → IsInside k n j m → (j ≡ k) × (m ≡ n) }
{}

/// Each free frame is one of a free run's, and two free runs with a frame in common are the same.
pub fn each_free_frame_is_in_one_free_run()
    ensures some { (s : Sizes) (free : List ℕ) (frame : ℕ) → IsWithinLimits s → frame < frame_count s → is_in frame free ≡ true → IsInFreeRun s free frame }
    ensures one { (s : Sizes) (free : List ℕ) (k n j m frame : ℕ) → IsWithinLimits s → is_free_run s free k n ≡ true → is_free_run s free j m ≡ true → IsInRun k n frame → IsInRun j m frame → (k ≡ j) × (n ≡ m) }
{}

/// The chosen run is the smallest free run of at least that order in blocks that take the kind, and
/// the lowest of its own order.
pub fn the_choice_is_the_best()
    ensures { (s : Sizes) (online kind : Kind) (free : List ℕ) (order n : ℕ) → IsWithinLimits s → chosen_run s online free order kind ≡ Some n → IsBest s online kind free order n }
{}
