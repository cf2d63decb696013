//! A law of the definitions. The function has an empty body: its contract is the law.

ghost use Rattle.std.specs.Prelude.{◌≡◌, ◌↔◌, ℕ, ◌+◌, ◌<◌, ◌≤◌, List, Contains, Option, None, Some, map, slice_index_or};
ghost use Rattle.std.specs.List.Sorted.{IsStrictlyIncreasing};
ghost use Rattle.evac_model.specs.SpaceJournal.{Out};
ghost use Rattle.page_blocks.specs.Marks.{frames_out};

/// The frames out among some are rising, and are those of them that are out, each with what it is
/// out for.
pub fn frames_out_are_those_out()
    ensures rising { (out : List (Option Out)) (first n : ℕ) → IsStrictlyIncreasing (map (λ f. f.0) (frames_out out first n)) }
    ensures those { (out : List (Option Out)) (first n frame : ℕ) (o : Out) → Contains (frames_out out first n) (frame, o) ↔ ((first ≤ frame) × (frame < first + n) × (slice_index_or out frame None ≡ Some o)) }
{}
