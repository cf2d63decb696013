//! Laws of views that change without a step on a word. Each function has an empty body: its contract is
//! the law.

ghost use Rattle.std.specs.Prelude.{◌≡◌, ◌≢◌, ℕ, ◌<◌, ◌≤◌, Bool, List, ◌++◌, replicate, Option, Some, IsSome, IsPermutation};
ghost use Rattle.core_state.specs.declared.held.Held.{Held};
ghost use Rattle.core_state.specs.declared.opening.Opening.{Opening};
ghost use Rattle.core_state.specs.declared.view.View.{View};
ghost use Rattle.core_state.specs.Views.{Has, IsSeated, right_to, spent};
ghost use Rattle.core_state.specs.Frames.{Frames};
ghost use Rattle.core_state.specs.Sound.{Sound};
ghost use Rattle.core_state.specs.HandOvers.{IsAtRest, MayHandOver, views_after_hand_over};
ghost use Rattle.core_state.specs.Rearranged.{Rearranged};
ghost use Rattle.core_state.specs.SeatMoves.{Splits, Joins, views_after_split, views_after_join};
ghost use Rattle.core_state.specs.SeatParts.{kept_part, given_part, joined_view};

/// Views that have, taken together, what the views of a sound snapshot had are sound in their place,
/// with the words as they are.
pub fn rearranged_views_stay_sound()
    ensures { (o : Opening) (words : List ℕ) (views other : List View) → Sound o words views → Rearranged o views other → Sound o words other }
{}

/// Two changes of the views, one after the other, are one.
pub fn views_rearranged_twice_are_rearranged()
    ensures { (o : Opening) (first second third : List View) → Rearranged o first second → Rearranged o second third → Rearranged o first third }
{}

/// The views in another order, with so many spent ones left out, have what they had.
pub fn reordered_views_are_rearranged()
    ensures { (o : Opening) (views other : List View) (n : ℕ) → IsPermutation views (other ++ replicate n spent) → Rearranged o views other }
{}

/// A hand-over that is allowed, where each frame is mapped once or in one hand, leaves the views with
/// what they had.
pub fn hand_overs_rearrange()
    ensures { (o : Opening) (words : List ℕ) (views : List View) (from to : ℕ) (giver receiver : View) (first n : ℕ) → Has views from giver → Has views to receiver → from ≢ to → Frames o words views → MayHandOver o giver receiver first n → Rearranged o views (views_after_hand_over views from to giver receiver first n) }
{}

/// A seat that is split leaves the views with what they had.
pub fn splits_rearrange()
    ensures { (o : Opening) (views : List View) (seat : ℕ) (v kept given : View) → Has views seat v → Splits o v kept given → Rearranged o views (views_after_split views seat kept given) }
{}

/// A seat that is joined into another leaves the views with what they had.
pub fn joins_rearrange()
    ensures { (o : Opening) (views : List View) (seat joined : ℕ) (v w both : View) → Has views seat v → Has views joined w → seat ≢ joined → Joins o v w both → Rearranged o views (views_after_join views seat joined both) }
{}

/// A seat at rest can be split: any of its tickets, frames and rights go to another seat, and where there
/// are tickets among them, that one has the number of a caller.
pub fn seats_can_be_split()
    ensures { (o : Opening) (v : View) (caller : Option ℕ) (tickets : ℕ) (frames pages : ℕ → Bool) → IsAtRest o v → tickets ≤ v.left → (0 < tickets → IsSome caller) → Splits o v (kept_part v tickets frames pages) (given_part v caller tickets frames pages) }
{}

/// In a sound snapshot a seat at rest can be joined into another, unless that one holds a page that the
/// first has the right to move.
pub fn seats_can_be_joined()
    ensures { (o : Opening) (words : List ℕ) (views : List View) (seat gone : ℕ) (v w : View) → Sound o words views → Has views seat v → Has views gone w → seat ≢ gone → IsSeated o v → IsAtRest o w → ((h : Held) → v.held ≡ Some h → right_to h.page.0 w ≡ 0) → Joins o v w (joined_view v w) }
{}
