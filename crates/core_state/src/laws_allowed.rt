//! What a holder may answer, decided by what it knows. Each function has an empty body: its contract is
//! the law.

ghost use Rattle.std.specs.Prelude.{◌↔◌, ℕ};
ghost use Rattle.evac_model.specs.declared.call.Call.{Call};
ghost use Rattle.evac_model.specs.declared.reply.Reply.{Reply};
ghost use Rattle.evac_model.specs.Page.{Page};
ghost use Rattle.core_state.specs.declared.held.Held.{Held};
ghost use Rattle.core_state.specs.declared.opening.Opening.{Opening};
ghost use Rattle.core_state.specs.Pages.{CouldBe, Answered, Untouched};
ghost use Rattle.core_state.specs.Settled.{Settled, IsLeftSame};

/// Where some page could be the one that was taken: each such page answers the reply and is left as the
/// call leaves it exactly where the call is settled by the word found, the loads and the stores.
pub fn answered_is_settled()
    ensures { (o : Opening) (h : Held) (m : Page) (call : Call) (reply : Reply) (pins : ℕ) → CouldBe o h m → Answered o h call reply pins ↔ Settled o h call reply pins }
{}

/// Where some page could be the one that was taken: each such page is left as it was taken exactly where
/// that follows from the word found, the loads and the stores.
pub fn untouched_is_left_same()
    ensures { (o : Opening) (h : Held) (m : Page) → CouldBe o h m → Untouched o h ↔ IsLeftSame o h }
{}
