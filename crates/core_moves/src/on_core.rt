//! Steps on a core that keep it sound.

ghost use Rattle.std.specs.Prelude.{◌≡◌, ◌≢◌, ◌<◌, length};
ghost use Rattle.core_state.specs.declared.keeper.Keeper.TheVariants.{OneOwner};
ghost use Rattle.core_state.specs.CoreState.{IsSound};
ghost use Rattle.core_state.specs.Views.{view_of};
ghost use Rattle.core_state.specs.MoveSteps.{AllowedMove};
ghost use Rattle.core_state.specs.Stepped.{snapshot_after_move};
ghost use Rattle.core_state.specs.HandOvers.{MayHandOver, views_after_hand_over};

use core_state::{Core, MoveStep, Seen};
use evac_model::FrameNo;

/// Makes a step of a seat on the mapping of the page that it holds, which is allowed: the steps of
/// Linux's page migration (a migration entry is set, and replaced by the new frame's), and those of a
/// map and an unmap. It always gives `Nothing`. It takes no memory, and its time is at most that of
/// the cells of one page.
pub fn step_move(core: &mut Core, seat: u32, step: MoveStep) -> Seen
    requires seat { seat < length core.old.snapshot.views }
    requires sound { IsSound core.old }
    requires may { AllowedMove OneOwner core.old.opening (view_of core.old.snapshot.views seat) step }
    ensures seen { result ≡ Seen.Nothing }
    ensures snapshot { core.new.snapshot ≡ snapshot_after_move OneOwner core.old.snapshot seat step }
    ensures sound { IsSound core.new }
    ensures opening { core.new.opening ≡ core.old.opening }
    ensures room { core.new.room ≡ core.old.room }
{
    // the opening is small, so that each frame has room in an entry word
    let _opening = core.opening();
    core.make_move(seat, step);
    Seen::Nothing
}

/// Hands `n` frames over, from the frame `first` on, where this is allowed: they leave the hand of the
/// seat `from` for that of another seat, `to`, each with what was stored in it. It takes no memory, and
/// its time is that of the frames.
pub fn hand_over(core: &mut Core, from: u32, to: u32, first: FrameNo, n: u32)
    requires from { from < length core.old.snapshot.views }
    requires to { to < length core.old.snapshot.views }
    requires apart { from ≢ to }
    requires sound { IsSound core.old }
    requires may { MayHandOver core.old.opening (view_of core.old.snapshot.views from) (view_of core.old.snapshot.views to) first.0 n }
    ensures snapshot { core.new.snapshot ≡ record core.old.snapshot { views = views_after_hand_over core.old.snapshot.views from to (view_of core.old.snapshot.views from) (view_of core.old.snapshot.views to) first.0 n } }
    ensures sound { IsSound core.new }
    ensures opening { core.new.opening ≡ core.old.opening }
    ensures room { core.new.room ≡ core.old.room }
{
    core.make_hand_over(from, to, first, n);
}
