//! The turns of a schedule, in their order.

ghost use Rattle.std.specs.Prelude.{◌≡◌, ◌+◌, ◌<◌, ◌≤◌, ◌∷◌, [], length, replicate, slice_index_or, OnOk};
ghost use Rattle.replay.specs.Running.{run_after};
ghost use Rattle.replay.specs.Schedule.{actors, named_turns, turns_from, generator_of, drawn_turns, rounds};

use crate::running::Running;
use evac_model::{Actor, Drawn, OutOfMemory, Turn};
use rand_core::utils::NextWord;
use rand_pcg::Pcg32;

/// So many turns of one actor.
fn turns_of(run: &mut Running, turn: &Turn) -> Result<(), OutOfMemory>
    ensures { OnOk result (run.new ≡ run_after run.old (replicate turn.now.count turn.now.actor)) }
{
    for _turn in 0..turn.count {
        run.turn(turn.actor)?;
    }
    Ok(())
}

/// The named turns.
pub(crate) fn named(run: &mut Running, turns: &[Turn]) -> Result<(), OutOfMemory>
    ensures { OnOk result (run.new ≡ run_after run.old (named_turns turns.now)) }
{
    for turn in turns {
        turns_of(run, turn)?;
    }
    Ok(())
}

/// The actor at a place in the order of the actors: the owners, the host, the scanner.
fn actor_at(owners: u32, place: u32) -> Actor
    requires { place < owners + 2 }
    ensures { result ≡ slice_index_or (actors owners) place Actor.Host }
{
    if place < owners {
        Actor::Owner(place + 1)
    } else if place == owners {
        Actor::Host
    } else {
        Actor::Scanner
    }
}

/// So many turns that the generator draws.
fn turns_drawn(
    run: &mut Running,
    owners: u32,
    generator: &mut Pcg32,
    count: u32,
) -> Result<(), OutOfMemory>
    requires few { owners ≤ 16 }
    ensures { OnOk result (run.new ≡ run_after run.old (turns_from (actors owners) generator.old count)) }
{
    for _turn in 0..count {
        let word = generator.next_word();
        run.turn(actor_at(owners, word % (owners + 2)))?;
    }
    Ok(())
}

/// The drawn turns.
pub(crate) fn drawn(
    run: &mut Running,
    owners: u32,
    drawn: &Option<Drawn>,
) -> Result<(), OutOfMemory>
    requires few { owners ≤ 16 }
    ensures { OnOk result (run.new ≡ run_after run.old (drawn_turns (actors owners) drawn.now)) }
{
    match drawn {
        None => Ok(()),
        Some(d) => {
            let mut generator = Pcg32::new(d.number, 0);
            turns_drawn(run, owners, &mut generator, d.count)
        }
    }
}

/// One round over all actors; the scanner has nothing to do.
fn round(run: &mut Running, owners: u32) -> Result<(), OutOfMemory>
    requires few { owners ≤ 16 }
    ensures { OnOk result (run.new ≡ run_after run.old (actors owners)) }
{
    for owner in 0..owners {
        run.turn(Actor::Owner(owner + 1))?;
    }
    run.turn(Actor::Host)
}

/// So many rounds; those behind the end of all actors change nothing, and aren't made.
pub(crate) fn rounds(run: &mut Running, owners: u32, count: u64) -> Result<(), OutOfMemory>
    requires few { owners ≤ 16 }
    ensures { OnOk result (run.new ≡ run_after run.old (rounds (actors owners) count)) }
{
    for _round in 0..count {
        if run.have_all_ended() {
            return Ok(());
        }
        round(run, owners)?;
    }
    Ok(())
}
