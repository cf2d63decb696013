//! The turns of a scenario, from those of a line.

ghost use Rattle.std.specs.Prelude.{◌≡◌, ◌≤◌, ◌<◌, ◌+◌, ◌^◌, map, MatchOption, MatchResult};
ghost use Rattle.std.specs.List.{AllByRecursion};
ghost use Rattle.evac_model.specs.Turns.{IsActor, IsTurn, turn_count};
ghost use Rattle.scenario.specs.Reading.{actor_in};
ghost use Rattle.scenario.specs.Judging.{plain_turn, RefusesTurns};

use crate::bounds::{MOST_OWNERS, MOST_TURNS};
use crate::error::Refusal;
use crate::turn_line::{LineActor, LineTurn};
use evac_model::{Actor, LineCause, Turn};
use std::alloc::Global;

/// The actor, if it is one that scenarios have.
fn plain_actor(actor: LineActor) -> Option<Actor>
    ensures { MatchOption result (¬ IsActor (actor_in actor)) (λ a. (a ≡ actor_in actor) × IsActor (actor_in actor)) }
{
    match actor {
        LineActor::Owner(owner) => {
            if owner < 1 || owner > MOST_OWNERS {
                return None;
            }
            Some(Actor::Owner(owner as u32))
        }
        LineActor::Host => Some(Actor::Host),
        LineActor::Scanner => Some(Actor::Scanner),
    }
}

/// The turns of a word, if their numbers are in their ranges.
fn plain_turn(turn: &LineTurn) -> Option<Turn>
    ensures { MatchOption result (¬ IsTurn (plain_turn turn.now)) (λ t. (t ≡ plain_turn turn.now) × IsTurn (plain_turn turn.now)) }
{
    let actor = plain_actor(turn.actor)?;
    let count = turn.count.unwrap_or(1);
    if count < 1 || count > MOST_TURNS {
        return None;
    }
    Some(Turn {
        actor,
        count: count as u32,
    })
}

/// The turns of a line, if all their numbers are in their ranges.
pub fn plain_turns(alloc: Global, turns: &[LineTurn]) -> Result<Vec<Turn>, Refusal>
    ensures { MatchResult result (λ v. (v.items ≡ map plain_turn turns.now) × AllByRecursion IsTurn (map plain_turn turns.now)) (RefusesTurns (map plain_turn turns.now)) }
{
    let mut plain = Vec::new(alloc);
    for turn in turns {
        let Some(turn) = plain_turn(turn) else {
            return Err(Refusal::Cause(LineCause::Range));
        };
        plain.push(turn)?;
    }
    Ok(plain)
}

/// How many turns there are with these behind so many others, if they are no more than there may be.
pub fn turns_with(others: u64, turns: &[Turn]) -> Option<u64>
    requires { others ≤ 2 ^ 24 }
    ensures { MatchOption result (2 ^ 24 < others + turn_count turns.now) (λ n. (n ≡ others + turn_count turns.now) × (n ≤ 2 ^ 24)) }
{
    let mut total = others;
    for turn in turns {
        total += turn.count as u64;
        if total > MOST_TURNS {
            return None;
        }
    }
    Some(total)
}
