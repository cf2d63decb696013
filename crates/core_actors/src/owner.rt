//! An owner: the actions of its calls, one after another.

use crate::action::Others;
use crate::call_action::{action_at, first_action, frame_back};
use crate::call_place::{behind_first, place_behind};
use crate::place::{CallPlace, Place};
use core_state::Step;
use evac_model::{CallList, Geometry};
use machine::{Action, Heard, SpaceCall};
use std::marker::Model;

/// An owner and its script. It makes each call by a few actions, as `docs/ACTORS.md` says, and
/// begins a call where the one before has ended and its frame, if one is left, is given back. Contracts
/// see how it stands by what it has heard: before the action that it gave last, until it hears what that one gave.
#[derive(Drop)]
pub struct Owner {
    geometry: Geometry,
    owner: u32,
    calls: CallList,
    at: usize,
    place: Place,
}

impl Model for Owner {
    ghost use Rattle.core_actors.specs.Owners.{OwnerState};

    ghost Value = { OwnerState };

    ghost use Rattle.core_actors.specs.OwnerInside.{state_of, IsOwnerInside};

    ghost view = { state_of };

    ghost invariant = { IsOwnerInside };
}

impl Owner {
    ghost use Rattle.std.specs.Prelude.{◌≡◌, true, false};
    ghost use Rattle.std.specs.List.{AllByRecursion};
    ghost use Rattle.core_state.specs.declared.step.Step.{Step};
    ghost use Rattle.machine.specs.declared.action.Action.{Action};
    ghost use Rattle.core_actors.specs.CallSteps.{IsCallOf};
    ghost use Rattle.core_actors.specs.Owners.{owner_at_start, owner_ended, are_none, is_nothing, next_action, owner_after};
    ghost use Rattle.core_actors.specs.Places.{frame_owed, ends_call};
    ghost use Rattle.core_actors.specs.Actions.{owner_heard, ends_with_next, IsStorable, IsStorableAction};

    /// The owner with that number, at the start of its script. Its calls fit the machine.
    pub fn new(g: Geometry, owner: u32, calls: CallList) -> Owner
        requires { AllByRecursion (λ c. IsCallOf g c) calls }
        ensures { result ≡ owner_at_start owner g.cells calls }
    {
        // The limits of the geometry bound the cells of a page.
        let _cells = g.cells();
        Owner {
            geometry: g,
            owner,
            calls,
            at: 0,
            place: Place::Between { back: None },
        }
    }

    /// The next action of the call under way.
    fn call_action(&self) -> Action
        requires going { are_none self.now.left ≡ false }
        requires free { is_nothing (frame_owed self.now.place) ≡ true }
        ensures action { result ≡ next_action self.now }
        ensures storable { IsStorableAction result }
    {
        let cells = self.geometry.cells();
        let (page, call) = &self.calls.as_slice()[self.at];
        match &self.place {
            Place::Between { .. } => first_action(*page, call),
            Place::InCall { at } => action_at(cells, *page, call, at),
        }
    }

    /// What the owner does next.
    pub fn action(&self) -> Action
        ensures action { result ≡ next_action self.now }
        ensures storable { IsStorableAction result }
    {
        if let Place::Between { back: Some(frame) } = self.place {
            return Action::Space(SpaceCall::Return { frame });
        }
        if self.at == self.calls.len() {
            return Action::Ended;
        }
        self.call_action()
    }

    /// The place behind the next action of the call under way, which gave this.
    fn behind(&self, heard: &Heard) -> Place
        requires going { are_none self.now.left ≡ false }
        requires free { is_nothing (frame_owed self.now.place) ≡ true }
        ensures { result ≡ (owner_after self.now heard.now).place }
    {
        let cells = self.geometry.cells();
        let (_, call) = &self.calls.as_slice()[self.at];
        match &self.place {
            Place::Between { .. } => behind_first(cells, call, heard),
            Place::InCall { at } => place_behind(cells, call, at, heard),
        }
    }

    /// Whether the next action ends the call under way.
    fn ends_call(&self) -> bool
        ensures { result ≡ ends_call self.now.place }
    {
        match &self.place {
            Place::InCall {
                at: CallPlace::Release { .. },
            } => true,
            _ => false,
        }
    }

    /// Hears what the action gave that it was to make next: the word that a take, a draw or a load found, the frame
    /// that was leased or that there was none, and nothing after any other action. What doesn't fit the action is read
    /// as a word 0, or as a lease that was refused. One that has ended stays as it is.
    pub fn hear(&mut self, heard: &Heard)
        ensures { self.new ≡ owner_after self.old heard.now }
    {
        if let Place::Between { back: Some(_) } = self.place {
            self.place = Place::Between { back: None };
            return;
        }
        if self.at == self.calls.len() {
            return;
        }
        let place = self.behind(heard);
        if self.ends_call() {
            // The length of the script bounds the place in it.
            let _calls = self.calls.len();
            self.at += 1;
            self.place = place;
            return;
        }
        self.place = place;
    }

    /// What the owner does next, after `last` was heard of the action before, as `hear` hears it, and `Start` at the
    /// first turn. `others` counts for other actors alone: an owner never waits for them.
    pub fn next(&mut self, last: Heard, _others: Others) -> Action
        ensures state { self.new ≡ owner_heard self.old last }
        ensures action { result ≡ next_action self.new }
        ensures storable { (step : Step) → result ≡ Action.Step step → IsStorable step }
    {
        match &last {
            Heard::Start => {}
            _ => self.hear(&last),
        }
        self.action()
    }

    /// Whether it has ended: no call is left, and no frame to give back.
    pub fn is_ended(&self) -> bool
        ensures { result ≡ owner_ended self.now }
    {
        if let Place::Between { back: Some(_) } = self.place {
            return false;
        }
        self.at == self.calls.len()
    }

    /// Whether the last action of its last call was given already. It is so without what that action
    /// gives, and from the beginning where the script is empty.
    pub fn has_ended(&self) -> bool
        ensures { result ≡ ends_with_next self.now }
    {
        let calls = self.calls.len();
        match &self.place {
            Place::Between { .. } => self.at == calls,
            Place::InCall {
                at: CallPlace::Release { lease, found, .. },
            } => {
                let (_, call) = &self.calls.as_slice()[self.at];
                self.at + 1 == calls && frame_back(call, lease, *found).is_none()
            }
            Place::InCall { .. } => false,
        }
    }
}
