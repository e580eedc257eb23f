//! Places that walks come to, each once, and the steps between them.
ghost use Rattle.std.specs.Prelude.{◌≡◌, ◌↔◌, ◌+◌, ◌<◌, ◌≤◌, ◌^◌, ℕ, [], List, length, slice_get, true, Some, All, IfOk, OnOk, OnErr, vec_len, vec_capacity};
ghost use Rattle.indexmap.specs.IndexSet.{spare};
ghost use Rattle.net_base.specs.Members.{IsIn};
ghost use Rattle.net_base.specs.declared.ids.Place.{Place as PlaceOf};
ghost use Rattle.topology.specs.Networks.{IsNetwork};
ghost use Rattle.path_walk.specs.declared.Outcome.{Outcome as OutcomeOf};
ghost use Rattle.update_model.specs.Mixtures.{Rollout, IsPossible};
ghost use Rattle.breaking_walks.specs.Surveys.{NeverRepeats};
ghost use Rattle.breaking_walks.specs.declared.passing.PlaceStep.{PlaceStep as PlaceStepOf};
ghost use Rattle.breaking_walks.specs.PlaceSteps.{IsNumberedIn, AreStepsAdded, NotesSteps};

use crate::passing::{NumberedPlace, PlaceStep, are_passed_once};
use indexmap::IndexSet;
use net_base::{Memory, Place};
use path_walk::Outcome;
use std::alloc::Global;
use std::marker::Model;

/// Places, each once, by their numbers from 0, in the order in which they were put; and steps between them.
#[derive(Drop)]
pub struct PlaceSteps {
    places: IndexSet<Place>,
    steps: Vec<PlaceStep>,
}

impl Model for PlaceSteps {
    ghost use Rattle.breaking_walks.specs.PlaceSteps.{StepState};

    ghost Value = { StepState };

    ghost view = { λ s. record { places = s.places.keys; steps = s.steps.items } };
}

/// Puts a place among others, with room for one more, if it doesn't stand there, and gives its number.
fn put_reserved(places: &mut IndexSet<Place>, place: Place) -> NumberedPlace
    requires { 0 < spare places.old }
    ensures number { (steps : List PlaceStepOf)
        → IsNumberedIn (record { places = places.old.keys; steps = steps }) place result
        (record { places = places.new.keys; steps = steps }) }
    ensures room { spare places.old ≤ spare places.new + 1 }
{
    match places.insert_full(place) {
        Ok((number, _)) => NumberedPlace {
            number,
            switch: place.switch,
        },
        Err(_) => unreachable!(),
    }
}

/// Adds the steps from a place by these outcomes, and the places to which they lead. There is room for as many of both.
fn add_all(
    places: &mut IndexSet<Place>,
    steps: &mut Vec<PlaceStep>,
    from: NumberedPlace,
    outcomes: &[Outcome],
)
    requires places { length outcomes.now ≤ spare places.old }
    requires steps { vec_len steps.old + length outcomes.now ≤ vec_capacity steps.old }
    ensures { AreStepsAdded (record { places = places.old.keys; steps = steps.old.items }) from
        outcomes.now (record { places = places.new.keys; steps = steps.new.items }) }
{
    for outcome in outcomes {
        if let Outcome::Go(place) = *outcome {
            let to = put_reserved(places, place);
            steps.push_reserved(PlaceStep { from, to });
        }
    }
}

impl PlaceSteps {
    /// No places.
    pub fn make(alloc: Global) -> PlaceSteps
        ensures { result ≡ record { places = []; steps = [] } }
    {
        PlaceSteps {
            places: IndexSet::new(alloc),
            steps: Vec::new(alloc),
        }
    }

    /// How many places there are.
    pub fn count(&self) -> usize
        ensures count { result ≡ length self.now.places }
        ensures small { result < 2 ^ 63 }
    {
        self.places.len()
    }

    /// A place by its number.
    pub fn at(&self, number: usize) -> Place
        requires { number < length self.now.places }
        ensures { slice_get self.now.places number ≡ Some result }
    {
        *self.places.get_index(number).unwrap()
    }

    /// Puts a place, if it doesn't stand there, and gives its number. After a refusal all is as before.
    pub fn put(&mut self, place: Place) -> Result<NumberedPlace, Memory>
        ensures ok { IfOk result (λ numbered. IsNumberedIn self.old place numbered self.new) }
        ensures err { OnErr result (self.new ≡ self.old) }
    {
        let (number, _) = self.places.insert_full(place)?;
        let switch = place.switch;
        Ok(NumberedPlace { number, switch })
    }

    /// Adds the steps by these outcomes of the place with this number, and the places to which they lead. After a refusal all
    /// is as before.
    pub fn add(&mut self, number: usize, outcomes: &[Outcome]) -> Result<(), Memory>
        requires { number < length self.old.places }
        ensures kept { OnOk result ((p : PlaceOf) → IsIn p self.old.places
            → IsIn p self.new.places) }
        ensures notes { OnOk result ((u : Rollout) (k dst : ℕ) (place : PlaceOf) → IsNetwork u.net
            → slice_get self.old.places number ≡ Some place
            → ((o : OutcomeOf) → IsIn o outcomes.now ↔ IsPossible u k dst place o)
            → NotesSteps u k dst number self.old → NotesSteps u k dst (number + 1) self.new) }
        ensures err { OnErr result (self.new ≡ self.old) }
    {
        let switch = self.at(number).switch;
        self.places.reserve(outcomes.len())?;
        self.steps.reserve(outcomes.len())?;
        let from = NumberedPlace { number, switch };
        add_all(&mut self.places, &mut self.steps, from, outcomes);
        Ok(())
    }

    /// Whether no walk along the steps comes to one of so many switches twice. It takes time by the product of the switches and
    /// the steps, and more where walks often turn among the numbers of the places. Where they turn more often than there are
    /// switches it isn't told.
    pub fn are_passed_once(&self, alloc: Global, switches: u32) -> Result<bool, Memory>
        requires { All (λ step. step.from.switch.0 < switches) self.now.steps }
        ensures { IfOk result
            (λ once. once ≡ true → (u : Rollout) (k dst : ℕ)
            → NotesSteps u k dst (length self.now.places) self.now
            → (p : PlaceOf) → IsIn p self.now.places → NeverRepeats u k dst p) }
    {
        are_passed_once(alloc, switches, self.places.len(), &self.steps)
    }
}
