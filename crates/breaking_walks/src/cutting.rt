//! A walk up to the first switch that stands twice.
ghost use Rattle.std.specs.Prelude.{◌≡◌, ◌↔◌, ◌<◌, ◌≤◌, ◌==◌, ℕ, IsTrue, IfOk, MatchOption, Some, length, slice_get, take};
ghost use Rattle.std.specs.List.{list_any};
ghost use Rattle.net_base.specs.Members.{IsIn, IsDistinct};
ghost use Rattle.net_base.specs.declared.ids.Place.{Place as PlaceOf};
ghost use Rattle.demands.specs.Duties.{PacketDuties};
ghost use Rattle.update_model.specs.Mixtures.{Rollout};
ghost use Rattle.certificates.specs.Steps.{switches_along};
ghost use Rattle.breaking_walks.specs.Breaking.{IsBreakingWalk};
ghost use Rattle.breaking_walks.specs.Broken.{IsBroken, IsFirstRepeat};

use crate::BreakingWalk;
use net_base::{ListOf, Memory, Place, SwitchId};
use std::alloc::Global;

/// Whether one of the places is at the switch.
fn comes_to(places: &[Place], switch: SwitchId) -> bool
    ensures { result ≡ list_any (λ place. place.switch.0 == switch.0) places.now }
{
    places.iter().any(|place| place.switch.0 == switch.0)
}

/// The first so many of the places.
fn front(places: &[Place], count: usize) -> &[Place]
    requires { count ≤ length places.now }
    ensures { result.now ≡ take count places.now }
{
    &places[..count]
}

/// Whether the switch of place `i` after the entry stands earlier.
fn is_repeat(entry: Place, rest: &[Place], i: usize) -> bool
    requires { i < length rest.now }
    ensures { (place : PlaceOf) → slice_get rest.now i ≡ Some place → IsTrue result
        ↔ IsIn place.switch (switches_along entry (take i rest.now)) }
{
    let switch = rest[i].switch;
    if entry.switch.0 == switch.0 {
        return true;
    }
    comes_to(front(rest, i), switch)
}

/// The first place after the entry whose switch stands earlier, by its position from 0.
fn first_repeat(entry: Place, rest: &[Place]) -> Option<usize>
    ensures { MatchOption result (IsDistinct (switches_along entry rest.now))
        (λ i. IsFirstRepeat entry rest.now i) }
{
    for i in 0..rest.len() {
        if is_repeat(entry, rest, i) {
            return Some(i);
        }
    }
    None
}

/// A list of the first so many of the places.
fn first_places(alloc: Global, places: &[Place], count: usize) -> Result<ListOf<Place>, Memory>
    requires { count ≤ length places.now }
    ensures { IfOk result (λ list. list ≡ take count places.now) }
{
    Ok(ListOf::of(Vec::from_slice(alloc, &places[..count])?))
}

/// The walk up to the first place whose switch stands earlier; the whole walk where no switch stands twice.
pub(crate) fn cut(alloc: Global, entry: Place, walk: BreakingWalk) -> Result<BreakingWalk, Memory>
    ensures { (u : Rollout) (k dst : ℕ) (duties : PacketDuties)
        → IsBroken u k dst entry duties walk.rest walk.end
        → IfOk result (λ w. IsBreakingWalk u k dst entry duties w.rest w.end) }
{
    match first_repeat(entry, walk.rest.list()) {
        Some(i) => {
            let rest = first_places(alloc, walk.rest.list(), i + 1)?;
            Ok(BreakingWalk { rest, end: None })
        }
        None => Ok(walk),
    }
}
