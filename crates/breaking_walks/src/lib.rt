//! Mixed walks of one round that break the duties of a class.
#![tactic(auto)]

ghost use Rattle.std.specs.Prelude.{◌≡◌, ◌<◌, IfOk, IfSome, IfNone};
ghost use Rattle.topology.specs.Networks.{switch_count};
ghost use Rattle.dest_classes.specs.Classes.{class_count};
ghost use Rattle.dest_classes.specs.Numbered.{IsNumbered};
ghost use Rattle.demands.specs.Duties.{duties_of};
ghost use Rattle.breaking_walks.specs.Rounds.{round_rollout, SwitchesArePrepared};
ghost use Rattle.breaking_walks.specs.Breaking.{HasBreakingWalk, IsBreakingWalk};

mod breaking;
mod cutting;
mod falling;
mod passing;
mod place_steps;
mod round;
mod search;
mod trail;

use breaking::find_breaking;
use cutting::cut;
use demands::Duties;
use dest_classes::NumberedClass;
pub use falling::have_falling;
use net_base::{ListOf, Memory, Place};
pub use passing::NumberedPlace;
use path_walk::Outcome;
pub use place_steps::PlaceSteps;
pub use round::PreparedRound;
use std::alloc::Global;

/// A mixed walk that breaks its duties at its end: the places after the entry, and the outcome at the last place by which the
/// packet leaves or is discarded. Where there is none, the switch of the last place stands earlier in the walk.
#[derive(Drop)]
pub struct BreakingWalk {
    pub rest: ListOf<Place>,
    pub end: Option<Outcome>,
}

/// A mixed walk of the round that breaks the duties of a class, if there is one.
pub fn breaking_walk(
    alloc: Global,
    round: PreparedRound<'_>,
    duties: &Duties,
    numbered: NumberedClass,
) -> Result<Option<BreakingWalk>, Memory>
    requires prepared { SwitchesArePrepared round }
    requires number { numbered.number < class_count duties.now.classes }
    requires class { IsNumbered duties.now.classes numbered }
    requires entry { numbered.class.entry.switch.0 < switch_count round.net.now }
    ensures some { IfOk result
        (λ found. IfSome found
        (λ w. IsBreakingWalk (round_rollout round.entry) round.entry.number
        numbered.class.first numbered.class.entry
        (duties_of duties.now.demands numbered.class.entry numbered.class.first) w.rest
        w.end)) }
    ensures none { IfOk result
        (λ found. IfNone found
        (¬ HasBreakingWalk (round_rollout round.entry) round.entry.number
        numbered.class.first numbered.class.entry
        (duties_of duties.now.demands numbered.class.entry numbered.class.first))) }
{
    match find_breaking(alloc, round, duties, numbered)? {
        Some(walk) => Ok(Some(cut(alloc, numbered.class.entry, walk)?)),
        None => Ok(None),
    }
}
