//! The running round, and which calls are refused.
ghost use Rattle.std.specs.Prelude.{◌≡◌, ◌<◌, ◌-◌, length, map, IfOk, IfErr, None};
ghost use Rattle.std.specs.List.{AllByRecursion};
ghost use Rattle.topology.specs.Networks.{switch_count};
ghost use Rattle.update_model.specs.Changes.{round_after};
ghost use Rattle.round_messages.specs.Requests.{switches_changed};
ghost use Rattle.two_way_driver.specs.Drivers.{first_not_open, running_round, asked_round, start_fault_in, back_fault_in};
ghost use Rattle.two_way_driver.specs.Calls.{AreTurnable, IsStageWithin};

use crate::Stage;
use crate::faults::CallFault;
use crate::peers::Peer;
use net_base::SwitchId;
use topology::Net;
use turned_rounds::is_changed;
use update_model::{Change, Rounds};

/// The network, the rounds of an update, and those that take them back.
#[derive(Clone, Copy)]
pub struct TurnablePlan<'a> {
    pub(crate) net: &'a Net,
    pub(crate) rounds: &'a Rounds,
    pub(crate) inverses: &'a Rounds,
}

/// The running round: its network, its changes, and those that its messages ask for in the way it goes.
#[derive(Clone, Copy)]
pub struct Leg<'a> {
    pub(crate) net: &'a Net,
    pub(crate) round: &'a [Change],
    pub(crate) asked: &'a [Change],
}

/// The first switch with a change in a round whose session isn't open. A dead one is passed over.
pub(crate) fn first_not_open(net: &Net, round: &[Change], peers: &[Peer]) -> Option<SwitchId>
    requires { length peers.now ≡ switch_count net.now }
    ensures { result ≡ first_not_open peers.now (switches_changed net.now round.now) }
{
    for number in 0..net.switches() {
        if is_changed(round, number) && !peers[number as usize].is_open_or_dead() {
            return Some(SwitchId(number));
        }
    }
    None
}

/// How many rounds stand before the next one, if it may start.
pub(crate) fn next_round(
    net: &Net,
    rounds: &Rounds,
    peers: &[Peer],
    stage: Stage,
) -> Result<u32, CallFault>
    requires peers { length peers.now ≡ switch_count net.now }
    requires stage { IsStageWithin rounds.now stage }
    ensures ok { IfOk result (λ k. stage ≡ Stage.Settled k) }
    ensures within { IfOk result (λ k. k < length rounds.now) }
    ensures allowed { IfOk result
        (λ _. start_fault_in net.now rounds.now peers.now stage ≡ None) }
    ensures refused { IfErr result
        (λ fault. start_fault_in net.now rounds.now peers.now stage ≡ Some fault) }
{
    let k = match stage {
        Stage::Settled(k) => k,
        Stage::Onward(_) => return Err(CallFault::Running),
        Stage::Undone(_) => return Err(CallFault::Running),
    };
    if k as usize == rounds.count() {
        return Err(CallFault::Finished);
    }
    match first_not_open(net, rounds.round(k as usize), peers) {
        Some(switch) => Err(CallFault::NotOpen(switch)),
        None => Ok(k),
    }
}

impl<'a> TurnablePlan<'a> {
    /// The running round in a stage.
    pub(crate) fn leg(&self, stage: Stage) -> Leg<'a>
        requires count { length self.now.inverses.now ≡ length self.now.rounds.now }
        requires stage { IsStageWithin self.now.rounds.now stage }
        ensures net { result.net.now ≡ self.now.net.now }
        ensures round { result.round.now ≡ running_round self.now.rounds.now stage }
        ensures asked { result.asked.now
            ≡ asked_round self.now.rounds.now self.now.inverses.now stage }
    {
        let (round, asked): (&[Change], &[Change]) = match stage {
            Stage::Settled(_) => (&[], &[]),
            Stage::Onward(k) => (self.rounds.round(k as usize), self.rounds.round(k as usize)),
            Stage::Undone(k) => (
                self.rounds.round(k as usize),
                self.inverses.round(k as usize),
            ),
        };
        Leg {
            net: self.net,
            round,
            asked,
        }
    }
}
