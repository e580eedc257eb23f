//! Runs that break a policy.
#![tactic(auto)]

ghost use Rattle.std.specs.Prelude.{◌≡◌, length, IfOk};
ghost use Rattle.topology.specs.Networks.{switch_count};
ghost use Rattle.flow_rules.specs.Tables.{rules_of_all};
ghost use Rattle.update_model.specs.Mixtures.{Rollout, AreGoodRounds, AreClearRounds};
ghost use Rattle.counter_run.specs.Explaining.{IsExplained, HasFewEvents};

mod finding;
mod preparing;
mod searching;
mod showing;
mod update;

use crate::searching::search_rounds;
use crate::update::ClassedUpdate;
use demands::Duties;
use dest_classes::ClassMap;
use flow_rules::Config;
use net_base::Memory;
use std::alloc::Global;
use topology::Net;
use update_model::{Events, Rounds};

/// What is found among the mixed walks of all rounds and classes.
#[derive(Drop)]
pub enum Explained {
    /// The events of a run in which a packet breaks its duties.
    Run(Events),
    /// No mixed walk breaks the duties of its class.
    Nothing,
}

/// A run of the rounds in which a packet comes to a switch twice, leaves without its waypoints, or is discarded though it must
/// arrive, if some mixed walk of some round does so; in the first such round, and for the first such class there.
///
/// The rounds are good and clear. A round costs what it costs the checker to prepare its switches. Where packets keep the VLANs
/// with which they came and no switch has needed more than 8192 entries so far, it costs besides the walks of those classes that
/// its changes meet where packets of them came to in the round before, those of one address and VLAN together. Only a class that
/// may break by what these show is searched, otherwise each whose address a change covers: its walks are looked through once for
/// discards, once for each chain times the chain's length, and once for steps; and where these have a cycle, once for each
/// switch.
pub fn explain(
    alloc: Global,
    net: &Net,
    old: &Config,
    rounds: &Rounds,
    duties: &Duties,
    classes: &ClassMap,
) -> Result<Explained, Memory>
    requires tables { length old.now ≡ switch_count net.now }
    requires hosts { classes.now.hosts ≡ net.now.hosts }
    requires vlans { classes.now.vlans ≡ net.now.vlans }
    requires duties { duties.now.classes ≡ classes.now }
    requires good { AreGoodRounds
        (record { net = net.now; old = rules_of_all old.now; rounds = rounds.now }) }
    requires clear { AreClearRounds
        (record { net = net.now; old = rules_of_all old.now; rounds = rounds.now }) }
    ensures answer { IfOk result
        (λ found.
        let u : Rollout
        = record { net = net.now; old = rules_of_all old.now; rounds = rounds.now }
        in IsExplained u classes.now duties.now.demands found) }
    ensures few { IfOk result (λ found. HasFewEvents net.now rounds.now found) }
{
    let update = ClassedUpdate {
        net,
        old,
        rounds,
        duties,
        classes,
    };
    search_rounds(alloc, update)
}
