//! All memory of a check.
ghost use Rattle.std.specs.Prelude.{◌≡◌, length, IfOk, IfErr};
ghost use Rattle.topology.specs.Networks.{switch_count};
ghost use Rattle.dest_classes.specs.Numbered.{IsCauseOf};
ghost use Rattle.certificates.specs.Certified.{classes_for};
ghost use Rattle.certificates.specs.Laws.{task_of};
ghost use Rattle.config_check.specs.Classed.{AreClassed};
ghost use Rattle.plan_checker.specs.Fits.{Fits, FitsPlan};

use crate::evidence_room::EvidenceRoom;
use crate::prefixes::prefixes_of;
use certificates::Plan;
use config_check::Classed;
use demands::Demands;
use dest_classes::{ClassFault, ClassMap};
use flow_rules::Config;
use net_base::Memory;
use path_walk::PathRoom;
use round_tables::{PreparedTables, Rollout};
use std::alloc::Global;
use topology::Net;

/// Why there is no room for a check: there are more than 8192 classes, or memory was wanting.
pub type RoomFault = ClassFault;

/// What is judged of an update and of the rounds of a plan, whatever evidence it has: the classes with their duties, and room for
/// each table, round and path.
#[derive(Drop)]
pub struct UpdateRoom {
    pub classed: Classed,
    pub tables: PreparedTables,
    pub path: PathRoom,
}

/// All memory of a check: that of its update, and room for the evidence of the plan, by its kind.
#[derive(Drop)]
pub struct CheckRoom {
    pub update: UpdateRoom,
    pub evidence: EvidenceRoom,
}

/// The classes of the update that a plan carries out, with their duties.
fn classes_of_plan(
    alloc: Global,
    net: &Net,
    old: &Config,
    new: &Config,
    demands: &Demands,
    plan: &Plan,
) -> Result<Classed, RoomFault>
    ensures classed { IfOk result
        (AreClassed (classes_for (task_of net.now old.now new.now demands.now plan.now))
        demands.now) }
    ensures too_many { IfErr result
        (IsCauseOf (classes_for (task_of net.now old.now new.now demands.now plan.now))) }
{
    let prefixes = prefixes_of(old, new, demands, &plan.rounds)?;
    Classed::make(alloc, net, demands, &prefixes)
}

impl UpdateRoom {
    /// Room for an update from an old to a new configuration under demands, by the rounds of a plan. It is refused with the
    /// number of classes where that exceeds 8192. It takes time and memory in the product of classes and demands, and by the
    /// sizes of the tables and rounds.
    pub fn make(
        alloc: Global,
        net: &Net,
        old: &Config,
        new: &Config,
        demands: &Demands,
        plan: &Plan,
    ) -> Result<UpdateRoom, RoomFault>
        requires old { length old.now ≡ switch_count net.now }
        requires new { length new.now ≡ switch_count net.now }
        ensures fits { IfOk result (Fits (task_of net.now old.now new.now demands.now plan.now)) }
        ensures too_many { IfErr result
            (IsCauseOf (classes_for (task_of net.now old.now new.now demands.now plan.now))) }
    {
        let path = PathRoom::make(alloc, net)?;
        let update = Rollout {
            net,
            old,
            rounds: &plan.rounds,
        };
        let tables = PreparedTables::make(alloc, &update)?;
        let classed = classes_of_plan(alloc, net, old, new, demands, plan)?;
        Ok(UpdateRoom {
            classed,
            tables,
            path,
        })
    }
}

impl CheckRoom {
    /// Room for a check of a plan that leads from an old to a new configuration under demands: that of its update, and that of
    /// the evidence of the plan's kind alone. It is refused as the former is.
    pub fn make(
        alloc: Global,
        net: &Net,
        old: &Config,
        new: &Config,
        demands: &Demands,
        plan: &Plan,
    ) -> Result<CheckRoom, RoomFault>
        requires old { length old.now ≡ switch_count net.now }
        requires new { length new.now ≡ switch_count net.now }
        ensures fits { IfOk result
            (FitsPlan (task_of net.now old.now new.now demands.now plan.now) plan.now.evidence) }
        ensures too_many { IfErr result
            (IsCauseOf (classes_for (task_of net.now old.now new.now demands.now plan.now))) }
    {
        let update = UpdateRoom::make(alloc, net, old, new, demands, plan)?;
        match EvidenceRoom::make(alloc, &plan.evidence, &update.classed.map) {
            Ok(evidence) => Ok(CheckRoom { update, evidence }),
            Err(Memory) => {
                drop(update);
                Err(RoomFault::Memory)
            }
        }
    }

    /// The classes of the update.
    pub fn classes(&self) -> &ClassMap
        ensures { result.now ≡ self.now.update.classed.map }
    {
        &self.update.classed.map
    }
}
