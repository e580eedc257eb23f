//! Packed rounds: each holds every change that can still stand in it.
#![tactic(auto)]

mod failing;
mod filling;
mod judging;
mod rounds;

ghost use Rattle.std.specs.Prelude.{◌≡◌, IfOk};
ghost use Rattle.flow_rules.specs.Tables.{rules_of_all};
ghost use Rattle.path_walk.specs.UserConfigs.{IsUserConfig};
ghost use Rattle.round_packer.specs.Ends.{IsPacking};

use crate::rounds::packing_of;
use class_watch::all_classes;
use demands::Duties;
use dest_classes::ClassMap;
use flow_rules::Config;
use net_base::Memory;
use round_judge::Goal;
use std::alloc::Global;
use topology::Net;
use update_model::Rounds;

/// Packed rounds after which nothing remains, or after which no change that remains can stand in a round.
#[derive(Drop)]
pub enum Packing {
    Ordered(Rounds),
    Stuck(Rounds),
}

/// Packs rounds from the old to the new tables: each takes, in the order of what remains, every change that can still be
/// made beside those that it took before, in whatever order, so that each mixture is clear, the entries stay within capacity,
/// and some evidence keeps every class safe. It ends stuck where something remains and none of it can be made.
///
/// A try of a change looks once at each atom of addresses, at each change that the round took so far, and at each class whose
/// address the change's prefix holds; it looks three times at most at each rule of the change's switch, and takes one walk for
/// each class that the change covers, by its address and VLAN, at a switch that its walks come to, up to the first that isn't
/// safe. Those that enter at the change's switch come first. A change that failed for a class can't stand until a round makes a
/// change that covers the class, by its address and VLAN, at a switch that its mixed walks came to then, and isn't tried
/// before: for that each failure that is known is compared with each change of a round. Each round tries each other change that
/// remains once, and is made by a look at each rule of a switch for each change there.
pub fn pack(
    alloc: Global,
    net: &Net,
    old: &Config,
    new: &Config,
    duties: &Duties,
    classes: &ClassMap,
) -> Result<Packing, Memory>
    requires old { IsUserConfig net.now (rules_of_all old.now) }
    requires new { IsUserConfig net.now (rules_of_all new.now) }
    requires duties { duties.now.classes ≡ classes.now }
    requires hosts { classes.now.hosts ≡ net.now.hosts }
    ensures { IfOk result (IsPacking (record {
      net = net.now;
      new = rules_of_all new.now;
      demands = duties.now.demands;
      classes = duties.now.classes;
    }) (rules_of_all old.now)) }
{
    let list = all_classes(alloc, classes)?;
    let goal = Goal {
        net,
        new,
        duties,
        classes,
        list,
    };
    packing_of(alloc, &goal, old)
}
