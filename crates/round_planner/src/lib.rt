//! Ordered plans: rounds of one change each, found by a search for changes that are safe.
#![tactic(auto)]

mod failing;
pub mod laws;
mod left;
mod prefixes;
mod searching;

ghost use Rattle.std.specs.Prelude.{◌≡◌, [], length, IfOk};
ghost use Rattle.flow_rules.specs.Tables.{rules_of_all};
ghost use Rattle.path_walk.specs.UserConfigs.{IsUserConfig};
ghost use Rattle.demands.specs.Good.{HasGoodPaths};
ghost use Rattle.update_model.specs.Remaining.{remaining_changes};
ghost use Rattle.certificates.specs.Certified.{IsCertified, classes_for};
ghost use Rattle.certificates.specs.Laws.{task_of};
ghost use Rattle.certificates.specs.Trees.{IsTreeUpdate};
ghost use Rattle.certificates.specs.Valid.{IsValidPlan};
ghost use Rattle.table_difference.specs.SameClasses.{HasSameClasses, classes_before};
ghost use Rattle.table_difference.specs.Tried.{AreTried};
ghost use Rattle.table_difference.specs.Targets.{target_between};
ghost use Rattle.round_planner.specs.Ends.{IsSearched, OfPlan, OfStuck, IsNotStuck};

use crate::searching::answer_to;
use certificates::Plan;
use class_watch::all_classes;
use demands::Duties;
use dest_classes::ClassMap;
use flow_rules::Config;
use net_base::Memory;
pub use prefixes::update_prefixes;
use round_judge::Goal;
use std::alloc::Global;
use table_difference::classes::rounds_make_no_classes;
use topology::Net;
use update_model::Rounds;

/// An ordered plan, or the rounds after which no remaining change qualifies.
#[derive(Drop)]
pub enum Ordered {
    Rounds(Plan),
    Stuck(Rounds),
}

/// Searches for an ordered plan: again and again it takes the first of the remaining changes that, as a round of its own,
/// is clear in every mixture, within capacity, and keeps every class safe by some evidence. It ends ordered where no change
/// remains, and stuck where none of them qualifies. After Mahajan and Wattenhofer (2013).
///
/// A change that failed is tried again only after one that touches what its failure rests on: the table of its switch, or a
/// class at a switch that the class's walks came to. Each try looks once at each atom of addresses and at each class whose
/// address the change's prefix holds. It takes one walk for each class that the change covers, by its address and VLAN, at a
/// switch that the last walk of the class came to, up to the first class that it doesn't keep safe. Each change that is made
/// takes a look at all that remain. As long as no change is
/// made, a try that finds none such takes one walk for each other class, too. A walk is that of a packet through the mixtures
/// of the round. It holds some 100 bytes for each change that remains, of which there are at most 4096, and 40 for each class.
pub fn order(
    alloc: Global,
    net: &Net,
    old: &Config,
    new: &Config,
    duties: &Duties,
    classes: &ClassMap,
) -> Result<Ordered, Memory>
    requires old { IsUserConfig net.now (rules_of_all old.now) }
    requires new { IsUserConfig net.now (rules_of_all new.now) }
    requires duties { duties.now.classes ≡ classes.now }
    requires classes { classes.now ≡ classes_before net.now (rules_of_all old.now)
        (rules_of_all new.now) duties.now.demands }
    requires old_good { HasGoodPaths net.now (rules_of_all old.now) duties.now.demands classes.now }
    requires new_good { HasGoodPaths net.now (rules_of_all new.now) duties.now.demands classes.now }
    ensures searched { IfOk result (IsSearched
        (target_between net.now (rules_of_all old.now) (rules_of_all new.now) duties.now.demands)
        (rules_of_all old.now)) }
    ensures valid { IfOk result (OfPlan (IsValidPlan net.now)) }
    ensures certified { IfOk result (OfPlan (λ p. IsCertified
        (task_of net.now old.now new.now duties.now.demands p) p.evidence)) }
    ensures classes { IfOk result (OfPlan (λ p. HasSameClasses
        (classes_for (task_of net.now old.now new.now duties.now.demands p)) classes.now)) }

    // One round for each change that remained at first.
    ensures count { IfOk result (OfPlan (λ p.
        length p.rounds ≡ length
        (remaining_changes (rules_of_all old.now) (rules_of_all new.now)))) }
    ensures tried { IfOk result (OfStuck (AreTried net.now)) }

    // The search of an update of destination trees isn't stuck.
    ensures tree { IsTreeUpdate (record {
      update = record {
        net = net.now;
        old = rules_of_all old.now;
        new = rules_of_all new.now;
        demands = duties.now.demands;
      };
      rounds = [];
    })
        → IfOk result IsNotStuck }
{
    let list = all_classes(alloc, classes)?;
    let goal = Goal {
        net,
        new,
        duties,
        classes,
        list,
    };
    net.keeps_rules();
    rounds_make_no_classes(net, old, new);
    answer_to(alloc, &goal, old)
}
